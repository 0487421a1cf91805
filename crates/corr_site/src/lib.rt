//! The outside of a run: sources and sinks of byte strings, texts, places, and objects in memory.
#![tactic(auto)]

mod answers;
mod gate;
mod memory;
mod packets;
mod place;
mod places;
mod text;
mod texts;

pub use answers::{Failed, Got, Next, NoMemory};
pub use gate::{Actor, ActorKind, Gate, NoGate};
pub use memory::{ListPrint, ListSink, ListSource, ListText};
pub use packets::{PacketSink, PacketSource};
pub use place::Place;
pub use places::Places;
pub use text::Text;
pub use texts::{TextSink, TextSource};

#[cfg(test)]
mod tests;
