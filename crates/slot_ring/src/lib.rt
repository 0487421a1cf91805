//! The bounded ring of slots in which the closed columns of all antennas meet, accumulation by
//! accumulation, and from which their values are sent in order.
#![tactic(auto)]

mod held;
mod outgoing;
mod ring;
mod slot;
mod spares;
mod work;

pub use held::{Gave, Held, Kind, Put, Stored, Took};
pub use outgoing::Outgoing;
pub use ring::Ring;
pub use slot::Slot;
pub use work::{Stage, Work};

#[cfg(test)]
mod tests;
