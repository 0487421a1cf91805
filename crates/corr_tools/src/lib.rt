//! The tools beside the correlator: datagrams sent on, datagrams printed, and an output read back
//! and printed, over any sources, sinks and texts.
#![tactic(auto)]

mod decoding;
mod inspecting;
mod lines;
mod relaying;
mod views;

pub use decoding::{Decoded, Ended, decode};
pub use inspecting::{Inspected, inspect};
pub use relaying::{Relayed, relay};

#[cfg(test)]
mod tests;
