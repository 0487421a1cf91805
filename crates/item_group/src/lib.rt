//! The descriptor table of a stream, and what a whole heap says by it.
#![tactic(auto)]

mod applied;
mod ids;
mod look;
mod table;

pub use applied::Applied;
pub use look::{Look, Sight};
pub use table::Table;

#[cfg(test)]
mod packets;
#[cfg(test)]
mod tests;
