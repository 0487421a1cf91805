//! The rules by which a whole heap of a stream is judged: how far the stream has come, and what a
//! heap's timestamp and antenna are to that.
#![tactic(auto)]

mod grid;
mod judged;
mod judging;
mod marks;

pub use judged::Judged;
pub use judging::judge;
pub use marks::Marks;

#[cfg(test)]
mod tests;
