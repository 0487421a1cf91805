//! The plain back end: the sums of every baseline of the antennas, in whole numbers.
#![tactic(auto)]

mod back;
mod cross;

pub use back::Cross;

#[cfg(test)]
mod tests;
