//! The serial run: the core of the correlator, one event at a time, on one thread: the streams of all
//! antennas, one accumulation after another, in memory that is taken before the first byte string.
#![tactic(auto)]

mod hearing;
mod outcome;
mod prepared;
mod running;
mod serial;
#[cfg(test)]
mod tests;
mod turns;

pub use outcome::{Outcome, Ran, Reports};
pub use prepared::{Prepared, prepare, prepare_with};
pub use serial::{correlate_serial, first_fault, ran_as, serial_with};
