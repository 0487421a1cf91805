//! The cells of one antenna in one accumulation, and what a closed column is known to be.
#![tactic(auto)]

mod cell_row;
mod closed;
mod column;
mod samples;

pub use closed::Closed;
pub use column::{Column, Placed};

#[cfg(test)]
mod tests;
