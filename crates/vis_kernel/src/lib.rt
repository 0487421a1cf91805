//! The kernel: products of the samples of two columns, summed over spectra and timestamps.
#![tactic(auto)]

mod adding;
mod kernel;
mod lanes;
mod products;

pub use kernel::multiply;

#[cfg(test)]
mod tests;
