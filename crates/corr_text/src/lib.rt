//! A text read into a buffer, from any source of text.
#![tactic(auto)]

mod filling;

pub use filling::fill;

#[cfg(test)]
mod tests;
