//! The words of the command line, and the command that they are.
#![tactic(auto)]

mod command;
mod flag;
mod numbers;
mod reading;
mod text;

pub use command::{Command, PlainWords, WordRefusal};
pub use flag::needs_threads;
pub use reading::{Numbers, plain_numbers, read};

#[cfg(test)]
mod tests;
