//! The settings of a run: read from a TOML text, or given by the numbers of a command line.
#![tactic(auto)]

mod key;
mod places;
mod plain;
mod plan;
mod reading;
mod refusal;
mod rows;
mod settings;
mod unknown;

pub use key::Key;
pub use plain::{PlainNumbers, antenna_refusal, plain_settings};
pub use refusal::SetRefusal;
pub use settings::{Settings, read};

#[cfg(test)]
mod tests;
