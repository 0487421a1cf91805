//! The ring under a lock: one call is one hold of it.
#![tactic(auto)]

mod bell;
mod share;

pub use share::Share;

#[cfg(test)]
mod tests;
