//! A run in threads: one for each stream and each worker, and the sender beside them.
#![tactic(auto)]

mod jobs;
mod joins;
mod loops;
mod run;
mod seating;
mod shared;

pub use jobs::ByTurns;
pub use joins::{Job, Sending};
pub use loops::Context;
pub use run::{correlate_threads, threads_with};
pub use shared::{Shared, SharedOf, share, share_with};

#[cfg(test)]
mod tests;
