//! The core of the correlator: the machine of events over real feeds, ring, works and emitter, one
//! event at a time.
#![tactic(auto)]

mod emitting;
mod event;
mod laws;
mod parts;
mod prepared;
mod stepping;
mod streams;
#[cfg(test)]
mod tests;
mod whole;
mod works;

pub use emitting::emit_with;
pub use event::{Event, Stepped};
pub use laws::plain_heaps_are_the_output;
pub use prepared::{NewFeeds, Prepared, PreparedOf, prepare, prepare_with};
pub use whole::{Core, CoreOf};
