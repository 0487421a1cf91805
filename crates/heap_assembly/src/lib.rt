//! Heaps put together from their packets, and whole heaps read in place.
#![tactic(auto)]

mod added;
mod byte_map;
mod heap;
mod laws;
mod limit;
mod live;
mod pointer_set;

pub use added::Added;
pub use corr_model::{DropCause, Pointer};
pub use heap::Heap;
pub use laws::stale_members_change_nothing;
pub use limit::is_within;
pub use live::Live;

#[cfg(test)]
mod heap_tests;
#[cfg(test)]
mod live_tests;
