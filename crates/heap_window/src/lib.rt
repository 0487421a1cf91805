//! The heaps of a stream's last openings: each packet goes to its heap, and the heap that becomes
//! whole by it is lent out.
#![tactic(auto)]

mod openings;
mod steps;
mod take;
mod window;

pub use corr_model::DropCause;
pub use heap_assembly::Heap;
pub use take::{Take, Taken};
pub use window::Window;

#[cfg(test)]
mod tests;
