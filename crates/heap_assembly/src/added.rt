//! What becomes of a packet in its heap.

use corr_model::DropCause;

/// What a packet is to a heap that is not whole yet.
#[derive(Clone, Copy, Debug, PartialEq, Eq)]
pub enum Added {
    /// It is kept, and the heap is not whole yet.
    Kept,
    /// It is kept, and the heap is whole by it.
    Whole,
    /// It is not kept, and the heap is as before: the first cause that applies.
    Dropped(DropCause),
}
