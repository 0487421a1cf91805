//! The answer on a packet.

use corr_model::DropCause;
use heap_assembly::Heap;

/// What a window answers on a packet.
#[derive(Drop)]
pub struct Take<'a> {
    /// Whether the packet opened a heap.
    pub opened: bool,
    /// The counter of the heap that left the window for it before it was whole.
    pub evicted: Option<u64>,
    /// What the packet is to its heap.
    pub what: Taken<'a>,
}

/// What a packet is to its heap.
#[derive(Drop)]
pub enum Taken<'a> {
    /// It is kept, and the heap is not whole yet.
    Part,
    /// It is kept, and the heap is whole by it: the heap, for as long as the window is not used.
    Whole(Heap<'a>),
    /// The heap was whole before.
    Stale,
    /// It is not kept: the first cause that applies. A packet past the heap limit is of no heap.
    Dropped(DropCause),
}
