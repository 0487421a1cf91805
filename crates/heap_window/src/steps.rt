//! What a packet is to its heap, in numbers that borrow nothing.

ghost use Rattle.std.specs.Prelude.{◌≡◌, true};
ghost use Rattle.corr_model.specs.Windows.{is_within};
ghost use Rattle.heap_window.specs.Steps.{TakesIn};

use corr_model::DropCause;
use heap_assembly::{Added, Live};
use spead_wire::Packet;

/// What a packet is to its heap.
#[derive(Clone, Copy)]
pub(crate) enum Answer {
    /// It is kept, and the heap is not whole yet.
    Part,
    /// It is kept, and the heap is whole by it: the heap's place.
    Whole(usize),
    /// The heap was whole before.
    Stale,
    /// It is not kept.
    Dropped(DropCause),
}

/// What becomes of a packet: whether it opened a heap, which heap left for that before it was
/// whole, and what the packet is to its heap.
#[derive(Clone, Copy)]
pub(crate) struct Step {
    pub(crate) opened: bool,
    pub(crate) evicted: Option<u64>,
    pub(crate) answer: Answer,
}

/// Takes the packet into its heap, which has or will have this place.
pub(crate) fn take_in(heap: &mut Live, place: usize, packet: &Packet<'_>) -> Answer
    requires counter { packet.now.counter ≡ heap.old.counter }
    requires within { is_within heap.old.limit packet.now ≡ true }
    ensures { TakesIn heap.old place packet.now heap.new result }
{
    if heap.is_whole() {
        return Answer::Stale;
    }
    match heap.add(packet) {
        Added::Kept => Answer::Part,
        Added::Whole => Answer::Whole(place),
        Added::Dropped(cause) => Answer::Dropped(cause),
    }
}
