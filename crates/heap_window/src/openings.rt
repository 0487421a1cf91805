//! The heaps of the last openings, oldest first, and the spare ones.

ghost use Rattle.std.specs.Prelude.{◌≡◌, ◌+◌, ◌<◌, ◌++◌, ℕ, true, length, map, IfSome, All, Contains, vec_len};
ghost use Rattle.corr_model.specs.Windows.{is_within};
ghost use Rattle.corr_model.specs.WindowSteps.{first_unfinished};
ghost use Rattle.heap_assembly.specs.LiveStates.{live_of};
ghost use Rattle.circular_buffer.specs.Buffer.{buffer};
ghost use Rattle.heap_window.specs.Steps.{heap_place, HasCounter, Joins, Opens, with_a_place};

use crate::steps::{Answer, Step, take_in};
use circular_buffer::HeapCircularBuffer;
use heap_assembly::Live;
use spead_wire::Packet;

/// The place of the heap with this counter.
pub(crate) fn find(live: &HeapCircularBuffer<Live>, counter: u64) -> Option<usize>
    ensures value { result ≡ heap_place counter live.now.items }
    ensures within { IfSome result (λ place. place < length live.now.items) }
    ensures counter { IfSome result
        (λ place. HasCounter live.now.items place counter) }
{
    live.iter().position(|heap| heap.counter() == counter)
}

/// Takes the packet into the heap at this place.
pub(crate) fn join(live: &mut HeapCircularBuffer<Live>, place: usize, packet: &Packet<'_>) -> Answer
    requires place { place < length live.old.items }
    requires counter { HasCounter live.old.items place packet.now.counter }
    requires within { All (λ e. is_within e.limit packet.now ≡ true) live.old.items }
    ensures joins { Joins live.old.items place packet.now live.new.items result }
    ensures capacity { live.new.capacity ≡ live.old.capacity }
    ensures limits { (limit : ℕ) → All (λ e. e.limit ≡ limit) live.old.items
        → All (λ e. e.limit ≡ limit) live.new.items }
{
    let heap = live.get_mut(place).unwrap();
    take_in(heap, place, packet)
}

/// Opens a heap for the packet. For that the first heap leaves a full window, and else a spare one
/// is taken.
pub(crate) fn open(
    live: &mut HeapCircularBuffer<Live>,
    spare: &mut Vec<Live>,
    packet: &Packet<'_>,
) -> Step
    requires room { length live.old.items + vec_len spare.old ≡ live.old.capacity }
    requires some { 0 < live.old.capacity }
    requires within { All (λ e. is_within e.limit packet.now ≡ true) live.old.items }
    requires spares { All (λ e. is_within e.limit packet.now ≡ true) spare.old.items }
    ensures opens { Opens live.old.capacity live.old.items packet.now live.new.items result }
    ensures capacity { live.new.capacity ≡ live.old.capacity }
    ensures room { length live.new.items + vec_len spare.new ≡ live.new.capacity }
    ensures limits { (limit : ℕ) → All (λ e. e.limit ≡ limit) live.old.items
        → All (λ e. e.limit ≡ limit) spare.old.items
        → All (λ e. e.limit ≡ limit) live.new.items }
    ensures spares { (limit : ℕ) → All (λ e. e.limit ≡ limit) spare.old.items
        → All (λ e. e.limit ≡ limit) spare.new.items }
{
    let evicted = leaving(live);
    let mut heap = free_heap(live, spare);
    heap.start(packet.counter());
    let answer = take_in(&mut heap, live.len(), packet);
    live.push_back(heap);
    Step {
        opened: true,
        evicted,
        answer,
    }
}

// The counter of the heap that leaves at the next opening before it is whole.
fn leaving(live: &HeapCircularBuffer<Live>) -> Option<u64>
    ensures { result ≡ first_unfinished live.now.capacity (map live_of live.now.items) }
{
    if !live.is_full() {
        return None;
    }
    match live.front() {
        Some(first) if !first.is_whole() => Some(first.counter()),
        _ => None,
    }
}

// A heap to be opened: the first one of a full window, or else a spare one.
fn free_heap(live: &mut HeapCircularBuffer<Live>, spare: &mut Vec<Live>) -> Live
    requires room { length live.old.items + vec_len spare.old ≡ live.old.capacity }
    requires some { 0 < live.old.capacity }
    ensures live { live.new ≡ buffer (with_a_place live.old) live.old.capacity }
    ensures room { length live.new.items + vec_len spare.new + 1 ≡ live.new.capacity }
    ensures from { Contains (live.old.items ++ spare.old.items) result }
    ensures spares { (limit : ℕ) → All (λ e. e.limit ≡ limit) spare.old.items
        → All (λ e. e.limit ≡ limit) spare.new.items }
{
    if live.is_full() {
        live.pop_front().unwrap()
    } else {
        spare.pop().unwrap()
    }
}
