//! A heap that is being put together from packets in any order.

ghost use Rattle.std.specs.Prelude.{◌≡◌, ◌+◌, ◌-◌, ◌≤◌, max, true, false, List, [], ◌∷◌, ◌++◌, length, take, drop, IfOk, IfSome, None};
ghost use Rattle.std.specs.Option.{option_or};
ghost use Rattle.corr_model.specs.Windows.{PlacedPacket, end_of, is_within};
ghost use Rattle.corr_model.specs.Assembly.{heap_of, adds_up, sizes_differ, is_past};
ghost use Rattle.corr_model.specs.LiveHeaps.{HeapStandsFor, kept_shown};
ghost use Rattle.corr_model.specs.PacketVerdicts.{member_outcome};

use crate::added::Added;
use crate::byte_map::{any_in, clear, mark, unmarked};
use crate::heap::Heap;
use crate::pointer_set::PointerSet;
use corr_model::DropCause;
use spead_wire::Packet;
use std::alloc::{AllocError, Global};
use std::marker::Model;

/// A heap that is being put together: the payload bytes of the packets that were kept, at their
/// places, and what these packets said. It takes memory once, when it is made.
#[derive(Drop)]
pub struct Live {
    counter: u64,
    limit: u32,
    size: Option<u64>,
    ending: usize,
    have: usize,
    words: Vec<u64>,
    bytes: Vec<u8>,
    pointers: PointerSet,
    whole: bool,
}

impl Model for Live {
    ghost use Rattle.heap_assembly.specs.LiveStates.{LiveState};

    ghost Value = { LiveState };

    ghost use Rattle.heap_assembly.specs.Inside.{state_of, IsSoundInside};

    ghost view = { state_of };

    ghost invariant = { IsSoundInside };
}

impl Live {
    ghost use Rattle.heap_assembly.specs.Heaps.{whole_of};
    ghost use Rattle.heap_assembly.specs.Marks.{Marks, any_marked, mark_at};
    ghost use Rattle.heap_assembly.specs.LiveStates.{LiveState, live_of, lent_of, outcome_by, is_whole_answer, Stays};
    ghost use Rattle.heap_assembly.specs.Steps.{early_cause, with_pointers, Keeps, Steps};

    /// A heap of at most `limit` bytes, which no packet has come to, with counter 0 until it is
    /// started. `AllocError` where there is no memory for the bytes and their map.
    pub fn new(alloc: Global, limit: u32) -> Result<Live, AllocError>
        ensures stands { IfOk result (λ live. HeapStandsFor (live_of live) []) }
        ensures counter { IfOk result (λ live. live.counter ≡ 0) }
        ensures limit { IfOk result (λ live. live.limit ≡ limit) }
        ensures not_whole { IfOk result (λ live. live.whole ≡ false) }
    {
        let words = unmarked(alloc, limit as usize)?;
        let bytes = zeros(alloc, limit as usize)?;
        let pointers = PointerSet::new(alloc)?;
        Ok(Live {
            counter: 0,
            limit,
            size: None,
            ending: 0,
            have: 0,
            words,
            bytes,
            pointers,
            whole: false,
        })
    }

    /// Forgets all packets, and is from now on the heap with this counter.
    pub fn start(&mut self, counter: u64)
        ensures stands { HeapStandsFor (live_of self.new) [] }
        ensures counter { self.new.counter ≡ counter }
        ensures limit { self.new.limit ≡ self.old.limit }
        ensures not_whole { self.new.whole ≡ false }
    {
        clear(&mut self.words, self.ending);
        self.pointers.clear();
        self.counter = counter;
        self.size = None;
        self.ending = 0;
        self.have = 0;
        self.whole = false;
    }

    /// The heap counter.
    pub fn counter(&self) -> u64
        ensures { result ≡ self.now.counter }
    {
        self.counter
    }

    /// The most bytes that the heap can have.
    pub fn limit(&self) -> u32
        ensures { result ≡ self.now.limit }
    {
        self.limit
    }

    /// Whether the heap is whole.
    pub fn is_whole(&self) -> bool
        ensures { result ≡ self.now.whole }
    {
        self.whole
    }

    /// Takes one packet more of the heap, and says what it is to it.
    ///
    /// A packet is dropped for the first cause that applies: it and a kept one say different sizes,
    /// an end is past a size, it shares a byte with a kept one, or there would be more than 64
    /// distinct pointers. Else it is kept. `is_within` tells whether it is within the limit.
    pub fn add(&mut self, packet: &Packet<'_>) -> Added
        requires not_whole { self.old.whole ≡ false }
        requires counter { packet.now.counter ≡ self.old.counter }
        requires within { is_within self.old.limit packet.now ≡ true }
        ensures stands { (ms : List PlacedPacket) (q : PlacedPacket) → q.packet ≡ packet.now
            → HeapStandsFor (live_of self.old) ms
            → HeapStandsFor (live_of self.new) (ms ++ q ∷ []) }
        ensures answer { (ms : List PlacedPacket) (q : PlacedPacket) → q.packet ≡ packet.now
            → HeapStandsFor (live_of self.old) ms
            → member_outcome q.packet.counter (ms ++ q ∷ [])
            ≡ outcome_by q.packet.counter (ms ++ q ∷ []) result }
        ensures dropped { Stays self.old self.new result }
        ensures whole { self.new.whole ≡ is_whole_answer result }
        ensures counter { self.new.counter ≡ self.old.counter }
        ensures limit { self.new.limit ≡ self.old.limit }
    {
        // The clauses on members follow from the step and from what always holds of the fields.
        let _ = &self.limit;
        self.step(packet)
    }

    /// The whole heap.
    pub fn whole(&self) -> Heap<'_>
        requires whole { self.now.whole ≡ true }
        ensures is { whole_of result ≡ lent_of self.now }
        ensures whole { (ms : List PlacedPacket) → HeapStandsFor (live_of self.now) ms
            → whole_of result ≡ heap_of self.now.counter (kept_shown ms) }
    {
        let (payload, _) = self.bytes.split_at(self.have);
        Heap::new(self.counter, payload, self.pointers.as_slice())
    }

    // What a packet more does, by the numbers of the heap itself.
    fn step(&mut self, packet: &Packet<'_>) -> Added
        requires not_whole { self.old.whole ≡ false }
        requires within { is_within self.old.limit packet.now ≡ true }
        ensures { Steps self.old packet.now self.new result }
    {
        if let Some(cause) = self.early_cause(packet) {
            return Added::Dropped(cause);
        }
        if !self.pointers.add(packet) {
            return Added::Dropped(DropCause::TooManyPointers);
        }
        self.keep(packet);
        if self.whole {
            Added::Whole
        } else {
            Added::Kept
        }
    }

    // The first cause by sizes and bytes for which the packet is dropped, if one applies.
    fn early_cause(&self, packet: &Packet<'_>) -> Option<DropCause>
        requires within { end_of packet.now ≤ self.now.limit }
        ensures { result ≡ early_cause self.now packet.now }
    {
        let end = packet.offset() + packet.payload().len() as u64;
        if differ(self.size, packet.size()) {
            return Some(DropCause::SizeDiffers);
        }
        if is_past(self.size, end) || is_past(packet.size(), self.ending as u64) {
            return Some(DropCause::PastSize);
        }
        if self.overlaps(packet.offset() as usize, end as usize) {
            return Some(DropCause::Overlap);
        }
        None
    }

    // Whether one of these bytes is there; none is from the greatest end on.
    fn overlaps(&self, from: usize, to: usize) -> bool
        requires within { to ≤ self.now.limit }
        ensures { result ≡ any_marked (mark_at self.now.words) from (to - from) }
    {
        if self.ending <= from {
            return false;
        }
        any_in(&self.words, from, to)
    }

    // Keeps a packet that has no such cause; its pointers are there.
    fn keep(&mut self, packet: &Packet<'_>)
        requires not_whole { self.old.whole ≡ false }
        requires within { end_of packet.now ≤ self.old.limit }
        requires early { early_cause self.old packet.now ≡ None }
        ensures keeps { Keeps self.old packet.now self.new }
        ensures pointers { self.new.pointers ≡ self.old.pointers }
    {
        let offset = packet.offset() as usize;
        let payload = packet.payload();
        let end = offset + payload.len();
        mark(&mut self.words, offset, end);
        put(&mut self.bytes, offset, payload);
        self.size = self.size.or(packet.size());
        self.have += payload.len();
        self.ending = self.ending.max(end);
        self.whole = is_said(self.size, self.have as u64);
    }
}

// So many bytes, all 0.
fn zeros(alloc: Global, count: usize) -> Result<Vec<u8>, AllocError>
    ensures { IfOk result (λ v. length v.items ≡ count) }
{
    Ok(vec![in alloc; 0; count]?)
}

// Puts the payload into the bytes, from a place on.
fn put(bytes: &mut [u8], at: usize, payload: &[u8])
    requires { at + length payload.now ≤ length bytes.old }
    ensures { bytes.new
        ≡ take at bytes.old ++ (payload.now ++ drop (at + length payload.now) bytes.old) }
{
    bytes[at..at + payload.len()].copy_from_slice(payload);
}

// Whether both say a size, and not the same.
fn differ(known: Option<u64>, said: Option<u64>) -> bool
    ensures { result ≡ sizes_differ known said }
{
    match (known, said) {
        (Some(known), Some(said)) => known != said,
        _ => false,
    }
}

// Whether a size is said, and the end is past it.
fn is_past(size: Option<u64>, end: u64) -> bool
    ensures { result ≡ is_past size end }
{
    size.is_some_and(|size| size < end)
}

// Whether a size is said, and it is this total.
fn is_said(size: Option<u64>, total: u64) -> bool
    ensures { result ≡ adds_up size total }
{
    size == Some(total)
}
