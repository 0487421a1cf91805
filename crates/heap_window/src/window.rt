//! The window of a stream's last openings.

ghost use Rattle.std.specs.Prelude.{◌≡◌, ◌≤◌, [], IfOk, ⊤};
ghost use Rattle.std.specs.Borrow.{sem, follows_so};
ghost use mathlib.Core.Option.{none};
ghost use Rattle.corr_model.specs.Windows.{is_within};

use crate::openings::{find, join, open};
use crate::steps::{Answer, Step};
use crate::take::{Take, Taken};
use circular_buffer::HeapCircularBuffer;
use corr_model::DropCause;
use heap_assembly::{Heap, Live, is_within};
use spead_wire::Packet;
use std::alloc::{AllocError, Global};
use std::marker::Model;

/// The heaps of a stream's last openings, oldest first, whole or not. All its memory is taken when
/// it is made.
#[derive(Drop)]
pub struct Window {
    window: u32,
    limit: u32,
    live: HeapCircularBuffer<Live>,
    spare: Vec<Live>,
}

impl Model for Window {
    ghost use Rattle.heap_window.specs.WindowStates.{WindowState};

    ghost Value = { WindowState };

    ghost use Rattle.heap_window.specs.Inside.{state_of, IsSoundInside};

    ghost view = { state_of };

    ghost invariant = { IsSoundInside };
}

impl Window {
    ghost use Rattle.heap_assembly.specs.Heaps.{whole_of};
    ghost use Rattle.heap_window.specs.WindowStates.{StandsFor};
    ghost use Rattle.heap_window.specs.Takes.{Takes};
    ghost use Rattle.heap_window.specs.Steps.{heap_place, Steps, IsWholeAt, IsLent};
    ghost use Rattle.heap_window.specs.contracts.window.Window.{the_row};

    /// A window of the last `window` openings, none so far, of heaps with at most `limit` bytes.
    /// `AllocError` where there is no memory for so many heaps.
    pub fn new(alloc: Global, window: u32, limit: u32) -> Result<Window, AllocError>
        requires least { 1 ≤ window }
        requires most { window ≤ 64 }
        ensures window { IfOk result (λ w. w.window ≡ window) }
        ensures limit { IfOk result (λ w. w.limit ≡ limit) }
        ensures stands { IfOk result (λ w. StandsFor w []) }
    {
        let live = HeapCircularBuffer::with_capacity(alloc, window as usize)?;
        let mut spare = Vec::with_capacity(alloc, window as usize)?;
        for _ in 0..window {
            spare.push(Live::new(alloc, limit)?)?;
        }
        Ok(Window {
            window,
            limit,
            live,
            spare,
        })
    }

    /// Takes one packet more of the stream to its heap.
    ///
    /// A packet past the heap limit, by the size that it says or by its end, is dropped before
    /// anything else, and changes nothing. Any other is of the heap with its counter among those of
    /// the last openings, or else opens a heap, for which the oldest leaves. A heap that is whole
    /// stays until it leaves, and what still comes of it is stale.
    pub fn take(&mut self, packet: &Packet<'_>) -> Take<'_>
        ensures* { sem 𝓛 (follows_so the_row the_row self.entry.ghost_name none (λ _ _. ⊤)
            (λ now. Takes self.old packet.now now result)) }
    {
        let step = self.step(packet);
        let what = match step.answer {
            Answer::Part => Taken::Part,
            Answer::Whole(place) => Taken::Whole(self.heap(place)),
            Answer::Stale => Taken::Stale,
            Answer::Dropped(cause) => Taken::Dropped(cause),
        };
        Take {
            opened: step.opened,
            evicted: step.evicted,
            what,
        }
    }

    // The change that `take` makes, with an answer that borrows nothing.
    fn step(&mut self, packet: &Packet<'_>) -> Step
        ensures { Steps (is_within self.old.limit packet.now)
            (heap_place packet.now.counter self.old.heaps) self.old packet.now self.new result }
    {
        if !is_within(self.limit, packet) {
            return Step {
                opened: false,
                evicted: None,
                answer: Answer::Dropped(DropCause::PastLimit),
            };
        }
        match find(&self.live, packet.counter()) {
            Some(place) => Step {
                opened: false,
                evicted: None,
                answer: join(&mut self.live, place, packet),
            },
            None => open(&mut self.live, &mut self.spare, packet),
        }
    }

    // The whole heap at this place.
    fn heap(&self, place: usize) -> Heap<'_>
        requires { IsWholeAt self.now.heaps place }
        ensures { IsLent self.now.heaps place (whole_of result) }
    {
        self.live.get(place).unwrap().whole()
    }
}
