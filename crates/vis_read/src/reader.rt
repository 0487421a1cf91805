//! The reader of an output stream.

ghost use Rattle.std.specs.Prelude.{◌≡◌, ◌<◌, ◌^◌, ◌++◌, ◌∷◌, [], ◌&&◌, true, false, ⊤, IsTrue, ℕ, List, IfOk, Ok};
ghost use Rattle.corr_model.specs.Packets.{Parts, packet_in};
ghost use Rattle.corr_model.specs.Windows.{is_within};
ghost use Rattle.std.specs.Borrow.{sem, follows_so};
ghost use mathlib.Core.Option.{none};
ghost use Rattle.vis_read.specs.Readings.{broken_row, stop_row};

use crate::adding::add;
use crate::cause::ReadCause;
use crate::judging::judge;
use crate::seen::Seen;
use crate::step::{Shown, Step};
use crate::turn::Turn;
use crate::view::VisView;
use heap_assembly::Live;
use spead_wire::{Packet, decode};
use std::alloc::{AllocError, Global};
use std::marker::Model;

/// Reads an output stream, one datagram after another. It takes memory once, when it is made.
///
/// Heaps come one after another, and the packets of one heap in any order: first the descriptor heap,
/// which says how many channels and baselines there are, then visibility heaps with the counters from
/// 2 on, at last the stop heap.
#[derive(Drop)]
pub struct Reader {
    turn: Turn,
    begun: bool,
    live: Live,
}

impl Model for Reader {
    ghost use Rattle.std.specs.Prelude.{◌≡◌, true, false};
    ghost use Rattle.vis_read.specs.Standing.{ReaderState, HasFew};

    ghost Value = { ReaderState };

    ghost view = { λ s. record { turn = s.turn; begun = s.begun; live = s.live } };

    ghost invariant = { λ s. (s.begun ≡ true → s.live.whole ≡ false) × HasFew s.turn };
}

impl Reader {
    ghost use Rattle.heap_assembly.specs.LiveStates.{live_of};
    ghost use Rattle.vis_read.specs.Readings.{Reading, next_read, reading, are_long, result_err, end_cause};
    ghost use Rattle.vis_read.specs.Standing.{AreFew, Knows, StandsFor, Begun, Enters, Accepts, Keeps};
    ghost use Rattle.vis_read.specs.Steps.{Follows, CanShow, ShowsFew, bytes_at, view_in};
    ghost use Rattle.vis_read.specs.Views.{view_of, Feeds};
    ghost use Rattle.heap_assembly.specs.LiveStates.{lent_of};
    ghost use Rattle.vis_read.specs.contracts.reader.Reader.{the_row};

    /// A reader of heaps with at most `limit` bytes, before any datagram. `AllocError` where there
    /// is no memory for such a heap.
    pub fn new(alloc: Global, limit: u32) -> Result<Reader, AllocError>
        ensures limit { IfOk result (λ r. r.live.limit ≡ limit) }
        ensures stands { IfOk result (λ r. StandsFor r []) }
    {
        Ok(Reader {
            turn: Turn::First,
            begun: false,
            live: Live::new(alloc, limit)?,
        })
    }

    // Goes to the heap with this counter: the one that is begun, or a new one where none is.
    fn enter(&mut self, counter: u64) -> Result<(), ReadCause>
        ensures enters { (ps : List Parts) → Begun self.old.begun self.old.live ps
            → Enters ps counter self.new.live result }
        ensures ready { IfOk result (λ _. self.new.live.whole ≡ false) }
        ensures counter { IfOk result (λ _. self.new.live.counter ≡ counter) }
        ensures limit { self.new.live.limit ≡ self.old.live.limit }
        ensures turn { self.new.turn ≡ self.old.turn }
    {
        if !self.begun {
            self.live.start(counter);
            return Ok(());
        }
        let begun = self.live.counter();
        if begun != counter {
            return Err(ReadCause::Unfinished(begun));
        }
        Ok(())
    }

    // Takes the packet to its heap. Whether the heap is whole by it.
    fn accept(&mut self, packet: &Packet<'_>) -> Result<bool, ReadCause>
        ensures accepts { (ps : List Parts) → Begun self.old.begun self.old.live ps
            → Accepts self.old.live.limit ps packet.now self.new.live result }
        ensures part { result ≡ Ok false → self.new.begun ≡ true }
        ensures whole { result ≡ Ok true → self.new.begun ≡ false }
        ensures is_whole { result ≡ Ok true → self.new.live.whole ≡ true }
        ensures small { result ≡ Ok true → self.new.live.counter < 2 ^ 48 }
        ensures counter { result ≡ Ok true → self.new.live.counter ≡ packet.now.counter }
        ensures limit { self.new.live.limit ≡ self.old.live.limit }
        ensures turn { self.new.turn ≡ self.old.turn }
    {
        self.enter(packet.counter())?;
        self.begun = false;
        let added = add(&mut self.live, packet);
        match added {
            Ok(whole) => {
                self.begun = !whole;
                Ok(whole)
            }
            Err(cause) => Err(cause),
        }
    }

    // Keeps the packet that the datagram is. Whether its heap is whole by it.
    fn keep(&mut self, bytes: &[u8]) -> Result<bool, ReadCause>
        ensures keeps { (r : Reading) → Knows self.old r
            → Keeps self.old.live.limit r bytes.now self.new.live result }
        ensures part { result ≡ Ok false → self.new.begun ≡ true }
        ensures whole { result ≡ Ok true → self.new.begun ≡ false }
        ensures is_whole { result ≡ Ok true → self.new.live.whole ≡ true }
        ensures small { result ≡ Ok true → self.new.live.counter < 2 ^ 48 }
        ensures limit { self.new.live.limit ≡ self.old.live.limit }
        ensures turn { self.new.turn ≡ self.old.turn }
    {
        if let Some(cause) = broken(self.turn) {
            return Err(cause);
        }
        let packet = match decode(bytes) {
            Ok(packet) => packet,
            Err(refusal) => return Err(ReadCause::Packet(refusal)),
        };
        if let Some(cause) = stopped(self.turn) {
            return Err(cause);
        }
        self.accept(&packet)
    }

    // Takes the datagram, with an answer that borrows nothing.
    fn step(&mut self, bytes: &[u8]) -> Step
        ensures follows { (r : Reading) → Knows self.old r
            → Follows self.new (next_read self.old.live.limit r bytes.now) result }
        ensures can_show { CanShow self.new.live result }
        ensures few { ShowsFew result }
        ensures limit { self.new.live.limit ≡ self.old.live.limit }
    {
        match self.keep(bytes) {
            Ok(true) => {
                let judged = judge(self.turn, &self.live.whole());
                self.turn = judged.turn;
                judged.step
            }
            Ok(false) => Step::Nothing,
            Err(cause) => {
                self.turn = Turn::Broken(cause);
                self.begun = false;
                Step::Refused(cause)
            }
        }
    }

    // The visibility heap that a step shows.
    fn view(&self, shown: Shown) -> VisView<'_>
        requires few { AreFew shown.sizes }
        requires long { IsTrue (self.now.live.whole
            && are_long shown.sizes (bytes_at (lent_of self.now.live) 0x1800)
            (bytes_at (lent_of self.now.live) 0x1801)) }
        ensures { view_of result ≡ view_in shown (lent_of self.now.live) }
    {
        let heap = self.live.whole();
        VisView {
            number: shown.number,
            timestamp: shown.timestamp,
            sizes: shown.sizes,
            values: heap.addressed(0x1800).unwrap_or(&[]),
            missing: heap.addressed(0x1801).unwrap_or(&[]),
        }
    }

    /// Takes the next datagram of the stream.
    ///
    /// It is refused for the first of these causes that applies: it is no packet; the stop heap was
    /// whole before; another heap is begun; its heap does not keep it, or it is past the limit; its
    /// heap is whole, and has a descriptor that is refused, or is not of the form that its turn asks.
    /// After a refusal every datagram is refused for the same cause.
    pub fn feed(&mut self, bytes: &[u8]) -> Seen<'_>
        ensures* { sem 𝓛 (follows_so the_row the_row self.entry.ghost_name none (λ _ _. ⊤)
            (λ now. Feeds self.old bytes.now now result)) }
    {
        match self.step(bytes) {
            Step::Nothing => Seen::Nothing,
            Step::Head(sizes) => Seen::Head(sizes.channels, sizes.baselines),
            Step::Heap(shown) => Seen::Heap(self.view(shown)),
            Step::Stop => Seen::Stop,
            Step::Refused(cause) => Seen::Refused(cause),
        }
    }

    /// Whether the datagrams were a whole output: Ok where the stop heap was whole and none was
    /// refused, else the cause of the refusal, else `NoStop`.
    pub fn finish(&self) -> Result<(), ReadCause>
        ensures { (l : List (List ℕ)) → StandsFor self.now l
            → result_err result ≡ end_cause (reading self.now.live.limit l).turn }
    {
        match self.turn {
            Turn::Over => Ok(()),
            Turn::Broken(cause) => Err(cause),
            Turn::First | Turn::Later(..) => Err(ReadCause::NoStop),
        }
    }
}

// What was refused before.
fn broken(turn: Turn) -> Option<ReadCause>
    ensures { result ≡ broken_row turn }
{
    match turn {
        Turn::Broken(cause) => Some(cause),
        Turn::First | Turn::Later(..) | Turn::Over => None,
    }
}

// Whether the stop heap was whole before.
fn stopped(turn: Turn) -> Option<ReadCause>
    ensures { result ≡ stop_row turn }
{
    match turn {
        Turn::Over => Some(ReadCause::AfterStop),
        Turn::First | Turn::Later(..) | Turn::Broken(_) => None,
    }
}
