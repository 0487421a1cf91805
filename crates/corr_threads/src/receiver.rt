//! The actor that takes the byte strings of one stream, and puts its columns into the ring.

ghost use Rattle.std.specs.Prelude.{◌≡◌, ℕ, [], true, false, None, is_some, IfOk};
ghost use Rattle.corr_model.specs.Plans.{Fits};
ghost use Rattle.stream_feed.specs.Feeding.{StandsFor, IsOfList, due_of};
ghost use Rattle.corr_threads.specs.Receivers.{ReceiverView, ReceiverTurn, SourceTold, FaultCause, HasReadAll};
ghost use Rattle.corr_threads.specs.Receivers.{FillsHand, PutTurn, TakeTurn};

use crate::turn::Turn;
use corr_model::{Observation, Plan};
use corr_site::{Actor, ActorKind, Gate, Next, NoMemory, PacketSource};
use slot_column::Closed;
use slot_ring::{Held, Put};
use slot_share::Share;
use std::alloc::Global;
use std::marker::Model;
use std::sync::Wait;
use stream_feed::{Ending, Feed, StreamReport};
use vis_back::Backend;

/// What the thread of one stream has of its own.
#[derive(Drop)]
pub struct Receiver<O: Observation> {
    plan: Plan,
    antenna: u32,
    feed: Feed<O>,
    hand: Closed<O>,
    line: Box<[u8; 65536]>,
    placed: u64,
    held: Option<Held>,
}

impl<O: Observation> Model for Receiver<O> {
    ghost use Rattle.corr_threads.specs.Receivers.{ReceiverView, IsReceiver};

    ghost Value = { ReceiverView };

    ghost view = { λ s. record {
      plan = s.plan;
      antenna = s.antenna;
      feed = s.feed;
      hand = s.hand;
      placed = s.placed;
      held = s.held;
    } };

    ghost invariant = { λ s. IsReceiver O.names O.list (record {
      plan = s.plan;
      antenna = s.antenna;
      feed = s.feed;
      hand = s.hand;
      placed = s.placed;
      held = s.held;
    }) };
}

impl<O: Observation> Receiver<O> {
    /// The receiver of a feed that took nothing yet. It takes the memory of a byte string, and
    /// `NoMemory` comes only where that is refused.
    #[tactic(auto, using(crate::proofs::ReceiverLemmas::kept_new))]
    pub fn new(
        alloc: Global,
        plan: &Plan,
        antenna: u32,
        feed: Feed<O>,
        hand: Closed<O>,
    ) -> Result<Receiver<O>, NoMemory>
        requires fits { Fits plan.now }
        requires stands { StandsFor feed [] }
        requires plan { feed.columns.plan ≡ plan.now }
        requires antenna { feed.columns.antenna ≡ antenna }
        requires given { feed.columns.given ≡ 0 }
        requires ended { feed.report.ended ≡ None }
        requires spare { hand.is_closed ≡ false }
        requires hand_plan { hand.column.plan ≡ plan.now }
        ensures { IfOk result (λ r. r ≡ record {
          plan = plan.now;
          antenna = antenna;
          feed = feed;
          hand = hand;
          placed = 0;
          held = None;
        }) }
    {
        Ok(Receiver {
            plan: *plan,
            antenna,
            feed,
            hand,
            line: Box::new(alloc, [0; 65536])?,
            placed: 0,
            held: None,
        })
    }

    /// One turn: the column that is due or in the hand is put, else one byte string is taken, or the
    /// end. It passes the gate first, and waits for nothing else but the ring's lock and the source.
    pub fn turn<B: Backend, S: PacketSource<O>, G: Gate, R: Wait>(
        &mut self,
        rt: &R,
        share: &Share<O, B>,
        source: &mut S,
        gate: &G,
    ) -> Turn
        requires begun { S.begun source.old ≡ true }
        requires plan { O.names ≡ true → self.old.plan ≡ O.plan }
        requires told { O.names ≡ true → SourceTold S.belongs S.given source.old self.old }
        ensures turn { ReceiverTurn self.old result self.new }
        ensures begun { S.begun source.new ≡ true }
        ensures at { S.at source.new ≡ S.at source.old }
        ensures gives { S.gives source.new ≡ S.gives source.old }
        ensures belongs { (a : ℕ) → S.belongs source.old a → S.belongs source.new a }
        ensures told { O.names ≡ true → SourceTold S.belongs S.given source.new self.new }
        ensures cause { FaultCause self.old.feed.report.ended self.new.feed.report.ended
            (S.faults source.old) (S.faults source.new) }
    {
        gate.pass(Actor {
            kind: ActorKind::Receive,
            number: self.antenna,
        });
        if !self.hand.is_spare() {
            return self.put(rt, share);
        }
        if self.feed.due().is_some() {
            self.fill();
            return self.put(rt, share);
        }
        if self.feed.ended().is_some() {
            return Turn::Done;
        }
        self.take(source);
        Turn::Moved
    }

    // Takes the column that is due into the hand.
    fn fill(&mut self)
        requires spare { self.old.hand.is_closed ≡ false }
        requires due { is_some (due_of self.old.feed) ≡ true }
        requires plan { O.names ≡ true → self.old.plan ≡ O.plan }
        ensures { FillsHand self.old self.new }
    {
        self.feed.give(&mut self.hand);
    }

    // Puts the column in the hand.
    #[tactic(auto, using(crate::proofs::ReceiverLemmas::refused_column, crate::proofs::ReceiverLemmas::kept_placed))]
    fn put<B: Backend, R: Wait>(&mut self, rt: &R, share: &Share<O, B>) -> Turn
        requires { self.old.hand.is_closed ≡ true }
        ensures { PutTurn self.old result self.new }
    {
        match share.put(rt, &mut self.hand) {
            Put::Placed => {
                self.placed += 1;
                Turn::Moved
            }
            Put::Waits(held) => {
                self.held = Some(held);
                Turn::Waits
            }
        }
    }

    // Takes one byte string, or the end.
    fn take<S: PacketSource<O>>(&mut self, source: &mut S)
        requires open { self.old.feed.report.ended ≡ None }
        requires none_due { due_of self.old.feed ≡ None }
        requires begun { S.begun source.old ≡ true }
        requires told { O.names ≡ true → SourceTold S.belongs S.given source.old self.old }
        ensures turn { TakeTurn self.old self.new }
        ensures begun { S.begun source.new ≡ true }
        ensures at { S.at source.new ≡ S.at source.old }
        ensures gives { S.gives source.new ≡ S.gives source.old }
        ensures belongs { (a : ℕ) → S.belongs source.old a → S.belongs source.new a }
        ensures told { O.names ≡ true → SourceTold S.belongs S.given source.new self.new }
        ensures cause { FaultCause self.old.feed.report.ended self.new.feed.report.ended
            (S.faults source.old) (S.faults source.new) }
    {
        match source.next(&mut self.line) {
            Next::Packet(len) => {
                let (bytes, _) = self.line.split_at(len);
                self.feed.packet(bytes);
            }
            Next::End => self.feed.end(Ending::End),
            Next::Failed => self.feed.end(Ending::Fault),
        }
    }

    /// How the stream ended, if it has. Then, where lists are named, all strings that count were
    /// taken.
    pub fn ended(&self) -> Option<Ending>
        ensures value { result ≡ self.now.feed.report.ended }
        ensures whole { O.names ≡ true → is_some result ≡ true
            → HasReadAll (O.list self.now.antenna) self.now }
    {
        self.feed.ended()
    }

    /// The report on the stream so far. Where lists are named, it is that of the strings taken.
    pub fn report(&self) -> StreamReport
        ensures value { result ≡ self.now.feed.report }
        ensures told { O.names ≡ true → IsOfList O.list self.now.feed }
    {
        self.feed.report()
    }

    /// How many of its columns were placed.
    pub fn placed(&self) -> u64
        ensures { result ≡ self.now.placed }
    {
        self.placed
    }

    /// What the slot showed that refused last.
    pub fn held(&self) -> Option<Held>
        ensures { result ≡ self.now.held }
    {
        self.held
    }
}
