//! One slot: the closed columns of one accumulation, and then the value that was made of them.

ghost use Rattle.std.specs.Prelude.{◌≡◌, ◌≢◌, ◌+◌, ◌^◌, ◌<◌, ◌≤◌, length, true, IfOk, MatchBool};
ghost use Rattle.corr_model.specs.Plans.{Fits};
ghost use Rattle.slot_column.specs.Columns.{Hand};
ghost use Rattle.slot_ring.specs.Slots.{View, WorkView, OutgoingView, held_of, standing, empty_slot};
ghost use Rattle.slot_ring.specs.Answers.{AcceptsPut, RefusesPut, PutGives, AcceptsTake, RefusesTake, TakeGives, AcceptsStore, RefusesStore, StoreGives, AcceptsSend, RefusesSend, SendGives};
ghost use Rattle.slot_ring.specs.Means.{AreClosed};

use crate::held::{Gave, Held, Kind, Put, Stored, Took};
use crate::outgoing::Outgoing;
use crate::spares::spare_columns;
use crate::work::{Stage, Work};
use corr_model::{Observation, Plan};
use slot_column::Closed;
use std::alloc::{AllocError, Global};
use std::marker::Model;
use std::mem;
use vis_back::Backend;
use vis_shape::Made;

/// One slot of the ring. A column that stands in it is closed and of its antenna and of the slot's
/// number; where the observation names its lists it is the lists' column. The value of one that is
/// done is then, where the back end shows it, the value of those columns.
#[derive(Drop)]
pub struct Slot<O: Observation, B: Backend> {
    plan: Plan,
    number: u64,
    kind: Kind,
    columns: Vec<Closed<O>>,
    out: B::Out,
}

impl<O: Observation, B: Backend> Model for Slot<O, B> {
    ghost use Rattle.slot_ring.specs.Slots.{View, IsSlot};

    ghost Value = { View };

    ghost view = { λ s. record {
      plan = s.plan;
      number = s.number;
      kind = s.kind;
      columns = s.columns.items;
      out = B.Out.shown s.out;
    } };

    ghost invariant = { λ s. IsSlot
        (record { names = O.names; plan = O.plan; list = O.list; shows = B.shows; fixed = B.fixed })
        (B.size s.plan)
        (record {
          plan = s.plan;
          number = s.number;
          kind = s.kind;
          columns = s.columns.items;
          out = B.Out.shown s.out;
        }) };
}

impl<O: Observation, B: Backend> Slot<O, B> {
    /// A slot that is filled for this number.
    pub(crate) fn new(
        alloc: Global,
        plan: &Plan,
        backend: &B,
        number: u64,
    ) -> Result<Slot<O, B>, AllocError>
        requires fits { Fits plan.now }
        requires suits { B.serves backend.now plan.now ≡ true }
        ensures { IfOk result (λ s. s ≡ empty_slot plan.now (B.size plan.now) number) }
    {
        Ok(Slot {
            plan: *plan,
            number,
            kind: Kind::Filling,
            columns: spare_columns(alloc, plan)?,
            out: backend.make(alloc, plan)?,
        })
    }

    /// What it shows. The number of columns is counted, and kept nowhere.
    pub fn held(&self) -> Held
        ensures { result ≡ held_of self.now }
    {
        Held {
            plan: self.plan,
            number: self.number,
            kind: self.kind,
            columns: self.columns.iter().filter(|hand| !hand.is_spare()).count() as u32,
        }
    }

    // Whether the hand's column has a place here.
    fn accepts(&self, hand: &Closed<O>) -> bool
        ensures { MatchBool result
            (AcceptsPut (held_of self.now) hand.now.column)
            (RefusesPut (held_of self.now) hand.now.column) }
    {
        let column = hand.column();
        self.plan.is(column.plan()) && self.number == column.number() && self.kind.is_filling()
    }

    /// Puts the hand's column into its antenna's place, and gives the one that lay there, as a spare
    /// one. Buffers are exchanged, and no sample is copied.
    pub fn put(&mut self, hand: &mut Closed<O>) -> Put
        requires { hand.old.is_closed ≡ true }
        ensures { PutGives self.old hand.old result self.new hand.new }
    {
        if !self.accepts(hand) {
            return Put::Waits(self.held());
        }
        let place = hand.column().antenna() as usize;
        mem::swap(&mut self.columns[place], hand);
        hand.free();
        Put::Placed
    }

    // Whether a work of this plan can take the columns.
    fn can_be_taken(&self, plan: &Plan) -> bool
        ensures { MatchBool result
            (AcceptsTake (held_of self.now) plan.now)
            (RefusesTake (held_of self.now) plan.now) }
    {
        let held = self.held();
        self.plan.is(plan) && self.kind.is_filling() && held.columns >= self.plan.antennas
    }

    /// Moves the columns of a full slot to a work, whose spare ones come into the slot.
    pub fn take(&mut self, work: &mut Work<O, B>) -> Took
        requires { work.old.stage ≡ Stage.Free }
        ensures { TakeGives self.old work.old result self.new work.new }
    {
        if !self.can_be_taken(&work.plan) {
            return Took::Not(self.held());
        }
        mem::swap(&mut self.columns, &mut work.columns);
        work.number = self.number;
        work.stage = Stage::Taken;
        self.kind = Kind::Working;
        Took::Taken
    }

    // Whether the value of this plan and number is awaited here.
    fn awaits(&self, plan: &Plan, number: u64) -> bool
        ensures { MatchBool result
            (AcceptsStore (held_of self.now) plan.now number)
            (RefusesStore (held_of self.now) plan.now number) }
    {
        self.plan.is(plan) && self.number == number && self.kind.is_working()
    }

    /// Takes the value of a computed work, and frees the work. A value that is not awaited is let go.
    pub fn store(&mut self, work: &mut Work<O, B>) -> Stored
        requires { work.old.stage ≡ Stage.Computed }
        ensures { StoreGives self.old work.old result self.new work.new }
    {
        if !self.awaits(&work.plan, work.number) {
            work.free();
            return Stored::Old(self.held());
        }
        mem::swap(&mut self.out, &mut work.out);
        self.kind = Kind::Done;
        // The value that lies in the work now is the slot's old one, of which nothing is known.
        work.stage = Stage::Taken;
        work.free();
        Stored::Stored
    }

    // Whether the value of this plan and number is here.
    fn has_value(&self, plan: &Plan, number: u64) -> bool
        ensures { MatchBool result
            (AcceptsSend (held_of self.now) plan.now number)
            (RefusesSend (held_of self.now) plan.now number) }
    {
        self.plan.is(plan) && self.number == number && self.kind.is_done()
    }

    /// Gives the value of this number. It is filled for the number one round further from then on.
    pub fn send(&mut self, number: u64, outgoing: &mut Outgoing<O, B>) -> Gave
        requires { number < 2 ^ 32 }
        ensures { SendGives self.old number outgoing.old result self.new outgoing.new }
    {
        if !self.has_value(&outgoing.plan, number) {
            return Gave::Not(self.held());
        }
        mem::swap(&mut self.out, &mut outgoing.out);
        outgoing.number = number;
        outgoing.is_computed = true;
        self.kind = Kind::Filling;
        self.number = number + u64::from(self.plan.slots);
        Gave::Given
    }
}
