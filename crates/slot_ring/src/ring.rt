//! The ring of slots: each call goes to the slot of its number.

ghost use Rattle.std.specs.Prelude.{◌≡◌, ◌+◌, ◌%◌, ◌^◌, ◌<◌, ◌≤◌, length, true, IfOk};
ghost use Rattle.corr_model.specs.Plans.{Fits};
ghost use Rattle.slot_ring.specs.Slots.{View, WorkView, OutgoingView};
ghost use Rattle.slot_ring.specs.Rings.{RingView, RingPuts, RingTakes, RingStores, RingSends, empty_ring};

use crate::held::{Gave, Put, Stored, Took};
use crate::outgoing::Outgoing;
use crate::slot::Slot;
use crate::work::{Stage, Work};
use corr_model::{Observation, Plan};
use slot_column::Closed;
use std::alloc::{AllocError, Global};
use std::marker::Model;
use vis_back::Backend;

/// The slots of a plan. Accumulation `n` has slot `n` modulo their number.
#[derive(Drop)]
pub struct Ring<O: Observation, B: Backend> {
    plan: Plan,
    slots: Vec<Slot<O, B>>,
}

impl<O: Observation, B: Backend> Model for Ring<O, B> {
    ghost use Rattle.slot_ring.specs.Rings.{RingView, IsRing};

    ghost Value = { RingView };

    ghost view = { λ s. record { plan = s.plan; slots = s.slots.items } };

    ghost invariant = { λ s. IsRing (record { plan = s.plan; slots = s.slots.items }) };
}

impl<O: Observation, B: Backend> Ring<O, B> {
    /// The ring of a plan: slot `s` is filled for number `s`. All memory is taken here; the one error
    /// is that there is none.
    pub fn new(alloc: Global, plan: &Plan, backend: &B) -> Result<Ring<O, B>, AllocError>
        requires fits { Fits plan.now }
        requires suits { B.serves backend.now plan.now ≡ true }
        ensures { IfOk result (λ r. r ≡ empty_ring plan.now (B.size plan.now)) }
    {
        let mut slots = Vec::with_capacity(alloc, plan.slots as usize)?;
        for number in 0..plan.slots {
            slots.push_reserved(Slot::new(alloc, plan, backend, number.into())?);
        }
        Ok(Ring { plan: *plan, slots })
    }

    /// Puts the hand's column into the slot of its number, and leaves a spare one in the hand.
    pub fn put(&mut self, hand: &mut Closed<O>) -> Put
        requires { hand.old.is_closed ≡ true }
        ensures { RingPuts self.old hand.old result self.new hand.new }
    {
        let place = (hand.column().number() % u64::from(self.plan.slots)) as usize;
        let slot = &mut self.slots[place];
        slot.put(hand)
    }

    /// Moves the columns of a full slot to a work, and its spare ones into the slot.
    pub fn take(&mut self, slot: u32, work: &mut Work<O, B>) -> Took
        requires free { work.old.stage ≡ Stage.Free }
        requires in_range { slot < work.old.plan.slots }
        ensures { RingTakes self.old slot work.old result self.new work.new }
    {
        let place = (slot % self.plan.slots) as usize;
        let slot = &mut self.slots[place];
        slot.take(work)
    }

    /// Moves the value of a computed work into its slot, and frees the work, also where the value is
    /// not awaited.
    pub fn store(&mut self, work: &mut Work<O, B>) -> Stored
        requires { work.old.stage ≡ Stage.Computed }
        ensures { RingStores self.old work.old result self.new work.new }
    {
        let place = (work.number() % u64::from(self.plan.slots)) as usize;
        let slot = &mut self.slots[place];
        slot.store(work)
    }

    /// Gives the value of this accumulation, whose slot is then filled for the one a round further.
    pub fn send(&mut self, number: u64, outgoing: &mut Outgoing<O, B>) -> Gave
        requires { number < 2 ^ 32 }
        ensures { RingSends self.old number outgoing.old result self.new outgoing.new }
    {
        let place = (number % u64::from(self.plan.slots)) as usize;
        let slot = &mut self.slots[place];
        slot.send(number, outgoing)
    }

    /// Hands the slots out, in order. Takes no memory.
    pub fn slots(self) -> Vec<Slot<O, B>>
        ensures { result.items ≡ self.slots }
    {
        self.slots
    }
}
