//! The events of a work, which takes a full slot, computes, and stores its value; and how the next
//! value leaves the ring.

ghost use Rattle.std.specs.Prelude.{◌≡◌, ◌≢◌, ◌<◌, true, MatchBool};
ghost use Rattle.corr_core.specs.Changes.{Computes, StoresValue};
ghost use Rattle.corr_core.specs.Sends.{value_with};

use crate::parts::Parts;
use corr_model::Observation;
use slot_ring::{Gave, Ring, Stage, Took, Work};
use vis_back::Backend;

// A free work takes the columns of a full slot and computes their value.
fn take_and_compute<O: Observation, B: Backend>(
    ring: &mut Ring<O, B>,
    work: &mut Work<O, B>,
    backend: &B,
    slot: u32,
) -> bool
    requires free { work.old.stage ≡ Stage.Free }
    requires in_range { slot < work.old.plan.slots }
    requires suits { B.serves backend.now work.old.plan ≡ true }
    ensures { Computes (value_with (B.value backend.now) work.old.plan)
        ring.old slot work.old ring.new work.new result }
{
    match ring.take(slot, work) {
        Took::Taken => {
            work.compute(backend);
            true
        }
        Took::Not(_) => false,
    }
}

// A work's value goes into its slot, where that waits for it, and the work is free.
fn store_value<O: Observation, B: Backend>(ring: &mut Ring<O, B>, work: &mut Work<O, B>)
    requires computed { work.old.stage ≡ Stage.Computed }
    ensures { StoresValue ring.old work.old ring.new work.new }
{
    ring.store(work);
}

impl<O: Observation, B: Backend> Parts<O, B> {
    ghost use Rattle.corr_machine.specs.Machines.{State, work_count};
    ghost use Rattle.corr_machine.specs.Machines as events;
    ghost use Rattle.corr_core.specs.Parts.{work_in};
    ghost use Rattle.corr_core.specs.Standing.{Value, StandFor, Happens};
    ghost use Rattle.corr_core.specs.Cores.{KeepsEnds};
    ghost use Rattle.corr_core.specs.Changes.{SlotTaken, ResultStored, Releases, SendsNext};

    // Whether a work is free. One that is not has computed its value.
    fn is_free(&self, work: usize) -> bool
        requires in_range { work < work_count self.now.plan }
        ensures { MatchBool result ((work_in self.now work).stage ≡ Stage.Free)
            ((work_in self.now work).stage ≡ Stage.Computed) }
    {
        self.works[work].is_free()
    }

    // A free work takes a full slot and computes its value.
    fn take_slot(&mut self, work: usize, slot: u32, backend: &B) -> bool
        requires in_range { work < work_count self.old.plan }
        requires slot { slot < self.old.plan.slots }
        requires free { (work_in self.old work).stage ≡ Stage.Free }
        requires suits { B.serves backend.now self.old.plan ≡ true }
        ensures { SlotTaken (value_with (B.value backend.now) self.old.plan)
            self.old self.new work slot result }
    {
        take_and_compute(&mut self.ring, &mut self.works[work], backend, slot)
    }

    /// A work takes a slot, and computes the value of its columns.
    pub(crate) fn take(&mut self, work: u32, slot: u32, backend: &B) -> bool
        requires in_range { work < work_count self.old.plan }
        requires slot { slot < self.old.plan.slots }
        requires suits { B.serves backend.now self.old.plan ≡ true }
        ensures happens { (state : State)
            → StandFor (value_with (B.value backend.now) self.old.plan) self.old state
            → Happens (value_with (B.value backend.now) self.old.plan) self.old.plan self.new state
            (events.Take work slot) result }
        ensures ends { KeepsEnds self.old self.new }
        ensures plan { self.new.plan ≡ self.old.plan }
    {
        if !self.is_free(work as usize) {
            return false;
        }
        self.take_slot(work as usize, slot, backend)
    }

    // The value of a work that is not free goes into its slot.
    fn store_result(&mut self, work: usize)
        requires in_range { work < work_count self.old.plan }
        requires computed { (work_in self.old work).stage ≡ Stage.Computed }
        ensures { ResultStored self.old self.new work }
    {
        store_value(&mut self.ring, &mut self.works[work]);
    }

    /// A work stores its value.
    pub(crate) fn store(&mut self, work: u32) -> bool
        requires in_range { work < work_count self.old.plan }
        ensures happens { (value : Value) (state : State) → StandFor value self.old state
            → Happens value self.old.plan self.new state (events.Store work) result }
        ensures ends { KeepsEnds self.old self.new }
        ensures plan { self.new.plan ≡ self.old.plan }
    {
        if self.is_free(work as usize) {
            return false;
        }
        self.store_result(work as usize);
        true
    }

    // The next value is moved out of the ring.
    fn release(&mut self) -> bool
        requires some { self.old.sent < self.old.plan.accumulations }
        ensures { Releases self.old self.new result }
    {
        match self.ring.send(self.sent, &mut self.outgoing) {
            Gave::Given => {
                self.sent += 1;
                true
            }
            Gave::Not(_) => false,
        }
    }

    /// The next value is moved out of the ring, where it is there.
    pub(crate) fn next_value(&mut self) -> bool
        ensures next { (value : Value) (state : State) → StandFor value self.old state
            → SendsNext value self.old self.new state result }
        ensures ends { KeepsEnds self.old self.new }
        ensures number { result ≡ true → self.new.outgoing.number ≡ self.old.sent }
        ensures below { result ≡ true → self.old.sent < self.old.plan.accumulations }
        ensures plan { self.new.plan ≡ self.old.plan }
    {
        if self.sent >= u64::from(self.plan.accumulations) {
            return false;
        }
        self.release()
    }
}
