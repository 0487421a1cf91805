//! The actor that correlates accumulations.

ghost use Rattle.std.specs.Prelude.{◌≡◌, ◌≢◌, ◌<◌, ◌≤◌, ◌⊎◌, true, Some, length, get_or, None, IfOk, MatchBool, replicate};
ghost use Rattle.corr_threads.specs.Workers.{WorkerView, WorkerTurn, IsAfter, EachPast, PastAt};
ghost use Rattle.corr_model.specs.Plans.{Fits};
ghost use Rattle.slot_ring.specs.declared.work.Stage.{Stage};

use crate::turn::Turn;
use corr_model::{Observation, Plan};
use corr_site::{Actor, ActorKind, Gate, NoMemory};
use slot_ring::{Held, Took, Work};
use slot_share::Share;
use std::alloc::Global;
use std::marker::Model;
use std::sync::Wait;
use vis_back::Backend;

/// What the thread of one worker has of its own.
#[derive(Drop)]
pub struct Worker<O: Observation, B: Backend> {
    plan: Plan,
    number: u32,
    // The slot that is tried first: the one after that of the last work.
    first: u32,
    work: Work<O, B>,
    held: Vec<Option<Held>>,
    computed: u64,
}

impl<O: Observation, B: Backend> Model for Worker<O, B> {
    ghost use Rattle.corr_threads.specs.Workers.{WorkerView, IsWorker};

    ghost Value = { WorkerView };

    ghost view = { λ s. record {
      plan = s.plan;
      number = s.number;
      first = s.first;
      held = s.held.items;
      computed = s.computed;
    } };

    ghost invariant = { λ s. IsWorker
        (record { plan = s.plan; number = s.number; first = s.first; held = s.held.items; computed = s.computed })
        s.work };
}

// The slot that comes so many after this one, where the first comes after the last.
#[tactic(auto, using(crate::proofs::WorkerLemmas::after_inside, crate::proofs::WorkerLemmas::after_wrapped))]
fn slot_after(slots: u32, from: u32, count: u32) -> u32
    requires few { slots ≤ 64 }
    requires from { from < slots }
    requires count { count ≤ slots }
    ensures { IsAfter slots from count result }
{
    let slot = from + count;
    if slot < slots { slot } else { slot - slots }
}

impl<O: Observation, B: Backend> Worker<O, B> {
    /// A worker with a free work. It takes the memory of what the slots show, and `NoMemory` comes
    /// only where that is refused.
    pub fn new(
        alloc: Global,
        number: u32,
        plan: &Plan,
        work: Work<O, B>,
    ) -> Result<Worker<O, B>, NoMemory>
        requires fits { Fits plan.now }
        requires free { (work.stage ≡ Stage.Free) × (work.plan ≡ plan.now) }
        ensures { IfOk result (λ w. w
            ≡ record {
              plan = plan.now;
              number = number;
              first = 0;
              held = replicate plan.now.slots None;
              computed = 0;
            }) }
    {
        Ok(Worker {
            plan: *plan,
            number,
            first: 0,
            work,
            held: vec![in alloc; None; plan.slots as usize]?,
            computed: 0,
        })
    }

    /// One turn: the first slot that can be taken is computed and stored. The slots are tried in their
    /// order, from the one after that of the last work on, so that accumulations are taken oldest
    /// first. It passes the gate first, and waits for nothing else but the ring's lock.
    pub fn turn<G: Gate, R: Wait>(
        &mut self,
        rt: &R,
        share: &Share<O, B>,
        backend: &B,
        gate: &G,
    ) -> Turn
        requires suits { B.serves backend.now self.old.plan ≡ true }
        ensures { WorkerTurn self.old result self.new }
    {
        gate.pass(Actor {
            kind: ActorKind::Work,
            number: self.number,
        });
        let slots = self.plan.slots;
        for tried in 0..slots {
            let slot = slot_after(slots, self.first, tried);
            match share.take(rt, slot, &mut self.work) {
                Took::Taken => {
                    self.work.compute(backend);
                    share.store(rt, &mut self.work);
                    self.computed = self.computed.saturating_add(1);
                    self.first = slot_after(slots, slot, 1);
                    return Turn::Moved;
                }
                Took::Not(held) => self.held[slot as usize] = Some(held),
            }
        }
        if self.is_past() {
            return Turn::Done;
        }
        Turn::Waits
    }

    // Whether each slot showed a number past the last.
    #[tactic(auto, using(crate::proofs::WorkerLemmas::past_more, crate::proofs::WorkerLemmas::not_each_past))]
    fn is_past(&self) -> bool
        ensures { MatchBool result (EachPast self.now) (EachPast self.now → ⊥) }
    {
        for slot in 0..self.plan.slots {
            if !self.is_past_at(slot) {
                return false;
            }
        }
        true
    }

    // Whether the slot showed a number past the last.
    fn is_past_at(&self, slot: u32) -> bool
        requires { slot < self.now.plan.slots }
        ensures { MatchBool result (PastAt self.now slot) (PastAt self.now slot → ⊥) }
    {
        match self.held(slot) {
            Some(held) => held.number >= u64::from(self.plan.accumulations),
            None => false,
        }
    }

    /// What a slot showed when it last refused.
    pub fn held(&self, slot: u32) -> Option<Held>
        requires { slot < self.now.plan.slots }
        ensures { result ≡ get_or self.now.held slot None }
    {
        self.held[slot as usize]
    }

    /// How many works it computed, 2^64 - 1 at most.
    pub fn computed(&self) -> u64
        ensures { result ≡ self.now.computed }
    {
        self.computed
    }
}
