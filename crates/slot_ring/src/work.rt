//! What a worker has of its own: the columns that it took, and the value that it makes of them.

ghost use Rattle.std.specs.Prelude.{◌≡◌, ◌≢◌, true, false, IfOk, MatchBool};
ghost use Rattle.corr_model.specs.Plans.{Fits};
ghost use Rattle.slot_ring.specs.Slots.{WorkView, free_work};
ghost use Rattle.slot_ring.specs.Answers.{Computes, Frees, FreesAll};

use crate::spares::spare_columns;
use corr_model::{Observation, Plan};
use slot_column::Closed;
use std::alloc::{AllocError, Global};
use std::marker::Model;
use vis_back::Backend;
use vis_shape::Made;

/// How far a work is.
#[derive(Clone, Copy, Debug, PartialEq, Eq)]
pub enum Stage {
    /// Nothing was taken.
    Free,
    /// Columns were taken.
    Taken,
    /// Their value was computed.
    Computed,
}

/// The columns of one accumulation and their value. Where the observation names its lists and the
/// back end shows its value, a computed one is the value of the lists' columns.
#[derive(Drop)]
pub struct Work<O: Observation, B: Backend> {
    pub(crate) plan: Plan,
    pub(crate) number: u64,
    pub(crate) stage: Stage,
    pub(crate) columns: Vec<Closed<O>>,
    pub(crate) out: B::Out,
}

impl<O: Observation, B: Backend> Model for Work<O, B> {
    ghost use Rattle.slot_ring.specs.Slots.{WorkView, IsWork};

    ghost Value = { WorkView };

    ghost view = { λ s. record {
      plan = s.plan;
      number = s.number;
      stage = s.stage;
      columns = s.columns.items;
      out = B.Out.shown s.out;
    } };

    ghost invariant = { λ s. IsWork
        (record { names = O.names; plan = O.plan; list = O.list; shows = B.shows; fixed = B.fixed })
        (B.size s.plan)
        (record {
          plan = s.plan;
          number = s.number;
          stage = s.stage;
          columns = s.columns.items;
          out = B.Out.shown s.out;
        }) };
}

impl<O: Observation, B: Backend> Work<O, B> {
    /// A free work. All memory is taken here; the one error is that there is none.
    pub fn new(alloc: Global, plan: &Plan, backend: &B) -> Result<Work<O, B>, AllocError>
        requires fits { Fits plan.now }
        requires suits { B.serves backend.now plan.now ≡ true }
        ensures { IfOk result (λ w. w ≡ free_work plan.now (B.size plan.now)) }
    {
        Ok(Work {
            plan: *plan,
            number: 0,
            stage: Stage::Free,
            columns: spare_columns(alloc, plan)?,
            out: backend.make(alloc, plan)?,
        })
    }

    /// Whether nothing was taken.
    pub fn is_free(&self) -> bool
        ensures { MatchBool result (self.now.stage ≡ Stage.Free) (self.now.stage ≢ Stage.Free) }
    {
        matches!(self.stage, Stage::Free)
    }

    // The number of its accumulation.
    pub(crate) fn number(&self) -> u64
        ensures { result ≡ self.now.number }
    {
        self.number
    }

    /// Computes the value of its columns over all timestamps.
    pub fn compute(&mut self, backend: &B)
        requires taken { self.old.stage ≡ Stage.Taken }
        requires suits { B.serves backend.now self.old.plan ≡ true }
        ensures { Computes (B.value backend.now) self.old self.new }
    {
        backend.clear(&mut self.out);
        backend.add(&self.columns, 0, self.plan.heaps, &mut self.out);
        self.stage = Stage::Computed;
    }

    // Makes all columns spare, and is free from then on.
    pub(crate) fn free(&mut self)
        ensures { Frees self.old self.new }
    {
        self.stage = Stage::Free;
        free_all(&mut self.columns);
    }
}

// Makes each hand spare.
fn free_all<O: Observation>(hands: &mut [Closed<O>])
    ensures { FreesAll hands.old hands.new }
{
    for place in 0..hands.len() {
        hands[place].free();
    }
}
