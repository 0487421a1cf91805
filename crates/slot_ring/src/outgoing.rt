//! What the sender has of its own: one value, and the number of its accumulation.

ghost use Rattle.std.specs.Prelude.{◌≡◌, true, false, IfOk};
ghost use Rattle.corr_model.specs.Plans.{Fits};
ghost use Rattle.slot_ring.specs.Means.{IsMeant};
ghost use Rattle.slot_ring.specs.Slots.{OutgoingView, no_outgoing};

use corr_model::{Observation, Plan};
use std::alloc::{AllocError, Global};
use std::marker::{Model, PhantomData};
use vis_back::Backend;
use vis_shape::Made;

/// A value that a slot gave, or none yet. Where the observation names its lists and the back end
/// shows its value, a given one is the value of the lists' columns.
#[derive(Drop)]
pub struct Outgoing<O: Observation, B: Backend> {
    pub(crate) plan: Plan,
    pub(crate) number: u64,
    pub(crate) is_computed: bool,
    pub(crate) out: B::Out,
    pub(crate) of: PhantomData<O>,
}

impl<O: Observation, B: Backend> Model for Outgoing<O, B> {
    ghost use Rattle.slot_ring.specs.Slots.{OutgoingView, IsOutgoing};

    ghost Value = { OutgoingView };

    ghost view = { λ s. record {
      plan = s.plan;
      number = s.number;
      is_computed = s.is_computed;
      out = B.Out.shown s.out;
    } };

    ghost invariant = { λ s. IsOutgoing
        (record { names = O.names; plan = O.plan; list = O.list; shows = B.shows; fixed = B.fixed })
        (B.size s.plan)
        (record { plan = s.plan; number = s.number; is_computed = s.is_computed; out = B.Out.shown s.out }) };
}

impl<O: Observation, B: Backend> Outgoing<O, B> {
    /// One that nothing was given to. All memory is taken here; the one error is that there is none.
    pub fn new(alloc: Global, plan: &Plan, backend: &B) -> Result<Outgoing<O, B>, AllocError>
        requires fits { Fits plan.now }
        requires suits { B.serves backend.now plan.now ≡ true }
        ensures { IfOk result (λ o. o ≡ no_outgoing plan.now (B.size plan.now)) }
    {
        Ok(Outgoing {
            plan: *plan,
            number: 0,
            is_computed: false,
            out: backend.make(alloc, plan)?,
            of: PhantomData,
        })
    }

    /// The number of its accumulation.
    pub fn number(&self) -> u64
        ensures { result ≡ self.now.number }
    {
        self.number
    }

    /// The value.
    pub fn out(&self) -> &B::Out
        ensures out { B.Out.shown result.now ≡ self.now.out }
        ensures plan { self.now.out.plan ≡ self.now.plan }
        ensures value { self.now.is_computed ≡ true → IsMeant
            (record { names = O.names; plan = O.plan; list = O.list; shows = B.shows; fixed = B.fixed })
            self.now.plan self.now.number self.now.out.sums }
        ensures counted { self.now.is_computed ≡ true → self.now.out.added ≡ self.now.plan.heaps }
    {
        &self.out
    }
}
