//! All memory of a core, taken before the first byte string.

ghost use Rattle.std.specs.Prelude.{◌≡◌, ◌<◌, true, false, IfOk};
ghost use Rattle.corr_model.specs.Plans.{Fits};
ghost use Rattle.slot_ring.specs.Means.{spare_hand};
ghost use Rattle.slot_ring.specs.Slots.{free_work, no_outgoing};
ghost use Rattle.slot_ring.specs.Rings.{empty_ring};
ghost use Rattle.vis_send.specs.Marks.{nothing};
ghost use Rattle.corr_machine.specs.Machines.{work_count};
ghost use Rattle.corr_core.specs.New.{Built, IsNewFeed};

use corr_model::{Observation, Plan};
use corr_site::NoMemory;
use slot_column::{Closed, Column};
use slot_ring::{Outgoing, Ring, Work};
use std::alloc::{AllocError, Global};
use std::marker::Model;
use stream_feed::Feed;
use vis_accum::Cross;
use vis_back::Backend;
use vis_send::{Emit, Sender};

/// A feed of the empty list for each antenna of a plan, in order.
#[derive(Drop)]
pub struct NewFeeds<O: Observation> {
    plan: Plan,
    list: Vec<Feed<O>>,
}

impl<O: Observation> Model for NewFeeds<O> {
    ghost use Rattle.corr_model.specs.declared.plan.Plan.{Plan};
    ghost use Rattle.corr_core.specs.New.{Built, IsNewFeed};

    ghost Value = { Plan };

    ghost view = { λ s. s.plan };

    ghost invariant = { λ s. Built (IsNewFeed s.plan) s.plan.antennas s.list.items };
}

impl<O: Observation> NewFeeds<O> {
    /// Those of a plan. `AllocError` comes only for want of memory.
    pub fn new(alloc: Global, plan: &Plan) -> Result<NewFeeds<O>, AllocError>
        requires { Fits plan.now }
        ensures { IfOk result (λ f. f ≡ plan.now) }
    {
        let list = new_feeds(alloc, plan)?;
        Ok(NewFeeds { plan: *plan, list })
    }

    /// The feeds.
    pub fn into_list(self) -> Vec<Feed<O>>
        ensures { Built (IsNewFeed self) self.antennas result.items }
    {
        self.list
    }
}

/// The parts of a core, before its first event: nothing was taken, put or sent. They are of their
/// plan, which is the one that the observation names where it names one.
#[derive(Drop)]
pub struct PreparedOf<O: Observation, B: Backend, E: Emit<Out = B::Out>> {
    /// The plan of the run.
    pub plan: Plan,
    /// A feed of the empty list for each antenna, in order.
    pub feeds: NewFeeds<O>,
    /// A spare column for each antenna.
    pub hands: Vec<Closed<O>>,
    /// The ring, as it is made.
    pub ring: Ring<O, B>,
    /// As many free works as workers, and at least one.
    pub works: Vec<Work<O, B>>,
    /// The value that goes out: none yet.
    pub outgoing: Outgoing<O, B>,
    /// What makes values of columns.
    pub backend: B,
    /// What sends them.
    pub emit: E,
    ghost fits: { Fits plan },
    ghost named: { O.names ≡ true → plan ≡ O.plan },
    ghost same_feeds: { feeds ≡ plan },
    ghost spare_hands: { Built (λ a h. h ≡ spare_hand plan) plan.antennas hands.items },
    ghost new_ring: { ring ≡ empty_ring plan (B.size plan) },
    ghost free_works: { Built (λ w k. k ≡ free_work plan (B.size plan))
        (work_count plan) works.items },
    ghost none_out: { outgoing ≡ no_outgoing plan (B.size plan) },
    ghost suits: { B.serves backend plan ≡ true },
    ghost same_plan: { E.of_plan emit ≡ plan },
    ghost sent_nothing: { E.tally emit ≡ nothing },
}

/// The parts of a core with the plain back end and the sender of the output.
pub type Prepared<O> = PreparedOf<O, Cross, Sender>;

// A feed for each antenna of the plan.
fn new_feeds<O: Observation>(alloc: Global, plan: &Plan) -> Result<Vec<Feed<O>>, AllocError>
    requires { Fits plan.now }
    ensures { IfOk result (λ v. Built (IsNewFeed plan.now) plan.now.antennas v.items) }
{
    let mut feeds = Vec::with_capacity(alloc, plan.antennas as usize)?;
    for antenna in 0..plan.antennas {
        let feed = Feed::new(alloc, plan, antenna)?;
        feeds.push_reserved(feed);
    }
    Ok(feeds)
}

// A spare column for each antenna of the plan.
fn new_hands<O: Observation>(alloc: Global, plan: &Plan) -> Result<Vec<Closed<O>>, AllocError>
    requires { Fits plan.now }
    ensures { IfOk result (λ v. Built (λ a h. h ≡ spare_hand plan.now) plan.now.antennas v.items) }
{
    let mut hands = Vec::with_capacity(alloc, plan.antennas as usize)?;
    for _ in 0..plan.antennas {
        let column = Column::new(alloc, plan)?;
        hands.push_reserved(Closed::spare(column));
    }
    Ok(hands)
}

// As many works as the plan has workers, and at least one.
fn new_works<O: Observation, B: Backend>(
    alloc: Global,
    plan: &Plan,
    backend: &B,
) -> Result<Vec<Work<O, B>>, AllocError>
    requires fits { Fits plan.now }
    requires suits { B.serves backend.now plan.now ≡ true }
    ensures { IfOk result (λ v. Built (λ w k. k ≡ free_work plan.now (B.size plan.now))
        (work_count plan.now) v.items) }
{
    let count = plan.workers.max(1);
    let mut works = Vec::with_capacity(alloc, count as usize)?;
    for _ in 0..count {
        let work = Work::new(alloc, plan, backend)?;
        works.push_reserved(work);
    }
    Ok(works)
}

/// The parts of a core of the plan, with this back end and this emitter. `NoMemory` comes only for
/// want of memory.
pub fn prepare_with<O: Observation, B: Backend, E: Emit<Out = B::Out>>(
    alloc: Global,
    plan: &Plan,
    backend: B,
    emit: E,
) -> Result<PreparedOf<O, B, E>, NoMemory>
    requires fits { Fits plan.now }
    requires named { O.names ≡ true → plan.now ≡ O.plan }
    requires suits { B.serves backend plan.now ≡ true }
    requires plan { E.of_plan emit ≡ plan.now }
    requires sent { E.tally emit ≡ nothing }
    ensures plan { IfOk result (λ p. p.plan ≡ plan.now) }
    ensures backend { IfOk result (λ p. p.backend ≡ backend) }
    ensures emit { IfOk result (λ p. p.emit ≡ emit) }
{
    let feeds = NewFeeds::new(alloc, plan)?;
    let hands = new_hands(alloc, plan)?;
    let ring = Ring::new(alloc, plan, &backend)?;
    let works = new_works(alloc, plan, &backend)?;
    let outgoing = Outgoing::new(alloc, plan, &backend)?;
    Ok(PreparedOf {
        plan: *plan,
        feeds,
        hands,
        ring,
        works,
        outgoing,
        backend,
        emit,
    })
}

/// The parts of a core of the plan, with the plain back end and the sender of the output.
/// `NoMemory` comes only for want of memory.
pub fn prepare<O: Observation>(alloc: Global, plan: &Plan) -> Result<Prepared<O>, NoMemory>
    requires fits { Fits plan.now }
    requires named { O.names ≡ true → plan.now ≡ O.plan }
    ensures plan { IfOk result (λ p. p.plan ≡ plan.now) }
    ensures sender { IfOk result (λ p. p.emit.plan ≡ plan.now) }
{
    let sender = Sender::new(alloc, plan)?;
    prepare_with(alloc, plan, Cross, sender)
}
