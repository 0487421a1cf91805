//! What a run in threads works with, in memory that is taken before the first byte string.

ghost use Rattle.std.specs.Prelude.{◌≡◌, ◌<◌, ◌+◌, ◌∷◌, true, length, vec_len, IfOk};
ghost use Rattle.std.specs.Vec.Iter.{into_iter_items, into_iter_len};
ghost use Rattle.corr_model.specs.Plans.{Fits};
ghost use Rattle.slot_ring.specs.Means.{spare_hand};
ghost use Rattle.slot_ring.specs.Slots.{free_work};
ghost use Rattle.vis_send.specs.Marks.{nothing};
ghost use Rattle.corr_machine.specs.Machines.{work_count};
ghost use Rattle.corr_core.specs.New.{Built, IsNewFeed};
ghost use Rattle.corr_parallel.specs.NewWorkers.{new_worker};
ghost use Rattle.corr_parallel.specs.Seats.{IsNewReceiver};
ghost use Rattle.corr_parallel.specs.Senders.{IsNewDispatch};

use corr_core::{Prepared, PreparedOf};
use corr_model::{Observation, Plan};
use corr_site::NoMemory;
use corr_threads::{Dispatch, Receiver, Worker};
use slot_column::Closed;
use slot_ring::Work;
use slot_share::Share;
use std::alloc::{AllocError, Global};
use std::vec::IntoIter;
use stream_feed::{Feed, StreamReport};
use vis_accum::Cross;
use vis_back::Backend;
use vis_send::{Emit, Sender};

/// What a run in threads works with: the ring that they share, and what each thread has of its own.
/// Nothing was taken, placed, computed or sent yet.
#[derive(Drop)]
pub struct SharedOf<O: Observation, B: Backend, E: Emit<Out = B::Out>> {
    /// The plan of the run.
    pub plan: Plan,
    /// The ring.
    pub share: Share<O, B>,
    /// The receivers, in order of antenna.
    pub receivers: Vec<Receiver<O>>,
    /// As many workers as the plan has, and at least one.
    pub workers: Vec<Worker<O, B>>,
    /// The sender.
    pub dispatch: Dispatch<O, B, E>,
    /// What makes the values.
    pub backend: B,
    /// Room for a report on each stream.
    pub reports: Vec<StreamReport>,
    ghost fits: { Fits plan },
    ghost named: { O.names ≡ true → plan ≡ O.plan },
    ghost new_receivers: { Built (IsNewReceiver plan) plan.antennas receivers.items },
    ghost own_workers: { Built (λ w x. x ≡ new_worker plan w) (work_count plan) workers.items },
    ghost new_dispatch: { IsNewDispatch plan dispatch },
    ghost suits: { B.serves backend plan ≡ true },
    ghost one_each: { vec_len reports ≡ plan.antennas },
}

/// The same with the plain back end and the sender of the output.
pub type Shared<O> = SharedOf<O, Cross, Sender>;

// The next of a list that has one.
fn next_of<T: Drop>(list: &mut IntoIter<T>) -> T
    requires { 0 < into_iter_len list.old }
    ensures items { into_iter_items list.old ≡ result ∷ into_iter_items list.new }
    ensures len { into_iter_len list.new + 1 ≡ into_iter_len list.old }
{
    match list.next() {
        Some(next) => next,
        None => unreachable!(),
    }
}

// The receivers of these feeds, each with a spare column in its hand.
fn new_receivers<O: Observation>(
    alloc: Global,
    plan: &Plan,
    feeds: Vec<Feed<O>>,
    hands: Vec<Closed<O>>,
) -> Result<Vec<Receiver<O>>, NoMemory>
    requires fits { Fits plan.now }
    requires feeds { Built (IsNewFeed plan.now) plan.now.antennas feeds.items }
    requires hands { Built (λ a h. h ≡ spare_hand plan.now) plan.now.antennas hands.items }
    ensures { IfOk result (λ v. Built (IsNewReceiver plan.now) plan.now.antennas v.items) }
{
    let mut receivers = Vec::with_capacity(alloc, plan.antennas as usize)?;
    let mut feeds_left = feeds.into_iter();
    let mut hands_left = hands.into_iter();
    for antenna in 0..plan.antennas {
        let feed = next_of(&mut feeds_left);
        let hand = next_of(&mut hands_left);
        let receiver = Receiver::new(alloc, plan, antenna, feed, hand)?;
        receivers.push_reserved(receiver);
    }
    Ok(receivers)
}

// The workers with these works.
fn new_workers<O: Observation, B: Backend>(
    alloc: Global,
    plan: &Plan,
    works: Vec<Work<O, B>>,
) -> Result<Vec<Worker<O, B>>, NoMemory>
    requires fits { Fits plan.now }
    requires works { Built (λ w k. k ≡ free_work plan.now (B.size plan.now))
        (work_count plan.now) works.items }
    ensures { IfOk result (λ v. Built (λ w x. x ≡ new_worker plan.now w) (work_count plan.now) v.items) }
{
    let count = plan.workers.max(1);
    let mut workers = Vec::with_capacity(alloc, count as usize)?;
    let mut works_left = works.into_iter();
    for number in 0..count {
        let work = next_of(&mut works_left);
        let worker = Worker::new(alloc, number, plan, work)?;
        workers.push_reserved(worker);
    }
    Ok(workers)
}

// A report for each receiver.
fn reports_of<O: Observation>(
    alloc: Global,
    receivers: &[Receiver<O>],
) -> Result<Vec<StreamReport>, AllocError>
    ensures { IfOk result (λ v. vec_len v ≡ length receivers.now) }
{
    let mut reports = Vec::with_capacity(alloc, receivers.len())?;
    for antenna in 0..receivers.len() {
        reports.push_reserved(receivers[antenna].report());
    }
    Ok(reports)
}

/// What a run in threads works with, of the parts of a core. `NoMemory` comes only for want of
/// memory.
pub fn share_with<O: Observation, B: Backend, E: Emit<Out = B::Out>>(
    alloc: Global,
    prepared: PreparedOf<O, B, E>,
) -> Result<SharedOf<O, B, E>, NoMemory>
    ensures { IfOk result (λ s. s.plan ≡ prepared.plan) }
{
    let PreparedOf {
        plan,
        feeds,
        hands,
        ring,
        works,
        outgoing,
        backend,
        emit,
        ..
    } = prepared;
    let receivers = new_receivers(alloc, &plan, feeds.into_list(), hands)?;
    let workers = new_workers(alloc, &plan, works)?;
    let reports = reports_of(alloc, &receivers)?;
    Ok(SharedOf {
        plan,
        share: Share::new(ring),
        receivers,
        workers,
        dispatch: Dispatch::new(&plan, outgoing, emit),
        backend,
        reports,
    })
}

/// The same with the plain back end and the sender of the output.
pub fn share<O: Observation>(alloc: Global, prepared: Prepared<O>) -> Result<Shared<O>, NoMemory>
    ensures { IfOk result (λ s. s.plan ≡ prepared.plan) }
{
    share_with(alloc, prepared)
}
