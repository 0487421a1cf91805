//! One accumulation through the shared ring, on one thread, by a back end that counts timestamps.

ghost use Rattle.std.specs.Prelude.{◌≡◌, ◌<◌, ◌^◌, [], true, refl, IfOk};
ghost use Rattle.corr_model.specs.Plans.{Fits};

use crate::Share;
use corr_model::{Observation, Plan, Unheard};
use corr_site::ActorKind;
use slot_column::{Closed, Column};
use slot_ring::{Gave, Held, Kind, Outgoing, Put, Ring, Stage, Stored, Took, Work};
use std::alloc::{AllocError, Global};
use std::marker::Model;
use std::sync::Wait;
use std::test::Fail;
use vis_back::Backend;
use vis_shape::Made;

// A value without sums.
#[derive(Drop)]
struct Count {
    plan: Plan,
    added: u32,
}

impl Model for Count {
    ghost use Rattle.std.specs.Prelude.{◌≤◌, []};
    ghost use Rattle.vis_shape.specs.Sums.{Sums};

    ghost Value = { Sums };

    ghost view = { λ s. record { plan = s.plan; sums = []; added = s.added } };

    ghost invariant = { λ s. s.added ≤ 4294967295 };
}

impl Made for Count {
    ghost shown = { λ s. s };

    fn merge(&mut self, part: &Self) {
        self.added += part.added;
    }
}

// It adds no sums.
#[derive(Clone, Copy, Debug, PartialEq, Eq, Drop)]
struct Counting;

impl Backend for Counting {
    type Out = Count;

    ghost serves = { λ b p. true };

    ghost size = { λ p. 0 };

    ghost value = { λ b p cs from to. [] };

    ghost shows = { true };

    ghost fixed = { λ p cs from to. [] };

    fn suits(&self, _plan: &Plan) -> bool {
        true
    }

    fn make(&self, _alloc: Global, plan: &Plan) -> Result<Count, AllocError> {
        Ok(Count {
            plan: *plan,
            added: 0,
        })
    }

    fn clear(&self, out: &mut Count) {
        out.added = 0;
    }

    fn add<O: Observation>(&self, _columns: &[Closed<O>], from: u32, to: u32, out: &mut Count) {
        out.added += to - from;
    }

    fn added(&self, out: &Count) -> u32 {
        out.added
    }

    ghost sized = { λ b p cs from to. refl };

    ghost splits = { λ b p cs from mid to h k. refl };

    ghost starts = { λ b p cs from. refl };

    ghost local = { λ b p cs ds from to e. refl };
}

// Two antennas, three timestamps in each of four accumulations, and two slots.
const PLAN: Plan = Plan {
    antennas: 2,
    channels: 1,
    spectra: 1,
    heaps: 3,
    accumulations: 4,
    lag: 1,
    window: 8,
    slots: 2,
    workers: 1,
    packet: 1024,
    heap_limit: 4100,
    beams: 0,
    step: 1,
    start: 0,
    leap: 0,
    packet_limit: 1 << 40,
    preset: true,
};

// What a slot of the plan shows.
fn held(number: u64, kind: Kind, columns: u32) -> Held {
    Held {
        plan: PLAN,
        number,
        kind,
        columns,
    }
}

// The closed column of an antenna and a number in which no heap was used.
fn closed(
    alloc: Global,
    plan: &Plan,
    antenna: u32,
    number: u64,
) -> Result<Closed<Unheard>, AllocError>
    requires fits { Fits plan.now }
    requires antenna { antenna < plan.now.antennas }
    ensures { IfOk result (λ hand. hand.is_closed ≡ true) }
{
    let mut hand = Closed::spare(Column::new(alloc, plan)?);
    hand.close_empty(antenna, number);
    Ok(hand)
}

// Takes a slot's columns, computes their value, and stores it into another ring or the same.
fn work_on<R: Wait>(
    rt: &R,
    from: &Share<Unheard, Counting>,
    to: &Share<Unheard, Counting>,
    slot: u32,
    work: &mut Work<Unheard, Counting>,
) -> Result<Stored, Took>
    requires free { work.old.stage ≡ Stage.Free }
    requires in_range { slot < work.old.plan.slots }
{
    let took = from.take(rt, slot, work);
    if !matches!(took, Took::Taken) {
        return Err(took);
    }
    work.compute(&Counting);
    Ok(to.store(rt, work))
}

// What slot 1 answers to a take and to a send of this accumulation, and whether the take's work is free.
fn asked<R: Wait>(
    rt: &R,
    alloc: Global,
    plan: &Plan,
    share: &Share<Unheard, Counting>,
    number: u64,
) -> Result<(Took, bool, Gave), AllocError>
    requires fits { Fits plan.now }
    requires in_range { 1 < plan.now.slots }
    requires number { number < 2 ^ 32 }
{
    let mut work = Work::new(alloc, plan, &Counting)?;
    let mut outgoing = Outgoing::new(alloc, plan, &Counting)?;
    let took = share.take(rt, 1, &mut work);
    let gave = share.send(rt, number, &mut outgoing);
    Ok((took, work.is_free(), gave))
}

// Both are refused by a slot that shows this, and the work stays free.
fn refused_by(held: Held) -> (Took, bool, Gave) {
    (Took::Not(held), true, Gave::Not(held))
}

// The value may be used by several threads at once.
fn may_be_shared<T: Send + Sync>(_value: &T) {}

#[test]
fn an_accumulation_goes_round(rt: HostRuntime) -> Result<(), Fail> {
    assert!(rt; PLAN.fits());
    let alloc = rt.alloc();
    let share = Share::new(Ring::new(alloc, &PLAN, &Counting)?);
    may_be_shared(&share);
    let mut work = Work::new(alloc, &PLAN, &Counting)?;
    let mut outgoing = Outgoing::new(alloc, &PLAN, &Counting)?;
    let mut ahead = closed(alloc, &PLAN, 0, 2)?;
    assert_eq!(rt;
        share.put(&rt, &mut ahead),
        Put::Waits(held(0, Kind::Filling, 0))
    );
    assert!(rt; !ahead.is_spare());
    assert_eq!(rt;
        share.put(&rt, &mut closed(alloc, &PLAN, 0, 0)?),
        Put::Placed
    );
    assert_eq!(rt; share.pause(&rt, 0), 1);
    assert_eq!(rt;
        share.put(&rt, &mut closed(alloc, &PLAN, 1, 0)?),
        Put::Placed
    );
    assert_eq!(rt;
        work_on(&rt, &share, &share, 0, &mut work),
        Ok(Stored::Stored)
    );
    assert!(rt; work.is_free());
    assert_eq!(rt;
        share.send(&rt, 1, &mut outgoing),
        Gave::Not(held(1, Kind::Filling, 0))
    );
    assert_eq!(rt; share.send(&rt, 0, &mut outgoing), Gave::Given);
    assert_eq!(rt; outgoing.number(), 0);
    assert_eq!(rt; outgoing.out().added, 3);
    assert_eq!(rt; share.pause(&rt, 4), 5);
    Ok(())
}

// A worker waits for a column or a value that is given, a receiver for a value that is given, and the
// sender for one that is stored.
#[test]
fn each_kind_waits_for_its_own_changes(rt: HostRuntime) -> Result<(), Fail> {
    assert!(rt; PLAN.fits());
    let alloc = rt.alloc();
    let share = Share::new(Ring::new(alloc, &PLAN, &Counting)?);
    let mut work = Work::new(alloc, &PLAN, &Counting)?;
    let mut outgoing = Outgoing::new(alloc, &PLAN, &Counting)?;
    share.put(&rt, &mut closed(alloc, &PLAN, 0, 0)?);
    assert_eq!(rt; share.pause_for(&rt, ActorKind::Work, 0), 1);
    share.put(&rt, &mut closed(alloc, &PLAN, 1, 0)?);
    assert_eq!(rt; share.pause_for(&rt, ActorKind::Work, 1), 2);
    assert_eq!(rt;
        work_on(&rt, &share, &share, 0, &mut work),
        Ok(Stored::Stored)
    );
    assert_eq!(rt; share.pause_for(&rt, ActorKind::Send, 0), 1);
    assert_eq!(rt; share.send(&rt, 0, &mut outgoing), Gave::Given);
    assert_eq!(rt; share.pause_for(&rt, ActorKind::Receive, 0), 1);
    assert_eq!(rt; share.pause_for(&rt, ActorKind::Work, 2), 3);
    assert_eq!(rt; share.pause_for(&rt, ActorKind::Send, 9), 1);
    Ok(())
}

#[test]
fn a_slot_that_fills_shows_its_columns(rt: HostRuntime) -> Result<(), Fail> {
    assert!(rt; PLAN.fits());
    let alloc = rt.alloc();
    let share = Share::new(Ring::new(alloc, &PLAN, &Counting)?);
    for columns in 0..2 {
        assert_eq!(rt;
            asked(&rt, alloc, &PLAN, &share, 1)?,
            refused_by(held(1, Kind::Filling, columns))
        );
        assert_eq!(rt;
            share.put(&rt, &mut closed(alloc, &PLAN, columns, 1)?),
            Put::Placed
        );
    }
    Ok(())
}

#[test]
fn a_slot_that_was_taken_shows_how_far_it_is(rt: HostRuntime) -> Result<(), Fail> {
    assert!(rt; PLAN.fits());
    let alloc = rt.alloc();
    let share = Share::new(Ring::new(alloc, &PLAN, &Counting)?);
    let mut work = Work::new(alloc, &PLAN, &Counting)?;
    let mut outgoing = Outgoing::new(alloc, &PLAN, &Counting)?;
    share.put(&rt, &mut closed(alloc, &PLAN, 0, 1)?);
    share.put(&rt, &mut closed(alloc, &PLAN, 1, 1)?);
    let took = share.take(&rt, 1, &mut work);
    assert!(rt; matches!(took, Took::Taken));
    let working = held(1, Kind::Working, 0);
    assert_eq!(rt; asked(&rt, alloc, &PLAN, &share, 1)?, refused_by(working));
    assert_eq!(rt;
        share.put(&rt, &mut closed(alloc, &PLAN, 0, 1)?),
        Put::Waits(working)
    );
    work.compute(&Counting);
    assert_eq!(rt; share.store(&rt, &mut work), Stored::Stored);
    let done = held(1, Kind::Done, 0);
    assert_eq!(rt; asked(&rt, alloc, &PLAN, &share, 3)?, refused_by(done));
    assert_eq!(rt;
        share.put(&rt, &mut closed(alloc, &PLAN, 0, 3)?),
        Put::Waits(done)
    );
    assert_eq!(rt; share.send(&rt, 1, &mut outgoing), Gave::Given);
    assert_eq!(rt;
        asked(&rt, alloc, &PLAN, &share, 3)?,
        refused_by(held(3, Kind::Filling, 0))
    );
    Ok(())
}

#[test]
fn a_value_that_no_slot_awaits_is_let_go(rt: HostRuntime) -> Result<(), Fail> {
    assert!(rt; PLAN.fits());
    let alloc = rt.alloc();
    let share = Share::new(Ring::new(alloc, &PLAN, &Counting)?);
    let other = Share::new(Ring::new(alloc, &PLAN, &Counting)?);
    let mut work = Work::new(alloc, &PLAN, &Counting)?;
    assert_eq!(rt;
        share.put(&rt, &mut closed(alloc, &PLAN, 0, 1)?),
        Put::Placed
    );
    assert_eq!(rt;
        share.put(&rt, &mut closed(alloc, &PLAN, 1, 1)?),
        Put::Placed
    );
    assert_eq!(rt;
        other.put(&rt, &mut closed(alloc, &PLAN, 0, 1)?),
        Put::Placed
    );
    assert_eq!(rt;
        work_on(&rt, &share, &other, 1, &mut work),
        Ok(Stored::Old(held(1, Kind::Filling, 1)))
    );
    assert!(rt; work.is_free());
    assert_eq!(rt; other.pause(&rt, 0), 1);
    Ok(())
}
