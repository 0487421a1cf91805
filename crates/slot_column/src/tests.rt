//! Columns whose cells were worked out by hand.

ghost use Rattle.std.specs.Prelude.{◌≡◌};
ghost use Rattle.corr_model.specs.Plans.{Fits};

use crate::{Closed, Column, Placed};
use corr_model::{Plan, Unheard};
use std::test::Fail;

// The samples (1 + 2i, 3) of the two polarisations.
const FIRST: [u8; 4] = [1, 2, 3, 0];

// The samples (-1, i).
const SECOND: [u8; 4] = [255, 0, 0, 1];

// Two antennas, two timestamps an accumulation, and four bytes of samples a heap.
const PLAN: Plan = Plan {
    antennas: 2,
    channels: 1,
    spectra: 1,
    heaps: 2,
    accumulations: 1,
    lag: 1,
    window: 8,
    slots: 1,
    workers: 0,
    packet: 1024,
    heap_limit: 4100,
    beams: 0,
    step: 1,
    start: 0,
    leap: 0,
    packet_limit: 1 << 40,
    preset: true,
};

// The value may be handed to another thread.
fn may_cross<T: Send>(_value: &T) {}

#[test]
fn two_heaps_at_one_place(rt: HostRuntime) -> Result<(), Fail> {
    assert!(rt; PLAN.fits());
    let mut column = Column::new(rt.alloc(), &PLAN)?;
    assert_eq!(rt; column.place(0, &FIRST), Placed::New);
    assert_eq!(rt; column.place(0, &SECOND), Placed::Twice);
    assert!(rt; column.plan().is(&PLAN));
    assert_eq!(rt; column.heap(0), Some(FIRST.as_slice()));
    assert_eq!(rt; column.heap(1), None);
    assert!(rt; column.present(0));
    assert!(rt; !column.present(1));
    assert_eq!(rt; column.sample(0, 0, 0, 0), (1, 2));
    assert_eq!(rt; column.sample(0, 0, 0, 1), (3, 0));
    Ok(())
}

#[test]
fn a_cleared_column_is_another_accumulation(rt: HostRuntime) -> Result<(), Fail> {
    assert!(rt; PLAN.fits());
    let mut column = Column::new(rt.alloc(), &PLAN)?;
    assert_eq!(rt; column.place(1, &FIRST), Placed::New);
    assert!(rt; column.plan().is(&PLAN));
    column.clear(1, 7);
    assert_eq!(rt; (column.antenna(), column.number()), (1, 7));
    assert!(rt; !column.present(1));
    assert_eq!(rt; column.place(1, &SECOND), Placed::New);
    assert!(rt; column.plan().is(&PLAN));
    assert!(rt; column.present(1));
    assert_eq!(rt; column.sample(1, 0, 0, 0), (-1, 0));
    assert_eq!(rt; column.sample(1, 0, 0, 1), (0, 1));
    Ok(())
}

#[test]
fn a_closed_column_is_the_one_that_was_exchanged(rt: HostRuntime) -> Result<(), Fail> {
    assert!(rt; PLAN.fits());
    let mut column = Column::new(rt.alloc(), &PLAN)?;
    assert_eq!(rt; column.place(0, &FIRST), Placed::New);
    let mut hand: Closed<Unheard> = Closed::spare(Column::new(rt.alloc(), &PLAN)?);
    may_cross(&hand);
    hand.close(&mut column);
    assert!(rt; !hand.is_spare());
    assert!(rt; hand.column().present(0));
    assert!(rt; !column.present(0));
    hand.free();
    assert!(rt; hand.is_spare());
    assert!(rt; hand.column().plan().is(&PLAN));
    hand.close_empty(1, 3);
    assert!(rt; !hand.is_spare());
    assert!(rt; !hand.column().present(0));
    assert_eq!(rt; (hand.column().antenna(), hand.column().number()), (1, 3));
    Ok(())
}
