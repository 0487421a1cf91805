//! Values of two antennas whose samples were worked out by hand.

ghost use Rattle.std.specs.Prelude.{◌≡◌, ◌<◌, true, IfOk};
ghost use Rattle.corr_model.specs.Plans.{Fits, sample_bytes};
ghost use Rattle.vis_back.specs.Sets.{IsFullSet};

use crate::Cross;
use corr_model::{Plan, Unheard};
use slot_column::{Closed, Column};
use std::alloc::{AllocError, Global};
use std::process::Abort;
use std::test::Fail;
use vis_back::Backend;
use vis_shape::{Made, Visibility};

// Two antennas, one channel and one spectrum, and two timestamps in the one accumulation.
const SHORT: Plan = Plan {
    antennas: 2,
    channels: 1,
    spectra: 1,
    heaps: 2,
    accumulations: 1,
    lag: 1,
    window: 8,
    slots: 1,
    workers: 0,
    packet: 1024,
    heap_limit: 4100,
    beams: 0,
    step: 1,
    start: 0,
    leap: 0,
    packet_limit: 1 << 40,
    preset: true,
};

const LONG: Plan = Plan {
    heaps: 4096,
    ..SHORT
};

// The samples (1 + 2i, 3), (-1, i) and (i, 2 - i) of the two polarisations.
const FIRST: [u8; 4] = [1, 2, 3, 0];

const SECOND: [u8; 4] = [255, 0, 0, 1];

const OTHER: [u8; 4] = [0, 1, 2, 255];

// Samples whose every part is -128.
const FULL_SCALE: [u8; 4] = [128; 4];

// The missing count of a baseline, and its four values.
type Baseline = (u32, [(i64, i64); 4]);

// With one heap lost of the second antenna.
const ONE_HEAP_LOST: [Baseline; 3] = [
    (0, [(6, 0), (3, 7), (3, -7), (10, 0)]),
    (1, [(2, -1), (0, 5), (0, -3), (6, 3)]),
    (1, [(1, 0), (-1, 2), (-1, -2), (5, 0)]),
];

// The closed column of an antenna with these samples from the first timestamp on.
fn closed(
    rt: &impl Abort,
    alloc: Global,
    plan: &Plan,
    antenna: u32,
    cells: &[[u8; 4]],
) -> Result<Closed<Unheard>, AllocError>
    requires fits { Fits plan.now }
    requires antenna { antenna < plan.now.antennas }
    requires whole { sample_bytes plan.now ≡ 4 }
    ensures closed { IfOk result (λ hand. hand.is_closed ≡ true) }
    ensures plan { IfOk result (λ hand. hand.column.plan ≡ plan.now) }
    ensures antenna { IfOk result (λ hand. hand.column.antenna ≡ antenna) }
    ensures number { IfOk result (λ hand. hand.column.number ≡ 0) }
{
    let mut column = Column::new(alloc, plan)?;
    column.clear(antenna, 0);
    for (t, samples) in cells.iter().enumerate() {
        assert!(rt; column.plan().is(plan) && t < plan.heaps as usize);
        column.place(t as u32, samples);
    }
    assert!(rt; column.plan().is(plan));
    assert!(rt; column.antenna() == antenna);
    assert!(rt; column.number() == 0);
    let mut hand = Closed::spare(Column::new(alloc, plan)?);
    hand.close(&mut column);
    Ok(hand)
}

// The closed columns of both antennas.
#[tactic(auto, using(crate::proofs::HandLemmas::two_are_full))]
fn both(
    rt: &impl Abort,
    alloc: Global,
    plan: &Plan,
    first: &[[u8; 4]],
    second: &[[u8; 4]],
) -> Result<[Closed<Unheard>; 2], AllocError>
    requires fits { Fits plan.now }
    requires antennas { plan.now.antennas ≡ 2 }
    requires whole { sample_bytes plan.now ≡ 4 }
    ensures { IfOk result (λ hands. IsFullSet plan.now hands) }
{
    let first = closed(rt, alloc, plan, 0, first)?;
    let second = closed(rt, alloc, plan, 1, second)?;
    Ok([first, second])
}

// Whether the value is that of these baselines.
fn look_at(rt: &impl Abort, out: &Visibility, baselines: &[Baseline; 3]) {
    assert!(rt; out.plan.is(&SHORT) || out.plan.is(&LONG));
    for baseline in 0..3u32 {
        let (missing, values) = baselines[baseline as usize];
        assert_eq!(rt; out.missing(baseline), missing);
        for product in 0..4u32 {
            assert_eq!(rt; out.at(0, baseline, product), values[product as usize]);
        }
    }
}

#[test]
fn full_scale_samples(rt: HostRuntime) -> Result<(), Fail> {
    let alloc = rt.alloc();
    assert!(rt; LONG.fits() && Cross.suits(&LONG));
    let cells = vec![in alloc; FULL_SCALE; 4096]?;
    let hands = both(&rt, alloc, &LONG, &cells, &cells)?;
    let mut out = Cross.make(alloc, &LONG)?;
    Cross.add(&hands, 0, 4096, &mut out);
    look_at(&rt, &out, &[(0, [(134217728, 0); 4]); 3]);
    assert_eq!(rt; Cross.added(&out), 4096);
    Ok(())
}

#[test]
#[tactic(auto, using(crate::proofs::HandLemmas::shown_size))]
fn two_parts_are_merged(rt: HostRuntime) -> Result<(), Fail> {
    let alloc = rt.alloc();
    assert!(rt; SHORT.fits());
    let hands = both(&rt, alloc, &SHORT, &[FIRST, SECOND], &[OTHER])?;
    let mut whole = Cross.make(alloc, &SHORT)?;
    let mut part = Cross.make(alloc, &SHORT)?;
    Cross.add(&hands, 0, 1, &mut part);
    Cross.add(&hands, 1, 2, &mut whole);
    whole.merge(&part);
    look_at(&rt, &whole, &ONE_HEAP_LOST);
    assert_eq!(rt; (Cross.added(&whole), whole.added), (2, 2));
    Cross.clear(&mut whole);
    look_at(&rt, &whole, &[(0, [(0, 0); 4]); 3]);
    assert_eq!(rt; Cross.added(&whole), 0);
    Ok(())
}
