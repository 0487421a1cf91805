//! Heaps whose verdicts were worked out by hand.

ghost use Rattle.corr_model.specs.Plans.{Fits};

use crate::{Judged, Marks, judge};
use corr_model::Plan;
use std::process::Abort;
use std::test::*;

// Two antennas, two timestamps in each of two accumulations, on a grid from 0 on.
const PLAN: Plan = Plan {
    antennas: 2,
    channels: 1,
    spectra: 1,
    heaps: 2,
    accumulations: 2,
    lag: 1,
    window: 8,
    slots: 1,
    workers: 0,
    packet: 1024,
    heap_limit: 4100,
    beams: 0,
    step: 1,
    start: 0,
    leap: 0,
    packet_limit: 1 << 40,
    preset: true,
};

// The same with two accumulations that stay open.
const LAG_TWO: Plan = Plan { lag: 2, ..PLAN };

// A grid of every fourth tick from 100 on, with a guard of two accumulations.
const TIMED: Plan = Plan {
    start: 100,
    step: 4,
    leap: 2,
    ..PLAN
};

// Timestamps in order, and what the heap at each is to its stream.
const EVERY_VERDICT_OF_TIME: [(u64, Judged); 9] = [
    (96, Judged::BeforeStart),
    (102, Judged::OffGrid),
    (116, Judged::Wild),
    (108, Judged::At(1, 0)),
    (100, Judged::Late),
    (116, Judged::Beyond(2)),
    (112, Judged::Late),
    (124, Judged::Beyond(3)),
    (148, Judged::Wild),
];

// Judges a heap of antenna 0 at each timestamp in turn, and raises the marks by it.
fn judge_all(rt: &impl Abort, plan: &Plan, rows: &[(u64, Judged)]) {
    assert!(rt; plan.fits());
    let mut marks = Marks::new();
    for &(timestamp, judged) in rows {
        let answer = judge(&marks, false, Some((timestamp, 0)), plan, 0);
        assert_eq!(rt; answer, judged, "at {timestamp}");
        if let Judged::At(n, _) | Judged::Beyond(n) = answer {
            marks.raise(n);
        }
    }
}

#[test]
fn lag_one_and_lag_two(rt: HostRuntime) {
    judge_all(&rt, &PLAN, &[(2, Judged::At(1, 0)), (1, Judged::Late)]);
    judge_all(
        &rt,
        &LAG_TWO,
        &[(2, Judged::At(1, 0)), (1, Judged::At(0, 1))],
    );
}

#[test]
fn two_heaps_at_one_place(rt: HostRuntime) {
    judge_all(&rt, &PLAN, &[(0, Judged::At(0, 0)), (0, Judged::At(0, 0))]);
}

#[test]
fn every_verdict_of_time(rt: HostRuntime) {
    judge_all(&rt, &TIMED, &EVERY_VERDICT_OF_TIME);
}

#[test]
fn verdicts_before_those_of_time(rt: HostRuntime) {
    assert!(rt; TIMED.fits());
    let marks = Marks::new();
    assert_eq!(rt;
        judge(&marks, true, Some((102, 1)), &TIMED, 0),
        Judged::Stop
    );
    assert_eq!(rt; judge(&marks, false, None, &TIMED, 0), Judged::Undescribed);
    assert_eq!(rt;
        judge(&marks, false, Some((102, 1)), &TIMED, 0),
        Judged::Foreign(1)
    );
}

#[test]
fn the_greatest_numbers_do_not_wrap(rt: HostRuntime) {
    assert!(rt; TIMED.fits());
    let mut marks = Marks::new();
    assert_eq!(rt; marks.floor(&TIMED), 0);
    marks.raise(u64::MAX);
    assert_eq!(rt; marks.floor(&TIMED), 2);
    assert_eq!(rt;
        judge(&marks, false, Some((u64::MAX, 0)), &TIMED, 0),
        Judged::OffGrid
    );
    assert_eq!(rt;
        judge(&marks, false, Some((u64::MAX - 3, 0)), &TIMED, 0),
        Judged::Beyond(2_305_843_009_213_693_939)
    );
    let mut ended = Marks::new();
    ended.finish();
    assert_eq!(rt; ended.floor(&TIMED), 2);
}
