//! Each call of a plan, of the baselines and of a pointer once, by values worked by hand.

use crate::{Plan, Pointer, baseline, pair};

// The plan of the small worked examples.
const SMALL: Plan = Plan {
    antennas: 2,
    channels: 1,
    spectra: 1,
    heaps: 2,
    accumulations: 1,
    lag: 1,
    window: 8,
    slots: 1,
    workers: 0,
    packet: 1024,
    heap_limit: 4100,
    beams: 0,
    step: 1,
    start: 0,
    leap: 0,
    packet_limit: 1 << 40,
    preset: true,
};

// The plan of the simulated trial.
const TRIAL: Plan = Plan {
    antennas: 4,
    channels: 16,
    spectra: 256,
    heaps: 256,
    accumulations: 2,
    lag: 2,
    slots: 4,
    workers: 4,
    heap_limit: 20480,
    step: 8192,
    preset: false,
    ..SMALL
};

// A plan that reserves too much.
const LARGE: Plan = Plan {
    antennas: 1,
    channels: 1024,
    lag: 1,
    window: 1,
    slots: 1,
    workers: 1,
    heap_limit: 1052672,
    ..TRIAL
};

#[test]
fn plans_that_fit(rt: HostRuntime) {
    assert!(rt; SMALL.fits());
    assert!(rt; TRIAL.fits());
}

#[test]
fn plans_that_do_not_fit(rt: HostRuntime) {
    assert!(rt; !LARGE.fits());
    assert!(rt; !Plan { beams: 65, ..SMALL }.fits());
    assert!(rt;
        !Plan {
            window: 65,
            ..SMALL
        }
        .fits()
    );
}

#[test]
fn bytes_that_a_run_reserves(rt: HostRuntime) {
    for (plan, bytes) in [
        (SMALL, 74_520),
        (TRIAL, 202_168_680),
        (LARGE, 1_343_559_436),
    ] {
        assert!(rt; plan.has_ranges());
        assert_eq!(rt; plan.reserved(), bytes);
    }
}

#[test]
fn plans_are_compared(rt: HostRuntime) {
    assert!(rt; TRIAL.is(&TRIAL));
    assert!(rt; !TRIAL.is(&Plan { leap: 1, ..TRIAL }));
}

#[test]
fn baselines_and_their_antennas(rt: HostRuntime) {
    for (number, antennas) in [
        (0, (0, 0)),
        (1, (0, 1)),
        (2, (1, 1)),
        (4, (1, 2)),
        (2079, (63, 63)),
    ] {
        assert!(rt; number < 2080);
        let (first, second) = pair(number);
        assert_eq!(rt; (first, second), antennas);
        assert_eq!(rt; baseline(first, second), number);
    }
}

#[test]
fn pointers_of_each_mode(rt: HostRuntime) {
    let number = Pointer {
        immediate: true,
        id: 0x1600,
        value: 7,
    };
    let place = Pointer {
        immediate: false,
        id: 0x4300,
        value: 7,
    };
    assert_eq!(rt; Pointer::immediate(0x1600, 7), number);
    assert_eq!(rt; Pointer::addressed(0x4300, 7), place);
    assert!(rt; number.is_same(&number) && !number.is_same(&place));
}
