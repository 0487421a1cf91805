use crate::{Made, Visibility, baselines};
use corr_model::Plan;
use std::test::*;

const PLAN: Plan = Plan {
    antennas: 2,
    channels: 2,
    spectra: 1,
    heaps: 3,
    accumulations: 1,
    lag: 1,
    window: 1,
    slots: 1,
    workers: 0,
    packet: 64,
    heap_limit: 64,
    beams: 0,
    step: 1,
    start: 0,
    leap: 0,
    packet_limit: 1,
    preset: true,
};

#[test]
fn new_values_are_merged_and_cleared(rt: HostRuntime) {
    assert!(rt; PLAN.fits());
    assert_eq!(rt; baselines(&PLAN), 3);
    let (Ok(mut sum), Ok(part)) = (
        Visibility::new(rt.alloc(), &PLAN),
        Visibility::new(rt.alloc(), &PLAN),
    ) else {
        assert!(rt; false);
        return;
    };
    assert_eq!(rt; (sum.values.len(), sum.missing.len()), (48, 3));
    sum.merge(&part);
    sum.clear();
    assert_eq!(rt;
        (sum.at(1, 2, 3), sum.missing(2), sum.added()),
        ((0, 0), 0, 0)
    );
}
