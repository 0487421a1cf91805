//! Verdicts of time, and the columns that a feed gives.

use crate::fed::{Fed, NOTHING, PLAN};
use crate::packets::heap;
use crate::strings::{AT_ONE, AT_ZERO};
use corr_model::Plan;
use std::alloc::Global;
use std::process::Abort;
use std::test::*;
use stream_feed::{Ending, StreamReport, Verdict};

// A heap's counter and timestamp, and its verdict.
type Case = (u64, u64, Verdict);

const WHILE_ALL_ARE_OPEN: [Case; 4] = [
    (1, 96, Verdict::BeforeStart),
    (2, 102, Verdict::OffGrid),
    (3, 116, Verdict::Wild),
    (4, 108, Verdict::Used(1, 0)),
];

const WHILE_ONE_IS_OPEN: [Case; 2] = [(5, 100, Verdict::Late), (6, 116, Verdict::Beyond)];

const WHILE_NONE_IS_OPEN: [Case; 3] = [
    (7, 112, Verdict::Late),
    (8, 124, Verdict::Beyond),
    (9, 148, Verdict::Wild),
];

// Takes a heap for each case.
fn take_cases(fed: &mut Fed, rt: &impl Abort, alloc: Global, cases: &[Case]) -> Result<(), Fail> {
    for &(counter, timestamp, verdict) in cases {
        let string = vec![in alloc; heap(alloc, counter, timestamp, AT_ZERO)?]?;
        fed.take_all(rt, &string, &[verdict]);
    }
    Ok(())
}

#[test]
fn two_heaps_at_one_place(rt: HostRuntime) -> Result<(), Fail> {
    let alloc = rt.alloc();
    let strings = vec![in alloc; heap(alloc, 1, 0, AT_ZERO)?, heap(alloc, 2, 0, AT_ONE)?]?;
    let verdicts = [Verdict::Used(0, 0), Verdict::Twice];
    let mut fed = Fed::new(&rt, alloc, &PLAN)?;
    fed.take_all(&rt, &strings, &verdicts);
    fed.end(&rt);
    fed.give(&rt, 0, [Some(AT_ZERO.as_slice()), None]);
    fed.gives_nothing(&rt);
    let wanted = StreamReport {
        taken: 2,
        twice: 1,
        used: 1,
        ended: Some(Ending::End),
        ..NOTHING
    };
    assert_eq!(rt; fed.report(&rt), wanted);
    Ok(())
}

#[test]
fn lag_one(rt: HostRuntime) -> Result<(), Fail> {
    let alloc = rt.alloc();
    let plan = Plan {
        accumulations: 2,
        ..PLAN
    };
    let mut fed = Fed::new(&rt, alloc, &plan)?;
    let first = vec![in alloc; heap(alloc, 1, 2, AT_ZERO)?]?;
    fed.take_all(&rt, &first, &[Verdict::Used(1, 0)]);
    fed.give(&rt, 0, [None, None]);
    let second = vec![in alloc; heap(alloc, 2, 1, AT_ONE)?]?;
    fed.take_all(&rt, &second, &[Verdict::Late]);
    fed.end(&rt);
    fed.give(&rt, 1, [Some(AT_ZERO.as_slice()), None]);
    fed.gives_nothing(&rt);
    Ok(())
}

#[test]
fn lag_two(rt: HostRuntime) -> Result<(), Fail> {
    let alloc = rt.alloc();
    let plan = Plan {
        accumulations: 2,
        lag: 2,
        ..PLAN
    };
    let mut fed = Fed::new(&rt, alloc, &plan)?;
    let strings = vec![in alloc; heap(alloc, 1, 2, AT_ZERO)?, heap(alloc, 2, 1, AT_ONE)?]?;
    let verdicts = [Verdict::Used(1, 0), Verdict::Used(0, 1)];
    fed.take_all(&rt, &strings, &verdicts);
    fed.end(&rt);
    fed.give(&rt, 0, [None, Some(AT_ONE.as_slice())]);
    fed.give(&rt, 1, [Some(AT_ZERO.as_slice()), None]);
    fed.gives_nothing(&rt);
    Ok(())
}

#[test]
fn a_floor_that_jumps(rt: HostRuntime) -> Result<(), Fail> {
    let alloc = rt.alloc();
    let plan = Plan {
        accumulations: 5,
        ..PLAN
    };
    let mut fed = Fed::new(&rt, alloc, &plan)?;
    let first = vec![in alloc; heap(alloc, 1, 6, AT_ZERO)?]?;
    fed.take_all(&rt, &first, &[Verdict::Used(3, 0)]);
    fed.give(&rt, 0, [None, None]);
    fed.give(&rt, 1, [None, None]);
    fed.give(&rt, 2, [None, None]);
    fed.gives_nothing(&rt);
    let second = vec![in alloc; heap(alloc, 2, 7, AT_ONE)?]?;
    fed.take_all(&rt, &second, &[Verdict::Used(3, 1)]);
    fed.end(&rt);
    fed.give(&rt, 3, [Some(AT_ZERO.as_slice()), Some(AT_ONE.as_slice())]);
    fed.give(&rt, 4, [None, None]);
    fed.gives_nothing(&rt);
    Ok(())
}

#[test]
fn every_verdict_of_time(rt: HostRuntime) -> Result<(), Fail> {
    let alloc = rt.alloc();
    let plan = Plan {
        accumulations: 2,
        step: 4,
        start: 100,
        leap: 2,
        ..PLAN
    };
    let mut fed = Fed::new(&rt, alloc, &plan)?;
    take_cases(&mut fed, &rt, alloc, &WHILE_ALL_ARE_OPEN)?;
    fed.give(&rt, 0, [None, None]);
    take_cases(&mut fed, &rt, alloc, &WHILE_ONE_IS_OPEN)?;
    fed.give(&rt, 1, [Some(AT_ZERO.as_slice()), None]);
    take_cases(&mut fed, &rt, alloc, &WHILE_NONE_IS_OPEN)?;
    fed.gives_nothing(&rt);
    let wanted = StreamReport {
        taken: 9,
        before: 1,
        offgrid: 1,
        wild: 2,
        beyond: 2,
        late: 2,
        used: 1,
        ..NOTHING
    };
    assert_eq!(rt; fed.report(&rt), wanted);
    Ok(())
}
