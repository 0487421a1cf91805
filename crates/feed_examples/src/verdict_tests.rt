//! The verdicts on the strings of a stream, and the report.

use crate::fed::{Fed, NOTHING, PLAN, reported};
use crate::packets::{first_piece, heap, piece, stop};
use crate::strings::{AT_ONE, AT_ZERO, description, dropped, halves, redescription, refused};
use corr_model::Plan;
use std::test::Fail;
use stream_feed::{DropCause, Ending, Refusal, StreamReport, Verdict};

#[test]
fn a_repeated_packet(rt: HostRuntime) -> Result<(), Fail> {
    let alloc = rt.alloc();
    let strings = vec![in alloc;
        heap(alloc, 1, 0, AT_ZERO)?,
        heap(alloc, 1, 0, AT_ZERO)?,
        heap(alloc, 2, 1, AT_ONE)?,
    ]?;
    let verdicts = [Verdict::Used(0, 0), Verdict::Stale, Verdict::Used(0, 1)];
    let report = reported(&rt, alloc, &PLAN, &strings, &verdicts)?;
    let wanted = StreamReport {
        taken: 3,
        stale: 1,
        used: 2,
        ..NOTHING
    };
    assert_eq!(rt; report, wanted);
    Ok(())
}

#[test]
fn pieces_in_reverse_order(rt: HostRuntime) -> Result<(), Fail> {
    let alloc = rt.alloc();
    let strings = vec![in alloc;
        piece(alloc, 1, 3, &[0])?,
        piece(alloc, 1, 2, &[3])?,
        piece(alloc, 1, 1, &[2])?,
        first_piece(alloc, 1, 0, &[1])?,
    ]?;
    let verdicts = [
        Verdict::Part,
        Verdict::Part,
        Verdict::Part,
        Verdict::Used(0, 0),
    ];
    let report = reported(&rt, alloc, &PLAN, &strings, &verdicts)?;
    let wanted = StreamReport {
        taken: 4,
        used: 1,
        ..NOTHING
    };
    assert_eq!(rt; report, wanted);
    Ok(())
}

#[test]
fn eviction_from_the_window(rt: HostRuntime) -> Result<(), Fail> {
    let alloc = rt.alloc();
    let plan = Plan { window: 2, ..PLAN };
    let report = reported(&rt, alloc, &plan, &halves(alloc)?, &[Verdict::Part; 4])?;
    let wanted = StreamReport {
        taken: 4,
        evicted: 2,
        ..NOTHING
    };
    assert_eq!(rt; report, wanted);
    Ok(())
}

#[test]
fn drop_causes(rt: HostRuntime) -> Result<(), Fail> {
    let alloc = rt.alloc();
    let verdicts = [
        Verdict::Part,
        Verdict::Dropped(DropCause::Overlap),
        Verdict::Dropped(DropCause::SizeDiffers),
        Verdict::Dropped(DropCause::PastSize),
        Verdict::Used(0, 0),
        Verdict::Dropped(DropCause::PastLimit),
        Verdict::Dropped(DropCause::TooManyPointers),
    ];
    let report = reported(&rt, alloc, &PLAN, &dropped(alloc)?, &verdicts)?;
    let wanted = StreamReport {
        taken: 7,
        dropped: 5,
        used: 1,
        ..NOTHING
    };
    assert_eq!(rt; report, wanted);
    Ok(())
}

#[test]
fn undescribed_until_described(rt: HostRuntime) -> Result<(), Fail> {
    let alloc = rt.alloc();
    let plan = Plan {
        preset: false,
        ..PLAN
    };
    let strings = vec![in alloc;
        heap(alloc, 1, 0, AT_ZERO)?,
        description(alloc)?,
        heap(alloc, 3, 1, AT_ONE)?,
    ]?;
    let verdicts = [
        Verdict::Undescribed,
        Verdict::Undescribed,
        Verdict::Used(0, 1),
    ];
    let report = reported(&rt, alloc, &plan, &strings, &verdicts)?;
    let wanted = StreamReport {
        taken: 3,
        undescribed: 2,
        used: 1,
        ..NOTHING
    };
    assert_eq!(rt; report, wanted);
    Ok(())
}

#[test]
fn an_unreadable_redescription(rt: HostRuntime) -> Result<(), Fail> {
    let alloc = rt.alloc();
    let strings = vec![in alloc; redescription(alloc)?, heap(alloc, 2, 1, AT_ONE)?]?;
    let verdicts = [Verdict::Undescribed, Verdict::Used(0, 1)];
    let report = reported(&rt, alloc, &PLAN, &strings, &verdicts)?;
    let wanted = StreamReport {
        taken: 2,
        baddesc: 1,
        undescribed: 1,
        used: 1,
        ..NOTHING
    };
    assert_eq!(rt; report, wanted);
    Ok(())
}

#[test]
fn the_ten_refusals(rt: HostRuntime) -> Result<(), Fail> {
    let alloc = rt.alloc();
    let verdicts = [
        Verdict::Refused(Refusal::Short),
        Verdict::Refused(Refusal::Magic),
        Verdict::Refused(Refusal::Version),
        Verdict::Refused(Refusal::Flavour),
        Verdict::Refused(Refusal::Pointers),
        Verdict::Refused(Refusal::NoCounter),
        Verdict::Refused(Refusal::NoOffset),
        Verdict::Refused(Refusal::NoLength),
        Verdict::Refused(Refusal::Length(4, 5)),
        Verdict::Refused(Refusal::PastHeap),
        Verdict::Used(0, 0),
    ];
    let report = reported(&rt, alloc, &PLAN, &refused(alloc)?, &verdicts)?;
    let wanted = StreamReport {
        taken: 11,
        refused: 10,
        used: 1,
        ..NOTHING
    };
    assert_eq!(rt; report, wanted);
    Ok(())
}

#[test]
fn stop_in_the_middle(rt: HostRuntime) -> Result<(), Fail> {
    let alloc = rt.alloc();
    let strings = vec![in alloc; heap(alloc, 1, 0, AT_ZERO)?, stop(alloc, 2)?]?;
    let verdicts = [Verdict::Used(0, 0), Verdict::Stop];
    let mut fed = Fed::new(&rt, alloc, &PLAN)?;
    fed.take_all(&rt, &strings, &verdicts);
    let wanted = StreamReport {
        taken: 2,
        used: 1,
        ended: Some(Ending::Stop),
        ..NOTHING
    };
    assert_eq!(rt; fed.report(&rt), wanted);
    fed.give(&rt, 0, [Some(AT_ZERO.as_slice()), None]);
    Ok(())
}

#[test]
fn a_refused_string_reaches_the_limit(rt: HostRuntime) -> Result<(), Fail> {
    let alloc = rt.alloc();
    let plan = Plan {
        packet_limit: 2,
        ..PLAN
    };
    let strings = vec![in alloc; heap(alloc, 1, 0, AT_ZERO)?, Vec::new(alloc)]?;
    let verdicts = [Verdict::Used(0, 0), Verdict::Refused(Refusal::Short)];
    let report = reported(&rt, alloc, &plan, &strings, &verdicts)?;
    let wanted = StreamReport {
        taken: 2,
        refused: 1,
        used: 1,
        ended: Some(Ending::Limit),
        ..NOTHING
    };
    assert_eq!(rt; report, wanted);
    Ok(())
}
