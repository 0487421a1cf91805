//! Threads that must see each other, over an observation that is written out.

ghost use Rattle.std.specs.Prelude.{◌<◌};

use crate::literal_tests::is_right;
use crate::watched::{Hold, Marks, unset};
use corr_site::{Actor, ActorKind};
use std::alloc::Global;
use std::sync::Wait;
use std::test::Fail;
use std::thread::Threads;

// A receiver is held until the other one's source has ended, and its own is not asked before.
fn receivers_see_each_other<R: Threads + Wait + Sync>(
    rt: &R,
    alloc: Global,
    held: usize,
) -> Result<bool, Fail>
    requires { held < 2 }
{
    let marks = Marks::new();
    let actor = Actor {
        kind: ActorKind::Receive,
        number: held as u32,
    };
    let until = &marks.sources[1 - held].ended;
    let gate = Hold::new(&marks, actor, until, &marks.sources[held].asked);
    let sent = is_right::<1, _, _>(rt, alloc, "workers = 1", &marks, &gate)?;
    Ok(sent && gate.is_kept() && marks.are_passed(1))
}

// A worker is held until the other one has passed.
fn workers_see_each_other<R: Threads + Wait + Sync>(
    rt: &R,
    alloc: Global,
    held: usize,
) -> Result<bool, Fail>
    requires { held < 2 }
{
    let marks = Marks::new();
    let actor = Actor {
        kind: ActorKind::Work,
        number: held as u32,
    };
    let never = unset();
    let gate = Hold::new(&marks, actor, &marks.passed[3 - held], &never);
    let sent = is_right::<2, _, _>(rt, alloc, "workers = 2", &marks, &gate)?;
    Ok(sent && gate.is_kept() && marks.are_passed(2))
}

#[test]
fn receivers_that_must_see_each_other(rt: HostRuntime) -> Result<(), Fail> {
    assert!(rt; receivers_see_each_other(&rt, rt.alloc(), 0)?);
    assert!(rt; receivers_see_each_other(&rt, rt.alloc(), 1)?);
    Ok(())
}

#[test]
fn workers_that_must_see_each_other(rt: HostRuntime) -> Result<(), Fail> {
    assert!(rt; workers_see_each_other(&rt, rt.alloc(), 0)?);
    assert!(rt; workers_see_each_other(&rt, rt.alloc(), 1)?);
    Ok(())
}

// With no worker the thread that sends works too, by turns: what holds its worker until its sender
// has passed holds it to the limit.
#[test]
fn without_workers_one_thread_works_and_sends(rt: HostRuntime) -> Result<(), Fail> {
    let marks = Marks::new();
    let worker = Actor {
        kind: ActorKind::Work,
        number: 0,
    };
    let never = unset();
    let gate = Hold::new(&marks, worker, &marks.passed[4], &never);
    assert!(rt; is_right::<0, _, _>(&rt, rt.alloc(), "workers = 0", &marks, &gate)?);
    assert!(rt; marks.are_passed(1));
    assert!(rt; !gate.is_kept());
    Ok(())
}
