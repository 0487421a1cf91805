//! The correlation theorem of an observation that is written out: its premise is met.

ghost use Rattle.std.specs.Prelude.{◌≡◌, [], ◌∷◌, None, IfOk};
ghost use Rattle.corr_model.specs.ExamplesOutput.{head_bytes, heap_bytes, stop_bytes};
ghost use Rattle.corr_examples.specs.Literals.{SaysPlan, literal_plan};

use crate::correlate_tests::SETTINGS;
use crate::literal::{Literal, all_seats, says_plan, words};
use crate::output::{ONE_HEAP_LOST, one_accumulation};
use crate::watched::Marks;
use corr_cli::run;
use corr_site::{Gate, ListPrint, ListSink, ListText, NoGate};
use std::alloc::Global;
use std::sync::Wait;
use std::test::Fail;
use std::thread::Threads;

// The status of a run in threads over the lists of the observation. At 0 just these datagrams were
// sent, whatever order the threads took their steps in.
fn status_of<const WORKERS: u32, G: Gate + Sync, R: Threads + Wait + Sync>(
    rt: &R,
    alloc: Global,
    text: &[u8],
    marks: &Marks,
    gate: &G,
    sink: &mut ListSink,
) -> Result<u8, Fail>
    requires plan { SaysPlan text.now (literal_plan WORKERS) }
    requires not_begun { sink.old.at ≡ None }
    requires empty { sink.old.sent ≡ [] }
    ensures sent { IfOk result (λ code. code ≡ 0
        → sink.new.sent ≡ head_bytes ∷ heap_bytes ∷ stop_bytes ∷ []) }
{
    let words = words(alloc)?;
    let mut settings = ListText::new(text.to_vec(alloc)?, Vec::new(alloc), false);
    let mut seats = all_seats::<Literal<WORKERS>>(alloc, marks)?;
    if seats.len() != 64 {
        return Err(Fail::from("not 64 seats"));
    }
    let mut print = ListPrint::new(alloc, 1024, Vec::new(alloc))?;
    let status = run::<Literal<WORKERS>, _, _, _, _, _, _>(
        rt,
        alloc,
        &words,
        &mut settings,
        seats.as_mut_slice(),
        sink,
        &mut print,
        gate,
    );
    Ok(status.code)
}

/// Whether a run with so many workers, which the gate may hold up, sends the datagrams that were
/// worked out by hand.
pub fn is_right<const WORKERS: u32, G: Gate + Sync, R: Threads + Wait + Sync>(
    rt: &R,
    alloc: Global,
    workers: &str,
    marks: &Marks,
    gate: &G,
) -> Result<bool, Fail> {
    let text = SETTINGS.replace(alloc, "workers = 0", workers)?;
    if !says_plan(alloc, text.as_bytes(), WORKERS)? {
        return Ok(false);
    }
    let mut sink = ListSink::new(alloc, 8, 4096, Vec::new(alloc), false)?;
    let code = status_of::<WORKERS, G, R>(rt, alloc, text.as_bytes(), marks, gate, &mut sink)?;
    let wanted = one_accumulation(alloc, &ONE_HEAP_LOST, [0, 1, 1])?;
    for number in 0..wanted.len() {
        if sink.string(number) != Some(wanted[number].as_slice()) {
            return Ok(false);
        }
    }
    Ok(code == 0 && sink.len() == wanted.len())
}

#[test]
fn an_observation_that_is_written_out(rt: HostRuntime) -> Result<(), Fail> {
    let marks = Marks::new();
    assert!(rt; is_right::<0, _, _>(&rt, rt.alloc(), "workers = 0", &marks, &NoGate)?);
    assert!(rt; is_right::<1, _, _>(&rt, rt.alloc(), "workers = 1", &marks, &NoGate)?);
    assert!(rt; is_right::<4, _, _>(&rt, rt.alloc(), "workers = 4", &marks, &NoGate)?);
    Ok(())
}
