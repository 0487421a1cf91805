//! Runs over simulated inputs: those of all antennas correlated, and that of one sent.

use crate::correlate_tests::{FOUR, text_of};
use crate::outside::{Ended, Fault, run_over, words_of};
use crate::packets::Strings;
use crate::thread_tests::{Meeting, all_seats};
use corr_cli::run;
use corr_model::Unheard;
use corr_site::{Gate, ListPrint, ListSink, NoGate};
use std::alloc::Global;
use std::sync::Wait;
use std::test::Fail;
use std::thread::Threads;

const SUMMARY: &[u8] = b"sent 24 packets 22368 bytes mark b8148637bc1a4755
stream 0 taken 8202 ended stop refused 0 dropped 30 stale 0 evicted 21 baddesc 0 undescribed 1 foreign 0 before 0 offgrid 0 wild 0 beyond 0 late 0 twice 0 used 491
stream 1 taken 8202 ended stop refused 0 dropped 33 stale 1 evicted 25 baddesc 0 undescribed 1 foreign 0 before 0 offgrid 0 wild 0 beyond 0 late 0 twice 0 used 487
stream 2 taken 8198 ended stop refused 0 dropped 31 stale 0 evicted 26 baddesc 0 undescribed 1 foreign 0 before 0 offgrid 0 wild 0 beyond 0 late 0 twice 0 used 486
stream 3 taken 8188 ended stop refused 0 dropped 27 stale 1 evicted 32 baddesc 0 undescribed 1 foreign 0 before 0 offgrid 0 wild 0 beyond 0 late 0 twice 0 used 480
";

// The words of a line over settings, where no source has anything to give.
fn run_line(alloc: Global, line: &str, settings: &str, fault: Fault) -> Result<Ended, Fail> {
    let words = words_of(alloc, line)?;
    let text = text_of(alloc, settings.as_bytes(), false)?;
    let (first, second) = (Strings::new(alloc), Strings::new(alloc));
    run_over(alloc, &words, text, first, second, fault)
}

#[test]
fn the_simulated_trial(rt: HostRuntime) -> Result<(), Fail> {
    let line = "spead_corr trial --serial run.toml 7";
    let end = run_line(rt.alloc(), line, FOUR, Fault::No)?;
    assert_eq!(rt; end.code, 0);
    assert_eq!(rt; end.print.text(), SUMMARY);
    assert_eq!(rt; end.sink.len(), 24);
    assert_eq!(rt; end.begun_sources(), 0);
    Ok(())
}

// Whether a trial in threads with so many workers ends well and prints the same.
fn is_right<G: Gate + Sync, R: Threads + Wait + Sync>(
    rt: &R,
    alloc: Global,
    workers: &str,
    gate: &G,
) -> Result<bool, Fail> {
    let words = words_of(alloc, "spead_corr trial run.toml 7")?;
    let text = FOUR.replace(alloc, "workers = 4", workers)?;
    let mut settings = text_of(alloc, text.as_bytes(), false)?;
    let mut seats = all_seats(alloc)?.list;
    if seats.len() != 64 {
        return Err(Fail::from("not 64 seats"));
    }
    let mut sink = ListSink::new(alloc, 32, 32768, Vec::new(alloc), false)?;
    let mut print = ListPrint::new(alloc, 1024, Vec::new(alloc))?;
    let status = run::<Unheard, _, _, _, _, _, _>(
        rt,
        alloc,
        &words,
        &mut settings,
        seats.as_mut_slice(),
        &mut sink,
        &mut print,
        gate,
    );
    Ok(status.code == 0 && sink.len() == 24 && print.text() == SUMMARY)
}

#[test]
fn threads_print_the_same(rt: HostRuntime) -> Result<(), Fail> {
    assert!(rt; is_right(&rt, rt.alloc(), "workers = 0", &NoGate)?);
    assert!(rt; is_right(&rt, rt.alloc(), "workers = 1", &NoGate)?);
    assert!(rt; is_right(&rt, rt.alloc(), "workers = 4", &NoGate)?);
    Ok(())
}

// Each receiver and each worker has a thread of its own, since they wait for one another.
#[test]
fn a_trial_takes_threads(rt: HostRuntime) -> Result<(), Fail> {
    let meeting = Meeting::new();
    assert!(rt; is_right(&rt, rt.alloc(), "workers = 4", &meeting)?);
    assert!(rt; meeting.is_met());
    Ok(())
}

// The settings of four antennas with one accumulation of one heap.
fn one_heap_each(alloc: Global) -> Result<String, Fail> {
    let heaps = FOUR.replace(alloc, "heaps = 256", "heaps = 1")?;
    Ok(heaps.replace(alloc, "accumulations = 2", "accumulations = 1")?)
}

// One packet of descriptors, sixteen of the heap, of which none is lost and none sent twice, and
// the stop.
#[test]
fn one_antenna_is_simulated(rt: HostRuntime) -> Result<(), Fail> {
    let settings = one_heap_each(rt.alloc())?;
    let line = "spead_corr simulate run.toml 7 3 o";
    let end = run_line(rt.alloc(), line, settings.as_str(), Fault::No)?;
    assert_eq!(rt; end.code, 0);
    assert_eq!(rt; end.print.text(), b"simulated 18 packets\n".as_slice());
    assert_eq!(rt; end.sink.len(), 18);
    assert_eq!(rt; end.begun_sources(), 0);
    Ok(())
}

#[test]
fn an_antenna_that_the_plan_does_not_have(rt: HostRuntime) -> Result<(), Fail> {
    let line = "spead_corr simulate run.toml 7 4 o";
    let end = run_line(rt.alloc(), line, FOUR, Fault::No)?;
    assert_eq!(rt; end.code, 2);
    assert_eq!(rt;
        end.print.text(),
        b"settings: range antennas 4\n".as_slice()
    );
    assert!(rt; !end.sink.is_begun());
    Ok(())
}

#[test]
fn a_sink_fault_of_a_simulated_antenna(rt: HostRuntime) -> Result<(), Fail> {
    let settings = one_heap_each(rt.alloc())?;
    let line = "spead_corr simulate run.toml 7 3 o";
    let end = run_line(rt.alloc(), line, settings.as_str(), Fault::SinkSend(0))?;
    assert_eq!(rt; end.code, 4);
    assert_eq!(rt; end.print.text(), b"sink fault\n".as_slice());
    assert_eq!(rt; end.sink.len(), 0);
    Ok(())
}
