//! Faults of the outside, over two antennas of which one heap is lost.

use crate::output::{ONE_HEAP_LOST, descriptors, one_accumulation};
use crate::outside::{Ended, Fault, PLAIN, run_text};
use crate::packets::{one_heap, two_heaps};
use std::alloc::Global;
use std::test::Fail;

fn run_with(alloc: Global, fault: Fault) -> Result<Ended, Fail> {
    run_text(alloc, PLAIN, two_heaps(alloc)?, one_heap(alloc)?, fault)
}

#[test]
fn a_source_fault(rt: HostRuntime) -> Result<(), Fail> {
    let end = run_with(rt.alloc(), Fault::SourceNext(1))?;
    assert_eq!(rt; end.code, 3);
    assert_eq!(rt;
        end.print.text(),
        b"sent 3 packets\nsource fault 1\n".as_slice()
    );
    let wanted = one_accumulation(rt.alloc(), &ONE_HEAP_LOST, [0, 1, 1])?;
    assert_eq!(rt; end.first_other(&wanted), None);
    Ok(())
}

#[test]
fn a_sink_fault(rt: HostRuntime) -> Result<(), Fail> {
    let end = run_with(rt.alloc(), Fault::SinkSend(1))?;
    assert_eq!(rt; end.code, 4);
    assert_eq!(rt; end.print.text(), b"sink fault\n".as_slice());
    let wanted = vec![in rt.alloc(); descriptors(rt.alloc(), 1)?]?;
    assert_eq!(rt; end.first_other(&wanted), None);
    Ok(())
}

#[test]
fn a_source_that_cannot_be_begun(rt: HostRuntime) -> Result<(), Fail> {
    let end = run_with(rt.alloc(), Fault::SourceBegin)?;
    assert_eq!(rt; end.code, 3);
    assert_eq!(rt; end.print.text(), b"source fault 1\n".as_slice());
    assert_eq!(rt; end.sink.len(), 0);
    assert!(rt; !end.sink.is_begun());
    assert_eq!(rt; end.begun_sources(), 1);
    Ok(())
}

#[test]
fn a_first_source_that_cannot_be_begun(rt: HostRuntime) -> Result<(), Fail> {
    let end = run_with(rt.alloc(), Fault::FirstBegin)?;
    assert_eq!(rt; end.code, 3);
    assert_eq!(rt; end.print.text(), b"source fault 0\n".as_slice());
    assert_eq!(rt; end.sink.len(), 0);
    assert_eq!(rt; end.begun_sources(), 0);
    assert_eq!(rt; end.sources.get(1).ok_or("antenna 1")?.faults(), 0);
    Ok(())
}

#[test]
fn the_second_of_three_sources_cannot_be_begun(rt: HostRuntime) -> Result<(), Fail> {
    let alloc = rt.alloc();
    let words = "spead_corr plain 3 1 1 2 1 a.cap b.cap c.cap out.cap";
    let fault = Fault::SourceBegin;
    let end = run_text(alloc, words, two_heaps(alloc)?, one_heap(alloc)?, fault)?;
    assert_eq!(rt; end.code, 3);
    assert_eq!(rt; end.print.text(), b"source fault 1\n".as_slice());
    assert_eq!(rt; end.sink.len(), 0);
    assert!(rt; end.sources.get(0).ok_or("antenna 0")?.is_begun());
    assert!(rt; !end.sources.get(2).ok_or("antenna 2")?.is_begun());
    assert_eq!(rt; end.sources.get(2).ok_or("antenna 2")?.faults(), 0);
    Ok(())
}

#[test]
fn a_sink_that_cannot_be_begun(rt: HostRuntime) -> Result<(), Fail> {
    let end = run_with(rt.alloc(), Fault::SinkBegin)?;
    assert_eq!(rt; end.code, 4);
    assert_eq!(rt; end.print.text(), b"sink fault\n".as_slice());
    assert_eq!(rt; end.sink.len(), 0);
    assert_eq!(rt; end.begun_sources(), 2);
    Ok(())
}

#[test]
fn a_print_fault(rt: HostRuntime) -> Result<(), Fail> {
    let end = run_with(rt.alloc(), Fault::Print)?;
    assert_eq!(rt; end.code, 6);
    assert_eq!(rt; end.print.text(), b"".as_slice());
    let wanted = one_accumulation(rt.alloc(), &ONE_HEAP_LOST, [0, 1, 1])?;
    assert_eq!(rt; end.first_other(&wanted), None);
    Ok(())
}
