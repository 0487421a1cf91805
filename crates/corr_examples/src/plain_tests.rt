//! What `plain` sends of streams whose correlation was worked out by hand.

use crate::output::{
    HEAPS_AT_ZERO, ONE_HEAP_LOST, descriptors, one_accumulation, stop, visibilities,
};
use crate::outside::{Fault, PLAIN, run_text};
use crate::packets::{
    ANTENNA, COUNTER, HEADER, LENGTH, OFFSET, SIZE, Strings, TIMESTAMP_BYTES, VOLTAGES, heap,
    one_heap, packet, two_heaps,
};
use corr_site::Place;
use std::alloc::Global;
use std::test::Fail;

#[test]
fn two_antennas_one_heap_lost(rt: HostRuntime) -> Result<(), Fail> {
    let alloc = rt.alloc();
    let end = run_text(alloc, PLAIN, two_heaps(alloc)?, one_heap(alloc)?, Fault::No)?;
    assert_eq!(rt; end.code, 0);
    assert_eq!(rt; end.print.text(), b"sent 3 packets\n".as_slice());
    let wanted = one_accumulation(alloc, &ONE_HEAP_LOST, [0, 1, 1])?;
    assert_eq!(rt; end.first_other(&wanted), None);
    Ok(())
}

#[test]
fn datagrams_of_352_268_and_48_bytes(rt: HostRuntime) -> Result<(), Fail> {
    let alloc = rt.alloc();
    let end = run_text(alloc, PLAIN, two_heaps(alloc)?, one_heap(alloc)?, Fault::No)?;
    for (number, length) in [(0, 352), (1, 268), (2, 48)] {
        assert_eq!(rt;
            end.sink.string(number).map(|bytes| bytes.len()),
            Some(length)
        );
    }
    assert_eq!(rt; end.sink.len(), 3);
    Ok(())
}

#[test]
fn each_object_is_begun_at_its_place(rt: HostRuntime) -> Result<(), Fail> {
    let alloc = rt.alloc();
    let first = Place::read(alloc, "a.cap")?;
    let second = Place::read(alloc, "b.cap")?;
    let end = run_text(alloc, PLAIN, two_heaps(alloc)?, one_heap(alloc)?, Fault::No)?;
    assert!(rt; end.sources.get(0).ok_or("antenna 0")?.is_at(0, &first));
    assert!(rt; end.sources.get(1).ok_or("antenna 1")?.is_at(1, &second));
    assert!(rt; end.sink.is_at(&Place::read(alloc, "out.cap")?));
    assert_eq!(rt; end.begun_sources(), 2);
    Ok(())
}

#[test]
fn empty_lists(rt: HostRuntime) -> Result<(), Fail> {
    let alloc = rt.alloc();
    let (first, second) = (Strings::new(alloc), Strings::new(alloc));
    let end = run_text(alloc, PLAIN, first, second, Fault::No)?;
    assert_eq!(rt; end.code, 0);
    assert_eq!(rt; end.print.text(), b"sent 3 packets\n".as_slice());
    let wanted = one_accumulation(alloc, &[[0; 8]; 3], [2, 2, 2])?;
    assert_eq!(rt; end.first_other(&wanted), None);
    Ok(())
}

// A heap at each of 4,096 timestamps, every part -128.
fn full_scale(alloc: Global, antenna: u64) -> Result<Strings, Fail> {
    let mut strings = Strings::new(alloc);
    for timestamp in 0..4096 {
        strings.add(heap(alloc, timestamp, timestamp, antenna, [0x80; 4])?)?;
    }
    Ok(strings)
}

#[test]
fn full_scale_samples(rt: HostRuntime) -> Result<(), Fail> {
    let alloc = rt.alloc();
    let words = "spead_corr plain 2 1 1 4096 1 a b out";
    let (first, second) = (full_scale(alloc, 0)?, full_scale(alloc, 1)?);
    let end = run_text(alloc, words, first, second, Fault::No)?;
    assert_eq!(rt; end.code, 0);
    // (-128 - 128i) times its conjugate is 32,768, and 4,096 times that 134,217,728.
    let full = 134_217_728;
    let wanted = one_accumulation(alloc, &[[full, 0, full, 0, full, 0, full, 0]; 3], [0; 3])?;
    assert_eq!(rt; end.first_other(&wanted), None);
    Ok(())
}

// The heap at 0, another there, the first heap of the next accumulation, and one that is late.
fn late_and_twice(alloc: Global) -> Result<Strings, Fail> {
    let mut strings = Strings::new(alloc);
    strings.add(heap(alloc, 1, 0, 0, [1, 2, 3, 0])?)?;
    strings.add(heap(alloc, 2, 0, 0, [9, 9, 9, 9])?)?;
    strings.add(heap(alloc, 3, 2, 0, [0xff, 0, 0, 1])?)?;
    strings.add(heap(alloc, 4, 1, 0, [9, 9, 9, 9])?)?;
    Ok(strings)
}

#[test]
fn a_late_heap_and_a_second_one_at_a_place(rt: HostRuntime) -> Result<(), Fail> {
    let alloc = rt.alloc();
    let words = "spead_corr plain 2 1 1 2 2 a b out";
    let end = run_text(
        alloc,
        words,
        late_and_twice(alloc)?,
        one_heap(alloc)?,
        Fault::No,
    )?;
    assert_eq!(rt; end.print.text(), b"sent 4 packets\n".as_slice());
    // Of the second accumulation there is only (-1, i) of antenna 0.
    let alone = [[1, 0, 0, 1, 0, -1, 1, 0], [0; 8], [0; 8]];
    let head = descriptors(alloc, 1)?;
    let first = visibilities(alloc, 2, 0, &HEAPS_AT_ZERO, [1, 1, 1])?;
    let second = visibilities(alloc, 3, 2, &alone, [1, 2, 2])?;
    let wanted = vec![in alloc; head, first, second, stop(alloc, 4)?]?;
    assert_eq!(rt; end.first_other(&wanted), None);
    Ok(())
}

// A heap with a timestamp of eight bytes after its samples.
fn far_heap(alloc: Global, counter: u64) -> Result<Vec<u8>, Fail> {
    let words = [
        HEADER | 7,
        COUNTER | counter,
        SIZE | 12,
        OFFSET,
        LENGTH | 12,
        VOLTAGES,
        TIMESTAMP_BYTES | 4,
        ANTENNA,
    ];
    let payload = [9, 9, 9, 9, 255, 255, 255, 255, 255, 255, 255, 255];
    Ok(packet(alloc, &words, &payload)?)
}

// The heap at 0, and heaps that are not used: one of antenna 1, one without items, one past the
// last accumulation, and the one at 1, which is late then.
fn unused_heaps(alloc: Global) -> Result<Strings, Fail> {
    let bare = [HEADER | 4, COUNTER | 3, SIZE, OFFSET, LENGTH];
    let mut strings = Strings::new(alloc);
    strings.add(heap(alloc, 1, 0, 0, [1, 2, 3, 0])?)?;
    strings.add(heap(alloc, 2, 1, 1, [9, 9, 9, 9])?)?;
    strings.add(packet(alloc, &bare, &[])?)?;
    strings.add(far_heap(alloc, 4)?)?;
    strings.add(heap(alloc, 5, 1, 0, [0xff, 0, 0, 1])?)?;
    Ok(strings)
}

#[test]
fn heaps_that_are_not_used(rt: HostRuntime) -> Result<(), Fail> {
    let alloc = rt.alloc();
    let end = run_text(
        alloc,
        PLAIN,
        unused_heaps(alloc)?,
        one_heap(alloc)?,
        Fault::No,
    )?;
    assert_eq!(rt; end.code, 0);
    let wanted = one_accumulation(alloc, &HEAPS_AT_ZERO, [1, 1, 1])?;
    assert_eq!(rt; end.first_other(&wanted), None);
    Ok(())
}
