//! What `plain` sends where heaps are put together, repeated, refused, dropped or described anew.

use crate::output::{HEAPS_AT_ZERO, ONE_HEAP_LOST, Values, one_accumulation};
use crate::outside::{Ended, Fault, PLAIN, run_text};
use crate::packets::{
    ANTENNA, COUNTER, DESCRIPTOR, HEADER, LENGTH, OFFSET, SIZE, STOP, Strings, TIMESTAMP, VOLTAGES,
    heap, one_heap, packet,
};
use std::alloc::Global;
use std::test::Fail;

// Samples of antenna 0 at 0, (1+2i, 3), and at 1, (-1, i).
const AT_ZERO: [u8; 4] = [1, 2, 3, 0];

const AT_ONE: [u8; 4] = [0xff, 0, 0, 1];

// Of antenna 1's heap at 0 alone, and of the heap of antenna 0 at 1 beside it.
const SECOND_ALONE: Values = [[0; 8], [0; 8], [1, 0, -1, 2, -1, -2, 5, 0]];

const APART: Values = [
    [1, 0, 0, 1, 0, -1, 1, 0],
    [0; 8],
    [1, 0, -1, 2, -1, -2, 5, 0],
];

// A run over these byte strings of antenna 0 and the heap of antenna 1 at 0.
fn run_first(alloc: Global, strings: Vec<Vec<u8>>) -> Result<Ended, Fail> {
    let mut first = Strings::new(alloc);
    for bytes in strings {
        first.add(bytes)?;
    }
    run_text(alloc, PLAIN, first, one_heap(alloc)?, Fault::No)
}

// The byte of antenna 0's heap at 0 at this offset, in a packet that says neither size nor items.
fn piece(alloc: Global, offset: u8, byte: u8) -> Result<Vec<u8>, Fail> {
    let words = [
        HEADER | 3,
        COUNTER | 1,
        OFFSET | u64::from(offset),
        LENGTH | 1,
    ];
    Ok(packet(alloc, &words, &[byte])?)
}

// Its first byte, in a packet that says the size and the items.
fn last_piece(alloc: Global) -> Result<Vec<u8>, Fail> {
    let words = [
        HEADER | 7,
        COUNTER | 1,
        SIZE | 4,
        OFFSET,
        LENGTH | 1,
        TIMESTAMP,
        ANTENNA,
        VOLTAGES,
    ];
    Ok(packet(alloc, &words, &[1])?)
}

#[test]
fn pieces_in_reverse_order(rt: HostRuntime) -> Result<(), Fail> {
    let alloc = rt.alloc();
    let mut first = Strings::new(alloc);
    for (offset, byte) in [(3, 0), (2, 3), (1, 2)] {
        first.add(piece(alloc, offset, byte)?)?;
    }
    first.add(last_piece(alloc)?)?;
    let end = run_text(alloc, PLAIN, first, Strings::new(alloc), Fault::No)?;
    assert_eq!(rt; end.code, 0);
    let alone = [[5, 0, 3, 6, 3, -6, 9, 0], [0; 8], [0; 8]];
    let wanted = one_accumulation(alloc, &alone, [1, 2, 2])?;
    assert_eq!(rt; end.first_other(&wanted), None);
    Ok(())
}

#[test]
fn a_repeated_packet(rt: HostRuntime) -> Result<(), Fail> {
    let alloc = rt.alloc();
    let first = heap(alloc, 1, 0, 0, AT_ZERO)?;
    let again = heap(alloc, 1, 0, 0, AT_ZERO)?;
    let end = run_first(
        alloc,
        Vec::from_array(alloc, [first, again, heap(alloc, 2, 1, 0, AT_ONE)?])?,
    )?;
    assert_eq!(rt; end.code, 0);
    let wanted = one_accumulation(alloc, &ONE_HEAP_LOST, [0, 1, 1])?;
    assert_eq!(rt; end.first_other(&wanted), None);
    Ok(())
}

#[test]
fn a_packet_of_a_whole_heap_is_stale(rt: HostRuntime) -> Result<(), Fail> {
    let alloc = rt.alloc();
    let first = heap(alloc, 1, 0, 0, AT_ZERO)?;
    let end = run_first(
        alloc,
        Vec::from_array(alloc, [first, heap(alloc, 1, 1, 0, AT_ONE)?])?,
    )?;
    let wanted = one_accumulation(alloc, &HEAPS_AT_ZERO, [1, 1, 1])?;
    assert_eq!(rt; end.first_other(&wanted), None);
    Ok(())
}

// A heap with a descriptor of the voltages that has their id, a name and a description in numpy's
// form, and no type.
fn redescription(alloc: Global) -> Result<Vec<u8>, Fail> {
    let own = [
        HEADER | 7,
        COUNTER | 1,
        SIZE | 3,
        OFFSET,
        LENGTH | 3,
        0x8014_0000_0000_4300,
        0x0010_0000_0000_0000,
        0x0015_0000_0000_0001,
    ];
    let descriptor = packet(alloc, &own, b"v{}")?;
    let words = [
        HEADER | 5,
        COUNTER | 1,
        SIZE | 67,
        OFFSET,
        LENGTH | 67,
        DESCRIPTOR,
    ];
    Ok(packet(alloc, &words, &descriptor)?)
}

#[test]
fn an_unreadable_redescription(rt: HostRuntime) -> Result<(), Fail> {
    let alloc = rt.alloc();
    let next = heap(alloc, 2, 1, 0, AT_ONE)?;
    let end = run_first(
        alloc,
        Vec::from_array(alloc, [redescription(alloc)?, next])?,
    )?;
    assert_eq!(rt; end.code, 0);
    let wanted = one_accumulation(alloc, &APART, [1, 2, 1])?;
    assert_eq!(rt; end.first_other(&wanted), None);
    Ok(())
}

// Byte strings that are no packets: none, a part of a header, one of another version, one with a
// pointer too few, one without a heap counter.
fn no_packets(alloc: Global) -> Result<Strings, Fail> {
    let mut strings = Strings::new(alloc);
    strings.add(Vec::new(alloc))?;
    strings.add(vec![in alloc; 0x53, 4, 2]?)?;
    strings.add(packet(alloc, &[0x5303_0206_0000_0000], &[])?)?;
    strings.add(packet(alloc, &[HEADER | 5, COUNTER | 1, SIZE], &[])?)?;
    strings.add(packet(alloc, &[HEADER | 3, SIZE, OFFSET, LENGTH], &[])?)?;
    Ok(strings)
}

#[test]
fn strings_that_are_no_packets(rt: HostRuntime) -> Result<(), Fail> {
    let alloc = rt.alloc();
    let (first, second) = (no_packets(alloc)?, no_packets(alloc)?);
    let end = run_text(alloc, PLAIN, first, second, Fault::No)?;
    assert_eq!(rt; end.code, 0);
    assert_eq!(rt; end.print.text(), b"sent 3 packets\n".as_slice());
    let wanted = one_accumulation(alloc, &[[0; 8]; 3], [2, 2, 2])?;
    assert_eq!(rt; end.first_other(&wanted), None);
    Ok(())
}

// The heap of antenna 0 at 0 with so many more distinct pointers than three.
fn with_more_pointers(alloc: Global, more: u64) -> Result<Vec<u8>, Fail> {
    let words = [
        HEADER | 7u64.saturating_add(more),
        COUNTER | 1,
        SIZE | 4,
        OFFSET,
        LENGTH | 4,
        TIMESTAMP,
        ANTENNA,
        VOLTAGES,
    ];
    let mut bytes = packet(alloc, &words, &[])?;
    for value in 0..more {
        bytes.extend_from_slice(&(0x9000_0000_0000_0000 | value).to_be_bytes())?;
    }
    bytes.extend_from_slice(&AT_ZERO)?;
    Ok(bytes)
}

#[test]
fn sixty_four_pointers_are_kept_and_sixty_five_are_not(rt: HostRuntime) -> Result<(), Fail> {
    let alloc = rt.alloc();
    let end = run_first(
        alloc,
        Vec::from_array(alloc, [with_more_pointers(alloc, 61)?])?,
    )?;
    let wanted = one_accumulation(alloc, &HEAPS_AT_ZERO, [1, 1, 1])?;
    assert_eq!(rt; end.first_other(&wanted), None);
    let end = run_first(
        alloc,
        Vec::from_array(alloc, [with_more_pointers(alloc, 62)?])?,
    )?;
    assert_eq!(rt; end.code, 0);
    let wanted = one_accumulation(alloc, &SECOND_ALONE, [2, 2, 1])?;
    assert_eq!(rt; end.first_other(&wanted), None);
    Ok(())
}

// The heap of antenna 0 at 1 with zeros behind its samples, of so many bytes in all.
fn long_heap(alloc: Global, length: u16) -> Result<Vec<u8>, Fail> {
    let size = u64::from(length);
    let words = [
        HEADER | 7,
        COUNTER | 2,
        SIZE | size,
        OFFSET,
        LENGTH | size,
        TIMESTAMP | 1,
        ANTENNA,
        VOLTAGES,
    ];
    let mut bytes = packet(alloc, &words, &AT_ONE)?;
    for _ in 4..length {
        bytes.push(0)?;
    }
    Ok(bytes)
}

#[test]
fn a_heap_at_the_limit_is_heard_and_one_past_it_is_not(rt: HostRuntime) -> Result<(), Fail> {
    let alloc = rt.alloc();
    let first = heap(alloc, 1, 0, 0, AT_ZERO)?;
    let end = run_first(
        alloc,
        Vec::from_array(alloc, [first, long_heap(alloc, 4100)?])?,
    )?;
    let wanted = one_accumulation(alloc, &ONE_HEAP_LOST, [0, 1, 1])?;
    assert_eq!(rt; end.first_other(&wanted), None);
    let first = heap(alloc, 1, 0, 0, AT_ZERO)?;
    let end = run_first(
        alloc,
        Vec::from_array(alloc, [first, long_heap(alloc, 4101)?])?,
    )?;
    let wanted = one_accumulation(alloc, &HEAPS_AT_ZERO, [1, 1, 1])?;
    assert_eq!(rt; end.first_other(&wanted), None);
    Ok(())
}

#[test]
fn what_follows_a_stop_heap_does_not_count(rt: HostRuntime) -> Result<(), Fail> {
    let alloc = rt.alloc();
    let words = [HEADER | 5, COUNTER | 2, SIZE, OFFSET, LENGTH, STOP];
    let first = heap(alloc, 1, 0, 0, AT_ZERO)?;
    let stop = packet(alloc, &words, &[])?;
    let end = run_first(
        alloc,
        Vec::from_array(alloc, [first, stop, heap(alloc, 3, 1, 0, AT_ONE)?])?,
    )?;
    assert_eq!(rt; end.code, 0);
    let wanted = one_accumulation(alloc, &HEAPS_AT_ZERO, [1, 1, 1])?;
    assert_eq!(rt; end.first_other(&wanted), None);
    Ok(())
}
