//! A visibility heap of six channels, 6 * 192 + 12 = 1,164 bytes, which is cut into two packets.

use crate::output::{HEAPS_AT_ZERO, descriptors, stop};
use crate::outside::{Ended, Fault, run_text};
use crate::packets::{
    ANTENNA, COUNTER, HEADER, LENGTH, OFFSET, SIZE, Strings, TIMESTAMP, VOLTAGES, packet,
};
use std::alloc::{AllocError, Global};
use std::test::Fail;

const CHANNELS: u8 = 6;

// A heap at 0 of an antenna, with the same samples in each channel.
fn wide_heap(alloc: Global, antenna: u64, samples: [u8; 4]) -> Result<Strings, Fail> {
    let words = [
        HEADER | 7,
        COUNTER | 1,
        SIZE | 24,
        OFFSET,
        LENGTH | 24,
        TIMESTAMP,
        ANTENNA | antenna,
        VOLTAGES,
    ];
    let mut bytes = packet(alloc, &words, &[])?;
    for _ in 0..CHANNELS {
        bytes.extend_from_slice(&samples)?;
    }
    let mut strings = Strings::new(alloc);
    strings.add(bytes)?;
    Ok(strings)
}

// The values of one channel, six times, and one timestamp missing on each of three baselines.
fn payload(alloc: Global) -> Result<Vec<u8>, AllocError> {
    let mut bytes = Vec::new(alloc);
    for _ in 0..CHANNELS {
        for baseline in HEAPS_AT_ZERO {
            for part in baseline {
                bytes.extend_from_slice(&part.to_be_bytes())?;
            }
        }
    }
    bytes.extend_from_slice(&[0, 0, 0, 1, 0, 0, 0, 1, 0, 0, 0, 1])?;
    Ok(bytes)
}

// A packet of the visibility heap: counter 2, 1,164 bytes, timestamp 0, values at 0, missing counts
// at 1,152.
fn piece(alloc: Global, offset: u64, length: u64, bytes: &[u8]) -> Result<Vec<u8>, AllocError> {
    let words = [
        HEADER | 7,
        COUNTER | 2,
        SIZE | 1164,
        OFFSET | offset,
        LENGTH | length,
        TIMESTAMP,
        0x1800_0000_0000_0000,
        0x1801_0000_0000_0480,
    ];
    packet(alloc, &words, bytes)
}

// The whole output: the descriptors, the two packets of the visibility heap, the stop heap.
fn output(alloc: Global) -> Result<Vec<Vec<u8>>, Fail> {
    let payload = payload(alloc)?;
    if payload.len() != 1164 {
        return Err(Fail::from("not 1,164 bytes"));
    }
    let (first, second) = payload.split_at(1024);
    let head = descriptors(alloc, CHANNELS)?;
    let first = piece(alloc, 0, 1024, first)?;
    let second = piece(alloc, 1024, 140, second)?;
    Ok(vec![in alloc; head, first, second, stop(alloc, 3)?]?)
}

fn run_wide(alloc: Global, fault: Fault) -> Result<Ended, Fail> {
    let words = "spead_corr plain 2 6 1 2 1 a b out";
    let first = wide_heap(alloc, 0, [1, 2, 3, 0])?;
    let second = wide_heap(alloc, 1, [0, 1, 2, 0xff])?;
    run_text(alloc, words, first, second, fault)
}

#[test]
fn a_heap_in_two_packets(rt: HostRuntime) -> Result<(), Fail> {
    let end = run_wide(rt.alloc(), Fault::No)?;
    assert_eq!(rt; end.code, 0);
    assert_eq!(rt; end.print.text(), b"sent 4 packets\n".as_slice());
    assert_eq!(rt; end.first_other(&output(rt.alloc())?), None);
    Ok(())
}

#[test]
fn a_sink_fault_inside_a_heap(rt: HostRuntime) -> Result<(), Fail> {
    let end = run_wide(rt.alloc(), Fault::SinkSend(2))?;
    assert_eq!(rt; end.code, 4);
    assert_eq!(rt; end.print.text(), b"sink fault\n".as_slice());
    let mut wanted = output(rt.alloc())?;
    wanted.truncate(2);
    assert_eq!(rt; end.first_other(&wanted), None);
    Ok(())
}
