//! The datagrams that a test expects of two antennas, byte by byte.

use crate::packets::{COUNTER, HEADER, LENGTH, OFFSET, SIZE, STOP, TIMESTAMP, packet};
use std::alloc::{AllocError, Global};

/// Of each baseline, (0,0), (0,1), (1,1): real and imaginary part of the products 00, 01, 10, 11.
pub type Values = [[i64; 8]; 3];

/// Of two antennas with one heap lost.
pub const ONE_HEAP_LOST: Values = [
    [6, 0, 3, 7, 3, -7, 10, 0],
    [2, -1, 0, 5, 0, -3, 6, 3],
    [1, 0, -1, 2, -1, -2, 5, 0],
];

/// Of the same two antennas, where the heap of antenna 0 at 1 is lost as well.
pub const HEAPS_AT_ZERO: Values = [
    [5, 0, 3, 6, 3, -6, 9, 0],
    [2, -1, 0, 5, 0, -3, 6, 3],
    [1, 0, -1, 2, -1, -2, 5, 0],
];

// The heap's pointers: counter 1, 288 bytes, three descriptors at 0, 84 and 199.
const DESCRIPTOR_HEAP: [u64; 8] = [
    0x5304_0206_0000_0007,
    0x8001_0000_0000_0001,
    0x8002_0000_0000_0120,
    0x8003_0000_0000_0000,
    0x8004_0000_0000_0120,
    0x0005_0000_0000_0000,
    0x0005_0000_0000_0054,
    0x0005_0000_0000_00c7,
];

// Counter 1, 12 bytes, item 0x1600, its name at 0, its type at 9, its shape at 12.
const OF_TIMESTAMP: [u64; 9] = [
    0x5304_0206_0000_0008,
    0x8001_0000_0000_0001,
    0x8002_0000_0000_000c,
    0x8003_0000_0000_0000,
    0x8004_0000_0000_000c,
    0x8014_0000_0000_1600,
    0x0010_0000_0000_0000,
    0x0013_0000_0000_0009,
    0x0012_0000_0000_000c,
];

// Counter 1, 43 bytes, item 0x1800, its name at 0, its type at 12, its shape at 15.
const OF_VISIBILITIES: [u64; 9] = [
    0x5304_0206_0000_0008,
    0x8001_0000_0000_0001,
    0x8002_0000_0000_002b,
    0x8003_0000_0000_0000,
    0x8004_0000_0000_002b,
    0x8014_0000_0000_1800,
    0x0010_0000_0000_0000,
    0x0013_0000_0000_000c,
    0x0012_0000_0000_000f,
];

// Counter 1, 17 bytes, item 0x1801, its name at 0, its type at 7, its shape at 10.
const OF_MISSING: [u64; 9] = [
    0x5304_0206_0000_0008,
    0x8001_0000_0000_0001,
    0x8002_0000_0000_0011,
    0x8003_0000_0000_0000,
    0x8004_0000_0000_0011,
    0x8014_0000_0000_1801,
    0x0010_0000_0000_0000,
    0x0013_0000_0000_0007,
    0x0012_0000_0000_000a,
];

// Name, type u48, no dimension.
const TIMESTAMP_TEXT: &[u8] = b"timestampu\x00\x30";
// Name, type i64, four fixed dimensions of seven bytes each: the channels, and then 3, 4, 2.
const VISIBILITIES_TEXT: &[u8] = b"visibilitiesi\x00\x40\x00\x00\x00\x00\x00\x00";

const BEHIND_THE_CHANNELS: &[u8] =
    b"\x00\x00\x00\x00\x00\x00\x03\x00\x00\x00\x00\x00\x00\x04\x00\x00\x00\x00\x00\x00\x02";
// Name, type u32, one fixed dimension: 3.
const MISSING_TEXT: &[u8] = b"missingu\x00\x20\x00\x00\x00\x00\x00\x00\x03";

/// The packet of the descriptor heap, for so many channels.
pub fn descriptors(alloc: Global, channels: u8) -> Result<Vec<u8>, AllocError> {
    let mut bytes = packet(alloc, &DESCRIPTOR_HEAP, &[])?;
    bytes.extend_from_slice(packet(alloc, &OF_TIMESTAMP, TIMESTAMP_TEXT)?.as_slice())?;
    bytes.extend_from_slice(packet(alloc, &OF_VISIBILITIES, VISIBILITIES_TEXT)?.as_slice())?;
    bytes.extend_from_slice(&[channels])?;
    bytes.extend_from_slice(BEHIND_THE_CHANNELS)?;
    bytes.extend_from_slice(packet(alloc, &OF_MISSING, MISSING_TEXT)?.as_slice())?;
    Ok(bytes)
}

/// The packet of an accumulation: 192 bytes of values and 12 of missing counts.
pub fn visibilities(
    alloc: Global,
    counter: u64,
    timestamp: u64,
    values: &Values,
    missing: [u32; 3],
) -> Result<Vec<u8>, AllocError> {
    let words = [
        HEADER | 7,
        COUNTER | counter,
        SIZE | 0xcc,
        OFFSET,
        LENGTH | 0xcc,
        TIMESTAMP | timestamp,
        0x1800_0000_0000_0000,
        0x1801_0000_0000_00c0,
    ];
    let mut bytes = packet(alloc, &words, &[])?;
    for baseline in values {
        for part in baseline {
            bytes.extend_from_slice(&part.to_be_bytes())?;
        }
    }
    for count in missing {
        bytes.extend_from_slice(&count.to_be_bytes())?;
    }
    Ok(bytes)
}

/// The packet of the stop heap.
pub fn stop(alloc: Global, counter: u64) -> Result<Vec<u8>, AllocError> {
    let words = [HEADER | 5, COUNTER | counter, SIZE, OFFSET, LENGTH, STOP];
    packet(alloc, &words, &[])
}

/// All datagrams of one accumulation from timestamp 0 on.
pub fn one_accumulation(
    alloc: Global,
    values: &Values,
    missing: [u32; 3],
) -> Result<Vec<Vec<u8>>, AllocError> {
    let head = descriptors(alloc, 1)?;
    let heap = visibilities(alloc, 2, 0, values, missing)?;
    let end = stop(alloc, 3)?;
    Ok(vec![in alloc; head, heap, end]?)
}
