//! Packets word by word.

use std::alloc::{AllocError, Global};

// A packet's first word, without the number of its item pointers.
pub const HEADER: u64 = 0x5304_0206_0000_0000;

pub const COUNTER: u64 = 0x8001_0000_0000_0000;

pub const SIZE: u64 = 0x8002_0000_0000_0000;

pub const OFFSET: u64 = 0x8003_0000_0000_0000;

pub const LENGTH: u64 = 0x8004_0000_0000_0000;
// Addressed, with the offset of a descriptor.
pub const DESCRIPTOR: u64 = 0x0005_0000_0000_0000;

pub const STOP: u64 = 0x8006_0000_0000_0002;

pub const TIMESTAMP: u64 = 0x9600_0000_0000_0000;

pub const ANTENNA: u64 = 0xc101_0000_0000_0000;
// Addressed, with the offset of the samples.
pub const VOLTAGES: u64 = 0x4300_0000_0000_0000;

/// The words, each big-endian, and then the payload.
pub fn packet(alloc: Global, words: &[u64], payload: &[u8]) -> Result<Vec<u8>, AllocError> {
    let mut bytes = Vec::new(alloc);
    for word in words {
        bytes.extend_from_slice(&word.to_be_bytes())?;
    }
    bytes.extend_from_slice(payload)?;
    Ok(bytes)
}

/// A heap of antenna 0 in one packet: one channel and one spectrum, real before imaginary,
/// polarisation 0 first.
pub fn heap(
    alloc: Global,
    counter: u64,
    timestamp: u64,
    samples: [u8; 4],
) -> Result<Vec<u8>, AllocError> {
    let words = [
        HEADER | 7,
        COUNTER | counter,
        SIZE | 4,
        OFFSET,
        LENGTH | 4,
        TIMESTAMP | timestamp,
        ANTENNA,
        VOLTAGES,
    ];
    packet(alloc, &words, &samples)
}

/// A heap that says that the stream stops.
pub fn stop(alloc: Global, counter: u64) -> Result<Vec<u8>, AllocError> {
    let words = [HEADER | 5, COUNTER | counter, SIZE, OFFSET, LENGTH, STOP];
    packet(alloc, &words, &[])
}

/// A part of a heap, in a packet that says no size and has no items.
pub fn piece(
    alloc: Global,
    counter: u64,
    offset: u64,
    payload: &[u8],
) -> Result<Vec<u8>, AllocError> {
    let words = [
        HEADER | 3,
        COUNTER | counter,
        OFFSET | offset,
        LENGTH | payload.len() as u64,
    ];
    packet(alloc, &words, payload)
}

/// A part of a heap of antenna 0 at timestamp 0, in a packet that says the size and the items.
pub fn first_piece(
    alloc: Global,
    counter: u64,
    offset: u64,
    payload: &[u8],
) -> Result<Vec<u8>, AllocError> {
    let words = [
        HEADER | 7,
        COUNTER | counter,
        SIZE | 4,
        OFFSET | offset,
        LENGTH | payload.len() as u64,
        TIMESTAMP,
        ANTENNA,
        VOLTAGES,
    ];
    packet(alloc, &words, payload)
}
