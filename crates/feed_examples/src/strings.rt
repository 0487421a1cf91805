//! The byte strings of the examples.

use crate::packets::{
    COUNTER, DESCRIPTOR, HEADER, LENGTH, OFFSET, SIZE, TIMESTAMP, first_piece, heap, packet, piece,
};
use std::alloc::{AllocError, Global};
use std::test::Fail;

/// Samples of the heaps at 0 and at 1.
pub const AT_ZERO: [u8; 4] = [1, 2, 3, 0];

pub const AT_ONE: [u8; 4] = [0xff, 0, 0, 1];

/// One heap of four bytes with a part that overlaps another, one of another size, and one past the
/// size; then a heap past the limit of 4,100 bytes, and one with 65 pointers.
pub fn dropped(alloc: Global) -> Result<Vec<Vec<u8>>, Fail> {
    let past_limit = [HEADER | 4, COUNTER | 2, SIZE | 4101, OFFSET, LENGTH | 1];
    Ok(vec![in alloc;
        first_piece(alloc, 1, 0, &[1, 2])?,
        piece(alloc, 1, 1, &[2, 3])?,
        other_size(alloc)?,
        piece(alloc, 1, 3, &[4, 5])?,
        piece(alloc, 1, 2, &[3, 0])?,
        packet(alloc, &past_limit, &[1])?,
        many_pointers(alloc)?,
    ]?)
}

// The second half of heap 1, which says that the heap has eight bytes.
fn other_size(alloc: Global) -> Result<Vec<u8>, AllocError> {
    let words = [HEADER | 4, COUNTER | 1, SIZE | 8, OFFSET | 2, LENGTH | 2];
    packet(alloc, &words, &[3, 0])
}

// A packet of heap 3 with 65 pointers, of which no two are the same.
fn many_pointers(alloc: Global) -> Result<Vec<u8>, AllocError> {
    let mut words = Vec::new(alloc);
    words.extend_from_slice(&[HEADER | 68, COUNTER | 3, OFFSET, LENGTH])?;
    for value in 0..65 {
        words.push(TIMESTAMP | value)?;
    }
    packet(alloc, &words, &[])
}

/// The first halves of the heaps 1, 2 and 3, and the second of heap 1.
pub fn halves(alloc: Global) -> Result<Vec<Vec<u8>>, Fail> {
    Ok(vec![in alloc;
        first_piece(alloc, 1, 0, &[1, 2])?,
        first_piece(alloc, 2, 0, &[1, 2])?,
        first_piece(alloc, 3, 0, &[1, 2])?,
        first_piece(alloc, 1, 2, &[3, 0])?,
    ]?)
}

/// Ten strings that are no packet, each by another rule, and a heap.
pub fn refused(alloc: Global) -> Result<Vec<Vec<u8>>, AllocError> {
    let mut strings = Vec::new(alloc);
    let mut short = heap(alloc, 1, 0, AT_ZERO)?;
    short.truncate(7);
    strings.push(short)?;
    strings.push(changed(alloc, 0, &[0x54])?)?;
    strings.push(changed(alloc, 1, &[3])?)?;
    strings.push(changed(alloc, 2, &[4, 4])?)?;
    strings.push(changed(alloc, 7, &[8])?)?;
    for pointer in [8, 24, 32] {
        strings.push(changed(alloc, pointer, &[0; 8])?)?;
    }
    let mut longer = heap(alloc, 1, 0, AT_ZERO)?;
    longer.push(0)?;
    strings.push(longer)?;
    strings.push(changed(alloc, 23, &[3])?)?;
    strings.push(heap(alloc, 1, 0, AT_ZERO)?)?;
    Ok(strings)
}

// The heap with other bytes from a place on.
fn changed(alloc: Global, at: usize, others: &[u8]) -> Result<Vec<u8>, AllocError> {
    let mut bytes = heap(alloc, 1, 0, AT_ZERO)?;
    for (place, other) in others.iter().enumerate() {
        if let Some(byte) = bytes.get_mut(at.saturating_add(place)) {
            *byte = *other;
        }
    }
    Ok(bytes)
}

/// A heap with a descriptor of the voltages that has their id, a name and a description in numpy's
/// form, and no type.
pub fn redescription(alloc: Global) -> Result<Vec<u8>, AllocError> {
    let own = [
        HEADER | 7,
        COUNTER | 1,
        SIZE | 3,
        OFFSET,
        LENGTH | 3,
        0x8014_0000_0000_4300,
        0x0010_0000_0000_0000,
        0x0015_0000_0000_0001,
    ];
    let descriptor = packet(alloc, &own, b"v{}")?;
    let words = [
        HEADER | 5,
        COUNTER | 1,
        SIZE | 67,
        OFFSET,
        LENGTH | 67,
        DESCRIPTOR,
    ];
    packet(alloc, &words, &descriptor)
}

// A descriptor of a number of 48 bits without a sign: its id, and its type at 0.
fn number(alloc: Global, id: u64) -> Result<Vec<u8>, AllocError> {
    let words = [
        HEADER | 6,
        COUNTER | 1,
        SIZE | 3,
        OFFSET,
        LENGTH | 3,
        0x8014_0000_0000_0000 | id,
        0x0013_0000_0000_0000,
    ];
    packet(alloc, &words, &[b'u', 0, 48])
}

// The descriptor of the voltages: their id, their type at 0, and their shape at 3, which is one
// channel, one spectrum, two polarisations, two parts.
fn voltages(alloc: Global) -> Result<Vec<u8>, AllocError> {
    let words = [
        HEADER | 7,
        COUNTER | 1,
        SIZE | 31,
        OFFSET,
        LENGTH | 31,
        0x8014_0000_0000_4300,
        0x0013_0000_0000_0000,
        0x0012_0000_0000_0003,
    ];
    let mut bytes = packet(alloc, &words, &[b'i', 0, 8])?;
    for extent in [1, 1, 2, 2] {
        bytes.extend_from_slice(&[0, 0, 0, 0, 0, 0, extent])?;
    }
    Ok(bytes)
}

/// A heap with the descriptors of timestamp, antenna and voltages, which have 59, 59 and 95 bytes.
pub fn description(alloc: Global) -> Result<Vec<u8>, AllocError> {
    let words = [
        HEADER | 7,
        COUNTER | 2,
        SIZE | 213,
        OFFSET,
        LENGTH | 213,
        DESCRIPTOR,
        DESCRIPTOR | 59,
        DESCRIPTOR | 118,
    ];
    let mut bytes = packet(alloc, &words, &number(alloc, 0x1600)?)?;
    bytes.extend_from_slice(&number(alloc, 0x4101)?)?;
    bytes.extend_from_slice(&voltages(alloc)?)?;
    Ok(bytes)
}
