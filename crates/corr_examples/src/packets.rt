//! The byte strings that a test gives to a run: packets word by word, and the list of one antenna.

ghost use Rattle.std.specs.Prelude.{◌≤◌, All};
ghost use Rattle.std.specs.Vec.{vec_len};

use corr_model::Unheard;
use corr_site::ListSource;
use std::alloc::{AllocError, Global};
use std::test::Fail;

// A packet's first word, without the number of its item pointers.
pub const HEADER: u64 = 0x5304_0206_0000_0000;

pub const COUNTER: u64 = 0x8001_0000_0000_0000;

pub const SIZE: u64 = 0x8002_0000_0000_0000;

pub const OFFSET: u64 = 0x8003_0000_0000_0000;

pub const LENGTH: u64 = 0x8004_0000_0000_0000;
// Addressed, with the offset of a descriptor.
pub const DESCRIPTOR: u64 = 0x0005_0000_0000_0000;

pub const STOP: u64 = 0x8006_0000_0000_0002;

pub const TIMESTAMP: u64 = 0x9600_0000_0000_0000;
// Addressed, with the offset of the timestamp's bytes.
pub const TIMESTAMP_BYTES: u64 = 0x1600_0000_0000_0000;

pub const ANTENNA: u64 = 0xc101_0000_0000_0000;
// Addressed, with the offset of the samples.
pub const VOLTAGES: u64 = 0x4300_0000_0000_0000;

/// The words, each big-endian, and then the payload.
pub fn packet(alloc: Global, words: &[u64], payload: &[u8]) -> Result<Vec<u8>, AllocError> {
    let mut bytes = Vec::new(alloc);
    for word in words {
        bytes.extend_from_slice(&word.to_be_bytes())?;
    }
    bytes.extend_from_slice(payload)?;
    Ok(bytes)
}

/// A heap of one packet: one channel and one spectrum, real before imaginary, polarisation 0 first.
pub fn heap(
    alloc: Global,
    counter: u64,
    timestamp: u64,
    antenna: u64,
    samples: [u8; 4],
) -> Result<Vec<u8>, AllocError> {
    let words = [
        HEADER | 7,
        COUNTER | counter,
        SIZE | 4,
        OFFSET,
        LENGTH | 4,
        TIMESTAMP | timestamp,
        ANTENNA | antenna,
        VOLTAGES,
    ];
    packet(alloc, &words, &samples)
}

/// The byte strings of one antenna.
#[derive(Drop)]
pub struct Strings {
    list: Vec<Vec<u8>>,
    ghost short: { All (λ v. vec_len v ≤ 65535) list.items },
}

impl Strings {
    ghost use Rattle.corr_examples.specs.Fresh.{IsFresh};

    /// No byte string.
    pub fn new(alloc: Global) -> Strings {
        Strings {
            list: Vec::new(alloc),
        }
    }

    /// Adds one, which has at most 65,535 bytes.
    pub fn add(&mut self, bytes: Vec<u8>) -> Result<(), Fail> {
        if 65535 < bytes.len() {
            return Err(Fail::from("too long for a datagram"));
        }
        self.list.push(bytes)?;
        Ok(())
    }

    /// The source that gives them. Its calls of `next` with these numbers fail, and its `begin` if
    /// it is said so.
    pub fn into_source(self, fails: Vec<u64>, begin_fails: bool) -> ListSource<Unheard>
        ensures { IsFresh result }
    {
        ListSource::new(self.list, fails, begin_fails)
    }
}

/// Two heaps of antenna 0: (1+2i, 3) at 0 and (-1, i) at 1.
pub fn two_heaps(alloc: Global) -> Result<Strings, Fail> {
    let mut strings = Strings::new(alloc);
    strings.add(heap(alloc, 1, 0, 0, [1, 2, 3, 0])?)?;
    strings.add(heap(alloc, 2, 1, 0, [0xff, 0, 0, 1])?)?;
    Ok(strings)
}

/// One heap of antenna 1: (i, 2-i) at 0. The heap at 1 is lost.
pub fn one_heap(alloc: Global) -> Result<Strings, Fail> {
    let mut strings = Strings::new(alloc);
    strings.add(heap(alloc, 1, 0, 1, [0, 1, 2, 0xff])?)?;
    Ok(strings)
}
