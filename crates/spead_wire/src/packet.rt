//! A packet, read in place.

ghost use Rattle.std.specs.Prelude.{◌≡◌, ◌<◌, ◌≤◌, ◌+◌, ◌^◌, length, filter, IfSome, All};
ghost use Rattle.corr_model.specs.Packets.{is_own};
ghost use Rattle.spead_wire.specs.Widths.{IsHeapPointer, HasWidths};

use crate::pointers::Pointers;
use crate::words::Words;
use std::marker::Model;

/// What a packet says. Pointers and payload stay in the bytes that it was read from.
#[derive(Drop)]
pub struct Packet<'a> {
    pub(crate) counter: u64,
    pub(crate) size: Option<u64>,
    pub(crate) offset: u64,
    pub(crate) words: Words<'a>,
    pub(crate) payload: &'a [u8],
}

impl<'a> Model for Packet<'a> {
    ghost use Rattle.corr_model.specs.Packets.{Parts, is_own};
    ghost use Rattle.std.specs.Prelude.{filter};
    ghost use Rattle.spead_wire.specs.Widths.{HasWidths};

    ghost Value = { Parts };

    ghost view = { λ s. record {
      counter = s.counter;
      size = s.size;
      offset = s.offset;
      pointers = filter is_own s.words;
      payload = s.payload.now;
    } };

    ghost invariant = { λ s.
        HasWidths (record {
          counter = s.counter;
          size = s.size;
          offset = s.offset;
          pointers = filter is_own s.words;
          payload = s.payload.now;
        }) };
}

impl<'a> Packet<'a> {
    /// The counter of the packet's heap.
    pub fn counter(&self) -> u64
        ensures value { result ≡ self.now.counter }
        ensures small { result < 2 ^ 48 }
    {
        self.counter
    }

    /// The number of bytes of the whole heap, where the packet says it.
    pub fn size(&self) -> Option<u64>
        ensures value { result ≡ self.now.size }
        ensures small { IfSome result (λ size. size < 2 ^ 48) }
        ensures within { IfSome result
            (λ size. self.now.offset + length self.now.payload ≤ size) }
    {
        self.size
    }

    /// The place of the payload in the heap, in bytes.
    pub fn offset(&self) -> u64
        ensures value { result ≡ self.now.offset }
        ensures small { result < 2 ^ 48 }
    {
        self.offset
    }

    /// The bytes after the item pointers.
    pub fn payload(&self) -> &'a [u8]
        ensures value { result.now ≡ self.now.payload }
        ensures small { length result.now < 2 ^ 48 }
    {
        self.payload
    }

    /// The heap's pointers in order: all but null pointers and those with ids 1 to 4.
    pub fn pointers(&self) -> Pointers<'a>
        ensures value { result ≡ self.now.pointers }
        ensures few { length result < 2 ^ 16 }
        ensures own { All IsHeapPointer result }
    {
        Pointers::new(self.words.iter())
    }
}
