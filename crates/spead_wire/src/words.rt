//! The item pointers as they stand in a packet, those that are not of the heap included.

ghost use Rattle.std.specs.Prelude.{◌≡◌, ◌<◌, ◌≤◌, ◌+◌, ◌*◌, ◌^◌, ℕ, List, length, drop, map, IfSome};
ghost use Rattle.corr_model.specs.Packets.{pointer_of, words_in, last_value};

use crate::layout::MODE;
use crate::special::Special;
use byteorder::{BigEndian, ByteOrder};
use corr_model::Pointer;
use std::marker::Model;

/// The item pointer in eight bytes.
fn read_pointer(word: &[u8]) -> Pointer
    requires { length word.now ≡ 8 }
    ensures { result ≡ pointer_of word.now }
{
    let (front, value) = word.split_at(2);
    let front = BigEndian::read_u16(front);
    Pointer {
        immediate: MODE <= front,
        id: u32::from(front % MODE),
        value: BigEndian::read_u48(value),
    }
}

/// The item pointers that are left, each in eight bytes.
#[derive(Drop)]
pub(crate) struct Words<'a> {
    left: usize,
    rest: &'a [u8],
}

impl<'a> Model for Words<'a> {
    ghost use Rattle.corr_model.specs.declared.pointer.Pointer.{Pointer};
    ghost use Rattle.std.specs.Prelude.{◌≤◌, ◌*◌, List, length, map};
    ghost use Rattle.corr_model.specs.Packets.{pointer_of, words_in};

    ghost Value = { List Pointer };

    ghost view = { λ s. map pointer_of (words_in s.left s.rest.now) };

    ghost invariant = { λ s. 8 * s.left ≤ length s.rest.now };
}

impl<'a> Words<'a> {
    /// The first `count` item pointers of the bytes.
    pub(crate) fn new(count: usize, bytes: &'a [u8]) -> Self
        requires { 8 * count ≤ length bytes.now }
        ensures { result ≡ map pointer_of (words_in count bytes.now) }
    {
        Words {
            left: count,
            rest: bytes,
        }
    }

    /// The same item pointers, from the first that is left on.
    pub(crate) fn iter(&self) -> Words<'a>
        ensures { result ≡ self.now }
    {
        Words {
            left: self.left,
            rest: self.rest,
        }
    }

    /// What the special pointers say, each read once.
    pub(crate) fn special(&self) -> Special
        ensures counter { result.counter ≡ last_value 1 self.now }
        ensures size { result.size ≡ last_value 2 self.now }
        ensures offset { result.offset ≡ last_value 3 self.now }
        ensures payload_len { result.payload_len ≡ last_value 4 self.now }
    {
        let mut special = Special::new();
        for pointer in self.iter() {
            special.note(&pointer);
        }
        special
    }
}

impl Iterator for Words<'_> {
    ghost use Rattle.std.specs.Iterator.{YieldsFirst, item_count};

    type Item = Pointer;

    ghost next_gives = { YieldsFirst (λ s. s) };

    ghost remaining = { item_count (λ s. s) };

    fn next(&mut self) -> Option<Pointer> {
        if self.left == 0 {
            return None;
        }
        let (word, rest) = self.rest.split_at(8);
        self.left -= 1;
        self.rest = rest;
        Some(read_pointer(word))
    }
}
