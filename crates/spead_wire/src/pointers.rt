//! The heap's pointers of a packet, in their order.

ghost use Rattle.std.specs.Prelude.{◌≡◌, List, filter};
ghost use Rattle.corr_model.specs.Packets.{is_own};

use crate::words::Words;
use corr_model::Pointer;
use std::marker::Model;

// The greatest id that is kept for the protocol itself.
const LAST_SPECIAL_ID: u32 = 4;

/// The heap's pointers that are left, in the order of the packet.
#[derive(Drop)]
pub struct Pointers<'a> {
    words: Words<'a>,
}

impl<'a> Model for Pointers<'a> {
    ghost use Rattle.corr_model.specs.declared.pointer.Pointer.{Pointer};
    ghost use Rattle.std.specs.Prelude.{List, filter};
    ghost use Rattle.corr_model.specs.Packets.{is_own};

    ghost Value = { List Pointer };

    ghost view = { λ s. filter is_own s.words };
}

impl<'a> Pointers<'a> {
    pub(crate) fn new(words: Words<'a>) -> Self
        ensures { result ≡ filter is_own words.entry }
    {
        Pointers { words }
    }
}

impl Iterator for Pointers<'_> {
    ghost use Rattle.std.specs.Iterator.{YieldsFirst, item_count};

    type Item = Pointer;

    ghost next_gives = { YieldsFirst (λ s. s) };

    ghost remaining = { item_count (λ s. s) };

    fn next(&mut self) -> Option<Pointer> {
        self.words.find(|pointer| LAST_SPECIAL_ID < pointer.id)
    }
}
