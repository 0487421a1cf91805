//! What a packet says of itself: its special item pointers, those with ids 1 to 4.

ghost use Rattle.std.specs.Prelude.{◌≡◌, None};
ghost use Rattle.corr_model.specs.Packets.{later_value};

use crate::layout::{COUNTER_ID, LENGTH_ID, OFFSET_ID, SIZE_ID};
use corr_model::Pointer;

/// The value of the last immediate pointer of each special id, where there is one.
#[derive(Clone, Copy)]
pub(crate) struct Special {
    pub(crate) counter: Option<u64>,
    pub(crate) size: Option<u64>,
    pub(crate) offset: Option<u64>,
    pub(crate) payload_len: Option<u64>,
}

impl Special {
    /// What no pointer says.
    pub(crate) fn new() -> Self
        ensures counter { result.counter ≡ None }
        ensures size { result.size ≡ None }
        ensures offset { result.offset ≡ None }
        ensures payload_len { result.payload_len ≡ None }
    {
        Special {
            counter: None,
            size: None,
            offset: None,
            payload_len: None,
        }
    }

    /// Takes a pointer more: a later value takes the place of an earlier one.
    pub(crate) fn note(&mut self, pointer: &Pointer)
        ensures counter { self.new.counter ≡ later_value 1 self.old.counter pointer.now }
        ensures size { self.new.size ≡ later_value 2 self.old.size pointer.now }
        ensures offset { self.new.offset ≡ later_value 3 self.old.offset pointer.now }
        ensures payload_len { self.new.payload_len ≡ later_value 4 self.old.payload_len pointer.now }
    {
        if !pointer.immediate {
            return;
        }
        match pointer.id {
            COUNTER_ID => self.counter = Some(pointer.value),
            SIZE_ID => self.size = Some(pointer.value),
            OFFSET_ID => self.offset = Some(pointer.value),
            LENGTH_ID => self.payload_len = Some(pointer.value),
            _ => {}
        }
    }
}
