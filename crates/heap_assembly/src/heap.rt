//! A whole heap and its items, read in place.

ghost use Rattle.std.specs.Prelude.{◌≡◌, ◌<◌, ◌≤◌, ◌+◌, false, length, drop, slice_get, IfSome, option_map};
ghost use Rattle.std.specs.List.{list_any};
ghost use Rattle.corr_model.specs.Streams.{group_of};
ghost use Rattle.corr_model.specs.Items.{content_end, content_at, content, item, number_item};
ghost use Rattle.corr_model.specs.Items.{addressed_content};

use corr_model::Pointer;
use spead_wire::short_number;

/// A whole heap, read in place: its counter, its distinct pointers and its payload.
#[derive(Drop)]
pub struct Heap<'a> {
    pub(crate) counter: u64,
    pub(crate) payload: &'a [u8],
    pub(crate) pointers: &'a [Pointer],
    ghost few: { length pointers.now ≤ 64 },
}

impl<'a> Heap<'a> {
    ghost use Rattle.heap_assembly.specs.Heaps.{whole_of, is_addressed_at};

    /// The heap with this counter, this payload and these pointers.
    pub(crate) fn new(counter: u64, payload: &'a [u8], pointers: &'a [Pointer]) -> Self
        requires few { length pointers.now ≤ 64 }
        ensures { whole_of result
            ≡ record { counter = counter; pointers = pointers.now; payload = payload.now } }
    {
        Heap {
            counter,
            payload,
            pointers,
        }
    }

    /// The heap counter.
    pub fn counter(&self) -> u64
        ensures { result ≡ (whole_of self.now).counter }
    {
        self.counter
    }

    /// The number of bytes of the payload.
    pub fn size(&self) -> u64
        ensures { result ≡ length (whole_of self.now).payload }
    {
        self.payload.len() as u64
    }

    /// The payload.
    pub fn payload(&self) -> &'a [u8]
        ensures { result.now ≡ (whole_of self.now).payload }
    {
        self.payload
    }

    /// The heap's distinct pointers in the order of their first standing.
    pub fn pointers(&self) -> &'a [Pointer]
        ensures value { result.now ≡ (whole_of self.now).pointers }
        ensures few { length result.now ≤ 64 }
    {
        self.pointers
    }

    /// The content of the addressed pointer at a place: none past the payload's end, empty where
    /// a later pointer is addressed at the same offset, else the bytes up to the next offset.
    pub fn content(&self, place: usize) -> Option<&'a [u8]>
        requires place { place < length (whole_of self.now).pointers }
        requires addressed { IfSome (slice_get (whole_of self.now).pointers place)
            (λ p. p.immediate ≡ false) }
        ensures { IfSome (slice_get (whole_of self.now).pointers place)
            (λ p. option_map (λ x. x.now) result
            ≡ content (group_of (whole_of self.now)) (place, p)) }
    {
        let pointers = self.pointers;
        let offset = pointers[place].value;
        self.content_at(place, offset)
    }

    /// The place of the item with this id: that of the first pointer with it.
    pub fn item(&self, id: u32) -> Option<usize>
        ensures { result
            ≡ option_map (λ placed. placed.0) (item id (group_of (whole_of self.now))) }
    {
        self.find(id).map(|(place, _)| place)
    }

    /// The number of an id: an immediate item's value, or an addressed item's content of one to
    /// eight bytes.
    pub fn number(&self, id: u32) -> Option<u64>
        ensures { result ≡ number_item (group_of (whole_of self.now)) id }
    {
        let (place, pointer) = self.find(id)?;
        if pointer.immediate {
            return Some(pointer.value);
        }
        short_number(self.content_at(place, pointer.value)?)
    }

    /// The content of an id's item, where that is addressed and has content.
    pub fn addressed(&self, id: u32) -> Option<&'a [u8]>
        ensures { option_map (λ x. x.now) result
            ≡ addressed_content (group_of (whole_of self.now)) id }
    {
        let (place, pointer) = self.find(id)?;
        if pointer.immediate {
            return None;
        }
        self.content_at(place, pointer.value)
    }

    // The first pointer with the id, and its place.
    fn find(&self, id: u32) -> Option<(usize, Pointer)>
        ensures value { result ≡ item id (group_of (whole_of self.now)) }
        ensures place { IfSome result
            (λ placed. placed.0 < length (whole_of self.now).pointers) }
    {
        self.pointers
            .iter()
            .copied()
            .enumerate()
            .find(|(_, pointer)| pointer.id == id)
    }

    // What `content` says of a pointer at this place and offset.
    fn content_at(&self, place: usize, offset: u64) -> Option<&'a [u8]>
        requires { place < length (whole_of self.now).pointers }
        ensures { option_map (λ x. x.now) result
            ≡ content_at (group_of (whole_of self.now)) place offset }
    {
        if self.size() < offset {
            return None;
        }
        if self.is_shared(place, offset) {
            return Some(&[]);
        }
        let end = self.content_end(offset);
        Some(&self.payload[offset as usize..end as usize])
    }

    // Whether a pointer after this place is addressed at the offset.
    fn is_shared(&self, place: usize, offset: u64) -> bool
        requires { place < length (whole_of self.now).pointers }
        ensures { result
            ≡ list_any (is_addressed_at offset) (drop (place + 1) (whole_of self.now).pointers) }
    {
        let (_, later) = self.pointers.split_at(place + 1);
        later
            .iter()
            .any(|pointer| !pointer.immediate && pointer.value == offset)
    }

    // The least offset above this one of an addressed pointer, or the payload's end before that.
    fn content_end(&self, offset: u64) -> u64
        requires { offset ≤ length (whole_of self.now).payload }
        ensures value { result ≡ content_end (group_of (whole_of self.now)) offset }
        ensures low { offset ≤ result }
        ensures high { result ≤ length (whole_of self.now).payload }
    {
        self.pointers
            .iter()
            .filter(|pointer| !pointer.immediate && offset < pointer.value)
            .map(|pointer| pointer.value)
            .fold(self.size(), |end, value| end.min(value))
    }
}
