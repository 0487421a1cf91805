//! The descriptor table of a stream.

ghost use Rattle.std.specs.Prelude.{◌≡◌, ◌==◌, ◌<◌, ◌≤◌, ◌+◌, ◌++◌, ◌∷◌, [], ℕ, List, true, false, length, map, position, count_by, slice_get, option_map, IfSome, Ok};
ghost use Rattle.std.specs.List.{find};
ghost use Rattle.corr_model.specs.declared.plan.Plan.{Plan};
ghost use Rattle.corr_model.specs.Descriptors.{DescribedItem, described_in};
ghost use Rattle.corr_model.specs.Streams.{group_of, contents_of};
ghost use Rattle.corr_model.specs.Tables.{TableStandsFor, table_entry, readable_descriptors, bad_count};
ghost use Rattle.corr_model.specs.Tables.{scalar, voltages};
ghost use Rattle.heap_assembly.specs.Heaps.{whole_of};
ghost use Rattle.item_group.specs.Holding.{HoldsDescriptors};
ghost use Rattle.item_group.specs.Applying.{taken_as, descriptor_at};
ghost use Rattle.item_group.specs.Counting.{is_refused, full_count};

use crate::applied::{Applied, Taken};
use crate::ids;
use corr_model::Plan;
use heap_assembly::Heap;
use spead_types::{Descriptor, Dim, ItemType, Name, Shape, Types, read_descriptor};
use std::marker::Model;

// The most entries of a table.
const MOST: usize = 64;

/// The descriptor table of a stream: an entry for each id that is described, at most 64.
#[derive(Drop)]
pub struct Table {
    entries: [Descriptor; MOST],
    len: usize,
}

impl Model for Table {
    ghost use Rattle.std.specs.Prelude.{◌≤◌, List, take};
    ghost use Rattle.corr_model.specs.Descriptors.{DescribedItem};

    ghost Value = { List DescribedItem };

    ghost view = { λ t. take t.len t.entries };

    ghost invariant = { λ t. t.len ≤ 64 };
}

impl Table {
    /// The table in which nothing is described.
    pub fn empty() -> Self
        ensures entries { result ≡ [] }
        ensures stands { (plan : Plan) → plan.preset ≡ false → TableStandsFor plan result [] }
    {
        Table {
            entries: [unsigned(0); MOST],
            len: 0,
        }
    }

    /// The table in which timestamp, antenna and voltages are described, as the plan has them.
    pub fn preset(plan: &Plan) -> Self
        ensures entries { result ≡ scalar 0x1600 ∷ scalar 0x4101 ∷ voltages plan.now ∷ [] }
        ensures stands { plan.now.preset ≡ true → TableStandsFor plan.now result [] }
    {
        let mut entries = [unsigned(0); MOST];
        entries[0] = unsigned(ids::TIMESTAMP);
        entries[1] = unsigned(ids::ANTENNA);
        entries[2] = voltages(plan);
        Table { entries, len: 3 }
    }

    /// The entry of an id, if it has one.
    pub fn get(&self, id: u32) -> Option<&Descriptor>
        ensures found { option_map (λ d. d.now) result ≡ find (λ d. d.id == id) self.now }
        ensures entry { (plan : Plan) (contents : List (List ℕ))
            → TableStandsFor plan self.now contents
            → option_map (λ d. d.now) result
            ≡ table_entry (readable_descriptors plan contents) id }
    {
        self.entries[..self.len].iter().find(|entry| entry.id == id)
    }

    /// Reads each descriptor of the heap in order, the content of an addressed pointer with id 5;
    /// one that has none counts as empty. A readable one is from then on the entry of its id. It
    /// changes nothing where it is refused, or where its id would be the 65th.
    pub fn apply(&mut self, heap: &Heap<'_>) -> Applied
        ensures stands { (plan : Plan) (before : List (List ℕ))
            → TableStandsFor plan self.old before
            → TableStandsFor plan self.new (before ++ contents_of (whole_of heap.now)) }
        ensures all { result.changed + result.refused + result.full
            ≡ length (contents_of (whole_of heap.now)) }
        ensures few { result.changed + result.refused + result.full ≤ 64 }
        ensures refused { result.refused
            ≡ count_by is_refused (contents_of (whole_of heap.now)) }
        ensures full { (plan : Plan) (before : List (List ℕ)) → TableStandsFor plan self.old before
            → result.full ≡ full_count plan before (contents_of (whole_of heap.now)) }
        ensures bad { (plan : Plan) (before : List (List ℕ)) → TableStandsFor plan self.old before
            → bad_count plan (before ++ contents_of (whole_of heap.now))
            ≡ bad_count plan before + (result.refused + result.full) }
    {
        let mut applied = Applied {
            changed: 0,
            refused: 0,
            full: 0,
        };
        for place in 0..heap.pointers().len() {
            if let Some(content) = descriptor_at(heap, place) {
                let taken = self.take(content);
                applied = applied.with(taken);
            }
        }
        applied
    }

    // Reads a content, and makes it the entry of its id where it is a descriptor and has room.
    fn take(&mut self, content: &[u8]) -> Taken
        ensures stands { (plan : Plan) (before : List (List ℕ))
            → TableStandsFor plan self.old before
            → TableStandsFor plan self.new (before ++ content.now ∷ []) }
        ensures taken { result
            ≡ taken_as (map (λ d. d.id) self.old) (described_in content.now) }
    {
        match read_descriptor(content) {
            Ok(descriptor) => self.put(descriptor),
            Err(_) => Taken::Refused,
        }
    }

    // Makes the descriptor the entry of its id, where there is one or room for one.
    fn put(&mut self, descriptor: Descriptor) -> Taken
        ensures holds { (ds : List DescribedItem) → HoldsDescriptors self.old ds
            → HoldsDescriptors self.new (ds ++ descriptor ∷ []) }
        ensures taken { result ≡ taken_as (map (λ d. d.id) self.old) (Ok descriptor) }
    {
        match self.place(descriptor.id) {
            Some(place) => self.entries[place] = descriptor,
            None if self.len == MOST => return Taken::Full,
            None => {
                self.entries[self.len] = descriptor;
                self.len += 1;
            }
        }
        Taken::Changed
    }

    // The place of the entry of an id, if it has one.
    fn place(&self, id: u32) -> Option<usize>
        ensures { result ≡ position (λ d. d.id == id) self.now }
    {
        self.entries[..self.len]
            .iter()
            .position(|entry| entry.id == id)
    }
}

// The content of the pointer at a place, where that is a descriptor's.
fn descriptor_at<'a>(heap: &Heap<'a>, place: usize) -> Option<&'a [u8]>
    requires { place < length (whole_of heap.now).pointers }
    ensures { IfSome (slice_get (whole_of heap.now).pointers place)
        (λ p. option_map (λ x. x.now) result
        ≡ descriptor_at (group_of (whole_of heap.now)) (place, p)) }
{
    let pointer = heap.pointers()[place];
    if pointer.immediate || pointer.id != ids::DESCRIPTOR {
        return None;
    }
    Some(heap.content(place).unwrap_or(&[]))
}

// An unsigned number of 48 bits with this id, without a name.
fn unsigned(id: u32) -> Descriptor
    ensures { result ≡ scalar id }
{
    Descriptor {
        id,
        shape: Shape::new(&[]),
        types: Types::new(&[ItemType {
            letter: b'u',
            bits: 48,
        }]),
        name: Name::new(&[]),
    }
}

// The plan's voltages, without a name.
fn voltages(plan: &Plan) -> Descriptor
    ensures { result ≡ voltages plan.now }
{
    Descriptor {
        id: ids::VOLTAGES,
        shape: Shape::new(&[
            Dim::Fixed(plan.channels.into()),
            Dim::Fixed(plan.spectra.into()),
            Dim::Fixed(2),
            Dim::Fixed(2),
        ]),
        types: Types::new(&[ItemType {
            letter: b'i',
            bits: 8,
        }]),
        name: Name::new(&[]),
    }
}
