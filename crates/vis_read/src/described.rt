//! What the descriptor heap describes.

ghost use Rattle.std.specs.Prelude.{◌≡◌, ◌<◌, ◌≤◌, true, ◌++◌, ◌∷◌, [], false, List, length, slice_get, IfSome, option_map};
ghost use Rattle.corr_model.specs.Descriptors.{DescribedItem};
ghost use Rattle.corr_model.specs.Streams.{group_of, contents_of};
ghost use Rattle.heap_assembly.specs.Heaps.{whole_of};
ghost use Rattle.item_group.specs.Applying.{descriptor_at};
ghost use Rattle.vis_read.specs.Standing.{AreFew};
ghost use Rattle.vis_read.specs.Readings.{sizes_by, sizes_in, length_of, are_in_range, is_described, is_type};
ghost use Rattle.corr_model.specs.Lists.{passes};
ghost use Rattle.corr_model.specs.Tables.{is_fixed, has_shape};
ghost use Rattle.vis_read.specs.Describing.{IsLastOf, Describes};

use crate::turn::Sizes;
use corr_model::{DescRefusal, Dim, ItemType};
use heap_assembly::Heap;
use spead_types::{Descriptor, read_descriptor};

const TIMESTAMP: u32 = 0x1600;

const VISIBILITIES: u32 = 0x1800;

const MISSING: u32 = 0x1801;

/// The last descriptor of each id that an output describes.
#[derive(Clone, Copy)]
pub(crate) struct Described {
    pub(crate) timestamp: Option<Descriptor>,
    pub(crate) visibilities: Option<Descriptor>,
    pub(crate) missing: Option<Descriptor>,
}

impl Described {
    // The sizes that these give, where they are those of an output.
    pub(crate) fn sizes(&self) -> Option<Sizes>
        ensures few { IfSome result (λ s. AreFew s) }
        ensures value { result
            ≡ sizes_by self.now.timestamp self.now.visibilities self.now.missing }
    {
        let (channels, baselines) = match &self.visibilities {
            Some(descriptor) => first_lengths(descriptor.shape.as_slice()),
            None => (0, 0),
        };
        if !is_in_range(channels, baselines) {
            return None;
        }
        if !is_timestamp(&self.timestamp)
            || !is_visibilities(channels, baselines, &self.visibilities)
            || !is_missing(baselines, &self.missing)
        {
            return None;
        }
        Some(Sizes {
            channels: channels as u32,
            baselines: baselines as u32,
        })
    }

    // With one descriptor more.
    fn with(self, descriptor: Descriptor) -> Described
        ensures { (ds : List DescribedItem) → IsLastOf self ds
            → IsLastOf result (ds ++ descriptor ∷ []) }
    {
        let mut all = self;
        if descriptor.id == TIMESTAMP {
            all.timestamp = Some(descriptor);
        }
        if descriptor.id == VISIBILITIES {
            all.visibilities = Some(descriptor);
        }
        if descriptor.id == MISSING {
            all.missing = Some(descriptor);
        }
        all
    }
}

// What a whole heap describes, or the refusal of its first descriptor that is refused.
pub(crate) fn read_all(heap: &Heap<'_>) -> Result<Described, DescRefusal>
    ensures { Describes (contents_of (whole_of heap.now)) result }
{
    let mut all = Described {
        timestamp: None,
        visibilities: None,
        missing: None,
    };
    for place in 0..heap.pointers().len() {
        if let Some(content) = descriptor_at(heap, place) {
            match read_descriptor(content) {
                Ok(descriptor) => all = all.with(descriptor),
                Err(refusal) => return Err(refusal),
            }
        }
    }
    Ok(all)
}

// The content of the pointer at a place, where that is a descriptor's.
fn descriptor_at<'a>(heap: &Heap<'a>, place: usize) -> Option<&'a [u8]>
    requires { place < length (whole_of heap.now).pointers }
    ensures { IfSome (slice_get (whole_of heap.now).pointers place)
        (λ p. option_map (λ x. x.now) result
        ≡ descriptor_at (group_of (whole_of heap.now)) (place, p)) }
{
    let pointer = heap.pointers()[place];
    if pointer.immediate || pointer.id != 5 {
        return None;
    }
    Some(heap.content(place).unwrap_or(&[]))
}

// The lengths of the first two dimensions; 0 for one that is not there, or may vary.
fn first_lengths(dims: &[Dim]) -> (u64, u64)
    ensures { record { channels = result.0; baselines = result.1 } ≡ sizes_in dims.now }
{
    (
        length_of(dims.get(0).copied()),
        length_of(dims.get(1).copied()),
    )
}

// The length of a dimension; 0 where there is none, or it may vary.
fn length_of(dim: Option<Dim>) -> u64
    ensures { result ≡ length_of dim }
{
    match dim {
        Some(Dim::Fixed(len)) => len,
        Some(Dim::Variable) | None => 0,
    }
}

// Whether there are 1 to 4096 channels, and the baselines of 1 to 64 antennas.
fn is_in_range(channels: u64, baselines: u64) -> bool
    ensures value { result
        ≡ are_in_range (record { channels = channels; baselines = baselines }) }
    ensures small { result ≡ true → (channels ≤ 4096) × (baselines ≤ 2080) }
{
    if channels < 1 || 4096 < channels {
        return false;
    }
    for antennas in 1u64..65 {
        if antennas * (antennas + 1) / 2 == baselines {
            return true;
        }
    }
    false
}

// Whether the timestamp is described as an unsigned number of 48 bits.
fn is_timestamp(item: &Option<Descriptor>) -> bool
    ensures { result ≡ passes (is_described [] 117 48) item.now }
{
    match item {
        Some(item) => item.shape.as_slice().is_empty() && is_one(b'u', 48, item.types.as_slice()),
        None => false,
    }
}

// Whether the visibilities are described with these sizes.
fn is_visibilities(channels: u64, baselines: u64, item: &Option<Descriptor>) -> bool
    ensures { result
        ≡ passes (is_described (channels ∷ baselines ∷ 4 ∷ 2 ∷ []) 105 64) item.now }
{
    match item {
        Some(item) => {
            has_four(channels, baselines, item.shape.as_slice())
                && is_one(b'i', 64, item.types.as_slice())
        }
        None => false,
    }
}

// Whether the missing counts are described with these sizes.
fn is_missing(baselines: u64, item: &Option<Descriptor>) -> bool
    ensures { result ≡ passes (is_described (baselines ∷ []) 117 32) item.now }
{
    match item {
        Some(item) => {
            has_one(baselines, item.shape.as_slice()) && is_one(b'u', 32, item.types.as_slice())
        }
        None => false,
    }
}

// Whether the dimensions are channels, baselines, four products, and two parts.
fn has_four(channels: u64, baselines: u64, dims: &[Dim]) -> bool
    ensures { result ≡ has_shape (channels ∷ baselines ∷ 4 ∷ 2 ∷ []) dims.now }
{
    match dims {
        [first, second, products, parts] => {
            is_fixed(channels, *first)
                && is_fixed(baselines, *second)
                && is_fixed(4, *products)
                && is_fixed(2, *parts)
        }
        _ => false,
    }
}

// Whether the one dimension is baselines.
fn has_one(baselines: u64, dims: &[Dim]) -> bool
    ensures { result ≡ has_shape (baselines ∷ []) dims.now }
{
    match dims {
        [single] => is_fixed(baselines, *single),
        _ => false,
    }
}

// Whether the dimension is fixed and has this length.
fn is_fixed(len: u64, dim: Dim) -> bool
    ensures { result ≡ is_fixed len dim }
{
    match dim {
        Dim::Fixed(fixed) => len == fixed,
        Dim::Variable => false,
    }
}

// Whether there is exactly one type, of this letter and width.
fn is_one(letter: u8, bits: u16, types: &[ItemType]) -> bool
    ensures { result ≡ is_type letter bits types.now }
{
    match types {
        [single] => single.letter == letter && single.bits == bits,
        _ => false,
    }
}
