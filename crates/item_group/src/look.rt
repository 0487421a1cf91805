//! What a whole heap says by a table: timestamp, antenna and samples, or the end of its stream.

ghost use Rattle.std.specs.Prelude.{◌≡◌, ◌∷◌, [], ℕ, List, length, IfSome, option_map};
ghost use Rattle.corr_model.specs.Plans.{sample_bytes};
ghost use Rattle.corr_model.specs.Streams.{group_of, stops};
ghost use Rattle.corr_model.specs.Tables.{TableStandsFor, readable_descriptors, sight, long_enough};
ghost use Rattle.corr_model.specs.Tables.{is_fixed, has_shape, is_unsigned_scalar, is_voltages};
ghost use Rattle.heap_assembly.specs.Heaps.{whole_of};
ghost use Rattle.item_group.specs.Looking.{said, number_by, samples_by, sight_by, is_bytes};

use crate::ids;
use crate::table::Table;
use corr_model::Plan;
use heap_assembly::Heap;
use spead_types::{Descriptor, Dim, ItemType};

// The number of stream control that ends a stream.
const STOP: u64 = 2;

/// What a readable heap says.
#[derive(Clone, Copy, Debug)]
pub struct Sight<'a> {
    /// The time of the first sample, as the heap says it.
    pub timestamp: u64,
    /// The number of the antenna.
    pub antenna: u64,
    /// The samples by channel, spectrum, polarisation, real and imaginary part, a byte each.
    pub samples: &'a [u8],
}

/// What a table makes of a heap.
#[derive(Clone, Copy, Debug)]
pub struct Look<'a> {
    /// Whether the heap ends its stream: its number of stream control is 2.
    pub stop: bool,
    /// What the heap says, where it is readable.
    pub sight: Option<Sight<'a>>,
}

impl Table {
    /// What the heap says by this table, and whether it ends its stream. The heap is readable where
    /// timestamp and antenna are described as unsigned numbers and have some, and the voltages are
    /// described in the plan's shape as signed bytes and are long enough. Its own descriptors count
    /// where they were applied before.
    pub fn look<'a>(&self, heap: &Heap<'a>, plan: &Plan) -> Look<'a>
        ensures stop { result.stop ≡ stops (whole_of heap.now) }
        ensures sight { (contents : List (List ℕ)) → TableStandsFor plan.now self.now contents
            → option_map said result.sight
            ≡ sight plan.now (readable_descriptors plan.now contents)
            (group_of (whole_of heap.now)) }
        ensures entries { option_map said result.sight
            ≡ sight_by plan.now self.now (group_of (whole_of heap.now)) }
        ensures samples { IfSome result.sight (λ s. length s.samples.now ≡ sample_bytes plan.now) }
    {
        Look {
            stop: heap
                .number(ids::STREAM_CONTROL)
                .is_some_and(|control| control == STOP),
            sight: self.sight(heap, plan),
        }
    }

    // What the heap says by this table, where it is readable.
    fn sight<'a>(&self, heap: &Heap<'a>, plan: &Plan) -> Option<Sight<'a>>
        ensures sight { (contents : List (List ℕ)) → TableStandsFor plan.now self.now contents
            → option_map said result
            ≡ sight plan.now (readable_descriptors plan.now contents)
            (group_of (whole_of heap.now)) }
        ensures entries { option_map said result
            ≡ sight_by plan.now self.now (group_of (whole_of heap.now)) }
        ensures samples { IfSome result (λ s. length s.samples.now ≡ sample_bytes plan.now) }
    {
        let timestamp = self.number(heap, ids::TIMESTAMP)?;
        let antenna = self.number(heap, ids::ANTENNA)?;
        let samples = self.samples(heap, plan)?;
        Some(Sight {
            timestamp,
            antenna,
            samples,
        })
    }

    // The number of an id whose entry is an unsigned number.
    fn number(&self, heap: &Heap<'_>, id: u32) -> Option<u64>
        ensures { result ≡ number_by self.now (group_of (whole_of heap.now)) id }
    {
        match self.get(id) {
            Some(entry) if is_unsigned_scalar(entry) => heap.number(id),
            _ => None,
        }
    }

    // The samples, where their entry is that of voltages and they are long enough.
    fn samples<'a>(&self, heap: &Heap<'a>, plan: &Plan) -> Option<&'a [u8]>
        ensures samples { option_map (λ x. x.now) result
            ≡ samples_by plan.now self.now (group_of (whole_of heap.now)) }
    {
        match self.get(ids::VOLTAGES) {
            Some(entry) if is_voltages(plan, entry) => {
                let voltages = heap.addressed(ids::VOLTAGES)?;
                samples_in(plan, voltages)
            }
            _ => None,
        }
    }
}

// Whether the item has no dimension, and exactly one type, an unsigned one.
fn is_unsigned_scalar(item: &Descriptor) -> bool
    ensures { result ≡ is_unsigned_scalar item.now }
{
    match item.types.as_slice() {
        [single] => item.shape.as_slice().is_empty() && single.letter == b'u',
        _ => false,
    }
}

// Whether the item has the shape of the plan's voltages, and exactly one type, signed bytes.
fn is_voltages(plan: &Plan, item: &Descriptor) -> bool
    ensures { result ≡ is_voltages plan.now item.now }
{
    has_shape(plan, item.shape.as_slice()) && is_bytes(item.types.as_slice())
}

// Whether the dimensions are the plan's channels and spectra, two polarisations, and two parts.
fn has_shape(plan: &Plan, dims: &[Dim]) -> bool
    ensures { result
        ≡ has_shape (plan.now.channels ∷ plan.now.spectra ∷ 2 ∷ 2 ∷ []) dims.now }
{
    match dims {
        [channels, spectra, polarisations, parts] => {
            is_fixed(plan.channels.into(), *channels)
                && is_fixed(plan.spectra.into(), *spectra)
                && is_fixed(2, *polarisations)
                && is_fixed(2, *parts)
        }
        _ => false,
    }
}

// Whether there is exactly one type, signed bytes.
fn is_bytes(types: &[ItemType]) -> bool
    ensures { result ≡ is_bytes types.now }
{
    match types {
        [single] => single.letter == b'i' && single.bits == 8,
        _ => false,
    }
}

// Whether the dimension is fixed and has this length.
fn is_fixed(len: u64, dim: Dim) -> bool
    ensures { result ≡ is_fixed len dim }
{
    match dim {
        Dim::Fixed(fixed) => len == fixed,
        Dim::Variable => false,
    }
}

// As many bytes as a heap of the plan has samples, where there are so many.
fn samples_in<'a>(plan: &Plan, voltages: &'a [u8]) -> Option<&'a [u8]>
    ensures { option_map (λ x. x.now) result
        ≡ long_enough (sample_bytes plan.now) voltages.now }
{
    let needed = 4 * u128::from(plan.channels) * u128::from(plan.spectra);
    if (voltages.len() as u128) < needed {
        return None;
    }
    Some(&voltages[..needed as usize])
}
