//! From what is said of an item to a descriptor's bytes.

ghost use Rattle.std.specs.Prelude.{◌≡◌, ◌≤◌, ◌+◌, ◌*◌, ◌++◌, Ok, length, take, drop};
ghost use Rattle.std.specs.List.{flat_map};
ghost use Rattle.corr_model.specs.Descriptors.{described_in, descriptor_bytes};
ghost use Rattle.corr_model.specs.Descriptors.{type_bytes, dimension_bytes};
ghost use Rattle.spead_types.specs.Valid.{IsValid, written_bytes};
ghost use Rattle.spead_types.specs.Written.{own_pointers, payload_bytes};

use crate::descriptor::{DESCRIBED_ID, Descriptor, NAME_ID, SHAPE_ID, TYPES_ID};
use crate::draft::{Draft, ROOM};
use corr_model::{Dim, ItemType, Pointer};
use spead_wire::{PacketHead, encode_into};

/// Writes the descriptor's bytes at the front of `out`, and answers how many they are. The rest of
/// `out` stays.
///
/// They are one packet whose payload is name, types and shape; a dimension that may vary is written
/// with length 0. `read_descriptor` gives the descriptor back.
pub fn write_descriptor(descriptor: &Descriptor, out: &mut [u8]) -> usize
    requires valid { IsValid descriptor.now }
    requires room { written_bytes descriptor.now ≤ length out.old }
    ensures written { take result out.new ≡ descriptor_bytes descriptor.now }
    ensures len { result ≡ written_bytes descriptor.now }
    ensures rest { drop result out.new ≡ drop result out.old }
    ensures read_back { described_in (take result out.new) ≡ Ok descriptor.now }
{
    let payload = payload_of(descriptor);
    let bytes = payload.as_slice();
    let head = PacketHead {
        counter: 1,
        size: Some(bytes.len() as u64),
        offset: 0,
    };
    encode_into(&head, &pointers_of(descriptor), bytes, out)
}

// The descriptor's name, types and shape as bytes.
fn payload_of(descriptor: &Descriptor) -> Draft
    ensures { result ≡ payload_bytes descriptor.now }
{
    let mut payload = Draft::new();
    payload.put(descriptor.name.as_slice());
    put_types(&mut payload, descriptor.types.as_slice());
    put_shape(&mut payload, descriptor.shape.as_slice());
    payload
}

// The descriptor's id, and where its name, types and shape stand in the payload.
fn pointers_of(descriptor: &Descriptor) -> [Pointer; 4]
    ensures { result ≡ own_pointers descriptor.now }
{
    let types_place = descriptor.name.as_slice().len();
    let shape_place = types_place + 3 * descriptor.types.as_slice().len();
    [
        Pointer::immediate(DESCRIBED_ID, descriptor.id.into()),
        Pointer::addressed(NAME_ID, 0),
        Pointer::addressed(TYPES_ID, types_place as u64),
        Pointer::addressed(SHAPE_ID, shape_place as u64),
    ]
}

// Puts type entries one after another, each as three bytes.
fn put_types(draft: &mut Draft, types: &[ItemType])
    requires { length draft.old + 3 * length types.now ≤ ROOM }
    ensures { draft.new ≡ draft.old ++ flat_map type_bytes types.now }
{
    for entry in types {
        draft.put(&[entry.letter]);
        draft.put(&entry.bits.to_be_bytes());
    }
}

// Puts dimensions one after another, each as seven bytes.
fn put_shape(draft: &mut Draft, shape: &[Dim])
    requires { length draft.old + 7 * length shape.now ≤ ROOM }
    ensures { draft.new ≡ draft.old ++ flat_map dimension_bytes shape.now }
{
    for dim in shape {
        let (variable, length) = match *dim {
            Dim::Fixed(length) => (0, length),
            Dim::Variable => (1, 0),
        };
        draft.put(&[variable]);
        draft.put(&length.to_be_bytes()[2..]);
    }
}
