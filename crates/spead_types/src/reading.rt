//! From a descriptor's bytes to what it says of an item.

ghost use Rattle.std.specs.Prelude.{◌≡◌, Some, None, length, take, unwrap_or, IfOk, MatchResult};
ghost use Rattle.corr_model.specs.Descriptors.{described_in, read_group, own_group, bytes_of};
ghost use Rattle.corr_model.specs.Descriptors.{form_refusal, is_letter, types_of};

use crate::descriptor::{DESCRIBED_ID, Descriptor, NAME_ID, SHAPE_ID, TYPES_ID};
use crate::entries::{TypeEntries, read_shape, read_types};
use crate::items::{addressed, number};
use crate::name::Name;
use corr_model::DescRefusal;
use spead_wire::{Packet, decode};

// The ids that a descriptor can describe.
const LEAST_ID: u64 = 1;

const MOST_ID: u64 = 0x7f_ffff;

/// What the bytes of a descriptor say of an item, or why they say nothing: the first refusal of
/// `DescRefusal` whose own test fails.
///
/// The bytes are one packet, with the items name `0x10`, shape `0x12`, types `0x13` and id `0x14`.
/// A name of more than 64 bytes is cut there.
pub fn read_descriptor(bytes: &[u8]) -> Result<Descriptor, DescRefusal>
    ensures { result ≡ described_in bytes.now }
{
    match decode(bytes) {
        Ok(packet) => read_packet(&packet),
        Err(refusal) => Err(DescRefusal::Packet(refusal)),
    }
}

// What a packet says of an item, or why it says nothing.
fn read_packet(packet: &Packet<'_>) -> Result<Descriptor, DescRefusal>
    ensures { result ≡ read_group (own_group packet.now) }
{
    let shape = content(packet, SHAPE_ID);
    let types = content(packet, TYPES_ID);
    let id = test_form(number(packet, DESCRIBED_ID), shape, types)?;
    Ok(Descriptor {
        id,
        shape: read_shape(shape),
        types: read_types(types),
        name: read_name(content(packet, NAME_ID)),
    })
}

// The content of an id's addressed item, or nothing.
fn content<'a>(packet: &Packet<'a>, id: u32) -> &'a [u8]
    ensures { result.now ≡ bytes_of (own_group packet.now) id }
{
    addressed(packet, id).unwrap_or(&[])
}

// The name that the bytes are: the first 64.
fn read_name(bytes: &[u8]) -> Name
    ensures { result ≡ take 64 bytes.now }
{
    Name::new(&bytes[..bytes.len().min(64)])
}

// The id, where it and the bytes of shape and types have the form of a descriptor's.
fn test_form(id: Option<u64>, shape: &[u8], types: &[u8]) -> Result<u32, DescRefusal>
    ensures found { let said = types_of types.now in
        let refusal = form_refusal id (length shape.now) (length types.now) said in
        MatchResult result (λ _. refusal ≡ None) (λ e. refusal ≡ Some e) }
    ensures id { IfOk result (λ n. n ≡ unwrap_or id 0) }
{
    let id = id.unwrap_or(0);
    if id < LEAST_ID || MOST_ID < id {
        return Err(DescRefusal::NoId);
    }
    if shape.len() % 7 != 0 {
        return Err(DescRefusal::ShapeBytes);
    }
    if types.len() % 3 != 0 {
        return Err(DescRefusal::TypeBytes);
    }
    if types.is_empty() {
        return Err(DescRefusal::NoType);
    }
    if !TypeEntries::new(types).all(|entry| is_letter(entry.letter)) {
        return Err(DescRefusal::Letter);
    }
    if !TypeEntries::new(types).all(|entry| 1 <= entry.bits && entry.bits <= 64) {
        return Err(DescRefusal::Bits);
    }
    if 56 < shape.len() || 24 < types.len() {
        return Err(DescRefusal::TooMany);
    }
    Ok(id as u32)
}

// Whether the letter is `u`, `i` or `c`.
fn is_letter(letter: u8) -> bool
    ensures { result ≡ is_letter letter }
{
    matches!(letter, b'u' | b'i' | b'c')
}
