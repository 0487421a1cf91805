//! The items of a descriptor's packet, read in place. It may have any number of pointers, and some
//! of them again and again.

ghost use Rattle.std.specs.Prelude.{◌≡◌, ◌<◌, ◌≤◌, ◌+◌, ◌^◌, length, IfSome, option_map};
ghost use Rattle.corr_model.specs.Items.{content_end, item};
ghost use Rattle.spead_types.specs.AllItems.{all_group, all_number, all_addressed};
ghost use Rattle.spead_types.specs.AllItems.{all_content_at, is_shared, stands_by};

use corr_model::Pointer;
use spead_wire::{Packet, short_number};

/// The number of an id: an immediate item's value, or an addressed item's content of one to eight
/// bytes.
pub(crate) fn number(packet: &Packet<'_>, id: u32) -> Option<u64>
    ensures { result ≡ all_number (all_group packet.now) id }
{
    let (place, pointer) = find(packet, id)?;
    if pointer.immediate {
        return Some(pointer.value);
    }
    short_number(content_at(packet, place, pointer.value)?)
}

/// The content of an id's item, where that is addressed and has content.
pub(crate) fn addressed<'a>(packet: &Packet<'a>, id: u32) -> Option<&'a [u8]>
    ensures { option_map (λ x. x.now) result ≡ all_addressed (all_group packet.now) id }
{
    let (place, pointer) = find(packet, id)?;
    if pointer.immediate {
        return None;
    }
    content_at(packet, place, pointer.value)
}

// The first pointer with the id, and its place among all.
fn find(packet: &Packet<'_>, id: u32) -> Option<(usize, Pointer)>
    ensures value { result ≡ item id (all_group packet.now) }
    ensures place { IfSome result (λ placed. placed.0 < length packet.now.pointers) }
{
    packet
        .pointers()
        .enumerate()
        .find(|(_, pointer)| pointer.id == id)
}

// The content of the pointer at this place, addressed at this offset.
fn content_at<'a>(packet: &Packet<'a>, place: usize, offset: u64) -> Option<&'a [u8]>
    requires { place < length packet.now.pointers }
    ensures { option_map (λ x. x.now) result ≡ all_content_at (all_group packet.now) place offset }
{
    let payload = packet.payload();
    if (payload.len() as u64) < offset {
        return None;
    }
    if is_shared(packet, place, offset) {
        return Some(&[]);
    }
    let end = content_end(packet, offset);
    Some(&payload[offset as usize..end as usize])
}

// Whether a pointer behind this place is addressed at the offset, and none up to the place is the
// same.
fn is_shared(packet: &Packet<'_>, place: usize, offset: u64) -> bool
    requires { place < length packet.now.pointers }
    ensures { result ≡ is_shared packet.now.pointers place offset }
{
    packet.pointers().skip(place + 1).any(|pointer| {
        !pointer.immediate && pointer.value == offset && !stands_by(packet, place, &pointer)
    })
}

// Whether one of the pointers up to this place is the same.
fn stands_by(packet: &Packet<'_>, place: usize, pointer: &Pointer) -> bool
    requires { place < length packet.now.pointers }
    ensures { result ≡ stands_by packet.now.pointers place pointer.now }
{
    packet
        .pointers()
        .take(place + 1)
        .any(|other| pointer.is_same(&other))
}

// The least offset above this one of an addressed pointer, or the payload's end before that.
fn content_end(packet: &Packet<'_>, offset: u64) -> u64
    requires { offset ≤ length packet.now.payload }
    ensures value { result ≡ content_end (all_group packet.now) offset }
    ensures low { offset ≤ result }
    ensures high { result ≤ length packet.now.payload }
{
    packet
        .pointers()
        .filter(|pointer| !pointer.immediate && offset < pointer.value)
        .map(|pointer| pointer.value)
        .fold(packet.payload().len() as u64, |end, value| end.min(value))
}
