//! From bytes to a packet, or to the first reason why they are none.

ghost use Rattle.std.specs.Prelude.{◌≡◌, ◌<◌, ◌≤◌, ◌+◌, ◌*◌, ◌^◌, ℕ, List, length, drop, map, All, IfOk, IfErr, MatchResult};
ghost use Rattle.corr_model.specs.Packets.{Parts, Spells, front_refusal, pointer_count, refusal_of, packet_in};
ghost use Rattle.spead_wire.specs.Reading.{IsReading};
ghost use Rattle.spead_wire.specs.Widths.{HasPointerWidths};

use crate::layout::{ID_WIDTH, MAGIC, VALUE_WIDTH, VERSION};
use crate::packet::Packet;
use crate::words::Words;
use byteorder::{BigEndian, ByteOrder};
use corr_model::Refusal;

/// The packet that the bytes spell, or the first reason why they spell none.
///
/// Each refusal of `Refusal` comes exactly where its own test fails and none before it does.
pub fn decode(bytes: &[u8]) -> Result<Packet<'_>, Refusal>
    ensures spelled { IfOk result (λ p. Spells bytes.now p) }
    ensures only { (p : Parts) → Spells bytes.now p → result ≡ Ok p }
    ensures refused { IfErr result (λ e. refusal_of bytes.now ≡ Some e) }
    ensures found { MatchResult result
        (λ p. packet_in bytes.now ≡ Some p) (λ e. refusal_of bytes.now ≡ Some e) }
{
    let count = read_header(bytes)?;
    let (_, rest) = bytes.split_at(8);
    let (_, payload) = rest.split_at(8 * count);
    read_packet(Words::new(count, rest), payload)
}

/// The number of item pointers that a header says, all of them within the bytes.
fn read_header(bytes: &[u8]) -> Result<usize, Refusal>
    ensures found { MatchResult result
        (λ _. front_refusal bytes.now ≡ None) (λ e. front_refusal bytes.now ≡ Some e) }
    ensures count { IfOk result (λ count. count ≡ pointer_count bytes.now) }
    ensures long { IfOk result (λ count. 8 + 8 * count ≤ length bytes.now) }
    ensures few { IfOk result (λ count. count < 2 ^ 16) }
{
    if bytes.len() < 8 {
        return Err(Refusal::Short);
    }
    if bytes[0] != MAGIC {
        return Err(Refusal::Magic);
    }
    if bytes[1] != VERSION {
        return Err(Refusal::Version);
    }
    if bytes[2] != ID_WIDTH || bytes[3] != VALUE_WIDTH {
        return Err(Refusal::Flavour);
    }
    let (_, count) = bytes.split_at(6);
    let count = usize::from(BigEndian::read_u16(count));
    if bytes.len() < 8 + 8 * count {
        return Err(Refusal::Pointers);
    }
    Ok(count)
}

/// The packet with these item pointers and this payload, if they go together.
fn read_packet<'a>(words: Words<'a>, payload: &'a [u8]) -> Result<Packet<'a>, Refusal>
    requires widths { All HasPointerWidths words }
    requires few { length words < 2 ^ 16 }
    ensures { IsReading words.entry payload.now result }
{
    let special = words.special();
    let counter = special.counter.ok_or(Refusal::NoCounter)?;
    let offset = special.offset.ok_or(Refusal::NoOffset)?;
    let claimed = special.payload_len.ok_or(Refusal::NoLength)?;
    let found = payload.len() as u64;
    if claimed != found {
        return Err(Refusal::Length(claimed, found));
    }
    let size = special.size;
    let end = offset + claimed;
    if size.is_some_and(|size| size < end) {
        return Err(Refusal::PastHeap);
    }
    Ok(Packet {
        counter,
        size,
        offset,
        words,
        payload,
    })
}
