//! From a head, pointers and a payload to the bytes of a packet.

ghost use Rattle.std.specs.Prelude.{◌≡◌, ◌<◌, ◌≤◌, ◌+◌, ◌*◌, ◌^◌, ◌++◌, ◌∷◌, [], Some, List, length, take, drop, All, IfSome};
ghost use Rattle.std.specs.Int.{bytes_high_first};
ghost use Rattle.std.specs.List.{flat_map};
ghost use Rattle.corr_model.specs.Packets.{Spells, packet_in};
ghost use Rattle.corr_model.specs.Descriptors.{word_of, size_pointers};
ghost use Rattle.spead_wire.specs.Widths.{HasPointerWidths, HasWidths};
ghost use Rattle.spead_wire.specs.Writing.{PutsAt, parts_of_head, all_pointers, bytes_of_head, encoded_len, special_of_head};

use crate::layout::{
    COUNTER_ID, ID_WIDTH, LENGTH_ID, MAGIC, MODE, OFFSET_ID, SIZE_ID, VALUE_WIDTH, VERSION,
};
use crate::packet_head::PacketHead;
use corr_model::Pointer;

/// Writes a packet to the front of `out`, and answers how many bytes it has: the header with
/// reserved bytes of 0, the head's counter, size where there is one and offset, the length of the
/// payload, the heap's pointers, and the payload. The rest of `out` stays.
///
/// That is 8 bytes for the header and for each pointer, and those of the payload. `decode` gives
/// the same head, pointers and payload back.
pub fn encode_into(head: &PacketHead, pointers: &[Pointer], payload: &[u8], out: &mut [u8]) -> usize
    requires widths { HasWidths (parts_of_head head.now pointers.now payload.now) }
    requires few { length (all_pointers head.now pointers.now payload.now) < 2 ^ 16 }
    requires room { encoded_len head.now pointers.now payload.now ≤ length out.old }
    ensures length { result ≡ encoded_len head.now pointers.now payload.now }
    ensures bytes { take result out.new ≡ bytes_of_head head.now pointers.now payload.now }
    ensures rest { drop result out.new ≡ drop result out.old }
    ensures written { Spells (take result out.new)
        (parts_of_head head.now pointers.now payload.now) }
    ensures read_back { packet_in (take result out.new)
        ≡ Some (parts_of_head head.now pointers.now payload.now) }
{
    let special = if head.size.is_some() { 4 } else { 3 };
    let at = put_header(out, special + pointers.len());
    let at = put_special(out, at, head, payload.len() as u64);
    let at = put_pointers(out, at, pointers);
    put(out, at, payload)
}

// Puts the header of a packet with so many pointers.
fn put_header(out: &mut [u8], count: usize) -> usize
    requires room { 8 ≤ length out.old }
    requires few { count < 2 ^ 16 }
    ensures place { result ≡ 8 }
    ensures bytes { PutsAt out.old out.new 0
        ((0x53 ∷ 0x04 ∷ 0x02 ∷ 0x06 ∷ 0 ∷ 0 ∷ []) ++ bytes_high_first 2 count) }
{
    let at = put(out, 0, &[MAGIC, VERSION, ID_WIDTH, VALUE_WIDTH, 0, 0]);
    put(out, at, &(count as u16).to_be_bytes())
}

// Puts the pointers of a head and of a payload of so many bytes.
fn put_special(out: &mut [u8], at: usize, head: &PacketHead, payload_len: u64) -> usize
    requires counter { head.now.counter < 2 ^ 48 }
    requires size { IfSome head.now.size (λ size. size < 2 ^ 48) }
    requires offset { head.now.offset < 2 ^ 48 }
    requires payload_len { payload_len < 2 ^ 48 }
    requires room { at + 8 * length (special_of_head head.now payload_len) ≤ length out.old }
    ensures place { result ≡ at + 8 * length (special_of_head head.now payload_len) }
    ensures bytes { PutsAt out.old out.new at
        (flat_map word_of (special_of_head head.now payload_len)) }
{
    let at = put_pointer(out, at, Pointer::immediate(COUNTER_ID, head.counter));
    let at = put_size(out, at, head.size);
    let at = put_pointer(out, at, Pointer::immediate(OFFSET_ID, head.offset));
    put_pointer(out, at, Pointer::immediate(LENGTH_ID, payload_len))
}

// Puts the pointer of a heap's size, where one is said.
fn put_size(out: &mut [u8], at: usize, size: Option<u64>) -> usize
    requires size { IfSome size (λ size. size < 2 ^ 48) }
    requires room { at + 8 * length (size_pointers size) ≤ length out.old }
    ensures place { result ≡ at + 8 * length (size_pointers size) }
    ensures bytes { PutsAt out.old out.new at (flat_map word_of (size_pointers size)) }
{
    match size {
        Some(size) => put_pointer(out, at, Pointer::immediate(SIZE_ID, size)),
        None => at,
    }
}

// Puts pointers one after another.
fn put_pointers(out: &mut [u8], at: usize, pointers: &[Pointer]) -> usize
    requires widths { All HasPointerWidths pointers.now }
    requires room { at + 8 * length pointers.now ≤ length out.old }
    ensures place { result ≡ at + 8 * length pointers.now }
    ensures bytes { PutsAt out.old out.new at (flat_map word_of pointers.now) }
{
    let mut behind = at;
    for pointer in pointers {
        behind = put_pointer(out, behind, *pointer);
    }
    behind
}

// Puts a pointer: the mode bit and the id in two bytes, and the value in six.
fn put_pointer(out: &mut [u8], at: usize, pointer: Pointer) -> usize
    requires widths { HasPointerWidths pointer }
    requires room { at + 8 ≤ length out.old }
    ensures place { result ≡ at + 8 }
    ensures bytes { PutsAt out.old out.new at (word_of pointer) }
{
    let mode = if pointer.immediate { MODE } else { 0 };
    let at = put(out, at, &(mode + pointer.id as u16).to_be_bytes());
    put(out, at, &pointer.value.to_be_bytes()[2..])
}

// Puts bytes at a place, and answers the place behind them.
fn put(out: &mut [u8], at: usize, bytes: &[u8]) -> usize
    requires { at + length bytes.now ≤ length out.old }
    ensures place { result ≡ at + length bytes.now }
    ensures bytes { PutsAt out.old out.new at bytes.now }
{
    let end = at + bytes.len();
    out[at..end].copy_from_slice(bytes);
    end
}
