//! The lines of `inspect`: each packet with its pointers, and how many datagrams there were.

ghost use Rattle.std.specs.Prelude.{◌≡◌, ◌<◌, ◌≤◌, ◌+◌, ◌^◌, ◌++◌, [], length};
ghost use Rattle.corr_report.specs.Lines.{IsLine};
ghost use Rattle.corr_report.specs.Inspected.{datagrams_text, id_text, mode_text, packet_text, place_text, pointer_text, refusal_name, refusal_text, size_text, value_text};

use crate::draft::Draft;
use corr_model::{Pointer, Refusal};
use spead_wire::Packet;

/// Writes the line on a packet, with its number from 0, at the front of the buffer, and answers its
/// length.
pub fn packet_line(place: u64, packet: &Packet<'_>, out: &mut [u8; 1024]) -> usize
    ensures line { IsLine out.old out.new result (packet_text place packet.now) }
    ensures fits { result ≤ 1024 }
{
    let mut draft = Draft::new();
    put_place(&mut draft, place, packet);
    put_size(&mut draft, packet.size());
    draft.put_number(b" pointers ", pointer_count(packet));
    draft.put(b"\n");
    draft.write_to(out)
}

/// Writes the line on a pointer of the packet's heap at the front of the buffer, and answers its
/// length.
pub fn pointer_line(pointer: &Pointer, out: &mut [u8; 1024]) -> usize
    requires id { pointer.now.id < 2 ^ 15 }
    requires value { pointer.now.value < 2 ^ 48 }
    ensures line { IsLine out.old out.new result (pointer_text pointer.now) }
    ensures fits { result ≤ 1024 }
{
    let mut draft = Draft::new();
    draft.put(mode_of(pointer));
    draft.put(&id_digits(pointer.id));
    draft.put(b" ");
    draft.put(&value_digits(pointer.value));
    draft.put(b"\n");
    draft.write_to(out)
}

/// Writes the line on a datagram that is no packet, with its number from 0, at the front of the
/// buffer, and answers its length.
pub fn inspect_refused(place: u64, refusal: &Refusal, out: &mut [u8; 1024]) -> usize
    ensures line { IsLine out.old out.new result (refusal_text place refusal.now) }
    ensures fits { result ≤ 1024 }
{
    let mut draft = Draft::new();
    draft.put_number(b"", place);
    draft.put(b" refused ");
    draft.put(refusal_name(refusal).as_bytes());
    draft.put(b"\n");
    draft.write_to(out)
}

/// Writes the line on how many datagrams there were at the front of the buffer, and answers its
/// length.
pub fn datagrams_line(count: u64, out: &mut [u8; 1024]) -> usize
    ensures line { IsLine out.old out.new result (datagrams_text count) }
    ensures fits { result ≤ 1024 }
{
    let mut draft = Draft::new();
    draft.put_number(b"datagrams ", count);
    draft.put(b"\n");
    draft.write_to(out)
}

/// The name of a refusal, without its numbers.
pub fn refusal_name(refusal: &Refusal) -> &'static str
    ensures value { result.now ≡ refusal_name refusal.now }
    ensures short { length result.now ≤ 64 }
{
    match refusal {
        Refusal::Short => "Short",
        Refusal::Magic => "Magic",
        Refusal::Version => "Version",
        Refusal::Flavour => "Flavour",
        Refusal::Pointers => "Pointers",
        Refusal::NoCounter => "NoCounter",
        Refusal::NoOffset => "NoOffset",
        Refusal::NoLength => "NoLength",
        Refusal::Length(_, _) => "Length",
        Refusal::PastHeap => "PastHeap",
    }
}

// How many pointers of the heap a packet has.
fn pointer_count(packet: &Packet<'_>) -> usize
    ensures { result ≡ length packet.now.pointers }
{
    packet.pointers().count()
}

// Puts the number of a packet, its heap's counter, its offset and its length.
fn put_place(draft: &mut Draft, place: u64, packet: &Packet<'_>)
    requires { draft.old ≡ [] }
    ensures value { draft.new ≡ place_text place packet.now }
    ensures short { length draft.new ≤ 200 }
{
    draft.put_number(b"", place);
    draft.put_number(b" counter ", packet.counter());
    draft.put_number(b" offset ", packet.offset());
    draft.put_number(b" length ", packet.payload().len());
}

// Puts the size of the heap, or a minus where the packet does not say it.
fn put_size(draft: &mut Draft, size: Option<u64>)
    requires { length draft.old ≤ 500 }
    ensures value { draft.new ≡ draft.old ++ size_text size }
    ensures short { length draft.new ≤ length draft.old + 46 }
{
    match size {
        Some(size) => draft.put_number(b" size ", size),
        None => draft.put(b" size -"),
    }
}

// What stands before the id of a pointer.
fn mode_of(pointer: &Pointer) -> &'static [u8]
    ensures value { result.now ≡ mode_text pointer.now }
    ensures short { length result.now ≤ 4 }
{
    if pointer.immediate { b"  i " } else { b"  a " }
}

// The id as 4 hexadecimal digits.
fn id_digits(id: u32) -> [u8; 4]
    requires { id < 2 ^ 15 }
    ensures { result ≡ id_text id }
{
    let mut digits = [0; 4];
    let _ = hex::encode_to_slice((id as u16).to_be_bytes(), &mut digits);
    digits
}

// The 48 bits of a value as 12 hexadecimal digits.
fn value_digits(value: u64) -> [u8; 12]
    ensures { result ≡ value_text value }
{
    let mut digits = [0; 12];
    let bytes = value.to_be_bytes();
    let _ = hex::encode_to_slice(&bytes[2..], &mut digits);
    digits
}
