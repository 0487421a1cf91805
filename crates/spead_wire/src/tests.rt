ghost use Rattle.std.specs.Prelude.{◌≡◌, ◌==◌, length, filter, position, IfOk};

use crate::{Packet, PacketHead, Pointer, Refusal, decode, encode_into, short_number};
use std::alloc::{AllocError, Global};

// Counter 1, size 4, offset 0, length 4, two numbers, one place in the payload, and four bytes.
const FIRST_PACKET: [u8; 68] = [
    0x53, 0x04, 0x02, 0x06, 0x00, 0x00, 0x00, 0x07, 0x80, 0x01, 0, 0, 0, 0, 0, 1, 0x80, 0x02, 0, 0,
    0, 0, 0, 4, 0x80, 0x03, 0, 0, 0, 0, 0, 0, 0x80, 0x04, 0, 0, 0, 0, 0, 4, 0x96, 0x00, 0, 0, 0, 0,
    0, 0, 0xc1, 0x01, 0, 0, 0, 0, 0, 0, 0x43, 0x00, 0, 0, 0, 0, 0, 0, 1, 2, 3, 0,
];

const FIRST_POINTERS: [Pointer; 3] = [
    Pointer {
        immediate: true,
        id: 0x1600,
        value: 0,
    },
    Pointer {
        immediate: true,
        id: 0x4101,
        value: 0,
    },
    Pointer {
        immediate: false,
        id: 0x4300,
        value: 0,
    },
];

// Where the first packet is changed, to which bytes, how many bytes are then read, and the refusal.
const REFUSED: [(usize, &[u8], usize, Refusal); 10] = [
    (0, &[], 7, Refusal::Short),
    (0, &[0x54], 68, Refusal::Magic),
    (1, &[0x03], 68, Refusal::Version),
    (2, &[0x04, 0x04], 68, Refusal::Flavour),
    (7, &[0x08], 68, Refusal::Pointers),
    (8, &[0; 8], 68, Refusal::NoCounter),
    (24, &[0; 8], 68, Refusal::NoOffset),
    (32, &[0; 8], 68, Refusal::NoLength),
    (0, &[], 69, Refusal::Length(4, 5)),
    (23, &[0x03], 68, Refusal::PastHeap),
];

#[test]
fn the_first_packet(rt: HostRuntime) {
    let packet = decode(&FIRST_PACKET).expect(&rt, "a packet");
    assert_eq!(rt; packet.counter(), 1);
    assert_eq!(rt; packet.size(), Some(4));
    assert_eq!(rt; packet.offset(), 0);
    assert_eq!(rt; packet.payload(), &[1, 2, 3, 0][..]);
    let pointers = pointers_of(rt.alloc(), &packet).expect(&rt, "memory");
    assert_eq!(rt; pointers.as_slice(), &FIRST_POINTERS[..]);
}

#[test]
fn the_ten_refusals(rt: HostRuntime) {
    for (at, change, length, refusal) in REFUSED {
        let mut bytes = [0u8; 69];
        bytes[..68].copy_from_slice(&FIRST_PACKET);
        assert!(rt; at <= 69 && change.len() <= 69 - at && length <= 69);
        bytes[at..at + change.len()].copy_from_slice(change);
        assert_eq!(rt; decode(&bytes[..length]).err(), Some(refusal));
    }
}

const FIRST_HEAD: PacketHead = PacketHead {
    counter: 1,
    size: Some(4),
    offset: 0,
};

#[test]
fn the_first_packet_is_written(rt: HostRuntime) {
    let mut out = [0xff; 70];
    let written = encode_into(&FIRST_HEAD, &FIRST_POINTERS, &[1, 2, 3, 0], &mut out);
    assert_eq!(rt; written, 68);
    assert_eq!(rt; &out[..68], &FIRST_PACKET[..]);
    assert_eq!(rt; &out[68..], &[0xff, 0xff][..]);
}

// Counter 9, no size, offset 0x010203040506, length 1, one place in the heap, and one byte.
const UNSIZED_PACKET: [u8; 41] = [
    0x53, 0x04, 0x02, 0x06, 0x00, 0x00, 0x00, 0x04, 0x80, 0x01, 0, 0, 0, 0, 0, 9, 0x80, 0x03, 1, 2,
    3, 4, 5, 6, 0x80, 0x04, 0, 0, 0, 0, 0, 1, 0x43, 0x00, 6, 5, 4, 3, 2, 1, 7,
];

const UNSIZED_HEAD: PacketHead = PacketHead {
    counter: 9,
    size: None,
    offset: 0x0102_0304_0506,
};

const UNSIZED_POINTERS: [Pointer; 1] = [Pointer {
    immediate: false,
    id: 0x4300,
    value: 0x0605_0403_0201,
}];

#[test]
fn a_packet_without_a_size_is_written_and_read_back(rt: HostRuntime) {
    let mut out = [0; 41];
    let written = encode_into(&UNSIZED_HEAD, &UNSIZED_POINTERS, &[7], &mut out);
    assert_eq!(rt; written, 41);
    assert_eq!(rt; out, UNSIZED_PACKET);
    let packet = decode(&out).expect(&rt, "a packet");
    assert_eq!(rt; packet.counter(), 9);
    assert_eq!(rt; packet.size(), None);
    assert_eq!(rt; packet.offset(), 0x0102_0304_0506);
    assert_eq!(rt; packet.payload(), &[7][..]);
    let pointers = pointers_of(rt.alloc(), &packet).expect(&rt, "memory");
    assert_eq!(rt; pointers.as_slice(), &UNSIZED_POINTERS[..]);
}

#[test]
fn one_to_eight_bytes_are_a_number(rt: HostRuntime) {
    assert_eq!(rt; short_number(&[]), None);
    assert_eq!(rt; short_number(&[1, 2]), Some(258));
    assert_eq!(rt;
        short_number(&[1, 2, 3, 4, 5, 6, 7, 8]),
        Some(0x0102_0304_0506_0708)
    );
    assert_eq!(rt; short_number(&[0; 9]), None);
}

// A caller knows what a chain of iterators makes of the pointers.

fn pointers_of(alloc: Global, packet: &Packet) -> Result<Vec<Pointer>, AllocError>
    ensures { IfOk result (λ v. v.items ≡ packet.now.pointers) }
{
    packet.pointers().collect(alloc)
}

fn count(packet: &Packet) -> usize
    ensures { result ≡ length packet.now.pointers }
{
    packet.pointers().count()
}

fn count_with(packet: &Packet, id: u32) -> usize
    ensures { result ≡ length (filter (λ p. p.id == id) packet.now.pointers) }
{
    packet.pointers().filter(|pointer| pointer.id == id).count()
}

fn place_of(packet: &Packet, id: u32) -> Option<usize>
    ensures { result ≡ position (λ p. p.id == id) packet.now.pointers }
{
    packet.pointers().position(|pointer| pointer.id == id)
}

#[test]
fn a_caller_goes_over_the_pointers(rt: HostRuntime) {
    let packet = decode(&FIRST_PACKET).expect(&rt, "a packet");
    assert_eq!(rt; count(&packet), 3);
    assert_eq!(rt; count_with(&packet, 0x4101), 1);
    assert_eq!(rt; place_of(&packet, 0x4300), Some(2));
}
