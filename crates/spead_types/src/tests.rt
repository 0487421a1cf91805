ghost use Rattle.std.specs.Prelude.{◌≡◌, ◌≤◌, ◌∷◌, [], length};

use crate::{
    DescRefusal, Descriptor, Dim, ItemType, Name, Shape, Types, int_at, put_int, read_descriptor,
    write_descriptor,
};
use corr_model::Refusal;

// The descriptor of `missing` for three baselines: numbers of 32 bits.
const MISSING: [u8; 89] = [
    0x53, 0x04, 0x02, 0x06, 0, 0, 0, 0x08, 0x80, 0x01, 0, 0, 0, 0, 0, 0x01, 0x80, 0x02, 0, 0, 0, 0,
    0, 0x11, 0x80, 0x03, 0, 0, 0, 0, 0, 0, 0x80, 0x04, 0, 0, 0, 0, 0, 0x11, 0x80, 0x14, 0, 0, 0, 0,
    0x18, 0x01, 0x00, 0x10, 0, 0, 0, 0, 0, 0, 0x00, 0x13, 0, 0, 0, 0, 0, 0x07, 0x00, 0x12, 0, 0, 0,
    0, 0, 0x0a, 0x6d, 0x69, 0x73, 0x73, 0x69, 0x6e, 0x67, 0x75, 0x00, 0x20, 0, 0, 0, 0, 0, 0, 0x03,
];

// The descriptor of `timestamp`: an unsigned number of 48 bits.
const TIMESTAMP: [u8; 84] = [
    0x53, 0x04, 0x02, 0x06, 0, 0, 0, 0x08, 0x80, 0x01, 0, 0, 0, 0, 0, 0x01, 0x80, 0x02, 0, 0, 0, 0,
    0, 0x0c, 0x80, 0x03, 0, 0, 0, 0, 0, 0, 0x80, 0x04, 0, 0, 0, 0, 0, 0x0c, 0x80, 0x14, 0, 0, 0, 0,
    0x16, 0x00, 0x00, 0x10, 0, 0, 0, 0, 0, 0, 0x00, 0x13, 0, 0, 0, 0, 0, 0x09, 0x00, 0x12, 0, 0, 0,
    0, 0, 0x0c, 0x74, 0x69, 0x6d, 0x65, 0x73, 0x74, 0x61, 0x6d, 0x70, 0x75, 0x00, 0x30,
];

// The descriptor of `visibilities` for one channel and three baselines: signed numbers of 64 bits.
const VISIBILITIES: [u8; 115] = [
    0x53, 0x04, 0x02, 0x06, 0, 0, 0, 0x08, 0x80, 0x01, 0, 0, 0, 0, 0, 0x01, 0x80, 0x02, 0, 0, 0, 0,
    0, 0x2b, 0x80, 0x03, 0, 0, 0, 0, 0, 0, 0x80, 0x04, 0, 0, 0, 0, 0, 0x2b, 0x80, 0x14, 0, 0, 0, 0,
    0x18, 0x00, 0x00, 0x10, 0, 0, 0, 0, 0, 0, 0x00, 0x13, 0, 0, 0, 0, 0, 0x0c, 0x00, 0x12, 0, 0, 0,
    0, 0, 0x0f, 0x76, 0x69, 0x73, 0x69, 0x62, 0x69, 0x6c, 0x69, 0x74, 0x69, 0x65, 0x73, 0x69, 0x00,
    0x40, 0, 0, 0, 0, 0, 0, 0x01, 0, 0, 0, 0, 0, 0, 0x03, 0, 0, 0, 0, 0, 0, 0x04, 0, 0, 0, 0, 0, 0,
    0x02,
];

// Size and length of 73 bytes, between them the offset.
const LONGER: [u8; 17] = [
    0x49, 0x80, 3, 0, 0, 0, 0, 0, 0, 0x80, 4, 0, 0, 0, 0, 0, 0x49,
];

// Where the descriptor of `missing` is changed, to which bytes, how many bytes are then read, and
// the refusal: the last byte cut, no id, the shape from 11, the types from 6, no types, the letter
// f, no bits, and nine dimensions.
const REFUSED: [(usize, &[u8], usize, DescRefusal); 8] = [
    (0, &[], 88, DescRefusal::Packet(Refusal::Length(17, 16))),
    (40, &[0; 8], 89, DescRefusal::NoId),
    (71, &[11], 89, DescRefusal::ShapeBytes),
    (63, &[6], 89, DescRefusal::TypeBytes),
    (56, &[0; 8], 89, DescRefusal::NoType),
    (79, &[0x66], 89, DescRefusal::Letter),
    (80, &[0, 0], 89, DescRefusal::Bits),
    (23, &LONGER, 145, DescRefusal::TooMany),
];

fn item(id: u32, name: &[u8], item_type: ItemType, shape: &[Dim]) -> Descriptor
    requires name { length name.now ≤ 64 }
    requires shape { length shape.now ≤ 8 }
    ensures { let types = item_type ∷ [] in
        result ≡ record { id = id; shape = shape.now; types = types; name = name.now } }
{
    Descriptor {
        id,
        shape: Shape::new(shape),
        types: Types::new(&[item_type]),
        name: Name::new(name),
    }
}

fn number(letter: u8, bits: u16) -> ItemType
    ensures { result ≡ record { letter = letter; bits = bits } }
{
    ItemType { letter, bits }
}

#[test]
fn the_refusals_of_a_descriptor(rt: HostRuntime) {
    for (at, change, length, refusal) in REFUSED {
        let mut bytes = [0u8; 145];
        bytes[..89].copy_from_slice(&MISSING);
        assert!(rt; at <= 145 && change.len() <= 145 - at && length <= 145);
        bytes[at..at + change.len()].copy_from_slice(change);
        assert_eq!(rt; read_descriptor(&bytes[..length]).err(), Some(refusal));
    }
}

#[test]
fn the_descriptor_of_the_missing_counts(rt: HostRuntime) {
    let missing = item(0x1801, b"missing", number(b'u', 32), &[Dim::Fixed(3)]);
    assert_eq!(rt; read_descriptor(&MISSING), Ok(missing));
}

#[test]
fn shape_and_types_at_one_offset(rt: HostRuntime) {
    let mut bytes = TIMESTAMP;
    bytes[56..72].copy_from_slice(&[0, 0x12, 0, 0, 0, 0, 0, 9, 0, 0x13, 0, 0, 0, 0, 0, 9]);
    let timestamp = item(0x1600, b"timestamp", number(b'u', 48), &[]);
    assert_eq!(rt; read_descriptor(&bytes), Ok(timestamp));
}

#[test]
fn the_descriptors_of_the_output(rt: HostRuntime) {
    let mut out = [0u8; 120];
    let shape = [Dim::Fixed(1), Dim::Fixed(3), Dim::Fixed(4), Dim::Fixed(2)];
    let timestamp = item(0x1600, b"timestamp", number(b'u', 48), &[]);
    let visibilities = item(0x1800, b"visibilities", number(b'i', 64), &shape);
    let missing = item(0x1801, b"missing", number(b'u', 32), &[Dim::Fixed(3)]);
    let length = write_descriptor(&timestamp, &mut out);
    assert_eq!(rt; &out[..length], &TIMESTAMP[..]);
    let length = write_descriptor(&visibilities, &mut out);
    assert_eq!(rt; &out[..length], &VISIBILITIES[..]);
    let length = write_descriptor(&missing, &mut out);
    assert_eq!(rt; &out[..length], &MISSING[..]);
}

#[test]
fn numbers_of_four_widths(rt: HostRuntime) {
    let bytes = [0x80, 0xfe, 0xff, 0xff, 0xff, 0xff, 0xff, 0xfd];
    assert_eq!(rt; int_at(&bytes, 8, true, 0), -128);
    assert_eq!(rt; int_at(&bytes, 8, false, 1), 254);
    assert_eq!(rt; int_at(&bytes, 16, true, 3), -3);
    assert_eq!(rt; int_at(&bytes, 16, false, 0), 0x80fe);
    assert_eq!(rt; int_at(&bytes, 32, false, 1), 0xffff_fffd);
    assert_eq!(rt; int_at(&bytes, 64, true, 0), -0x7f01_0000_0000_0003);
}

#[test]
fn a_number_is_written_in_its_place(rt: HostRuntime) {
    let mut bytes = [7u8; 8];
    put_int(&mut bytes, 16, 1, -2);
    put_int(&mut bytes, 8, 4, 200);
    assert_eq!(rt; bytes, [7, 7, 0xff, 0xfe, 200, 7, 7, 7]);
}
