ghost use Rattle.std.specs.Prelude.{◌+◌, ◌≤◌, ◌≡◌, length};

use crate::{Taken, Window};
use corr_model::DropCause;
use spead_wire::decode;
use std::process::Abort;
use std::test::*;

// The most bytes of a heap.
const LIMIT: u32 = 16;

// What a packet is to its heap; of a whole heap the payload.
#[derive(Clone, Copy)]
enum Seen {
    Part,
    Whole(&'static [u8]),
    Stale,
    Dropped(DropCause),
}

// A packet's counter, size, offset and payload; whether it opens a heap, which heap it evicts, and
// what it is to its heap.
type Row = (u8, Option<u8>, u8, &'static [u8], bool, Option<u64>, Seen);

const REPEATED: [Row; 3] = [
    (
        1,
        Some(4),
        0,
        &[1, 2, 3, 0],
        true,
        None,
        Seen::Whole(&[1, 2, 3, 0]),
    ),
    (1, Some(4), 0, &[1, 2, 3, 0], false, None, Seen::Stale),
    (
        2,
        Some(4),
        0,
        &[0, 1, 4, 9],
        true,
        None,
        Seen::Whole(&[0, 1, 4, 9]),
    ),
];

const REVERSED: [Row; 4] = [
    (1, None, 3, &[0], true, None, Seen::Part),
    (1, None, 2, &[3], false, None, Seen::Part),
    (1, None, 1, &[2], false, None, Seen::Part),
    (1, Some(4), 0, &[1], false, None, Seen::Whole(&[1, 2, 3, 0])),
];

const EVICTED: [Row; 4] = [
    (1, Some(4), 0, &[1, 2], true, None, Seen::Part),
    (2, Some(4), 0, &[1, 2], true, None, Seen::Part),
    (3, Some(4), 0, &[1, 2], true, Some(1), Seen::Part),
    (1, Some(4), 2, &[3, 4], true, Some(2), Seen::Part),
];

const DROPPED: [Row; 7] = [
    (1, Some(4), 0, &[1, 2], true, None, Seen::Part),
    (
        1,
        None,
        1,
        &[2, 3],
        false,
        None,
        Seen::Dropped(DropCause::Overlap),
    ),
    (
        1,
        Some(8),
        2,
        &[3, 4],
        false,
        None,
        Seen::Dropped(DropCause::SizeDiffers),
    ),
    (
        1,
        None,
        3,
        &[4, 5],
        false,
        None,
        Seen::Dropped(DropCause::PastSize),
    ),
    (1, None, 2, &[3, 4], false, None, Seen::Whole(&[1, 2, 3, 4])),
    (
        2,
        Some(17),
        0,
        &[1],
        false,
        None,
        Seen::Dropped(DropCause::PastLimit),
    ),
    (2, Some(16), 0, &[1], true, None, Seen::Part),
];

#[test]
fn a_repeated_packet(rt: HostRuntime) -> Result<(), Fail> {
    let mut window = Window::new(rt.alloc(), 2, LIMIT)?;
    take_all(&rt, &mut window, &REPEATED);
    Ok(())
}

#[test]
fn pieces_in_reverse_order(rt: HostRuntime) -> Result<(), Fail> {
    let mut window = Window::new(rt.alloc(), 2, LIMIT)?;
    take_all(&rt, &mut window, &REVERSED);
    Ok(())
}

#[test]
fn eviction_from_the_window(rt: HostRuntime) -> Result<(), Fail> {
    let mut window = Window::new(rt.alloc(), 2, LIMIT)?;
    take_all(&rt, &mut window, &EVICTED);
    Ok(())
}

#[test]
fn drop_causes(rt: HostRuntime) -> Result<(), Fail> {
    let mut window = Window::new(rt.alloc(), 2, LIMIT)?;
    take_all(&rt, &mut window, &DROPPED);
    Ok(())
}

#[test]
fn too_many_pointers_open_a_heap(rt: HostRuntime) -> Result<(), Fail> {
    let mut window = Window::new(rt.alloc(), 2, LIMIT)?;
    let mut bytes = [0; 560];
    header(&mut bytes, 69, 7, None, 0, 0);
    for pointer in 0..65 {
        bytes[40 + 8 * pointer] = 0x96;
        bytes[47 + 8 * pointer] = pointer as u8;
    }
    let packet = decode(&bytes).expect(&rt, "a packet");
    let take = window.take(&packet);
    assert!(rt; take.opened);
    assert!(rt; is_seen(&take.what, Seen::Dropped(DropCause::TooManyPointers)));
    take_all(
        &rt,
        &mut window,
        &[(7, Some(2), 0, &[1, 2], false, None, Seen::Whole(&[1, 2]))],
    );
    Ok(())
}

// Takes the packets in turn and compares what is answered.
fn take_all(rt: &impl Abort, window: &mut Window, rows: &[Row]) {
    for row in rows {
        take_one(rt, window, row);
    }
}

fn take_one(rt: &impl Abort, window: &mut Window, row: &Row) {
    let (counter, size, offset, payload, opened, evicted, seen) = *row;
    assert!(rt; payload.len() <= 4);
    let mut bytes = [0; 44];
    header(&mut bytes, 4, counter, size, offset, payload.len() as u8);
    let (text, _) = bytes.split_at_mut(40 + payload.len());
    text[40..].copy_from_slice(payload);
    let packet = decode(text).expect(rt, "a packet");
    let take = window.take(&packet);
    assert_eq!(rt; take.opened, opened);
    assert_eq!(rt; take.evicted, evicted);
    assert!(rt; is_seen(&take.what, seen));
}

// Writes a packet's first 40 bytes. Where it says no size, a null pointer stands in its place.
fn header(bytes: &mut [u8], pointers: u8, counter: u8, size: Option<u8>, offset: u8, len: u8)
    requires { 40 ≤ length bytes.old }
    ensures { length bytes.new ≡ length bytes.old }
{
    bytes[..8].copy_from_slice(&[0x53, 4, 2, 6, 0, 0, 0, pointers]);
    item(bytes, 8, 1, counter);
    if let Some(size) = size {
        item(bytes, 16, 2, size);
    }
    item(bytes, 24, 3, offset);
    item(bytes, 32, 4, len);
}

// Writes an immediate item pointer.
fn item(bytes: &mut [u8], at: usize, id: u8, value: u8)
    requires { at + 8 ≤ length bytes.old }
    ensures { length bytes.new ≡ length bytes.old }
{
    bytes[at..at + 8].copy_from_slice(&[0x80, id, 0, 0, 0, 0, 0, value]);
}

// Whether a packet is this to its heap.
fn is_seen(what: &Taken<'_>, seen: Seen) -> bool {
    match (what, seen) {
        (Taken::Part, Seen::Part) | (Taken::Stale, Seen::Stale) => true,
        (Taken::Whole(heap), Seen::Whole(payload)) => heap.payload() == payload,
        (Taken::Dropped(cause), Seen::Dropped(expected)) => *cause == expected,
        _ => false,
    }
}
