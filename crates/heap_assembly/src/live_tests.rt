//! Heaps put together from packets that were written by hand.

ghost use Rattle.std.specs.Prelude.{◌≤◌};

use crate::{Added, DropCause, Live, is_within};
use spead_wire::decode;
use std::alloc::Global;
use std::process::Abort;

// Packets of heap 1, and what each is to it: a header, the pointers of counter, size, offset and
// length, and the payload.

// The first half of a heap of size 4.
const FIRST_HALF: &[u8] = &[
    0x53, 0x04, 0x02, 0x06, 0, 0, 0, 4, 0x80, 1, 0, 0, 0, 0, 0, 1, 0x80, 2, 0, 0, 0, 0, 0, 4, 0x80,
    3, 0, 0, 0, 0, 0, 0, 0x80, 4, 0, 0, 0, 0, 0, 2, 1, 2,
];

// Two bytes from place 1 on.
const OVERLAPPING: &[u8] = &[
    0x53, 0x04, 0x02, 0x06, 0, 0, 0, 3, 0x80, 1, 0, 0, 0, 0, 0, 1, 0x80, 3, 0, 0, 0, 0, 0, 1, 0x80,
    4, 0, 0, 0, 0, 0, 2, 8, 8,
];

// The other half, of a heap of size 8.
const OTHER_SIZE: &[u8] = &[
    0x53, 0x04, 0x02, 0x06, 0, 0, 0, 4, 0x80, 1, 0, 0, 0, 0, 0, 1, 0x80, 2, 0, 0, 0, 0, 0, 8, 0x80,
    3, 0, 0, 0, 0, 0, 2, 0x80, 4, 0, 0, 0, 0, 0, 2, 3, 4,
];

// Two bytes from place 3 on.
const PAST_THE_SIZE: &[u8] = &[
    0x53, 0x04, 0x02, 0x06, 0, 0, 0, 3, 0x80, 1, 0, 0, 0, 0, 0, 1, 0x80, 3, 0, 0, 0, 0, 0, 3, 0x80,
    4, 0, 0, 0, 0, 0, 2, 8, 8,
];

// The other half, with no size.
const OTHER_HALF: &[u8] = &[
    0x53, 0x04, 0x02, 0x06, 0, 0, 0, 3, 0x80, 1, 0, 0, 0, 0, 0, 1, 0x80, 3, 0, 0, 0, 0, 0, 2, 0x80,
    4, 0, 0, 0, 0, 0, 2, 3, 4,
];

// No byte, at place 1.
const NO_BYTE: &[u8] = &[
    0x53, 0x04, 0x02, 0x06, 0, 0, 0, 3, 0x80, 1, 0, 0, 0, 0, 0, 1, 0x80, 3, 0, 0, 0, 0, 0, 1, 0x80,
    4, 0, 0, 0, 0, 0, 0,
];

const DROP_CAUSES: [(&[u8], Added); 5] = [
    (FIRST_HALF, Added::Kept),
    (OVERLAPPING, Added::Dropped(DropCause::Overlap)),
    (OTHER_SIZE, Added::Dropped(DropCause::SizeDiffers)),
    (PAST_THE_SIZE, Added::Dropped(DropCause::PastSize)),
    (OTHER_HALF, Added::Whole),
];

// A byte at each place from the last on; size and pointers stand in the last packet alone.
const REVERSED: [(&[u8], Added); 4] = [
    (
        &[
            0x53, 0x04, 0x02, 0x06, 0, 0, 0, 3, 0x80, 1, 0, 0, 0, 0, 0, 1, 0x80, 3, 0, 0, 0, 0, 0,
            3, 0x80, 4, 0, 0, 0, 0, 0, 1, 0,
        ],
        Added::Kept,
    ),
    (
        &[
            0x53, 0x04, 0x02, 0x06, 0, 0, 0, 3, 0x80, 1, 0, 0, 0, 0, 0, 1, 0x80, 3, 0, 0, 0, 0, 0,
            2, 0x80, 4, 0, 0, 0, 0, 0, 1, 3,
        ],
        Added::Kept,
    ),
    (
        &[
            0x53, 0x04, 0x02, 0x06, 0, 0, 0, 3, 0x80, 1, 0, 0, 0, 0, 0, 1, 0x80, 3, 0, 0, 0, 0, 0,
            1, 0x80, 4, 0, 0, 0, 0, 0, 1, 2,
        ],
        Added::Kept,
    ),
    (
        &[
            0x53, 0x04, 0x02, 0x06, 0, 0, 0, 6, 0x80, 1, 0, 0, 0, 0, 0, 1, 0x80, 2, 0, 0, 0, 0, 0,
            4, 0x80, 3, 0, 0, 0, 0, 0, 0, 0x80, 4, 0, 0, 0, 0, 0, 1, 0x96, 0, 0, 0, 0, 0, 0, 0,
            0x43, 0, 0, 0, 0, 0, 0, 0, 1,
        ],
        Added::Whole,
    ),
];

fn started(rt: &impl Abort, alloc: Global) -> Live {
    let mut live = Live::new(alloc, 16).expect(rt, "memory");
    live.start(1);
    live
}

// What the packet in these bytes is to the heap, which may take it.
fn add(rt: &impl Abort, live: &mut Live, bytes: &[u8]) -> Added {
    let packet = decode(bytes).expect(rt, "a packet");
    assert!(rt; !live.is_whole());
    assert!(rt; packet.counter() == live.counter());
    assert!(rt; is_within(live.limit(), &packet));
    live.add(&packet)
}

#[test]
fn drop_causes(rt: HostRuntime) {
    let mut live = started(&rt, rt.alloc());
    for (bytes, added) in DROP_CAUSES {
        assert_eq!(rt; add(&rt, &mut live, bytes), added);
    }
    assert!(rt; live.is_whole());
    assert_eq!(rt; live.whole().payload(), [1, 2, 3, 4].as_slice());
}

#[test]
fn pieces_in_reverse_order(rt: HostRuntime) {
    let mut live = started(&rt, rt.alloc());
    for (bytes, added) in REVERSED {
        assert_eq!(rt; add(&rt, &mut live, bytes), added);
    }
    assert!(rt; live.is_whole());
    let heap = live.whole();
    assert_eq!(rt; heap.counter(), 1);
    assert_eq!(rt; heap.payload(), [1, 2, 3, 0].as_slice());
    assert_eq!(rt; heap.pointers().len(), 2);
}

#[test]
fn a_packet_with_no_byte_is_kept_inside_a_kept_range(rt: HostRuntime) {
    let mut live = started(&rt, rt.alloc());
    assert_eq!(rt; add(&rt, &mut live, FIRST_HALF), Added::Kept);
    assert_eq!(rt; add(&rt, &mut live, NO_BYTE), Added::Kept);
    assert_eq!(rt; add(&rt, &mut live, OTHER_HALF), Added::Whole);
}

#[test]
fn a_heap_that_is_started_anew_has_no_byte(rt: HostRuntime) {
    let mut live = started(&rt, rt.alloc());
    assert_eq!(rt; add(&rt, &mut live, FIRST_HALF), Added::Kept);
    assert_eq!(rt;
        add(&rt, &mut live, FIRST_HALF),
        Added::Dropped(DropCause::Overlap)
    );
    live.start(1);
    assert_eq!(rt; add(&rt, &mut live, FIRST_HALF), Added::Kept);
}

// What a packet with no byte and so many distinct pointers is to the heap.
fn add_pointed(rt: &impl Abort, live: &mut Live, pointers: u8) -> Added
    requires { pointers ≤ 65 }
{
    let mut bytes = [0; 552];
    bytes[..32].copy_from_slice(NO_BYTE);
    bytes[7] = 3 + pointers;
    for i in 0..usize::from(pointers) {
        bytes[32 + 8 * i] = 0x80;
        bytes[33 + 8 * i] = 16 + i as u8;
    }
    let (packet, _) = bytes.split_at(32 + 8 * usize::from(pointers));
    add(rt, live, packet)
}

#[test]
fn sixty_four_distinct_pointers_at_most(rt: HostRuntime) {
    let mut live = started(&rt, rt.alloc());
    let many = Added::Dropped(DropCause::TooManyPointers);
    assert_eq!(rt; add_pointed(&rt, &mut live, 65), many);
    assert_eq!(rt; add_pointed(&rt, &mut live, 64), Added::Kept);
    assert_eq!(rt; add_pointed(&rt, &mut live, 64), Added::Kept);
    assert_eq!(rt; add_pointed(&rt, &mut live, 65), many);
}
