//! Items of heaps whose contents were worked out by hand.

use crate::{Heap, Pointer};

fn addressed(id: u32, value: u64) -> Pointer {
    Pointer {
        immediate: false,
        id,
        value,
    }
}

fn immediate(id: u32, value: u64) -> Pointer {
    Pointer {
        immediate: true,
        id,
        value,
    }
}

#[test]
fn a_heap_has_its_counter_its_payload_and_its_pointers(rt: HostRuntime) {
    let pointers = [immediate(0x1600, 9)];
    let heap = Heap::new(7, &[1, 2, 3], &pointers);
    assert_eq!(rt; heap.counter(), 7);
    assert_eq!(rt; heap.size(), 3);
    assert_eq!(rt; heap.payload(), [1, 2, 3].as_slice());
    assert_eq!(rt; heap.pointers(), pointers.as_slice());
}

#[test]
fn the_later_of_two_pointers_at_an_offset_has_the_content(rt: HostRuntime) {
    let pointers = [addressed(0x4300, 0), addressed(0x1600, 0)];
    let heap = Heap::new(1, &[1, 2, 3], &pointers);
    assert_eq!(rt; heap.item(0x4300), Some(0));
    assert_eq!(rt; heap.item(0x1600), Some(1));
    assert_eq!(rt; heap.addressed(0x4300), Some([].as_slice()));
    assert_eq!(rt; heap.addressed(0x1600), Some([1, 2, 3].as_slice()));
    assert_eq!(rt; heap.number(0x1600), Some(0x01_0203));
}

#[test]
fn a_content_is_found_by_its_place(rt: HostRuntime) {
    let pointers = [addressed(10, 2), immediate(11, 9), addressed(10, 0)];
    let heap = Heap::new(1, &[1, 2, 3], &pointers);
    for (place, content) in [(0, [3].as_slice()), (2, [1, 2].as_slice())] {
        let pointers = heap.pointers();
        assert!(rt; place < pointers.len() && !pointers[place].immediate);
        assert_eq!(rt; heap.content(place), Some(content));
    }
}

#[test]
fn a_content_reaches_to_the_next_offset(rt: HostRuntime) {
    let pointers = [addressed(10, 4), addressed(11, 0), addressed(12, 2)];
    let payload = [0, 1, 2, 3, 4, 5];
    let heap = Heap::new(1, &payload, &pointers);
    assert_eq!(rt; heap.addressed(10), Some([4, 5].as_slice()));
    assert_eq!(rt; heap.addressed(11), Some([0, 1].as_slice()));
    assert_eq!(rt; heap.addressed(12), Some([2, 3].as_slice()));
}

#[test]
fn an_offset_at_the_end_is_empty_and_one_past_it_is_none(rt: HostRuntime) {
    let pointers = [addressed(10, 3), addressed(11, 4)];
    let heap = Heap::new(1, &[7, 8, 9], &pointers);
    assert_eq!(rt; heap.addressed(10), Some([].as_slice()));
    assert_eq!(rt; heap.addressed(11), None);
}

#[test]
fn the_first_pointer_of_an_id_decides(rt: HostRuntime) {
    let pointers = [
        immediate(10, 9),
        addressed(10, 0),
        addressed(11, 0),
        immediate(11, 7),
    ];
    let heap = Heap::new(1, &[1, 2], &pointers);
    assert_eq!(rt; heap.addressed(10), None);
    assert_eq!(rt; heap.number(10), Some(9));
    assert_eq!(rt; heap.item(11), Some(2));
    assert_eq!(rt; heap.number(11), Some(0x0102));
    assert_eq!(rt; heap.number(12), None);
}

#[test]
fn a_number_has_one_to_eight_bytes(rt: HostRuntime) {
    let payload = [0xff; 9];
    let nine = [addressed(10, 0)];
    assert_eq!(rt; Heap::new(1, &payload, &nine).number(10), None);
    let eight = [addressed(10, 1), addressed(11, 9)];
    let heap = Heap::new(1, &payload, &eight);
    assert_eq!(rt; heap.number(10), Some(u64::MAX));
    assert_eq!(rt; heap.number(11), None);
}
