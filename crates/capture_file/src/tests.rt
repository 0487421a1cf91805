//! A capture of one packet, whole and changed, and what a writer writes.

ghost use Rattle.std.specs.Prelude.{◌≡◌, true, false, IfOk};

use super::*;
use corr_site::{Failed, ListPrint, ListText, Text, TextSource};
use std::alloc::Global;
use std::test::Fail;

// The capture of one packet.
const ONE_PACKET: [u8; 80] = [
    0x53, 0x50, 0x43, 0x41, 0x50, 0x54, 0x30, 0x31, 0, 0, 0, 0x44, 0x53, 4, 2, 6, 0, 0, 0, 7, 0x80,
    1, 0, 0, 0, 0, 0, 1, 0x80, 2, 0, 0, 0, 0, 0, 4, 0x80, 3, 0, 0, 0, 0, 0, 0, 0x80, 4, 0, 0, 0, 0,
    0, 4, 0x96, 0, 0, 0, 0, 0, 0, 0, 0xc1, 1, 0, 0, 0, 0, 0, 0, 0x43, 0, 0, 0, 0, 0, 0, 0, 1, 2, 3,
    0,
];

// A reader of these bytes in this room, whose reads with these numbers fail.
fn reader_in(
    room: Room,
    alloc: Global,
    bytes: &[u8],
    fails: Vec<u64>,
) -> Result<CaptureReader<ListText>, Fail>
    ensures begun { IfOk result (λ r. r.begun ≡ true) }
    ensures whole { IfOk result (λ r. r.broken ≡ false) }
{
    let path = Text::new(alloc, "a.cap")?;
    let mut text = ListText::new(bytes.to_vec(alloc)?, fails, false);
    text.begin(&path)?;
    Ok(CaptureReader::new(text, room))
}

// The same in room of its own.
fn reader_of(alloc: Global, bytes: &[u8], fails: Vec<u64>) -> Result<CaptureReader<ListText>, Fail>
    ensures begun { IfOk result (λ r. r.begun ≡ true) }
    ensures whole { IfOk result (λ r. r.broken ≡ false) }
{
    reader_in(Room::new(alloc)?, alloc, bytes, fails)
}

// What a reader of these bytes answers first, and then again where it did not fail.
fn answers(alloc: Global, bytes: &[u8]) -> Result<(Captured, Captured), Fail> {
    let mut reader = reader_of(alloc, bytes, Vec::new(alloc))?;
    let mut buf = [0; 65536];
    let first = reader.next(&mut buf);
    if reader.broken() {
        return Ok((first, first));
    }
    let second = reader.next(&mut buf);
    Ok((first, second))
}

// The capture of one packet with one byte changed.
fn changed(place: usize, byte: u8) -> [u8; 80] {
    let mut bytes = ONE_PACKET;
    if place < 80 {
        bytes[place] = byte;
    }
    bytes
}

#[test]
fn the_capture_of_one_packet_is_that_packet_and_the_end(rt: HostRuntime) -> Result<(), Fail> {
    let (first, second) = answers(rt.alloc(), &ONE_PACKET)?;
    assert_eq!(rt; first, Captured::Packet(68));
    assert_eq!(rt; second, Captured::End);
    Ok(())
}

#[test]
fn the_bytes_of_the_packet_stand_in_the_buffer(rt: HostRuntime) -> Result<(), Fail> {
    let mut reader = reader_of(rt.alloc(), &ONE_PACKET, Vec::new(rt.alloc()))?;
    let mut buf = [0; 65536];
    assert_eq!(rt; reader.next(&mut buf), Captured::Packet(68));
    assert_eq!(rt; &buf[..68], &ONE_PACKET[12..]);
    Ok(())
}

#[test]
fn a_second_reader_in_the_same_room_reads_its_own_bytes(rt: HostRuntime) -> Result<(), Fail> {
    let mut first = reader_of(rt.alloc(), &ONE_PACKET, Vec::new(rt.alloc()))?;
    let mut buf = [0; 65536];
    assert_eq!(rt; first.next(&mut buf), Captured::Packet(68));
    let room = first.into_room();
    let mut second = reader_in(room, rt.alloc(), &ONE_PACKET[..12], Vec::new(rt.alloc()))?;
    assert_eq!(rt;
        second.next(&mut buf),
        Captured::Refused(CaptureRefusal::Cut)
    );
    Ok(())
}

#[test]
fn without_the_last_byte_it_is_cut(rt: HostRuntime) -> Result<(), Fail> {
    let (first, second) = answers(rt.alloc(), &ONE_PACKET[..79])?;
    assert_eq!(rt; first, Captured::Refused(CaptureRefusal::Cut));
    assert_eq!(rt; second, first);
    Ok(())
}

#[test]
fn another_first_byte_is_no_capture(rt: HostRuntime) -> Result<(), Fail> {
    let (first, second) = answers(rt.alloc(), &changed(0, 0x54))?;
    assert_eq!(rt; first, Captured::Refused(CaptureRefusal::Magic));
    assert_eq!(rt; second, first);
    Ok(())
}

#[test]
fn a_length_past_65535_is_too_long(rt: HostRuntime) -> Result<(), Fail> {
    let mut bytes = changed(9, 1);
    bytes[11] = 0;
    let (first, second) = answers(rt.alloc(), &bytes)?;
    assert_eq!(rt; first, Captured::Refused(CaptureRefusal::TooLong(65536)));
    assert_eq!(rt; second, first);
    Ok(())
}

#[test]
fn the_first_eight_bytes_alone_have_no_record(rt: HostRuntime) -> Result<(), Fail> {
    let (first, second) = answers(rt.alloc(), &ONE_PACKET[..8])?;
    assert_eq!(rt; first, Captured::End);
    assert_eq!(rt; second, Captured::End);
    Ok(())
}

#[test]
fn a_read_that_fails_breaks_the_reader(rt: HostRuntime) -> Result<(), Fail> {
    let fails = vec![in rt.alloc(); 0]?;
    let mut reader = reader_of(rt.alloc(), &ONE_PACKET, fails)?;
    let mut buf = [0; 65536];
    assert_eq!(rt; reader.next(&mut buf), Captured::Failed);
    assert!(rt; reader.broken());
    Ok(())
}

#[test]
fn a_capture_of_one_packet_takes_80_bytes(rt: HostRuntime) -> Result<(), Fail> {
    let print = ListPrint::new(rt.alloc(), 80, Vec::new(rt.alloc()))?;
    let mut writer = CaptureWriter::new(print);
    writer.head()?;
    writer.packet(&ONE_PACKET[12..])?;
    assert!(rt; !writer.broken());
    assert_eq!(rt; writer.packet(&[]), Err(Failed));
    Ok(())
}

#[test]
fn a_write_that_fails_breaks_the_writer(rt: HostRuntime) -> Result<(), Fail> {
    let print = ListPrint::new(rt.alloc(), 8, Vec::new(rt.alloc()))?;
    let mut writer = CaptureWriter::new(print);
    writer.head()?;
    assert!(rt; !writer.broken());
    assert_eq!(rt; writer.packet(&ONE_PACKET[12..]), Err(Failed));
    assert!(rt; writer.broken());
    Ok(())
}
