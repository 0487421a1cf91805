//! Each tool over objects in memory.

ghost use Rattle.std.specs.Prelude.{◌≢◌, ◌≤◌, All, IfOk, None, length};
ghost use Rattle.std.specs.Vec.{vec_len};

mod output;

use super::*;
use corr_model::Unheard;
use corr_site::{ListPrint, ListSink, ListSource, Next, PacketSink, PacketSource, Place};
use output::{HEAD, HEAP, STOP};
use std::alloc::{AllocError, Global};
use std::test::Fail;
use vis_read::{ReadCause, Reader, Refusal};

// The first packet of the first worked example: counter 1, size 4, timestamp 0, antenna 0.
const FIRST: [u8; 68] = [
    0x53, 4, 2, 6, 0, 0, 0, 7, 0x80, 1, 0, 0, 0, 0, 0, 1, 0x80, 2, 0, 0, 0, 0, 0, 4, 0x80, 3, 0, 0,
    0, 0, 0, 0, 0x80, 4, 0, 0, 0, 0, 0, 4, 0x96, 0, 0, 0, 0, 0, 0, 0, 0xc1, 1, 0, 0, 0, 0, 0, 0,
    0x43, 0, 0, 0, 0, 0, 0, 0, 1, 2, 3, 0,
];

// Two byte strings as a list.
fn two_of(alloc: Global, first: &[u8], second: &[u8]) -> Result<Vec<Vec<u8>>, AllocError>
    requires first { length first.now ≤ 65535 }
    requires second { length second.now ≤ 65535 }
    ensures { IfOk result (λ v. All (λ x. vec_len x ≤ 65535) v.items) }
{
    let first = first.to_vec(alloc)?;
    let second = second.to_vec(alloc)?;
    Ok(vec![in alloc; first, second]?)
}

// Three byte strings as a list.
fn three_of(
    alloc: Global,
    first: &[u8],
    second: &[u8],
    third: &[u8],
) -> Result<Vec<Vec<u8>>, AllocError>
    requires first { length first.now ≤ 65535 }
    requires second { length second.now ≤ 65535 }
    requires third { length third.now ≤ 65535 }
    ensures { IfOk result (λ v. All (λ x. vec_len x ≤ 65535) v.items) }
{
    let first = first.to_vec(alloc)?;
    let second = second.to_vec(alloc)?;
    let third = third.to_vec(alloc)?;
    Ok(vec![in alloc; first, second, third]?)
}

// A source of these byte strings, begun, whose calls with these numbers fail.
fn source_of(
    alloc: Global,
    list: Vec<Vec<u8>>,
    fails: Vec<u64>,
) -> Result<ListSource<Unheard>, Fail>
    requires { All (λ x. vec_len x ≤ 65535) list.items }
    ensures { IfOk result (λ s. s.at ≢ None) }
{
    let place = Place::read(alloc, "a.cap")?;
    let mut source: ListSource<Unheard> = ListSource::new(list, fails, false);
    source.begin(0, &place)?;
    Ok(source)
}

#[test]
fn a_relay_sends_no_more_than_its_limit(rt: HostRuntime) -> Result<(), Fail> {
    let list = three_of(rt.alloc(), &[1], &[2, 3], &[4])?;
    let mut source = source_of(rt.alloc(), list, Vec::new(rt.alloc()))?;
    let place = Place::read(rt.alloc(), "b.cap")?;
    let mut sink = ListSink::new(rt.alloc(), 3, 8, Vec::new(rt.alloc()), false)?;
    sink.begin(&place)?;
    assert_eq!(rt; relay(&mut source, &mut sink, 2), Relayed::Done(2));
    assert_eq!(rt; sink.len(), 2);
    assert_eq!(rt; sink.string(1).ok_or("the second")?, [2, 3].as_slice());
    Ok(())
}

#[test]
fn a_relay_tells_what_failed(rt: HostRuntime) -> Result<(), Fail> {
    let list = three_of(rt.alloc(), &[1], &[2, 3], &[4])?;
    let fails = vec![in rt.alloc(); 1]?;
    let mut source = source_of(rt.alloc(), list, fails)?;
    let place = Place::read(rt.alloc(), "b.cap")?;
    let mut sink = ListSink::new(rt.alloc(), 3, 8, Vec::new(rt.alloc()), false)?;
    sink.begin(&place)?;
    assert_eq!(rt; relay(&mut source, &mut sink, 9), Relayed::SourceFault(1));
    let list = three_of(rt.alloc(), &[1], &[2, 3], &[4])?;
    let mut source = source_of(rt.alloc(), list, Vec::new(rt.alloc()))?;
    let mut small = ListSink::new(rt.alloc(), 1, 8, Vec::new(rt.alloc()), false)?;
    small.begin(&place)?;
    assert_eq!(rt; relay(&mut source, &mut small, 9), Relayed::SinkFault);
    assert_eq!(rt; small.len(), 1);
    Ok(())
}

#[test]
fn inspect_prints_a_packet_and_a_refusal(rt: HostRuntime) -> Result<(), Fail> {
    let list = two_of(rt.alloc(), &FIRST, &[0, 0, 0])?;
    let mut source = source_of(rt.alloc(), list, Vec::new(rt.alloc()))?;
    let mut print = ListPrint::new(rt.alloc(), 4096, Vec::new(rt.alloc()))?;
    let answer = inspect(&mut source, &mut print);
    assert_eq!(rt; answer.source, Ok(()));
    assert_eq!(rt; answer.print, Ok(()));
    let text = "0 counter 1 offset 0 length 4 size 4 pointers 3\n\
        \x20 i 1600 000000000000\n\
        \x20 i 4101 000000000000\n\
        \x20 a 4300 000000000000\n\
        1 refused Short\n\
        datagrams 2\n";
    assert!(rt; print.text() == text.as_bytes());
    Ok(())
}

#[test]
fn decode_prints_the_visibilities(rt: HostRuntime) -> Result<(), Fail> {
    let list = three_of(rt.alloc(), &HEAD, &HEAP, &STOP)?;
    let mut source = source_of(rt.alloc(), list, Vec::new(rt.alloc()))?;
    let mut print = ListPrint::new(rt.alloc(), 4096, Vec::new(rt.alloc()))?;
    let mut reader = Reader::new(rt.alloc(), 1024)?;
    let answer = decode(&mut reader, &mut source, &mut print);
    assert_eq!(rt; answer.ended, Ended::Whole);
    let text = "heap 0 timestamp 0\n\
        baseline 0 0 missing 0\n0 6 0 3 7 3 -7 10 0\n\
        baseline 0 1 missing 1\n0 2 -1 0 5 0 -3 6 3\n\
        baseline 1 1 missing 1\n0 1 0 -1 2 -1 -2 5 0\n\
        stop\n";
    assert!(rt; print.text() == text.as_bytes());
    Ok(())
}

#[test]
fn decode_tells_that_no_stop_came(rt: HostRuntime) -> Result<(), Fail> {
    let list = two_of(rt.alloc(), &HEAD, &HEAP)?;
    let mut source = source_of(rt.alloc(), list, Vec::new(rt.alloc()))?;
    let mut print = ListPrint::new(rt.alloc(), 4096, Vec::new(rt.alloc()))?;
    let mut reader = Reader::new(rt.alloc(), 1024)?;
    let answer = decode(&mut reader, &mut source, &mut print);
    assert_eq!(rt; answer.ended, Ended::NoStop(2));
    assert!(rt;
        print
            .text()
            .ends_with(b"0 1 0 -1 2 -1 -2 5 0\nrefused 2 NoStop\n")
    );
    Ok(())
}

#[test]
fn decode_takes_nothing_after_a_refusal(rt: HostRuntime) -> Result<(), Fail> {
    let list = three_of(rt.alloc(), &HEAD, &[0, 0, 0], &HEAP)?;
    let mut source = source_of(rt.alloc(), list, Vec::new(rt.alloc()))?;
    let mut print = ListPrint::new(rt.alloc(), 4096, Vec::new(rt.alloc()))?;
    let mut reader = Reader::new(rt.alloc(), 1024)?;
    let answer = decode(&mut reader, &mut source, &mut print);
    assert_eq!(rt;
        answer.ended,
        Ended::Refused(1, ReadCause::Packet(Refusal::Short))
    );
    assert!(rt; print.text() == b"refused 1 Packet\n".as_slice());
    let mut buf = [0; 65536];
    assert_eq!(rt; source.next(&mut buf), Next::Packet(268));
    Ok(())
}
