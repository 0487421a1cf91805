//! One use of each public call, with values by hand.

ghost use Rattle.std.specs.Prelude.{◌≤◌, All, IfOk};
ghost use Rattle.std.specs.Vec.{vec_len};

use super::*;
use corr_model::Unheard;
use std::alloc::{AllocError, AllocFailed, Global};
use std::test::Fail;

// Two byte strings.
fn two_strings(alloc: Global) -> Result<Vec<Vec<u8>>, AllocError>
    ensures { IfOk result (λ v. All (λ x. vec_len x ≤ 65535) v.items) }
{
    let first = vec![in alloc; 1, 2]?;
    let second = vec![in alloc; 3]?;
    Ok(vec![in alloc; first, second]?)
}

// The value may be handed to another thread.
fn may_cross<T: Send>(_value: &T) {}

#[test]
fn a_word_after_udp_is_an_address(rt: HostRuntime) -> Result<(), Fail> {
    let net = Place::read(rt.alloc(), "udp:10.0.0.1:7148")?;
    assert!(rt; net.udp);
    assert_eq!(rt; net.text.as_str(), "10.0.0.1:7148");
    assert!(rt; net.is(&net.copy(rt.alloc())?));
    Ok(())
}

#[test]
fn any_other_word_is_a_file(rt: HostRuntime) -> Result<(), Fail> {
    let file = Place::read(rt.alloc(), "heaps.spd")?;
    assert!(rt; !file.udp);
    assert_eq!(rt; file.text.as_str(), "heaps.spd");
    Ok(())
}

#[test]
fn places_are_given_back(rt: HostRuntime) -> Result<(), Fail> {
    let first = Place::read(rt.alloc(), "a")?;
    let second = Place::read(rt.alloc(), "udp:b:1")?;
    let places = Places::from_vec(vec![in rt.alloc(); first, second]?);
    assert_eq!(rt; places.as_slice().len(), 2);
    let given = places.into_vec();
    assert!(rt; given[1].udp);
    Ok(())
}

#[test]
fn a_text_is_its_copy(rt: HostRuntime) -> Result<(), Fail> {
    let text = Text::new(rt.alloc(), "run.toml")?;
    assert!(rt; text.is(&text.copy(rt.alloc())?));
    Ok(())
}

#[test]
fn a_source_gives_its_strings_and_ends(rt: HostRuntime) -> Result<(), Fail> {
    let place = Place::read(rt.alloc(), "a")?;
    let list = two_strings(rt.alloc())?;
    let mut source: ListSource<Unheard> = ListSource::new(list, Vec::new(rt.alloc()), false);
    may_cross(&source);
    source.begin(7, &place)?;
    assert!(rt; source.is_begun());
    assert!(rt; source.is_at(7, &place));
    let mut buf = [0; 65536];
    assert_eq!(rt; source.next(&mut buf), Next::Packet(2));
    assert_eq!(rt; &buf[..2], [1, 2].as_slice());
    assert_eq!(rt; source.next(&mut buf), Next::Packet(1));
    assert_eq!(rt; source.next(&mut buf), Next::End);
    Ok(())
}

#[test]
fn a_source_gives_nothing_after_a_failure(rt: HostRuntime) -> Result<(), Fail> {
    let place = Place::read(rt.alloc(), "a")?;
    let list = two_strings(rt.alloc())?;
    let fails = vec![in rt.alloc(); 0]?;
    let mut source: ListSource<Unheard> = ListSource::new(list, fails, false);
    source.begin(0, &place)?;
    let mut buf = [0; 65536];
    assert_eq!(rt; source.next(&mut buf), Next::Failed);
    assert_eq!(rt; source.next(&mut buf), Next::End);
    assert_eq!(rt; source.faults(), 1);
    Ok(())
}

#[test]
fn a_begin_that_fails_is_counted(rt: HostRuntime) -> Result<(), Fail> {
    let path = Text::new(rt.alloc(), "a")?;
    let mut text = ListText::new(Vec::new(rt.alloc()), Vec::new(rt.alloc()), true);
    assert_eq!(rt; text.begin(&path), Err(Failed));
    assert!(rt; !text.is_begun());
    assert_eq!(rt; text.faults(), 1);
    Ok(())
}

#[test]
fn a_sink_keeps_what_is_sent_while_it_has_room(rt: HostRuntime) -> Result<(), Fail> {
    let place = Place::read(rt.alloc(), "a")?;
    let mut sink = ListSink::new(rt.alloc(), 2, 3, Vec::new(rt.alloc()), false)?;
    sink.begin(&place)?;
    assert!(rt; sink.is_begun());
    assert!(rt; sink.is_at(&place));
    sink.send(&[1, 2])?;
    assert_eq!(rt; sink.send(&[3, 4]), Err(Failed));
    sink.send(&[5])?;
    assert_eq!(rt; sink.len(), 2);
    assert_eq!(rt; sink.string(1).ok_or("the second")?, [5].as_slice());
    assert_eq!(rt; sink.faults(), 1);
    Ok(())
}

#[test]
fn a_text_is_read_piece_by_piece(rt: HostRuntime) -> Result<(), Fail> {
    let path = Text::new(rt.alloc(), "a")?;
    let bytes = b"abcde".to_vec(rt.alloc())?;
    let mut text = ListText::new(bytes, Vec::new(rt.alloc()), false);
    text.begin(&path)?;
    assert!(rt; text.is_at(&path));
    let mut buf = [0; 3];
    assert_eq!(rt; text.read(&mut buf), Got::Bytes(3));
    assert_eq!(rt; text.read(&mut buf), Got::Bytes(2));
    assert_eq!(rt; &buf[..2], b"de".as_slice());
    assert_eq!(rt; text.read(&mut buf), Got::End);
    Ok(())
}

#[test]
fn a_print_keeps_what_is_written_while_it_has_room(rt: HostRuntime) -> Result<(), Fail> {
    let mut print = ListPrint::new(rt.alloc(), 5, Vec::new(rt.alloc()))?;
    print.write(b"ab")?;
    assert_eq!(rt; print.write(b"cdef"), Err(Failed));
    print.write(b"cde")?;
    assert_eq!(rt; print.text(), b"abcde".as_slice());
    assert_eq!(rt; print.faults(), 1);
    Ok(())
}

#[test]
fn the_gate_of_the_program_lets_all_pass() {
    let kind = ActorKind::Work;
    NoGate.pass(Actor { kind, number: 3 });
}

#[test]
fn a_lack_of_memory_is_one_answer(rt: HostRuntime) {
    assert_eq!(rt; NoMemory::from(AllocError), NoMemory);
    assert_eq!(rt; NoMemory::from(AllocFailed { value: 3u8 }), NoMemory);
}
