//! Each object once over a real file, a real socket or standard output, with values by hand.

ghost use Rattle.std.specs.Prelude.{◌≡◌, true, OnOk};

use super::*;
use corr_model::Unheard;
use corr_site::{Failed, Got, Next, PacketSink, PacketSource, Place, Text, TextSink, TextSource};
use std::net::{Net, SocketAddr, UdpSocket};
use std::test::Fail;
use std::{fs, io};

/// The greatest number of bytes that a datagram of UDP holds over IPv4.
const LONGEST: usize = 65507;

// The capture of the byte strings 1 2 3, none and 255.
const CAPTURE: [u8; 24] = [
    0x53, 0x50, 0x43, 0x41, 0x50, 0x54, 0x30, 0x31, 0, 0, 0, 3, 1, 2, 3, 0, 0, 0, 0, 0, 0, 0, 1,
    255,
];

// Begins the source for antenna 0, whatever its packets say.
fn begin<S: PacketSource<Unheard>>(source: &mut S, place: &Place) -> Result<(), Failed>
    ensures begun { OnOk result (S.begun source.new ≡ true) }
{
    source.begin(0, place)
}

// What the source gives next.
fn next<S: PacketSource<Unheard>>(source: &mut S, buf: &mut [u8; 65536]) -> Next
    requires begun { S.begun source.old ≡ true }
    ensures begun { S.begun source.new ≡ true }
{
    source.next(buf)
}

// Sends a byte string, and answers what the source gives then.
fn pass_on<K: PacketSink, S: PacketSource<Unheard>>(
    sink: &mut K,
    source: &mut S,
    bytes: &[u8],
    buf: &mut [u8; 65536],
) -> Result<Next, Failed>
    requires sink { K.begun sink.old ≡ true }
    requires source { S.begun source.old ≡ true }
    ensures sink { K.begun sink.new ≡ true }
    ensures source { S.begun source.new ≡ true }
{
    sink.send(bytes)?;
    Ok(next(source, buf))
}

// An address of this host at which nothing listens, where datagrams can be sent to it.
fn free_address<R: Net>(net: &R) -> io::Result<SocketAddr> {
    let socket = UdpSocket::bind(net, "127.0.0.1:0")?;
    let address = socket.local_addr()?;
    socket.send_to(&[], address)?;
    Ok(address)
}

#[test]
fn a_capture_that_is_written_is_read_back(rt: HostRuntime) -> Result<(), Fail> {
    let place = Place::read(rt.alloc(), "adapters.cap")?;
    let held = HeldFiles::new(rt.alloc())?;
    let fault = PrintFault::new();
    let mut sink = ProgramSink::new(&rt, &held, Progress::on(&rt.stderr()));
    sink.begin(&place)?;
    sink.send(&[1, 2, 3])?;
    sink.send(&[])?;
    sink.send(&[255])?;
    assert_eq!(rt;
        fs::read(&rt, "adapters.cap")?.as_slice(),
        CAPTURE.as_slice()
    );
    let mut source = ProgramSource::new(rt.alloc(), &rt, &held, 0, &fault)?;
    begin(&mut source, &place)?;
    let mut buf = [7; 65536];
    assert_eq!(rt; next(&mut source, &mut buf), Next::Packet(3));
    assert_eq!(rt; &buf[..4], [1, 2, 3, 7].as_slice());
    assert_eq!(rt; next(&mut source, &mut buf), Next::Packet(0));
    assert_eq!(rt; next(&mut source, &mut buf), Next::Packet(1));
    assert_eq!(rt; buf[0], 255);
    assert_eq!(rt; next(&mut source, &mut buf), Next::End);
    begin(&mut source, &place)?;
    assert_eq!(rt; next(&mut source, &mut buf), Next::Packet(3));
    fs::remove_file(&rt, "adapters.cap")?;
    Ok(())
}

#[test]
fn a_datagram_that_is_sent_arrives_whole(rt: HostRuntime) -> Result<(), Fail> {
    let Ok(free) = free_address(&rt) else {
        println!(rt; "no loopback here, so UDP was not tried")?;
        return Ok(());
    };
    let address = format!(in rt.alloc(); "{free}")?;
    assert!(rt; address.len() <= 4096);
    let text = Text::new(rt.alloc(), address.as_str())?;
    let place = Place { udp: true, text };
    let held = HeldFiles::new(rt.alloc())?;
    let fault = PrintFault::new();
    let mut source = ProgramSource::new(rt.alloc(), &rt, &held, 0, &fault)?;
    begin(&mut source, &place)?;
    let mut sink = ProgramSink::new(&rt, &held, Progress::on(&rt.stderr()));
    sink.begin(&place)?;
    let sent = [9; LONGEST];
    let mut buf = [7; 65536];
    let short = pass_on(&mut sink, &mut source, &sent[..3], &mut buf)?;
    assert_eq!(rt; short, Next::Packet(3));
    assert_eq!(rt; &buf[..4], [9, 9, 9, 7].as_slice());
    let empty = pass_on(&mut sink, &mut source, &[], &mut buf)?;
    assert_eq!(rt; empty, Next::Packet(0));
    let long = pass_on(&mut sink, &mut source, &sent, &mut buf)?;
    assert_eq!(rt; long, Next::Packet(LONGEST));
    assert!(rt; buf.starts_with(&sent));
    assert_eq!(rt; buf[LONGEST], 7);
    Ok(())
}

#[test]
fn a_text_file_is_read_to_its_end(rt: HostRuntime) -> Result<(), Fail> {
    fs::write(&rt, "adapters.toml", b"slots = 4\n".as_slice())?;
    let path = Text::new(rt.alloc(), "adapters.toml")?;
    let held = HeldFiles::new(rt.alloc())?;
    let mut text = FileText::new(&rt, held.settings());
    text.begin(&path)?;
    let mut buf = [0; 6];
    assert_eq!(rt; text.read(&mut buf), Got::Bytes(6));
    assert_eq!(rt; &buf, b"slots ");
    assert_eq!(rt; text.read(&mut buf), Got::Bytes(4));
    assert_eq!(rt; &buf[..4], b"= 4\n".as_slice());
    assert_eq!(rt; text.read(&mut buf), Got::End);
    fs::remove_file(&rt, "adapters.toml")?;
    Ok(())
}

#[test]
fn standard_output_takes_a_text(rt: HostRuntime) -> Result<(), Fail> {
    let fault = PrintFault::new();
    let mut print = StdPrint::new(&rt, &fault);
    print.write(b"standard output takes this line\n")?;
    assert!(rt; !fault.has_come());
    Ok(())
}
