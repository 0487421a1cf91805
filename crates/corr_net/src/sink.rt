//! A capture file or a UDP address as a sink of byte strings.

ghost use Rattle.std.specs.Prelude.{◌≡◌, true, false, None, Err, is_some, is_ok};
ghost use Rattle.corr_site.specs.Outside.{HasCause};

use crate::held::HeldFiles;
use crate::label::{Label, Role};
use crate::limits::STRING_LIMIT;
use crate::progress::Progress;
use crate::raw::{Opened, one_more};
use capture_file::CaptureWriter;
use corr_site::{Failed, PacketSink, Place};
use std::fs::{OpenFile, OpenOptions};
use std::io;
use std::io::ErrorKind;
use std::net::{Net, SocketAddr, ToSocketAddrs, UdpSocket};
use std::rt::Files;
use std::time::Clock;

/// What a sink writes to.
#[derive(Drop)]
enum Output<'a, R: Files + Eprint> {
    /// A capture file.
    Capture(CaptureWriter<Opened<'a, R, R::File>>),
    /// A UDP address.
    Socket(Sending),
}

/// A socket, and the address to which each datagram goes.
#[derive(Drop)]
struct Sending {
    socket: UdpSocket,
    to: SocketAddr,
}

/// A capture file that keeps what is sent, or a UDP address to which it goes. It tells nothing of
/// it. After a failure it fails at every call of `send`, until it is begun again. A file that a
/// source holds open is not made anew: `begin` fails.
#[derive(Drop)]
pub struct ProgramSink<'a, R: Files + Eprint> {
    system: &'a R,
    held: &'a HeldFiles,
    output: Option<Output<'a, R>>,
    label: Label,
    progress: Progress,
    is_broken: bool,
    faults: u64,
}

// A file for writing, and empty. One that a source holds open is left as it is.
fn make_anew<R: Files>(system: &R, held: &HeldFiles, path: &str) -> io::Result<Option<R::File>> {
    let file = OpenOptions::new()
        .write(true)
        .create(true)
        .open(system, path)?;
    let node = file.metadata()?;
    if held.contains(&node) {
        return Ok(None);
    }
    if node.is_file() {
        file.set_len(0)?;
    }
    Ok(Some(file))
}

// A socket from which datagrams can be sent to an address, and that address, looked up once.
fn socket_to<R: Net>(system: &R, address: &str) -> io::Result<Sending> {
    let Some(to) = address.to_socket_addrs(system)?.next() else {
        return Err(io::Error::from(ErrorKind::AddrNotAvailable));
    };
    let from = if to.is_ipv4() { "0.0.0.0:0" } else { "[::]:0" };
    let socket = UdpSocket::bind(system, from)?;
    Ok(Sending { socket, to })
}

impl<'a, R: Files + Net + Clock + Eprint> ProgramSink<'a, R> {
    /// A sink that is not begun, and makes no file anew that is one of those held. It says its
    /// progress to a person who watches.
    pub fn new(system: &'a R, held: &'a HeldFiles, progress: Progress) -> Self
        ensures { is_some result.output ≡ false }
    {
        ProgramSink {
            system,
            held,
            output: None,
            label: Label::new(Role::Output, ""),
            progress,
            is_broken: false,
            faults: 0,
        }
    }

    // Makes a capture file anew and writes its first bytes. Where that fails, a person was told.
    fn create(&self, path: &str) -> Option<Output<'a, R>> {
        let file = match make_anew(self.system, self.held, path) {
            Ok(Some(file)) => file,
            Ok(None) => {
                self.label.say(
                    self.system,
                    "it is one of the files that are read, and is left as it is",
                );
                return None;
            }
            Err(error) => {
                self.label.say(self.system, error);
                return None;
            }
        };
        let label = Label::new(Role::Output, path);
        let mut writer = CaptureWriter::new(Opened::new(self.system, label, file));
        writer.head().ok()?;
        Some(Output::Capture(writer))
    }

    // Makes a socket. Where that fails, a person was told.
    fn connect(&self, address: &str) -> Option<Output<'a, R>> {
        match socket_to(self.system, address) {
            Ok(sending) => Some(Output::Socket(sending)),
            Err(error) => {
                self.label.say(self.system, error);
                None
            }
        }
    }

    // Sends one byte string, where no call failed before. Whether that went well.
    fn put(&mut self, bytes: &[u8]) -> bool
        ensures output { is_some self.new.output ≡ is_some self.old.output }
        ensures faults { self.new.faults ≡ self.old.faults }
    {
        match &mut self.output {
            Some(Output::Capture(writer)) if !writer.broken() && bytes.len() <= STRING_LIMIT => {
                writer.packet(bytes).is_ok()
            }
            Some(Output::Socket(sending)) => match sending.socket.send_to(bytes, sending.to) {
                Ok(sent) => sent == bytes.len(),
                Err(error) => {
                    self.label.say(self.system, error);
                    false
                }
            },
            _ => false,
        }
    }

    // Sends one byte string, and never again one after a failure.
    fn go_on(&mut self, bytes: &[u8]) -> Result<(), Failed>
        ensures output { is_some self.new.output ≡ is_some self.old.output }
        ensures cause { HasCause self.old.faults self.new.faults result }
        ensures again { self.old.is_broken ≡ true → is_ok result ≡ false }
        ensures broken { is_ok result ≡ false → self.new.is_broken ≡ true }
    {
        if !self.is_broken && self.put(bytes) {
            self.progress.sent_one(self.system);
            return Ok(());
        }
        self.is_broken = true;
        self.faults = one_more(self.faults);
        Err(Failed)
    }
}

impl<R: Files + Net + Clock + Eprint> PacketSink for ProgramSink<'_, R> {
    ghost sent = { λ _. None };

    ghost begun = { λ s. is_some s.output };

    ghost at = { λ _. None };

    ghost faults = { λ s. s.faults };

    fn begin(&mut self, place: &Place) -> Result<(), Failed> {
        let name = place.text.as_str();
        self.is_broken = false;
        self.label = Label::new(Role::Output, name);
        self.output = if place.udp {
            self.connect(name)
        } else {
            self.create(name)
        };
        if self.output.is_some() {
            self.progress.begin(self.system);
            return Ok(());
        }
        self.faults = one_more(self.faults);
        Err(Failed)
    }

    fn send(&mut self, bytes: &[u8]) -> Result<(), Failed> {
        self.go_on(bytes)
    }
}
