//! A capture file or a UDP socket as a source of byte strings.

ghost use Rattle.std.specs.Prelude.{◌≡◌, ◌≤◌, true, false, None, IfOk, is_ok, is_some};
ghost use Rattle.corr_site.specs.Outside.{NextFits, Rises, NextHasCause};
ghost use Rattle.corr_net.specs.Adapters.{FailsAgain};

use crate::held::{Held, HeldFiles};
use crate::label::{Label, Role};
use crate::limits::{STRING_LIMIT, TRIES};
use crate::print::PrintFault;
use crate::raw::{Opened, one_more};
use capture_file::{CaptureReader, CaptureRefusal, Captured, Room};
use corr_model::Observation;
use corr_site::{Failed, Next, NoMemory, PacketSource, Place};
use std::alloc::Global;
use std::fs::OpenFile;
use std::io::ErrorKind;
use std::net::{Net, UdpSocket};
use std::rt::Files;
use std::{fmt, fs};

/// What a source reads from.
#[derive(Drop)]
enum Input<'a, R: Files + Eprint> {
    /// The records of a capture file.
    Capture(Records<'a, R>),
    /// The datagrams that come to an address, beside the room that a capture would be read in.
    Socket(UdpSocket, Room),
}

/// The records of a capture file that is open.
#[derive(Drop)]
struct Records<'a, R: Files + Eprint> {
    reader: CaptureReader<Opened<'a, R, R::File>>,
    ghost begun: { reader.begun ≡ true },
}

/// A capture file that gives its records, or a UDP address that gives the datagrams that come to
/// it, and ends only after standard output failed. It tells nothing of them. After a failure it
/// fails at every call of `next`, until it is begun again. From the beginning it has the room that
/// a capture is read in.
#[derive(Drop)]
pub struct ProgramSource<'a, R: Files + Eprint> {
    system: &'a R,
    held: &'a Held,
    print: &'a PrintFault,
    input: Option<Input<'a, R>>,
    room: Option<Room>,
    label: Label,
    given: u64,
    is_broken: bool,
    faults: u64,
    ghost has_room: { is_some input ≡ false → is_some room ≡ true },
}

/// Why a capture file is refused, behind so many records.
#[derive(Drop)]
struct RefusedAt {
    cause: CaptureRefusal,
    records: u64,
}

impl fmt::Display for RefusedAt {
    fn fmt<W: fmt::Write>(&self, f: &mut fmt::Formatter<W>) -> fmt::Result {
        let records = self.records;
        match self.cause {
            CaptureRefusal::Magic => write!(f, "no capture: it does not begin with SPCAPT01"),
            CaptureRefusal::Cut if records == 0 => {
                write!(
                    f,
                    "the file ends in its first 8 bytes or in its first record"
                )
            }
            CaptureRefusal::Cut => write!(f, "record {records}: the file ends in the middle of it"),
            CaptureRefusal::TooLong(len) => {
                write!(
                    f,
                    "record {records}: its length is {len}, which is over 65535"
                )
            }
        }
    }
}

// Receives once, and again where a signal came between.
fn receive(socket: &UdpSocket, buf: &mut [u8; 65536]) -> std::io::Result<usize>
    ensures within { IfOk result (λ n. n ≤ 65535) }
{
    for _ in 0..TRIES {
        match socket.recv(&mut buf[..STRING_LIMIT]) {
            Err(error) if error.kind() == ErrorKind::Interrupted => {}
            received => return received,
        }
    }
    Err(std::io::Error::from(ErrorKind::Interrupted))
}

impl<'a, R: Files + Net + Eprint> ProgramSource<'a, R> {
    /// The source of this number, not begun. It notes the file that it opens in `held`, and looks at
    /// `print`. `NoMemory` comes only for want of memory.
    pub fn new(
        alloc: Global,
        system: &'a R,
        held: &'a HeldFiles,
        number: usize,
        print: &'a PrintFault,
    ) -> Result<Self, NoMemory>
        ensures { IfOk result (λ s. is_some s.input ≡ false) }
    {
        Ok(ProgramSource {
            system,
            held: held.input(number),
            print,
            input: None,
            room: Some(Room::new(alloc)?),
            label: Label::new(Role::Input(0), ""),
            given: 0,
            is_broken: false,
            faults: 0,
        })
    }

    // Closes what was open, and keeps its room.
    fn close(&mut self)
        ensures input { is_some self.new.input ≡ false }
        ensures faults { self.new.faults ≡ self.old.faults }
    {
        match self.input.take() {
            Some(Input::Capture(records)) => self.room = Some(records.reader.into_room()),
            Some(Input::Socket(_, room)) => self.room = Some(room),
            None => {}
        }
    }

    // Opens a file and notes it.
    fn open_file(&self, antenna: u32, path: &str) -> std::io::Result<Opened<'a, R, R::File>> {
        let file = fs::open(self.system, path)?;
        if let Ok(node) = file.metadata() {
            self.held.set(&node);
        }
        let label = Label::new(Role::Input(antenna), path);
        Ok(Opened::new(self.system, label, file))
    }

    // Opens a capture file, or binds to an address. Where that fails, the room is kept.
    fn open(&mut self, antenna: u32, place: &Place) -> std::io::Result<()>
        requires closed { is_some self.old.input ≡ false }
        ensures input { is_some self.new.input ≡ is_ok result }
        ensures faults { self.new.faults ≡ self.old.faults }
    {
        let path = place.text.as_str();
        let input = if place.udp {
            let socket = UdpSocket::bind(self.system, path)?;
            Input::Socket(socket, self.room.take().unwrap())
        } else {
            let file = self.open_file(antenna, path)?;
            let reader = CaptureReader::new(file, self.room.take().unwrap());
            Input::Capture(Records { reader })
        };
        self.input = Some(input);
        Ok(())
    }

    // The next byte string, where no call failed before.
    fn take(&mut self, buf: &mut [u8; 65536]) -> Next
        ensures fits { NextFits result }
        ensures input { is_some self.new.input ≡ is_some self.old.input }
        ensures faults { self.new.faults ≡ self.old.faults }
    {
        match &mut self.input {
            Some(Input::Capture(records)) if !records.reader.broken() => match records
                .reader
                .next(buf)
            {
                Captured::Packet(len) => Next::Packet(len),
                Captured::End => Next::End,
                Captured::Refused(cause) => {
                    let records = self.given;
                    self.label.say(self.system, RefusedAt { cause, records });
                    Next::Failed
                }
                Captured::Failed => Next::Failed,
            },
            // Nobody reads what comes of it any more, and it would never end by itself.
            Some(Input::Socket(..)) if self.print.has_come() => Next::End,
            Some(Input::Socket(socket, _)) => match receive(socket, buf) {
                Ok(len) => Next::Packet(len),
                Err(error) => {
                    self.label.say(self.system, error);
                    Next::Failed
                }
            },
            _ => Next::Failed,
        }
    }

    // The next byte string, and never again one after a failure.
    fn go_on(&mut self, buf: &mut [u8; 65536]) -> Next
        ensures fits { NextFits result }
        ensures input { is_some self.new.input ≡ is_some self.old.input }
        ensures cause { NextHasCause self.old.faults self.new.faults result }
        ensures again { FailsAgain self.old.is_broken result }
        ensures broken { result ≡ Next.Failed → self.new.is_broken ≡ true }
    {
        let next = if self.is_broken {
            Next::Failed
        } else {
            self.take(buf)
        };
        match next {
            Next::Failed => {
                self.is_broken = true;
                self.faults = one_more(self.faults);
            }
            Next::Packet(_) => self.given = self.given.saturating_add(1),
            Next::End => {}
        }
        next
    }
}

impl<O: Observation, R: Files + Net + Eprint> PacketSource<O> for ProgramSource<'_, R> {
    ghost gives = { λ _. None };

    ghost given = { λ _. 0 };

    ghost begun = { λ s. is_some s.input };

    ghost at = { λ _. None };

    ghost belongs = { λ _ _. ⊥ };

    ghost faults = { λ s. s.faults };

    fn begin(&mut self, antenna: u32, place: &Place) -> Result<(), Failed> {
        self.is_broken = false;
        self.given = 0;
        self.label = Label::new(Role::Input(antenna), place.text.as_str());
        self.close();
        match self.open(antenna, place) {
            Ok(()) => Ok(()),
            Err(error) => {
                self.label.say(self.system, error);
                self.faults = one_more(self.faults);
                Err(Failed)
            }
        }
    }

    fn next(&mut self, buf: &mut [u8; 65536]) -> Next {
        self.go_on(buf)
    }

    ghost belongs_tells = { λ s a h. absurd h };
}
