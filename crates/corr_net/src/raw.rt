//! An open file as a source and a sink of text.

ghost use Rattle.std.specs.Prelude.{◌≡◌, ◌≤◌, true, None, IfOk, length};
ghost use Rattle.corr_site.specs.Outside.{Rises};

use crate::label::Label;
use crate::limits::TRIES;
use corr_site::{Failed, Got, Text, TextSink, TextSource};
use std::io;
use std::io::{ErrorKind, Read, Write};

/// A file that is open. It tells nothing of its bytes, and says to a person why it failed.
#[derive(Drop)]
pub(crate) struct Opened<'a, R, F: Drop> {
    to: &'a R,
    label: Label,
    file: F,
    faults: u64,
}

// A count with one more fault, which stands at its end once it is there.
pub(crate) fn one_more(faults: u64) -> u64
    ensures { Rises faults result }
{
    faults.saturating_add(1)
}

// Reads once, and again where a signal came between.
fn read_some<F: Read>(file: &mut F, buf: &mut [u8]) -> io::Result<usize>
    ensures within { IfOk result (λ n. n ≤ length buf.old) }
    ensures length { length buf.new ≡ length buf.old }
{
    for _ in 0..TRIES {
        match file.read(buf) {
            Err(error) if error.kind() == ErrorKind::Interrupted => {}
            read => return read,
        }
    }
    Err(io::Error::from(ErrorKind::Interrupted))
}

impl<'a, R: Eprint, F: Drop> Opened<'a, R, F> {
    // A file of this label, with no fault yet.
    pub(crate) fn new(to: &'a R, label: Label, file: F) -> Self {
        Opened {
            to,
            label,
            file,
            faults: 0,
        }
    }

    // Says why it failed, and counts it.
    fn fail(&mut self, error: io::Error)
        ensures { Rises self.old.faults self.new.faults }
    {
        self.label.say(self.to, error);
        self.faults = one_more(self.faults);
    }
}

impl<R: Eprint, F: Read + Drop> TextSource for Opened<'_, R, F> {
    ghost left = { λ _. None };

    ghost begun = { λ _. true };

    ghost at = { λ _. None };

    ghost faults = { λ s. s.faults };

    // It is open already, at the place where it was opened.
    fn begin(&mut self, _path: &Text) -> Result<(), Failed> {
        Ok(())
    }

    fn read(&mut self, buf: &mut [u8]) -> Got {
        match read_some(&mut self.file, buf) {
            Ok(0) => Got::End,
            Ok(len) => Got::Bytes(len),
            Err(error) => {
                self.fail(error);
                Got::Failed
            }
        }
    }
}

impl<R: Eprint, F: Write + Drop> TextSink for Opened<'_, R, F> {
    ghost written = { λ _. None };

    ghost faults = { λ s. s.faults };

    fn write(&mut self, bytes: &[u8]) -> Result<(), Failed> {
        match self.file.write_all(bytes) {
            Ok(()) => Ok(()),
            Err(error) => {
                self.fail(error);
                Err(Failed)
            }
        }
    }
}
