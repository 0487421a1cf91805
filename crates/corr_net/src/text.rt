//! A file as a source of settings.

ghost use Rattle.std.specs.Prelude.{◌≡◌, None, false, is_some};

use crate::held::Held;
use crate::label::{Label, Role};
use crate::raw::{Opened, one_more};
use corr_site::{Failed, Got, Text, TextSource};
use std::alloc::Global;
use std::fs;
use std::fs::OpenFile;
use std::rt::Files;

/// The greatest number of bytes of a text of settings.
const ROOM: usize = 65_536;

/// Where a person finds what a refused setting may be.
const TABLE: &str = "the range and default of each key stand in docs/FORMATS.md";

/// What was read of a text, in room of its own, so that a refusal can say the line.
#[derive(Drop)]
struct Kept {
    bytes: [u8; 65_536],
    len: usize,
    is_cut: bool,
}

impl Kept {
    // Nothing.
    fn new() -> Kept {
        Kept {
            bytes: [0; ROOM],
            len: 0,
            is_cut: false,
        }
    }

    // Keeps what was read, where there is room for it. A longer text is refused for its length.
    fn add(&mut self, read: &[u8]) {
        let end = self.len.saturating_add(read.len());
        match self.bytes.get_mut(self.len..end) {
            Some(room) if !self.is_cut => {
                room.copy_from_slice(read);
                self.len = end;
            }
            _ => self.is_cut = true,
        }
    }

    // The bytes that are kept.
    fn text(&self) -> &[u8] {
        self.bytes.get(..self.len).unwrap_or(&[])
    }
}

/// A file of settings. It tells nothing of its text, but keeps what was read for a person.
#[derive(Drop)]
pub struct FileText<'a, R: Files> {
    system: &'a R,
    held: &'a Held,
    file: Option<Opened<'a, R, R::File>>,
    faults: u64,
    kept: Kept,
}

// The line, from 1 on, in which a place of a text lies.
fn line_of(text: &[u8], place: usize) -> usize {
    let before = text.get(..place).unwrap_or(text);
    before.iter().filter(|byte| **byte == b'\n').count() + 1
}

impl<'a, R: Files + Eprint> FileText<'a, R> {
    /// A text that is not begun. It notes the file that it opens in `held`.
    pub fn new(system: &'a R, held: &'a Held) -> Self
        ensures { is_some result.file ≡ false }
    {
        FileText {
            system,
            held,
            file: None,
            faults: 0,
            kept: Kept::new(),
        }
    }

    /// Writes one line to standard error on settings that were refused: the line at which the text
    /// is no TOML, or else where the keys are told. No status rests on it.
    pub fn say_refused(&self, alloc: Global) {
        let text = self.kept.text();
        let _ = match toml::table_from_slice(alloc, text) {
            _ if self.kept.is_cut => eprintln!(self.system; "spead_corr: settings: {TABLE}"),
            Ok(_) => eprintln!(self.system; "spead_corr: settings: {TABLE}"),
            Err(error) => {
                let line = line_of(text, error.span().map_or(0, |span| span.start));
                let why = error.message();
                eprintln!(self.system; "spead_corr: settings: line {line}: {why}")
            }
        };
    }

    // Opens the file and notes it.
    fn open(&self, path: &str) -> Option<Opened<'a, R, R::File>> {
        let label = Label::new(Role::Settings, path);
        match fs::open(self.system, path) {
            Ok(file) => {
                if let Ok(node) = file.metadata() {
                    self.held.set(&node);
                }
                Some(Opened::new(self.system, label, file))
            }
            Err(error) => {
                label.say(self.system, error);
                None
            }
        }
    }
}

impl<R: Files + Eprint> TextSource for FileText<'_, R> {
    ghost left = { λ _. None };

    ghost begun = { λ s. is_some s.file };

    ghost at = { λ _. None };

    ghost faults = { λ s. s.faults };

    fn begin(&mut self, path: &Text) -> Result<(), Failed> {
        self.file = self.open(path.as_str());
        if self.file.is_some() {
            return Ok(());
        }
        self.faults = one_more(self.faults);
        Err(Failed)
    }

    fn read(&mut self, buf: &mut [u8]) -> Got {
        let got = match &mut self.file {
            Some(file) => file.read(buf),
            None => Got::Failed,
        };
        if let Got::Bytes(len) = got {
            self.kept.add(buf.get(..len).unwrap_or(&[]));
        }
        if got == Got::Failed {
            self.faults = one_more(self.faults);
        }
        got
    }
}
