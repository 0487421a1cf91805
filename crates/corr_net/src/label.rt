//! What is said to a person of an input or an output that failed. No status rests on it.

use std::fmt::Display;
use std::str;

/// How many bytes of a name are kept, which are all of a text.
const ROOM: usize = 4096;

/// What an object is to the run.
#[derive(Clone, Copy)]
pub(crate) enum Role {
    /// The source of an antenna.
    Input(u32),
    /// The sink.
    Output,
    /// The text of the settings.
    Settings,
}

/// An object's role and name. The name is kept in room of its own, so that no fault needs memory.
#[derive(Drop)]
pub(crate) struct Label {
    role: Role,
    name: [u8; 4096],
    len: usize,
}

impl Label {
    // Of an object with this role and name.
    pub(crate) fn new(role: Role, name: &str) -> Label {
        let mut room = [0; ROOM];
        let mut len = 0;
        if let Some(front) = room.get_mut(..name.len()) {
            front.copy_from_slice(name.as_bytes());
            len = name.len();
        }
        Label {
            role,
            name: room,
            len,
        }
    }

    // The name that is kept.
    fn name(&self) -> &str {
        let name = self.name.get(..self.len).unwrap_or(&[]);
        str::from_utf8(name).unwrap_or("")
    }

    // Writes one line to standard error. Where that fails, nobody can be told.
    pub(crate) fn say<R: Eprint, D: Display + Drop>(&self, to: &R, why: D) {
        let name = self.name();
        let _ = match self.role {
            Role::Input(antenna) => eprintln!(to; "spead_corr: input {antenna}: {name}: {why}"),
            Role::Output => eprintln!(to; "spead_corr: output: {name}: {why}"),
            Role::Settings => eprintln!(to; "spead_corr: settings: {name}: {why}"),
        };
    }
}
