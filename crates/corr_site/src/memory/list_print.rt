//! A text in memory that is written.

ghost use Rattle.std.specs.Prelude.{◌≡◌, false, length, [], Some, IfOk, is_ok};
ghost use Rattle.corr_site.specs.Outside.{HasCause, Writes};
ghost use Rattle.corr_site.specs.Memory.{unused, called, printing_takes, printing_written};

use crate::answers::{Failed, NoMemory};
use crate::memory::fault_plan::FaultPlan;
use crate::texts::TextSink;
use std::alloc::Global;
use std::marker::Model;

/// A text sink that keeps what is written to it, in room that was reserved when it was made.
#[derive(Drop)]
pub struct ListPrint {
    bytes: Vec<u8>,
    room: usize,
    faults: FaultPlan,
}

impl Model for ListPrint {
    ghost use Rattle.std.specs.Prelude.{◌≤◌, ◌+◌};
    ghost use Rattle.std.specs.Vec.{vec_len, vec_capacity};
    ghost use Rattle.corr_site.specs.Memory.{Printing};

    ghost Value = { Printing };

    ghost view = { λ s. record { written = s.bytes.items; room = s.room; faults = s.faults } };

    ghost invariant = { λ s. vec_len s.bytes + s.room ≤ vec_capacity s.bytes };
}

impl ListPrint {
    /// A sink with room for so many bytes, whose calls of `write` with these numbers from 0 fail.
    /// `NoMemory` comes only for want of memory.
    pub fn new(alloc: Global, bytes: usize, fails: Vec<u64>) -> Result<ListPrint, NoMemory>
        ensures { IfOk result (λ s. s ≡ record { written = []; room = bytes; faults = unused fails.items false }) }
    {
        Ok(ListPrint {
            bytes: Vec::with_capacity(alloc, bytes)?,
            room: bytes,
            faults: FaultPlan::new(fails, false),
        })
    }

    /// What was written.
    pub fn text(&self) -> &[u8]
        ensures { result.now ≡ self.now.written }
    {
        self.bytes.as_slice()
    }

    /// How many faults it counted.
    pub fn faults(&self) -> u64
        ensures { result ≡ self.now.faults.count }
    {
        self.faults.count()
    }

    // Whether the next call is to work and there is room for so many bytes.
    fn takes(&mut self, len: usize) -> bool
        ensures answer { result ≡ printing_takes self.old len }
        ensures counted { self.new ≡ record self.old { faults = called self.old.faults } }
    {
        !self.faults.call() && len <= self.room
    }
}

impl TextSink for ListPrint {
    ghost written = { λ s. Some s.written };

    ghost faults = { λ s. s.faults.count };

    fn write(&mut self, bytes: &[u8]) -> Result<(), Failed>
        ensures exact { self.new ≡ printing_written self.old bytes.now }
        ensures takes { is_ok result ≡ printing_takes self.old (length bytes.now) }
        ensures written { Writes (Some self.old.written) (Some self.new.written) result bytes.now }
        ensures cause { HasCause self.old.faults.count self.new.faults.count result }
    {
        if !self.takes(bytes.len()) {
            self.faults.raise();
            return Err(Failed);
        }
        self.bytes.extend_from_slice(bytes).unwrap();
        self.room -= bytes.len();
        Ok(())
    }
}
