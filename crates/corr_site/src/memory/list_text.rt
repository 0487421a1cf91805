//! A text in memory that is read.

ghost use Rattle.std.specs.Prelude.{◌≡◌, ◌↔◌, ◌≤◌, true, not, length, IsTrue, Some, None, is_ok, is_some};
ghost use Rattle.corr_site.specs.Outside.{Begins, IsPlaced, HasCause, Reads, GotFits, GotHasCause};
ghost use Rattle.corr_site.specs.Memory.{unused, reading_begun, reading_read, ReadingAnswers};

use crate::answers::{Failed, Got};
use crate::memory::fault_plan::FaultPlan;
use crate::memory::spot::Spot;
use crate::text::Text;
use crate::texts::TextSource;
use std::marker::Model;

/// A text source that gives the bytes of a list, as many at a time as the buffer takes.
#[derive(Drop)]
pub struct ListText {
    bytes: Vec<u8>,
    read: usize,
    faults: FaultPlan,
    spot: Spot,
}

impl Model for ListText {
    ghost use Rattle.std.specs.Prelude.{◌≤◌, drop, length, option_map};
    ghost use Rattle.corr_site.specs.Memory.{Reading};

    ghost Value = { Reading };

    ghost view = { λ s. record {
      left = drop s.read s.bytes.items;
      faults = s.faults;
      at = option_map (λ p. p.text) s.spot;
    } };

    ghost invariant = { λ s. s.read ≤ length s.bytes.items };
}

impl ListText {
    /// A source of these bytes, whose calls of `read` with these numbers from 0 fail, and whose
    /// `begin` fails if it is said so.
    pub fn new(bytes: Vec<u8>, fails: Vec<u64>, begin_fails: bool) -> ListText
        ensures { result ≡ record { left = bytes.items; faults = unused fails.items begin_fails; at = None } }
    {
        ListText {
            bytes,
            read: 0,
            faults: FaultPlan::new(fails, begin_fails),
            spot: Spot::new(),
        }
    }

    /// How many faults it counted.
    pub fn faults(&self) -> u64
        ensures { result ≡ self.now.faults.count }
    {
        self.faults.count()
    }

    /// Whether it is begun.
    pub fn is_begun(&self) -> bool
        ensures { result ≡ is_some self.now.at }
    {
        self.spot.is_set()
    }

    /// Whether it is begun at this path.
    pub fn is_at(&self, path: &Text) -> bool
        ensures { IsTrue result ↔ (self.now.at ≡ Some path.now) }
    {
        self.spot.has_text(path.as_str().as_bytes())
    }

    // The next answer.
    fn advance(&mut self, buf: &mut [u8]) -> Got
        ensures exact { self.new ≡ reading_read self.old (length buf.old) }
        ensures answer { ReadingAnswers self.old buf.new result }
        ensures cause { GotHasCause self.old.faults.count self.new.faults.count result }
    {
        if self.faults.call() {
            self.faults.raise();
            return Got::Failed;
        }
        let (_, left) = self.bytes.as_slice().split_at(self.read);
        let len = left.len().min(buf.len());
        if len == 0 {
            return Got::End;
        }
        let (front, _) = left.split_at(len);
        buf[..len].copy_from_slice(front);
        self.read += len;
        Got::Bytes(len)
    }
}

impl TextSource for ListText {
    ghost left = { λ s. Some s.left };

    ghost begun = { λ s. is_some s.at };

    ghost at = { λ s. Some s.at };

    ghost faults = { λ s. s.faults.count };

    fn begin(&mut self, path: &Text) -> Result<(), Failed>
        ensures exact { self.new ≡ reading_begun self.old path.now }
        ensures fails { is_ok result ≡ not self.old.faults.begin_fails }
        ensures left { Some self.new.left ≡ Some self.old.left }
        ensures begun { Begins result (is_some self.new.at) }
        ensures at { IsPlaced (Some self.old.at) (Some self.new.at) result path.now }
        ensures cause { HasCause self.old.faults.count self.new.faults.count result }
    {
        if self.faults.begin_fails() {
            self.faults.raise();
            self.spot.clear();
            return Err(Failed);
        }
        self.spot.set(false, path.as_str().as_bytes());
        Ok(())
    }

    fn read(&mut self, buf: &mut [u8]) -> Got
        requires begun { is_some self.old.at ≡ true }
        ensures exact { self.new ≡ reading_read self.old (length buf.old) }
        ensures answer { ReadingAnswers self.old buf.new result }
        ensures left { Reads (Some self.old.left) (Some self.new.left) buf.new result }
        ensures fits { GotFits (length buf.old) result }
        ensures begun { is_some self.new.at ≡ true }
        ensures at { Some self.new.at ≡ Some self.old.at }
        ensures cause { GotHasCause self.old.faults.count self.new.faults.count result }
    {
        self.advance(buf)
    }
}
