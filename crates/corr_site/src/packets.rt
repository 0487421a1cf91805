//! Where byte strings come from and where they go to.

ghost use Rattle.std.specs.Prelude.{◌≡◌, true, Some};
ghost use Rattle.corr_site.specs.Outside.{Begins, IsPlaced, HasCause, NextGives, NextFits, NextHasCause, Sends};

use crate::answers::{Failed, Next};
use crate::place::Place;
use corr_model::Observation;

/// What gives the byte strings of one stream, in order.
pub trait PacketSource<O: Observation>: Drop {
    ghost use Rattle.std.specs.Prelude.{ℕ, Bool, List, Option, ◌≡◌, Some};
    ghost use Rattle.corr_site.specs.declared.place.Place.{Place};

    /// The byte strings up to the first end or failure, where they are told.
    ghost gives: { Self → Option (List (List ℕ)) };
    /// How many of them were given.
    ghost given: { Self → ℕ };
    /// Whether it is begun.
    ghost begun: { Self → Bool };
    /// The antenna and the place at which it was begun, if it was, where that is told.
    ghost at: { Self → Option (Option (ℕ × Place)) };
    /// It is told that it gives the observation's list of this antenna.
    ghost belongs: { Self → ℕ → Type 0 };
    /// How many faults it counted.
    ghost faults: { Self → ℕ };

    /// Opens the place for the stream of an antenna. `Failed` comes only where the count of faults
    /// rose.
    fn begin(&mut self, antenna: u32, place: &Place) -> Result<(), Failed>
        ensures gives { gives self.new ≡ gives self.old }
        ensures given { given self.new ≡ given self.old }
        ensures begun { Begins result (begun self.new) }
        ensures at { IsPlaced (at self.old) (at self.new) result (antenna, place.now) }
        ensures belongs { (a : ℕ) → belongs self.old a → belongs self.new a }
        ensures cause { HasCause (faults self.old) (faults self.new) result };

    /// Puts the next byte string, of at most 65,535 bytes, at the front of the buffer. `Failed`
    /// comes only where the count of faults rose.
    fn next(&mut self, buf: &mut [u8; 65536]) -> Next
        requires begun { begun self.old ≡ true }
        ensures gives { gives self.new ≡ gives self.old }
        ensures given { NextGives (gives self.old) (given self.old) (given self.new) buf.new result }
        ensures fits { NextFits result }
        ensures begun { begun self.new ≡ true }
        ensures at { at self.new ≡ at self.old }
        ensures belongs { (a : ℕ) → belongs self.old a → belongs self.new a }
        ensures cause { NextHasCause (faults self.old) (faults self.new) result };

    /// What it gives is the observation's list, where that is told.
    ghost belongs_tells: { (source : Self) (a : ℕ) → belongs source a → gives source ≡ Some (O.list a) };
}

/// What byte strings are sent to, in order.
pub trait PacketSink: Drop {
    ghost use Rattle.std.specs.Prelude.{ℕ, Bool, List, Option};
    ghost use Rattle.corr_site.specs.declared.place.Place.{Place};

    /// The byte strings that were sent, where they are told.
    ghost sent: { Self → Option (List (List ℕ)) };
    /// Whether it is begun.
    ghost begun: { Self → Bool };
    /// The place at which it was begun, if it was, where that is told.
    ghost at: { Self → Option (Option Place) };
    /// How many faults it counted.
    ghost faults: { Self → ℕ };

    /// Opens the place. `Failed` comes only where the count of faults rose.
    fn begin(&mut self, place: &Place) -> Result<(), Failed>
        ensures sent { sent self.new ≡ sent self.old }
        ensures begun { Begins result (begun self.new) }
        ensures at { IsPlaced (at self.old) (at self.new) result place.now }
        ensures cause { HasCause (faults self.old) (faults self.new) result };

    /// Sends one byte string. `Failed` comes only where the count of faults rose, and then nothing
    /// is sent.
    fn send(&mut self, bytes: &[u8]) -> Result<(), Failed>
        requires begun { begun self.old ≡ true }
        ensures sent { Sends (sent self.old) (sent self.new) result bytes.now }
        ensures begun { begun self.new ≡ true }
        ensures at { at self.new ≡ at self.old }
        ensures cause { HasCause (faults self.old) (faults self.new) result };
}
