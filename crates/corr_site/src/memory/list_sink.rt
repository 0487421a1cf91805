//! A sink of byte strings in memory.

ghost use Rattle.std.specs.Prelude.{◌≡◌, ◌↔◌, true, not, length, sum, slice_get, [], Some, None, IfOk, IsTrue, is_ok, is_some};
ghost use Rattle.std.specs.Option.{option_copied};
ghost use Rattle.corr_site.specs.Outside.{Begins, IsPlaced, HasCause, Sends};
ghost use Rattle.corr_site.specs.Memory.{unused, called, sink_begun, sink_takes, sink_sent, cut_up};

use crate::answers::{Failed, NoMemory};
use crate::memory::fault_plan::FaultPlan;
use crate::memory::spot::Spot;
use crate::packets::PacketSink;
use crate::place::Place;
use std::alloc::Global;
use std::marker::Model;

/// A sink that keeps what is sent to it, in room that was reserved when it was made.
#[derive(Drop)]
pub struct ListSink {
    lens: Vec<usize>,
    bytes: Vec<u8>,
    strings: usize,
    room: usize,
    faults: FaultPlan,
    spot: Spot,
}

impl Model for ListSink {
    ghost use Rattle.corr_site.specs.Memory.{Sink, IsSink, cut_up};

    ghost Value = { Sink };

    ghost view = { λ s. record {
      sent = cut_up s.lens.items s.bytes.items;
      strings = s.strings;
      room = s.room;
      faults = s.faults;
      at = s.spot;
    } };

    ghost invariant = { λ s. IsSink s.lens s.bytes s.strings s.room };
}

// The string of this number among those that the bytes are cut up into.
fn string_at<'a>(lens: &[usize], bytes: &'a [u8], number: usize) -> Option<&'a [u8]>
    requires whole { sum lens.now ≡ length bytes.now }
    ensures { option_copied result ≡ slice_get (cut_up lens.now bytes.now) number }
{
    let (len, others) = lens.split_first()?;
    let (string, rest) = bytes.split_at(*len);
    if number == 0 {
        return Some(string);
    }
    string_at(others, rest, number - 1)
}

impl ListSink {
    /// A sink with room for so many strings and bytes, whose calls of `send` with these numbers
    /// from 0 fail, and whose `begin` fails if it is said so. `NoMemory` comes only for want of
    /// memory.
    pub fn new(
        alloc: Global,
        strings: usize,
        bytes: usize,
        fails: Vec<u64>,
        begin_fails: bool,
    ) -> Result<ListSink, NoMemory>
        ensures { IfOk result
            (λ s. s ≡ record {
              sent = [];
              strings = strings;
              room = bytes;
              faults = unused fails.items begin_fails;
              at = None;
            }) }
    {
        Ok(ListSink {
            lens: Vec::with_capacity(alloc, strings)?,
            bytes: Vec::with_capacity(alloc, bytes)?,
            strings,
            room: bytes,
            faults: FaultPlan::new(fails, begin_fails),
            spot: Spot::new(),
        })
    }

    /// How many byte strings were sent.
    #[tactic(auto, using(crate::proofs::CutLemmas::cut_up_length))]
    pub fn len(&self) -> usize
        ensures { result ≡ length self.now.sent }
    {
        self.lens.as_slice().len()
    }

    /// The byte string that was sent as this number, from 0, if there is one.
    pub fn string(&self, number: usize) -> Option<&[u8]>
        ensures { option_copied result ≡ slice_get self.now.sent number }
    {
        string_at(self.lens.as_slice(), self.bytes.as_slice(), number)
    }

    /// How many faults it counted.
    pub fn faults(&self) -> u64
        ensures { result ≡ self.now.faults.count }
    {
        self.faults.count()
    }

    /// Whether it is begun.
    pub fn is_begun(&self) -> bool
        ensures { result ≡ is_some self.now.at }
    {
        self.spot.is_set()
    }

    /// Whether it is begun at this place.
    pub fn is_at(&self, place: &Place) -> bool
        ensures { IsTrue result ↔ (self.now.at ≡ Some place.now) }
    {
        self.spot.is(place.udp, place.text.as_str().as_bytes())
    }

    // Whether the next call is to work and there is room for so many bytes.
    fn takes(&mut self, len: usize) -> bool
        ensures answer { result ≡ sink_takes self.old len }
        ensures counted { self.new ≡ record self.old { faults = called self.old.faults } }
    {
        !self.faults.call() && 0 < self.strings && len <= self.room
    }
}

impl PacketSink for ListSink {
    ghost sent = { λ s. Some s.sent };

    ghost begun = { λ s. is_some s.at };

    ghost at = { λ s. Some s.at };

    ghost faults = { λ s. s.faults.count };

    fn begin(&mut self, place: &Place) -> Result<(), Failed>
        ensures exact { self.new ≡ sink_begun self.old place.now }
        ensures fails { is_ok result ≡ not self.old.faults.begin_fails }
        ensures sent { Some self.new.sent ≡ Some self.old.sent }
        ensures begun { Begins result (is_some self.new.at) }
        ensures at { IsPlaced (Some self.old.at) (Some self.new.at) result place.now }
        ensures cause { HasCause self.old.faults.count self.new.faults.count result }
    {
        if self.faults.begin_fails() {
            self.faults.raise();
            self.spot.clear();
            return Err(Failed);
        }
        self.spot.set(place.udp, place.text.as_str().as_bytes());
        Ok(())
    }

    #[tactic(auto, using(crate::proofs::CutLemmas::cut_up_push))]
    fn send(&mut self, bytes: &[u8]) -> Result<(), Failed>
        requires begun { is_some self.old.at ≡ true }
        ensures exact { self.new ≡ sink_sent self.old bytes.now }
        ensures takes { is_ok result ≡ sink_takes self.old (length bytes.now) }
        ensures sent { Sends (Some self.old.sent) (Some self.new.sent) result bytes.now }
        ensures begun { is_some self.new.at ≡ true }
        ensures at { Some self.new.at ≡ Some self.old.at }
        ensures cause { HasCause self.old.faults.count self.new.faults.count result }
    {
        if !self.takes(bytes.len()) {
            self.faults.raise();
            return Err(Failed);
        }
        self.lens.push(bytes.len()).unwrap();
        self.bytes.extend_from_slice(bytes).unwrap();
        self.strings -= 1;
        self.room -= bytes.len();
        Ok(())
    }
}
