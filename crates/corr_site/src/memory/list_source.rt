//! A source of byte strings in memory.

ghost use Rattle.std.specs.Prelude.{◌≡◌, ◌↔◌, ◌^◌, ◌<◌, ◌≤◌, true, not, length, min, take, map, All, IsTrue, Some, None, option_map, is_ok, is_some};
ghost use Rattle.std.specs.Vec.{vec_len};
ghost use Rattle.corr_site.specs.Outside.{Begins, IsPlaced, HasCause, NextGives, NextFits, NextHasCause};
ghost use Rattle.corr_site.specs.Memory.{unused, called, source_gives, source_given, source_begun, source_called, source_cut, SourceAnswers};

use crate::answers::{Failed, Next};
use crate::memory::fault_plan::FaultPlan;
use crate::memory::spot::Spot;
use crate::packets::PacketSource;
use crate::place::Place;
use corr_model::Observation;
use std::marker::{Model, PhantomData};

/// A source that gives the byte strings of a list, up to the first call that is to fail.
#[derive(Drop)]
pub struct ListSource<O: Observation> {
    list: Vec<Vec<u8>>,
    cut: usize,
    faults: FaultPlan,
    antenna: u32,
    spot: Spot,
    of: PhantomData<O>,
}

impl<O: Observation> Model for ListSource<O> {
    ghost use Rattle.corr_site.specs.Memory.{Source, IsSource, strings_of, with_antenna};

    ghost Value = { Source };

    ghost view = { λ s. record {
      strings = strings_of s.list.items;
      faults = s.faults;
      at = with_antenna s.antenna s.spot;
    } };

    ghost invariant = { λ s. IsSource s.list s.faults s.cut };
}

impl<O: Observation> ListSource<O> {
    ghost use Rattle.corr_site.specs.Memory.{strings_of};

    /// A source of these byte strings, whose calls of `next` with these numbers from 0 fail, and
    /// whose `begin` fails if it is said so.
    pub fn new(list: Vec<Vec<u8>>, fails: Vec<u64>, begin_fails: bool) -> ListSource<O>
        requires short { All (λ v. vec_len v ≤ 65535) list.items }
        ensures { result ≡ record {
          strings = strings_of list.items;
          faults = unused fails.items begin_fails;
          at = None;
        } }
    {
        let faults = FaultPlan::new(fails, begin_fails);
        let cut = faults.least_of(list.as_slice().len());
        ListSource {
            list,
            cut,
            faults,
            antenna: 0,
            spot: Spot::new(),
            of: PhantomData,
        }
    }

    /// How many faults it counted.
    pub fn faults(&self) -> u64
        ensures { result ≡ self.now.faults.count }
    {
        self.faults.count()
    }

    /// Whether it is begun.
    pub fn is_begun(&self) -> bool
        ensures { result ≡ is_some self.now.at }
    {
        self.spot.is_set()
    }

    /// Whether it is begun for this antenna at this place.
    pub fn is_at(&self, antenna: u32, place: &Place) -> bool
        ensures { IsTrue result ↔ (self.now.at ≡ Some (antenna, place.now)) }
    {
        self.antenna == antenna && self.spot.is(place.udp, place.text.as_str().as_bytes())
    }

    // The next answer, which the number of the call alone decides.
    fn advance(&mut self, buf: &mut [u8; 65536]) -> Next
        ensures exact { self.new ≡ source_called self.old }
        ensures answer { SourceAnswers self.old buf.new result }
        ensures fits { NextFits result }
        ensures cause { NextHasCause self.old.faults.count self.new.faults.count result }
        ensures small { source_cut self.old < 2 ^ 64 }
    {
        let call = self.faults.calls();
        if self.faults.call() {
            self.faults.raise();
            return Next::Failed;
        }
        if self.cut as u64 <= call {
            return Next::End;
        }
        let string = self.list[call as usize].as_slice();
        buf[..string.len()].copy_from_slice(string);
        Next::Packet(string.len())
    }
}

impl<O: Observation> PacketSource<O> for ListSource<O> {
    ghost gives = { λ s. Some (source_gives s) };

    ghost given = { source_given };

    ghost begun = { λ s. is_some s.at };

    ghost at = { λ s. Some s.at };

    ghost belongs = { λ s a. Some (source_gives s) ≡ Some (O.list a) };

    ghost faults = { λ s. s.faults.count };

    fn begin(&mut self, antenna: u32, place: &Place) -> Result<(), Failed>
        ensures exact { self.new ≡ source_begun self.old (antenna, place.now) }
        ensures fails { is_ok result ≡ not self.old.faults.begin_fails }
        ensures gives { source_gives self.new ≡ source_gives self.old }
        ensures given { source_given self.new ≡ source_given self.old }
        ensures begun { Begins result (is_some self.new.at) }
        ensures at { IsPlaced (Some self.old.at) (Some self.new.at) result (antenna, place.now) }
        ensures cause { HasCause self.old.faults.count self.new.faults.count result }
    {
        if self.faults.begin_fails() {
            self.faults.raise();
            self.spot.clear();
            return Err(Failed);
        }
        self.antenna = antenna;
        self.spot.set(place.udp, place.text.as_str().as_bytes());
        Ok(())
    }

    fn next(&mut self, buf: &mut [u8; 65536]) -> Next
        requires begun { is_some self.old.at ≡ true }
        ensures exact { self.new ≡ source_called self.old }
        ensures answer { SourceAnswers self.old buf.new result }
        ensures gives { source_gives self.new ≡ source_gives self.old }
        ensures given { NextGives (Some (source_gives self.old)) (source_given self.old) (source_given self.new)
            buf.new result }
        ensures fits { NextFits result }
        ensures begun { is_some self.new.at ≡ true }
        ensures at { self.new.at ≡ self.old.at }
        ensures cause { NextHasCause self.old.faults.count self.new.faults.count result }
    {
        self.advance(buf)
    }

    ghost belongs_tells = { λ s a h. h };
}
