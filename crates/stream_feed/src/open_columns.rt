//! The columns of a stream that are open.
//!
//! The column of accumulation `n` lies at place `n` modulo the lag, for as many accumulations from
//! the first that was not given. A heap can be further ahead: its column is the one beside these,
//! until those before it are given.

ghost use Rattle.std.specs.Prelude.{◌≡◌, ◌<◌, ◌≤◌, ◌+◌, ◌%◌, ◌^◌, length, true, false, get_or, IfOk};
ghost use Rattle.corr_model.specs.Plans.{Fits, sample_bytes};
ghost use Rattle.slot_column.specs.Columns.{Cells, IsColumnOf, empty_column};
ghost use Rattle.stream_feed.specs.Opening.{OpenState, no_columns, PlacesWithin, PlacesAhead, after_given};

use corr_model::{Observation, Plan};
use slot_column::{Closed, Column, Placed};
use std::alloc::{AllocError, Global};
use std::marker::Model;
use std::mem;

/// The open columns of a stream, and how many were given.
#[derive(Drop)]
pub(crate) struct OpenColumns {
    plan: Plan,
    antenna: u32,
    given: u64,
    columns: Vec<Column>,
    ahead: Column,
}

impl Model for OpenColumns {
    ghost use Rattle.stream_feed.specs.Opening.{OpenState, IsSoundOpen};

    ghost Value = { OpenState };

    ghost view = { λ s. record {
      plan = s.plan;
      antenna = s.antenna;
      given = s.given;
      columns = s.columns.items;
      ahead = s.ahead;
    } };

    ghost invariant = { λ s.
        IsSoundOpen (record {
          plan = s.plan;
          antenna = s.antenna;
          given = s.given;
          columns = s.columns.items;
          ahead = s.ahead;
        }) };
}

// The column of an antenna and a number without a cell.
fn numbered(alloc: Global, plan: &Plan, antenna: u32, number: u32) -> Result<Column, AllocError>
    requires fits { Fits plan.now }
    requires in_range { antenna < plan.now.antennas }
    ensures { IfOk result (λ c. c ≡ empty_column plan.now antenna number) }
{
    let mut column = Column::new(alloc, plan)?;
    column.clear(antenna, number.into());
    Ok(column)
}

impl OpenColumns {
    /// The columns of a stream that used no heap.
    pub(crate) fn new(alloc: Global, plan: &Plan, antenna: u32) -> Result<OpenColumns, AllocError>
        requires fits { Fits plan.now }
        requires in_range { antenna < plan.now.antennas }
        ensures { IfOk result (λ o. o ≡ no_columns plan.now antenna) }
    {
        let mut columns = Vec::with_capacity(alloc, plan.lag as usize)?;
        for number in 0..plan.lag {
            columns.push_reserved(numbered(alloc, plan, antenna, number)?);
        }
        Ok(OpenColumns {
            plan: *plan,
            antenna,
            given: 0,
            columns,
            ahead: numbered(alloc, plan, antenna, plan.lag)?,
        })
    }

    /// The plan.
    pub(crate) fn plan(&self) -> &Plan
        ensures value { result.now ≡ self.now.plan }
        ensures fits { Fits result.now }
        ensures as_many { length self.now.columns ≡ self.now.plan.lag }
        ensures some { 1 ≤ self.now.plan.lag }
        ensures within { self.now.given ≤ self.now.plan.accumulations }
    {
        &self.plan
    }

    /// The antenna.
    pub(crate) fn antenna(&self) -> u32
        ensures { result ≡ self.now.antenna }
    {
        self.antenna
    }

    /// How many columns were given.
    pub(crate) fn given(&self) -> u64
        ensures { result ≡ self.now.given }
    {
        self.given
    }

    /// Puts the samples of a heap into the column of accumulation `n`. One that is further ahead
    /// than the lag takes the column beside the others.
    pub(crate) fn place(&mut self, n: u64, t: u32, samples: &[u8]) -> Placed
        requires in_range { t < self.old.plan.heaps }
        requires whole { length samples.now ≡ sample_bytes self.old.plan }
        ensures within { n < self.old.given + self.old.plan.lag
            → PlacesWithin self.old n t samples.now result self.new }
        ensures ahead { self.old.given + self.old.plan.lag ≤ n
            → PlacesAhead self.old n t samples.now result self.new }
    {
        let lag = u64::from(self.plan.lag);
        if n < self.given + lag {
            let place = (n % lag) as usize;
            let column = &mut self.columns[place];
            return column.place(t, samples);
        }
        self.ahead.clear(self.antenna, n);
        self.ahead.place(t, samples)
    }

    /// Exchanges the hand's column for the next one, which is closed from then on.
    #[tactic(auto, using(crate::proofs::OpenLemmas::given_over))]
    pub(crate) fn give<O: Observation>(&mut self, hand: &mut Closed<O>)
        requires spare { hand.old.is_closed ≡ false }
        requires plan { hand.old.column.plan ≡ self.old.plan }
        requires more { self.old.given < self.old.plan.accumulations }
        requires told { O.names ≡ true → (d : Cells)
            → IsColumnOf O.plan O.list (get_or self.old.columns (self.old.given % self.old.plan.lag) d) }
        ensures hand { (d : Cells) → hand.new
            ≡ record { column = get_or self.old.columns (self.old.given % self.old.plan.lag) d; is_closed = true } }
        ensures hand_plan { hand.new.column.plan ≡ self.old.plan }
        ensures columns { self.new ≡ after_given self.old }
    {
        let place = self.next_place();
        hand.close(&mut self.columns[place]);
        self.renew();
    }

    // The place of the next column to be given.
    fn next_place(&self) -> usize
        ensures value { result ≡ self.now.given % self.now.plan.lag }
        ensures inside { result < length self.now.columns }
    {
        (self.given % u64::from(self.plan.lag)) as usize
    }

    // Goes on to the next column. In the place of the one that was given comes the one beside the
    // others, where it is that of the accumulation a lag later, and else an empty one.
    fn renew(&mut self)
        requires more { self.old.given < self.old.plan.accumulations }
        ensures { self.new ≡ after_given self.old }
    {
        let place = self.next_place();
        let next = self.given + u64::from(self.plan.lag);
        self.given += 1;
        if self.ahead.number() == next {
            mem::swap(&mut self.columns[place], &mut self.ahead);
            self.ahead.clear(self.antenna, next + 1);
        } else {
            self.columns[place].clear(self.antenna, next);
        }
    }
}
