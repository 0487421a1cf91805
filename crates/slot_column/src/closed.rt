//! A column that may be closed: it is then known to be the one that the observed lists define.

ghost use Rattle.std.specs.Prelude.{◌≡◌, ◌<◌, true, false, MatchBool};
ghost use Rattle.slot_column.specs.Columns.{Cells, Hand, IsColumnOf, empty_column};

use crate::column::Column;
use corr_model::Observation;
use std::marker::{Model, PhantomData};
use std::mem;

/// A column that is spare or closed. Where the observation names its plan and its lists, a closed
/// one is the column that they define for its antenna and number, and no later packet changes it.
#[derive(Drop)]
pub struct Closed<O: Observation> {
    column: Column,
    is_closed: bool,
    of: PhantomData<O>,
}

impl<O: Observation> Model for Closed<O> {
    ghost use Rattle.std.specs.Prelude.{◌≡◌, true};
    ghost use Rattle.slot_column.specs.Columns.{Hand, IsColumnOf};

    ghost Value = { Hand };

    ghost view = { λ s. record { column = s.column; is_closed = s.is_closed } };

    ghost invariant = { λ s. s.is_closed ≡ true → O.names ≡ true → IsColumnOf O.plan O.list s.column };
}

impl<O: Observation> Closed<O> {
    /// Holds the column, and is spare.
    pub fn spare(column: Column) -> Closed<O>
        ensures { result ≡ record { column = column; is_closed = false } }
    {
        Closed {
            column,
            is_closed: false,
            of: PhantomData,
        }
    }

    /// Whether it is spare.
    pub fn is_spare(&self) -> bool
        ensures { MatchBool result (self.now.is_closed ≡ false) (self.now.is_closed ≡ true) }
    {
        !self.is_closed
    }

    /// The column that it holds.
    pub fn column(&self) -> &Column
        ensures value { result.now ≡ self.now.column }
        ensures told { self.now.is_closed ≡ true → O.names ≡ true → IsColumnOf O.plan O.list result.now }
    {
        &self.column
    }

    /// Exchanges its column for the one given, and is closed from then on. No sample is copied.
    pub fn close(&mut self, column: &mut Column)
        requires spare { self.old.is_closed ≡ false }
        requires told { O.names ≡ true → IsColumnOf O.plan O.list column.old }
        ensures closed { self.new ≡ record { column = column.old; is_closed = true } }
        ensures spare { column.new ≡ self.old.column }
    {
        mem::swap(&mut self.column, column);
        self.is_closed = true;
    }

    /// Is from then on the closed column of this antenna and number in which no heap was used.
    pub fn close_empty(&mut self, antenna: u32, number: u64)
        requires spare { self.old.is_closed ≡ false }
        requires in_range { antenna < self.old.column.plan.antennas }
        requires told { O.names ≡ true
            → IsColumnOf O.plan O.list (empty_column self.old.column.plan antenna number) }
        ensures { self.new
            ≡ record { column = empty_column self.old.column.plan antenna number; is_closed = true } }
    {
        self.column.clear(antenna, number);
        self.is_closed = true;
    }

    /// Is spare from then on; its column stays as it is until it is exchanged or cleared.
    pub fn free(&mut self)
        ensures { self.new ≡ record self.old { is_closed = false } }
    {
        self.is_closed = false;
    }
}
