//! The cells of one antenna's stream in one accumulation.

ghost use Rattle.std.specs.Prelude.{◌≡◌, ◌+◌, ◌*◌, ◌^◌, ◌<◌, ◌≤◌, Some, None, IfOk, IfSome, true, length, slice_index, is_some, option_map};
ghost use Rattle.corr_model.specs.declared.plan.Plan.{Plan};
ghost use Rattle.corr_model.specs.Plans.{Fits, sample_bytes};
ghost use Rattle.slot_column.specs.Columns.{Cells, cell_at, empty_column, Places, IsSampleOf};

use crate::cell_row::CellRow;
use crate::samples::sample_at;
use corr_model::Plan;
use std::alloc::{AllocError, Global};
use std::marker::Model;

/// What became of samples that were to be placed.
#[derive(Clone, Copy, Debug, PartialEq, Eq)]
pub enum Placed {
    /// They were put into their cell.
    New,
    /// The cell was there already.
    Twice,
}

/// The cells of one antenna in one accumulation, by timestamp: at each, the samples of the heap
/// that was used there, or none.
///
/// Samples lie as they came on the wire, in one block that `new` takes: by channel, then spectrum,
/// then polarisation, the real part and then the imaginary part, each a signed byte.
#[derive(Drop)]
pub struct Column {
    plan: Plan,
    antenna: u32,
    number: u64,
    row: CellRow,
}

impl Model for Column {
    ghost use Rattle.slot_column.specs.Columns.{Cells, IsSound};

    ghost Value = { Cells };

    ghost view = { λ s. record { plan = s.plan; antenna = s.antenna; number = s.number; cells = s.row.cells } };

    ghost invariant = { λ s.
        IsSound (record { plan = s.plan; antenna = s.antenna; number = s.number; cells = s.row.cells }) s.row.width };
}

impl Column {
    /// The column of antenna 0 and number 0 without a cell. All memory is taken here; the one error
    /// is that there is none.
    pub fn new(alloc: Global, plan: &Plan) -> Result<Column, AllocError>
        requires { Fits plan.now }
        ensures { IfOk result (λ c. c ≡ empty_column plan.now 0 0) }
    {
        let width = 4 * plan.channels as usize * plan.spectra as usize;
        let row = CellRow::new(alloc, plan.heaps as usize, width)?;
        Ok(Column {
            plan: *plan,
            antenna: 0,
            number: 0,
            row,
        })
    }

    /// Takes all cells away, and is from now on the column of this antenna and accumulation.
    pub fn clear(&mut self, antenna: u32, number: u64)
        requires { antenna < self.old.plan.antennas }
        ensures { self.new ≡ empty_column self.old.plan antenna number }
    {
        self.row.clear();
        self.antenna = antenna;
        self.number = number;
    }

    /// Puts the samples of one heap at a timestamp, counted from 0 within the accumulation. Those of
    /// a second heap there change nothing.
    pub fn place(&mut self, t: u32, samples: &[u8]) -> Placed
        requires in_range { t < self.old.plan.heaps }
        requires whole { length samples.now ≡ sample_bytes self.old.plan }
        ensures { Places self.old t samples.now result self.new }
    {
        if self.row.is_present(t as usize) {
            return Placed::Twice;
        }
        self.row.put(t as usize, samples);
        Placed::New
    }

    /// Whether samples are there at a timestamp.
    pub fn present(&self, t: u32) -> bool
        requires { t < self.now.plan.heaps }
        ensures { result ≡ is_some (cell_at self.now t) }
    {
        self.row.is_present(t as usize)
    }

    /// Lends the samples at a timestamp, if they are there.
    pub fn heap(&self, t: u32) -> Option<&[u8]>
        requires { t < self.now.plan.heaps }
        ensures value { option_map (λ x. x.now) result ≡ cell_at self.now t }
        ensures whole { IfSome result (λ x. length x.now ≡ sample_bytes self.now.plan) }
    {
        self.row.get(t as usize)
    }

    /// The real and the imaginary part of a sample. Ask first whether samples are `present`.
    pub fn sample(&self, t: u32, channel: u32, spectrum: u32, polarisation: u32) -> (i8, i8)
        requires t { t < self.now.plan.heaps }
        requires present { is_some (cell_at self.now t) ≡ true }
        requires channel { channel < self.now.plan.channels }
        requires spectrum { spectrum < self.now.plan.spectra }
        requires polarisation { polarisation < 2 }
        ensures { IsSampleOf self.now t channel spectrum polarisation result.0 result.1 }
    {
        match self.heap(t) {
            Some(cell) => sample_at(&self.plan, cell, channel, spectrum, polarisation),
            None => unreachable!(),
        }
    }

    /// The antenna whose stream it is of.
    pub fn antenna(&self) -> u32
        ensures value { result ≡ self.now.antenna }
        ensures in_range { result < self.now.plan.antennas }
    {
        self.antenna
    }

    /// The number of the accumulation.
    pub fn number(&self) -> u64
        ensures { result ≡ self.now.number }
    {
        self.number
    }

    /// The plan that it was made for.
    pub fn plan(&self) -> &Plan
        ensures value { result.now ≡ self.now.plan }
        ensures fits { Fits result.now }
        ensures as_many { length self.now.cells ≡ self.now.plan.heaps }
    {
        &self.plan
    }
}
