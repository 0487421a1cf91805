//! Cells of one width in one buffer of bytes, in the order of their timestamps, each there or not.

ghost use Rattle.std.specs.Prelude.{◌≡◌, ◌*◌, ◌+◌, ◌^◌, ◌<◌, ◌≤◌, Some, None, IfOk, IfSome, length, take, drop, slice_set, slice_range, ◌++◌, replicate, get_or, is_some, option_map};

use std::alloc::{AllocError, Global};
use std::marker::Model;

/// A row of cells, seen as the list of the samples that are there.
#[derive(Drop)]
pub(crate) struct CellRow {
    width: usize,
    bytes: Vec<u8>,
    present: Vec<bool>,
}

impl Model for CellRow {
    ghost use Rattle.slot_column.specs.Rows.{Row, IsSoundRow, row_of};

    ghost Value = { Row };

    ghost view = { λ s. row_of s.width s.bytes.items s.present.items };

    ghost invariant = { λ s. IsSoundRow s.width s.bytes.items s.present.items };
}

impl CellRow {
    ghost use Rattle.slot_column.specs.Rows.{Row};

    /// A row of so many cells of one width, none of them there.
    pub fn new(alloc: Global, count: usize, width: usize) -> Result<CellRow, AllocError>
        requires few { count ≤ 4096 }
        requires narrow { width ≤ 1048576 }
        ensures width { IfOk result (λ row. row.width ≡ width) }
        ensures cells { IfOk result (λ row. row.cells ≡ replicate count None) }
    {
        let bytes = vec![in alloc; 0; count * width]?;
        let present = vec![in alloc; false; count]?;
        Ok(CellRow {
            width,
            bytes,
            present,
        })
    }

    /// Takes all cells away.
    pub fn clear(&mut self)
        ensures width { self.new.width ≡ self.old.width }
        ensures cells { self.new.cells ≡ replicate (length self.old.cells) None }
    {
        self.present.fill(false);
    }

    /// Whether the cell is there.
    pub fn is_present(&self, t: usize) -> bool
        requires { t < length self.now.cells }
        ensures { result ≡ is_some (get_or self.now.cells t None) }
    {
        self.present[t]
    }

    /// The samples of the cell, if it is there.
    pub fn get(&self, t: usize) -> Option<&[u8]>
        requires { t < length self.now.cells }
        ensures value { option_map (λ x. x.now) result ≡ get_or self.now.cells t None }
        ensures whole { IfSome result (λ x. length x.now ≡ self.now.width) }
    {
        if !self.present[t] {
            return None;
        }
        let at = t * self.width;
        Some(part(&self.bytes, at, self.width))
    }

    /// Puts the samples into the cell.
    pub fn put(&mut self, t: usize, samples: &[u8])
        requires in_range { t < length self.old.cells }
        requires whole { length samples.now ≡ self.old.width }
        ensures width { self.new.width ≡ self.old.width }
        ensures cells { self.new.cells ≡ slice_set self.old.cells t (Some samples.now) }
    {
        put_bytes(&mut self.bytes, t * self.width, samples);
        self.present[t] = true;
    }
}

// Puts the samples into the bytes, from a place on.
fn put_bytes(bytes: &mut [u8], at: usize, samples: &[u8])
    requires { at + length samples.now ≤ length bytes.old }
    ensures { bytes.new
        ≡ take at bytes.old ++ (samples.now ++ drop (at + length samples.now) bytes.old) }
{
    bytes[at..at + samples.len()].copy_from_slice(samples);
}

// So many bytes, from a place on.
fn part(bytes: &[u8], at: usize, width: usize) -> &[u8]
    requires { at + width ≤ length bytes.now }
    ensures value { result.now ≡ slice_range bytes.now at (at + width) }
    ensures len { length result.now ≡ width }
{
    &bytes[at..at + width]
}
