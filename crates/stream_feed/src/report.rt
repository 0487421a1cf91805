//! The report on a stream.

ghost use Rattle.std.specs.Prelude.{◌≡◌, ◌≤◌, ◌<◌, ◌+◌, ◌^◌, None};
ghost use Rattle.corr_model.specs.PacketVerdicts.{Report};
ghost use Rattle.corr_model.specs.Reports.{with_string};
ghost use Rattle.stream_feed.specs.Counting.{counts_of, nothing, AreFew};

use crate::counts::{
    is_before_start, is_beyond, is_dropped, is_foreign, is_late, is_off_grid, is_refused, is_stale,
    is_twice, is_undescribed, is_used, is_wild, one_if,
};
use corr_model::{Ending, Verdict};

/// What is reported of a stream: how many byte strings were taken, how many of them got each
/// verdict, and how the stream ended. Of Part and Stop no count is kept.
#[derive(Clone, Copy, Debug, PartialEq, Eq)]
pub struct StreamReport {
    /// Byte strings taken.
    pub taken: u64,
    /// Strings that are no packet.
    pub refused: u64,
    /// Packets past the heap limit, or that their heap did not keep.
    pub dropped: u64,
    /// Packets of a heap that was whole before.
    pub stale: u64,
    /// Heaps that left the window before they were whole.
    pub evicted: u64,
    /// Descriptors that were refused, or for which the table had no room.
    pub baddesc: u64,
    /// Whole heaps that are not readable.
    pub undescribed: u64,
    /// Heaps of another antenna.
    pub foreign: u64,
    /// Heaps before the start.
    pub before: u64,
    /// Heaps off the grid of timestamps.
    pub offgrid: u64,
    /// Heaps that are too far ahead.
    pub wild: u64,
    /// Heaps past the last accumulation.
    pub beyond: u64,
    /// Heaps of a closed accumulation.
    pub late: u64,
    /// Heaps at a place where an earlier one was used.
    pub twice: u64,
    /// Heaps that were used.
    pub used: u64,
    /// How the stream ended, if it has.
    pub ended: Option<Ending>,
}

impl StreamReport {
    /// The report on a stream of which nothing was taken.
    pub(crate) fn new() -> StreamReport
        ensures counts { counts_of result ≡ nothing }
        ensures ended { result.ended ≡ None }
        ensures few { AreFew result }
    {
        StreamReport {
            taken: 0,
            refused: 0,
            dropped: 0,
            stale: 0,
            evicted: 0,
            baddesc: 0,
            undescribed: 0,
            foreign: 0,
            before: 0,
            offgrid: 0,
            wild: 0,
            beyond: 0,
            late: 0,
            twice: 0,
            used: 0,
            ended: None,
        }
    }

    /// The report with one byte string more: its verdict, whether it evicts a heap that is not
    /// whole, and how many bad descriptors it brings.
    pub(crate) fn with(&self, verdict: Verdict, evicts: bool, bad: u32) -> StreamReport
        requires few { AreFew self.now }
        requires room { self.now.taken < 2 ^ 40 }
        requires bad { bad ≤ 64 }
        ensures counts { counts_of result ≡ with_string (counts_of self.now) verdict evicts bad }
        ensures ended { result.ended ≡ self.now.ended }
        ensures few { AreFew result }
    {
        StreamReport {
            taken: self.taken + 1,
            refused: self.refused + one_if(is_refused(verdict)),
            dropped: self.dropped + one_if(is_dropped(verdict)),
            stale: self.stale + one_if(is_stale(verdict)),
            evicted: self.evicted + one_if(evicts),
            baddesc: self.baddesc + u64::from(bad),
            undescribed: self.undescribed + one_if(is_undescribed(verdict)),
            foreign: self.foreign + one_if(is_foreign(verdict)),
            before: self.before + one_if(is_before_start(verdict)),
            offgrid: self.offgrid + one_if(is_off_grid(verdict)),
            wild: self.wild + one_if(is_wild(verdict)),
            beyond: self.beyond + one_if(is_beyond(verdict)),
            late: self.late + one_if(is_late(verdict)),
            twice: self.twice + one_if(is_twice(verdict)),
            used: self.used + one_if(is_used(verdict)),
            ended: self.ended,
        }
    }
}
