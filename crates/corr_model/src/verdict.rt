//! What becomes of each byte string of a stream, and how a stream ends.

use crate::heap::DropCause;
use crate::pointer::Refusal;

/// What becomes of one byte string of a stream.
#[derive(Clone, Copy, Debug, PartialEq, Eq)]
pub enum Verdict {
    /// It is no packet.
    Refused(Refusal),
    /// It is a packet past the heap limit, or one that its heap does not keep.
    Dropped(DropCause),
    /// Its heap was whole before.
    Stale,
    /// It is kept, and its heap is not whole yet.
    Part,
    /// It makes a stop heap whole: the stream ends.
    Stop,
    /// It makes a heap whole that is not readable: an item that is needed is not described as it
    /// must be, is absent, or is too short.
    Undescribed,
    /// It makes a heap of another antenna whole: the antenna's number.
    Foreign(u64),
    /// It makes a heap whole whose timestamp is before the start.
    BeforeStart,
    /// It makes a heap whole whose timestamp is not on the grid of steps.
    OffGrid,
    /// It makes a heap whole that is too far ahead.
    Wild,
    /// It makes a heap whole whose accumulation is past the last.
    Beyond,
    /// It makes a heap whole whose accumulation is closed.
    Late,
    /// It makes a heap whole at whose place an earlier heap was used.
    Twice,
    /// It makes a heap whole that is used: its accumulation, and the place of its timestamp there.
    Used(u64, u32),
}

/// How a stream ended.
#[derive(Clone, Copy, Debug, PartialEq, Eq)]
pub enum Ending {
    /// The source had no more.
    End,
    /// A stop heap.
    Stop,
    /// As many byte strings as the plan allows.
    Limit,
    /// The source failed.
    Fault,
}
