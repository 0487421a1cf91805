//! What a slot shows, and what its four calls answer.

ghost use Rattle.std.specs.Prelude.{◌≡◌, ◌≢◌, MatchBool};

use corr_model::Plan;

/// How far a slot is.
#[derive(Clone, Copy, Debug, PartialEq, Eq)]
pub enum Kind {
    /// Columns are put into it, one of each antenna.
    Filling,
    /// A work has its columns.
    Working,
    /// It has the value of its accumulation.
    Done,
}

impl Kind {
    pub(crate) fn is_filling(self) -> bool
        ensures { MatchBool result (self ≡ Kind.Filling) (self ≢ Kind.Filling) }
    {
        matches!(self, Kind::Filling)
    }

    pub(crate) fn is_working(self) -> bool
        ensures { MatchBool result (self ≡ Kind.Working) (self ≢ Kind.Working) }
    {
        matches!(self, Kind::Working)
    }

    pub(crate) fn is_done(self) -> bool
        ensures { MatchBool result (self ≡ Kind.Done) (self ≢ Kind.Done) }
    {
        matches!(self, Kind::Done)
    }
}

/// What a slot shows, in each refusal.
#[derive(Clone, Copy, Debug, PartialEq, Eq)]
pub struct Held {
    /// The plan that it was made for.
    pub plan: Plan,
    /// The number of its accumulation.
    pub number: u64,
    /// How far it is.
    pub kind: Kind,
    /// How many columns stand in it.
    pub columns: u32,
}

/// What became of a column that was put.
#[derive(Clone, Copy, Debug, PartialEq, Eq)]
pub enum Put {
    /// It stands in its slot.
    Placed,
    /// The slot is of another plan, has another number, or is not filling.
    Waits(Held),
}

/// What became of a take.
#[derive(Clone, Copy, Debug, PartialEq, Eq)]
pub enum Took {
    /// The columns of all antennas are the work's.
    Taken,
    /// The slot is of another plan, is not filling, or lacks a column.
    Not(Held),
}

/// What became of a store.
#[derive(Clone, Copy, Debug, PartialEq, Eq)]
pub enum Stored {
    /// The value is the slot's.
    Stored,
    /// The slot is of another plan, has another number, or no work has its columns.
    Old(Held),
}

/// What became of a send.
#[derive(Clone, Copy, Debug, PartialEq, Eq)]
pub enum Gave {
    /// The value is the outgoing one's.
    Given,
    /// The slot is of another plan, has another number, or has no value yet.
    Not(Held),
}
