//! What a turn of an actor answers.

ghost use Rattle.std.specs.Prelude.{◌≡◌};

/// What became of a turn.
#[derive(Clone, Copy, Debug, PartialEq, Eq)]
pub enum Turn {
    /// It did one thing.
    Moved,
    /// What it wants can't be done yet.
    Waits,
    /// Nothing is left to do.
    Done,
}
