//! What calls on the outside answer, and the lack of memory.

ghost use Rattle.std.specs.Prelude.{◌≡◌};

use std::alloc::{AllocError, AllocFailed};

/// A call on the outside failed. Its object counted a fault.
#[derive(Clone, Copy, Debug, PartialEq, Eq)]
pub struct Failed;

/// There was no memory.
#[derive(Clone, Copy, Debug, PartialEq, Eq)]
pub struct NoMemory;

impl From<AllocError> for NoMemory {
    ghost from_gives = { λ _ e. e ≡ record {} };

    fn from(_error: AllocError) -> NoMemory {
        NoMemory
    }
}

impl<T: Drop> From<AllocFailed<T>> for NoMemory {
    ghost from_gives = { λ _ e. e ≡ record {} };

    fn from(_error: AllocFailed<T>) -> NoMemory {
        NoMemory
    }
}

/// What a source of byte strings answers.
#[derive(Clone, Copy, Debug, PartialEq, Eq)]
pub enum Next {
    /// A byte string of so many bytes stands at the front of the buffer.
    Packet(usize),
    /// There is no further byte string.
    End,
    /// It could not be read. The source counted a fault.
    Failed,
}

/// What a source of text answers.
#[derive(Clone, Copy, Debug, PartialEq, Eq)]
pub enum Got {
    /// So many bytes of the text, one at least, stand at the front of the buffer.
    Bytes(usize),
    /// Nothing is left of the text, or the buffer has no room.
    End,
    /// It could not be read. The source counted a fault.
    Failed,
}
