//! The name of an item.

ghost use Rattle.std.specs.Prelude.{◌≡◌, ◌≤◌, ◌<◌, ◌++◌, ◌∷◌, [], length};

use std::marker::Model;

/// The name of an item: at most 64 bytes, in no fixed encoding.
#[derive(Clone, Copy, Debug, PartialEq, Eq)]
pub struct Name {
    bytes: [u8; 64],
    len: usize,
}

impl Model for Name {
    ghost use Rattle.std.specs.Prelude.{ℕ, List, length, take};
    ghost use Rattle.spead_types.specs.Filled.{filled, IsFilled, length-counted};

    ghost Value = { List ℕ };

    ghost view = { λ s. take s.len s.bytes };

    ghost invariant = { λ s. IsFilled 64 0 s.bytes s.len };

    ghost inverse = { λ xs. record { bytes = filled 64 0 xs; len = length xs } };

    ghost inverse_ok = { λ s h i. record {
      bytes = h.rest i;
      len = length-counted 64 0 s.bytes s.len h i;
    } };
}

impl Name {
    /// The name with these bytes.
    pub fn new(bytes: &[u8]) -> Self
        requires { length bytes.now ≤ 64 }
        ensures { result ≡ bytes.now }
    {
        let mut all = Self::empty();
        for byte in bytes {
            all.push(*byte);
        }
        all
    }

    /// A name without a byte.
    pub(crate) fn empty() -> Self
        ensures { result ≡ [] }
    {
        Name {
            bytes: [0; 64],
            len: 0,
        }
    }

    /// The bytes of the name.
    pub fn as_slice(&self) -> &[u8]
        ensures value { result.now ≡ self.now }
        ensures few { length self.now ≤ 64 }
    {
        &self.bytes[..self.len]
    }

    /// Puts a byte behind the others.
    pub(crate) fn push(&mut self, byte: u8)
        requires { length self.old < 64 }
        ensures { self.new ≡ self.old ++ byte ∷ [] }
    {
        self.bytes[self.len] = byte;
        self.len += 1;
    }
}
