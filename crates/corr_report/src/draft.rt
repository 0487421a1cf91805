//! A line that is put together piece by piece.

ghost use Rattle.std.specs.Prelude.{◌≡◌, ◌+◌, ◌≤◌, ◌++◌, [], length};
ghost use Rattle.corr_report.specs.Lines.{IsLine};

use itoa::{Buffer, Integer};
use std::marker::Model;

/// The bytes of a line so far, at most as many as a buffer has.
#[derive(Drop)]
pub(crate) struct Draft {
    bytes: [u8; 1024],
    len: usize,
}

impl Model for Draft {
    ghost use Rattle.std.specs.Prelude.{◌≤◌, ℕ, List, take};

    ghost Value = { List ℕ };

    ghost view = { λ d. take d.len d.bytes };

    ghost invariant = { λ d. d.len ≤ 1024 };
}

impl Draft {
    /// A line with no bytes.
    pub fn new() -> Self
        ensures { result ≡ [] }
    {
        Draft {
            bytes: [0; 1024],
            len: 0,
        }
    }

    /// Puts bytes behind those that stand there.
    pub fn put(&mut self, bytes: &[u8])
        requires { length self.old + length bytes.now ≤ 1024 }
        ensures { self.new ≡ self.old ++ bytes.now }
    {
        let end = self.len + bytes.len();
        self.bytes[self.len..end].copy_from_slice(bytes);
        self.len = end;
    }

    /// Puts a name and a number in decimal digits, with a minus where it is negative.
    pub fn put_number<I: Integer>(&mut self, name: &[u8], number: I)
        requires { length self.old + length name.now + 40 ≤ 1024 }
        ensures value { self.new ≡ self.old ++ (name.now ++ I.text number) }
        ensures short { length self.new ≤ length self.old + length name.now + 40 }
    {
        let mut buffer = Buffer::new();
        self.put(name);
        self.put(buffer.format(number).as_bytes());
    }

    /// Writes the line at the front of the buffer, leaves the rest, and answers its length.
    pub fn write_to(&self, out: &mut [u8; 1024]) -> usize
        ensures line { IsLine out.old out.new result self.now }
        ensures fits { result ≤ 1024 }
    {
        let line = &self.bytes[..self.len];
        out[..self.len].copy_from_slice(line);
        self.len
    }
}
