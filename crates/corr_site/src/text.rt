//! A short text, as a path or an address.

ghost use Rattle.std.specs.Prelude.{◌≡◌, ◌≢◌, ◌≤◌, length, IfOk, MatchBool};

use crate::answers::NoMemory;
use std::alloc::Global;
use std::marker::Model;

/// A text of at most 4,096 bytes of UTF-8, seen as its bytes.
#[derive(Debug, Drop)]
pub struct Text {
    chars: String,
}

impl Model for Text {
    ghost use Rattle.std.specs.Prelude.{◌≤◌, ℕ, List, length, string_bytes};

    ghost Value = { List ℕ };

    ghost view = { λ t. string_bytes t.chars };

    ghost invariant = { λ t. length (string_bytes t.chars) ≤ 4096 };
}

impl Text {
    /// The text of these characters. `NoMemory` comes only for want of memory.
    pub fn new(alloc: Global, text: &str) -> Result<Text, NoMemory>
        requires fits { length text.now ≤ 4096 }
        ensures value { IfOk result (λ t. t ≡ text.now) }
    {
        let chars = String::from_str(alloc, text)?;
        Ok(Text { chars })
    }

    /// Its characters.
    pub fn as_str(&self) -> &str
        ensures value { result.now ≡ self.now }
        ensures fits { length self.now ≤ 4096 }
    {
        self.chars.as_str()
    }

    /// Whether it is the same text.
    pub fn is(&self, other: &Text) -> bool
        ensures { MatchBool result (self.now ≡ other.now) (self.now ≢ other.now) }
    {
        self.as_str() == other.as_str()
    }

    /// A second text like it. `NoMemory` comes only for want of memory.
    pub fn copy(&self, alloc: Global) -> Result<Text, NoMemory>
        ensures value { IfOk result (λ t. t ≡ self.now) }
    {
        Text::new(alloc, self.as_str())
    }
}
