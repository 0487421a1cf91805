//! Operands: the words after a command but for the flag, in order.

ghost use Rattle.std.specs.Prelude.{◌≡◌, ◌<◌, ◌≤◌, ◌^◌, ◌++◌, length, map, string_bytes, IfOk, All, IsTrue};
ghost use Rattle.std.specs.List.{list_all, AllByRecursion};
ghost use Rattle.corr_site.specs.Places.{place_of};
ghost use Rattle.corr_words.specs.Words.{is_operand, word_at};

use corr_site::{NoMemory, Place, Text};
use std::alloc::Global;
use std::marker::Model;

/// The words before the flag and those after it, seen as one list.
#[derive(Drop)]
pub(crate) struct Operands<'a> {
    front: &'a [String],
    back: &'a [String],
}

impl<'a> Model for Operands<'a> {
    ghost use Rattle.std.specs.Prelude.{ℕ, List, ◌++◌, map, string_bytes};

    ghost Value = { List (List ℕ) };

    ghost view = { λ o. map string_bytes o.front.now ++ map string_bytes o.back.now };
}

impl<'a> Operands<'a> {
    /// The words of two slices.
    pub fn new(front: &'a [String], back: &'a [String]) -> Operands<'a>
        ensures { result ≡ map string_bytes front.now ++ map string_bytes back.now }
    {
        Operands { front, back }
    }

    /// How many there are.
    pub fn len(&self) -> u128
        ensures value { result ≡ length self.now }
        ensures small { result < 2 ^ 64 }
    {
        self.front.len() as u128 + self.back.len() as u128
    }

    /// The word at a place.
    pub fn at(&self, place: usize) -> &str
        requires { place < length self.now }
        ensures { result.now ≡ word_at self.now place }
    {
        if place < self.front.len() {
            self.front[place].as_str()
        } else {
            self.back[place - self.front.len()].as_str()
        }
    }

    /// Whether each word may be an operand.
    pub fn are_sound(&self) -> bool
        ensures { result ≡ list_all is_operand self.now }
    {
        are_operands(self.front) && are_operands(self.back)
    }
}

// Whether each word may be an operand.
fn are_operands(words: &[String]) -> bool
    ensures { result ≡ list_all is_operand (map string_bytes words.now) }
{
    for word in words {
        if !is_operand(word) {
            return false;
        }
    }
    true
}

// Whether the word has 1 to 4,096 bytes and no minus in front.
fn is_operand(word: &str) -> bool
    ensures { result ≡ is_operand word.now }
{
    let bytes = word.as_bytes();
    1 <= bytes.len() && bytes.len() <= 4096 && bytes[0] != b'-'
}
