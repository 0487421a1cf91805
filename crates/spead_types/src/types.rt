//! The types of an item's element.

ghost use Rattle.std.specs.Prelude.{◌≡◌, ◌≤◌, ◌<◌, ◌++◌, ◌∷◌, [], length};

use corr_model::ItemType;
use std::marker::Model;

// What stands where there is no entry.
const NO_TYPE: ItemType = ItemType { letter: 0, bits: 0 };

/// The types of an item's element: at most 8 entries, one for each part.
#[derive(Clone, Copy, Debug, PartialEq, Eq)]
pub struct Types {
    types: [ItemType; 8],
    len: usize,
}

impl Model for Types {
    ghost use Rattle.std.specs.Prelude.{List, length, take};
    ghost use Rattle.corr_model.specs.declared.item.ItemType.{ItemType};
    ghost use Rattle.spead_types.specs.Filled.{filled, IsFilled, length-counted, no_type};

    ghost Value = { List ItemType };

    ghost view = { λ s. take s.len s.types };

    ghost invariant = { λ s. IsFilled 8 no_type s.types s.len };

    ghost inverse = { λ xs. record { types = filled 8 no_type xs; len = length xs } };

    ghost inverse_ok = { λ s h i. record {
      types = h.rest i;
      len = length-counted 8 no_type s.types s.len h i;
    } };
}

impl Types {
    /// The types with these entries, in the order of an element's parts.
    pub fn new(entries: &[ItemType]) -> Self
        requires { length entries.now ≤ 8 }
        ensures { result ≡ entries.now }
    {
        let mut all = Self::empty();
        for entry in entries {
            all.push(*entry);
        }
        all
    }

    /// No entry.
    pub(crate) fn empty() -> Self
        ensures { result ≡ [] }
    {
        Types {
            types: [NO_TYPE; 8],
            len: 0,
        }
    }

    /// The entries, in the order of an element's parts.
    pub fn as_slice(&self) -> &[ItemType]
        ensures value { result.now ≡ self.now }
        ensures few { length self.now ≤ 8 }
    {
        &self.types[..self.len]
    }

    /// Puts an entry behind the others.
    pub(crate) fn push(&mut self, entry: ItemType)
        requires { length self.old < 8 }
        ensures { self.new ≡ self.old ++ entry ∷ [] }
    {
        self.types[self.len] = entry;
        self.len += 1;
    }
}
