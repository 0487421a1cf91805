//! Where byte strings come from or go to.

ghost use Rattle.std.specs.Prelude.{◌≡◌, ◌≢◌, ◌≤◌, length, IfOk, MatchBool};

use crate::answers::NoMemory;
use crate::text::Text;
use std::alloc::Global;

/// A file or a UDP address.
#[derive(Debug, Drop)]
pub struct Place {
    /// Whether it is a UDP address.
    pub udp: bool,
    /// The path of the file, or the address.
    pub text: Text,
}

impl Place {
    ghost use Rattle.corr_site.specs.Places.{place_of};

    /// The place that a word names: a UDP address after `udp:`, and a file else. `NoMemory` comes
    /// only for want of memory.
    pub fn read(alloc: Global, word: &str) -> Result<Place, NoMemory>
        requires fits { length (place_of word.now).text ≤ 4096 }
        ensures value { IfOk result (λ p. p ≡ place_of word.now) }
    {
        match word.strip_prefix("udp:") {
            Some(address) => Ok(Place {
                udp: true,
                text: Text::new(alloc, address)?,
            }),
            None => Ok(Place {
                udp: false,
                text: Text::new(alloc, word)?,
            }),
        }
    }

    /// Whether it is the same place.
    pub fn is(&self, other: &Place) -> bool
        ensures { MatchBool result (self.now ≡ other.now) (self.now ≢ other.now) }
    {
        self.udp == other.udp && self.text.is(&other.text)
    }

    /// A second place like it. `NoMemory` comes only for want of memory.
    pub fn copy(&self, alloc: Global) -> Result<Place, NoMemory>
        ensures value { IfOk result (λ p. p ≡ self.now) }
    {
        Ok(Place {
            udp: self.udp,
            text: self.text.copy(alloc)?,
        })
    }
}
