//! Why settings are refused.

ghost use Rattle.std.specs.Prelude.{◌≡◌};

use crate::key::Key;
use corr_site::{NoMemory, Text};

/// Why settings are refused, in the order of the tests.
#[derive(Debug, Drop)]
pub enum SetRefusal {
    /// The text has more than 65,536 bytes.
    TooLong,
    /// The bytes are no TOML text: also where they are no UTF-8, a key stands twice, or an integer
    /// has more than 64 bits.
    NotToml,
    /// A required setting is not given.
    Missing(Key),
    /// A value is of another kind, or a member of `inputs` is no string.
    Kind(Key),
    /// A value, or the length of a string in bytes, is out of its range, or breaks a rule on several
    /// settings. A number of the command line is given as it is printed, 2^63 - 1 at most.
    Range(Key, i64),
    /// A key is no setting, the least such by its bytes: its first 64 bytes, cut at a character's
    /// edge.
    Unknown(Text),
    /// The run would reserve so many bytes, more than 2^30.
    TooLarge(u128),
    /// There was no memory.
    NoMemory,
}

impl From<NoMemory> for SetRefusal {
    ghost use Rattle.corr_settings.specs.declared.refusal.SetRefusal.TheVariants.{NoMemory};

    ghost from_gives = { λ _ e. e ≡ NoMemory };

    fn from(_error: NoMemory) -> SetRefusal {
        SetRefusal::NoMemory
    }
}
