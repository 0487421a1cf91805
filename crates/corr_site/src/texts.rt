//! Where text comes from and where it goes to.

ghost use Rattle.std.specs.Prelude.{◌≡◌, true, length};
ghost use Rattle.corr_site.specs.Outside.{Begins, IsPlaced, HasCause, Reads, GotFits, GotHasCause, Writes};

use crate::answers::{Failed, Got};
use crate::text::Text;

/// What gives the bytes of one text, in order.
pub trait TextSource: Drop {
    ghost use Rattle.std.specs.Prelude.{ℕ, Bool, List, Option};

    /// The bytes that are left, where they are told.
    ghost left: { Self → Option (List ℕ) };
    /// Whether it is begun.
    ghost begun: { Self → Bool };
    /// The path at which it was begun, if it was, where that is told.
    ghost at: { Self → Option (Option (List ℕ)) };
    /// How many faults it counted.
    ghost faults: { Self → ℕ };

    /// Opens the path. `Failed` comes only where the count of faults rose.
    fn begin(&mut self, path: &Text) -> Result<(), Failed>
        ensures left { left self.new ≡ left self.old }
        ensures begun { Begins result (begun self.new) }
        ensures at { IsPlaced (at self.old) (at self.new) result path.now }
        ensures cause { HasCause (faults self.old) (faults self.new) result };

    /// Puts the next bytes, one at least, at the front of the buffer. `Failed` comes only where the
    /// count of faults rose, and `End` only where nothing is left or the buffer is empty.
    fn read(&mut self, buf: &mut [u8]) -> Got
        requires begun { begun self.old ≡ true }
        ensures left { Reads (left self.old) (left self.new) buf.new result }
        ensures fits { GotFits (length buf.old) result }
        ensures begun { begun self.new ≡ true }
        ensures at { at self.new ≡ at self.old }
        ensures cause { GotHasCause (faults self.old) (faults self.new) result };
}

/// What the bytes of one text are written to, in order.
pub trait TextSink: Drop {
    ghost use Rattle.std.specs.Prelude.{ℕ, List, Option};

    /// The bytes that were written, where they are told.
    ghost written: { Self → Option (List ℕ) };
    /// How many faults it counted.
    ghost faults: { Self → ℕ };

    /// Writes all bytes, or after `Failed` some at their front. `Failed` comes only where the count
    /// of faults rose.
    fn write(&mut self, bytes: &[u8]) -> Result<(), Failed>
        ensures written { Writes (written self.old) (written self.new) result bytes.now }
        ensures cause { HasCause (faults self.old) (faults self.new) result };
}
