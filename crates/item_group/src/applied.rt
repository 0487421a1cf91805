//! What became of the descriptors of a heap, counted.

ghost use Rattle.std.specs.Prelude.{◌≡◌, ◌+◌, ◌<◌};
ghost use Rattle.item_group.specs.Applying.{with_taken};

/// What became of one descriptor.
#[derive(Clone, Copy, Debug, PartialEq, Eq)]
pub(crate) enum Taken {
    /// It is the entry of its id.
    Changed,
    /// It is none.
    Refused,
    /// Its id would be the 65th.
    Full,
}

/// How many descriptors of a heap changed the table, were refused, and found it full. A number
/// counts pointers.
#[derive(Clone, Copy, Debug, PartialEq, Eq)]
pub struct Applied {
    /// Those that became the entry of their id, also where it was the same before.
    pub changed: u32,
    /// Those that are refused as descriptors.
    pub refused: u32,
    /// Those whose id would be the 65th.
    pub full: u32,
}

impl Applied {
    /// The counts with one descriptor more.
    pub(crate) fn with(self, taken: Taken) -> Self
        requires few { self.changed + self.refused + self.full < 64 }
        ensures { result ≡ with_taken self taken }
    {
        match taken {
            Taken::Changed => Applied {
                changed: self.changed + 1,
                ..self
            },
            Taken::Refused => Applied {
                refused: self.refused + 1,
                ..self
            },
            Taken::Full => Applied {
                full: self.full + 1,
                ..self
            },
        }
    }
}
