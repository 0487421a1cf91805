//! Item pointers, and the reasons why bytes are no packet.

ghost use Rattle.std.specs.Prelude.{◌≡◌};

/// An item pointer of the heap: one mode bit, an id of 15 bits and 48 bits of value.
#[derive(Clone, Copy, Debug, PartialEq, Eq)]
pub struct Pointer {
    /// The mode: true where the value stands in the pointer itself.
    pub immediate: bool,
    /// The item's id, below 2^15.
    pub id: u32,
    /// The value if immediate, else the offset in the heap's payload in bytes; below 2^48.
    pub value: u64,
}

impl Pointer {
    ghost use Rattle.corr_model.specs.Descriptors.{immediate, addressed};
    ghost use Rattle.corr_model.specs.Assembly.{are_same};

    /// A pointer with this id, an id of 15 bits, and this value of 48 bits.
    pub fn immediate(id: u32, value: u64) -> Pointer
        ensures { result ≡ immediate id value }
    {
        Pointer {
            immediate: true,
            id,
            value,
        }
    }

    /// A pointer with this id, an id of 15 bits, to this offset in the heap's payload in bytes.
    pub fn addressed(id: u32, offset: u64) -> Pointer
        ensures { result ≡ addressed id offset }
    {
        Pointer {
            immediate: false,
            id,
            value: offset,
        }
    }

    /// Whether two pointers are one: mode, id and value agree.
    pub fn is_same(&self, other: &Pointer) -> bool
        ensures { result ≡ are_same self.now other.now }
    {
        self.immediate == other.immediate && self.id == other.id && self.value == other.value
    }
}

/// Why bytes are no packet, in the order of the tests: the first that applies is the refusal.
#[derive(Clone, Copy, Debug, PartialEq, Eq)]
pub enum Refusal {
    /// Fewer than 8 bytes.
    Short,
    /// Byte 0 is not the magic number.
    Magic,
    /// Byte 1 is not version 4.
    Version,
    /// Bytes 2 and 3 are not the widths of flavour 64-48.
    Flavour,
    /// The item pointers would reach past the end.
    Pointers,
    /// No immediate pointer with the id of the heap counter.
    NoCounter,
    /// No immediate pointer with the id of the heap offset.
    NoOffset,
    /// No immediate pointer with the id of the payload length.
    NoLength,
    /// The length that is claimed, and the number of bytes that are found after the pointers.
    Length(u64, u64),
    /// The end of the payload is past the size of the heap.
    PastHeap,
}
