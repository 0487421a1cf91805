//! Item descriptors: the parts that definitions name, and the reasons why a descriptor is refused.

use crate::pointer::Refusal;

/// One entry of a descriptor's type list.
#[derive(Clone, Copy, Debug, PartialEq, Eq)]
pub struct ItemType {
    /// `u` for unsigned, `i` for signed, `c` for a character.
    pub letter: u8,
    /// The width in bits, from 1 to 64.
    pub bits: u16,
}

/// One dimension of an item's shape.
#[derive(Clone, Copy, Debug, PartialEq, Eq)]
pub enum Dim {
    /// A length that does not change, below 2^48.
    Fixed(u64),
    /// A length that may change from heap to heap.
    Variable,
}

/// Why a descriptor is refused, in the order of the tests: the first that applies is the refusal.
#[derive(Clone, Copy, Debug, PartialEq, Eq)]
pub enum DescRefusal {
    /// The content is no packet.
    Packet(Refusal),
    /// There is no number of the described id, or it is 0 or greater than `0x7fffff`.
    NoId,
    /// The shape's length is no multiple of 7 bytes.
    ShapeBytes,
    /// The types' length is no multiple of 3 bytes.
    TypeBytes,
    /// There is no type entry.
    NoType,
    /// Some letter is not `u`, `i` or `c`.
    Letter,
    /// Some width is 0 or greater than 64 bits.
    Bits,
    /// There are more than 8 dimensions or more than 8 types.
    TooMany,
}
