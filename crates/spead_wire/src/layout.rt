//! The layout of a packet of flavour 64-48, in numbers.

/// The first byte of a header.
pub(crate) const MAGIC: u8 = 0x53;

/// The version of the protocol.
pub(crate) const VERSION: u8 = 4;

/// The bytes of an item pointer's mode and id.
pub(crate) const ID_WIDTH: u8 = 2;

/// The bytes of an item pointer's value.
pub(crate) const VALUE_WIDTH: u8 = 6;

/// The mode bit of an item pointer's first 16 bits; the other 15 are the id.
pub(crate) const MODE: u16 = 0x8000;

/// The id of the heap counter.
pub(crate) const COUNTER_ID: u32 = 1;

/// The id of the heap size.
pub(crate) const SIZE_ID: u32 = 2;

/// The id of the place of the payload in its heap.
pub(crate) const OFFSET_ID: u32 = 3;

/// The id of the length of the payload.
pub(crate) const LENGTH_ID: u32 = 4;
