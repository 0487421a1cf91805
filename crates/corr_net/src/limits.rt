//! Limits that sources and sinks share.

/// The greatest length of a byte string.
pub(crate) const STRING_LIMIT: usize = 65535;

/// How often a read is tried that a signal interrupts.
pub(crate) const TRIES: u32 = 1_000_000;
