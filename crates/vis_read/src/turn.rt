//! Which heap a reader waits for.

use crate::cause::ReadCause;

/// The sizes of a stream's heaps.
#[derive(Clone, Copy, Debug, PartialEq, Eq)]
pub struct Sizes {
    /// The number of channels, 1 to 4,096.
    pub channels: u32,
    /// The number of baselines, as 1 to 64 antennas have.
    pub baselines: u32,
}

/// Which heap a reader waits for.
#[derive(Clone, Copy, Debug, PartialEq, Eq)]
pub enum Turn {
    /// The descriptor heap.
    First,
    /// The heap with this counter, in a stream of these sizes.
    Later(Sizes, u64),
    /// None: the stop heap was whole.
    Over,
    /// None: a datagram was refused.
    Broken(ReadCause),
}
