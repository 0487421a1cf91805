//! Where a packet's payload belongs.

/// The heap that a packet belongs to, and the place of its payload there.
#[derive(Clone, Copy, Debug, PartialEq, Eq)]
pub struct PacketHead {
    /// The counter of the heap, below 2^48.
    pub counter: u64,
    /// The number of bytes of the whole heap, below 2^48, where the packet says it.
    pub size: Option<u64>,
    /// The place of the payload in the heap, in bytes, below 2^48.
    pub offset: u64,
}
