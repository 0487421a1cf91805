//! Why a packet is not kept in its heap.

/// Why a packet is dropped, in the order of the tests: the first that applies is the cause.
#[derive(Clone, Copy, Debug, PartialEq, Eq)]
pub enum DropCause {
    /// The packet's size or its end is past the limit of a heap.
    PastLimit,
    /// It and a kept packet of its heap say different sizes.
    SizeDiffers,
    /// Its end is past the size that a kept packet says, or a kept packet's end is past the size
    /// that it says itself.
    PastSize,
    /// It shares a byte of the heap with a kept packet.
    Overlap,
    /// The heap would have more than 64 distinct pointers.
    TooManyPointers,
}
