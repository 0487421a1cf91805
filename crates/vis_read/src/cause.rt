//! Why a reader refuses.

use corr_model::{DescRefusal, DropCause, Refusal};

/// Why a datagram is refused, in the order of the tests: the first that applies is the cause.
#[derive(Clone, Copy, Debug, PartialEq, Eq)]
pub enum ReadCause {
    /// The datagram is no packet.
    Packet(Refusal),
    /// The stop heap was whole before.
    AfterStop,
    /// The heap with this counter is begun and not whole, and the datagram is of another one.
    Unfinished(u64),
    /// The packet is past the limit, or its heap does not keep it.
    Dropped(DropCause),
    /// The first heap is whole, and one of its descriptors is refused.
    Descriptor(DescRefusal),
    /// The heap with this counter is whole, and is not of the form that its turn asks: another
    /// counter, or other items, sizes or descriptors than an output has there.
    Form(u64),
    /// The datagrams ended before the stop heap was whole.
    NoStop,
}
