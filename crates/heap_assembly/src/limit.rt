//! The limit of a heap, against a packet.

ghost use Rattle.std.specs.Prelude.{◌≡◌};
ghost use Rattle.corr_model.specs.Windows.{is_within};

use spead_wire::Packet;

/// Whether the packet is within a limit in bytes: its end, and the heap's size where it says one,
/// are at most the limit.
pub fn is_within(limit: u32, packet: &Packet<'_>) -> bool
    ensures { result ≡ is_within limit packet.now }
{
    let limit = u64::from(limit);
    if packet.size().is_some_and(|size| limit < size) {
        return false;
    }
    packet.offset() + packet.payload().len() as u64 <= limit
}
