//! One heap of the output, cut into packets and sent.

ghost use Rattle.std.specs.Prelude.{◌≡◌, ◌+◌, ◌*◌, ◌^◌, ◌<◌, ◌≤◌, ◌∷◌, [], true, length, take, drop, IfOk};
ghost use Rattle.corr_model.specs.Plans.{Fits};
ghost use Rattle.corr_model.specs.Outputs.{piece_count, packets_of};
ghost use Rattle.corr_site.specs.Outside.{HasCause};
ghost use Rattle.vis_send.specs.Sending.{Tallies};
ghost use Rattle.vis_send.specs.Heaps.{IsSendable, piece_packet};

use crate::sending::{SinkFault, send};
use crate::tally::Sent;
use corr_model::{Plan, Pointer};
use corr_site::PacketSink;
use spead_wire::{PacketHead, encode_into};

/// A heap of the output: its counter, its own pointers and its payload.
#[derive(Clone, Copy)]
pub(crate) struct OutputHeap<'a> {
    /// The counter, below 2^48.
    pub counter: u64,
    /// At most three pointers of the heap.
    pub pointers: &'a [Pointer],
    /// The bytes, fewer than 2^48.
    pub payload: &'a [u8],
}

/// The room of a packet in bytes: header, seven pointers and the most payload that a plan allows.
pub(crate) const PACKET_ROOM: usize = 8 + 8 * 7 + 8192;

/// Sends a heap, cut into packets, each put together in `packet`, and counts them. `SinkFault` comes
/// only where the sink's count of faults rose, and then a front of the packets was sent.
pub(crate) fn send_heap<K: PacketSink>(
    plan: &Plan,
    heap: &OutputHeap<'_>,
    packet: &mut [u8; PACKET_ROOM],
    sent: &mut Sent,
    sink: &mut K,
) -> Result<(), SinkFault>
    requires fits { Fits plan.now }
    requires heap { IsSendable heap.now.counter heap.now.pointers.now heap.now.payload.now }
    requires begun { K.begun sink.old ≡ true }
    ensures sent { Tallies (K.sent sink.old) (K.sent sink.new) sent.old sent.new result
        (packets_of plan.now heap.now.counter heap.now.pointers.now heap.now.payload.now) }
    ensures begun { K.begun sink.new ≡ true }
    ensures at { K.at sink.new ≡ K.at sink.old }
    ensures cause { HasCause (K.faults sink.old) (K.faults sink.new) result }
{
    let pieces = piece_count(plan, heap.payload.len());
    for k in 0..pieces {
        send_piece(plan, heap, k, packet, sent, sink)?;
    }
    Ok(())
}

// The number of packets for so many bytes of payload: at least one.
fn piece_count(plan: &Plan, bytes: usize) -> usize
    requires fits { Fits plan.now }
    ensures { result ≡ piece_count plan.now.packet bytes }
{
    bytes.div_ceil(plan.packet as usize).max(1)
}

// Sends packet `k` of a heap.
fn send_piece<K: PacketSink>(
    plan: &Plan,
    heap: &OutputHeap<'_>,
    k: usize,
    packet: &mut [u8; PACKET_ROOM],
    sent: &mut Sent,
    sink: &mut K,
) -> Result<(), SinkFault>
    requires fits { Fits plan.now }
    requires heap { IsSendable heap.now.counter heap.now.pointers.now heap.now.payload.now }
    requires k { k < piece_count plan.now.packet (length heap.now.payload.now) }
    requires begun { K.begun sink.old ≡ true }
    ensures sent { Tallies (K.sent sink.old) (K.sent sink.new) sent.old sent.new result
        (piece_packet plan.now heap.now.counter heap.now.pointers.now heap.now.payload.now k ∷ []) }
    ensures begun { K.begun sink.new ≡ true }
    ensures at { K.at sink.new ≡ K.at sink.old }
    ensures cause { HasCause (K.faults sink.old) (K.faults sink.new) result }
{
    let offset = k * plan.packet as usize;
    let head = PacketHead {
        counter: heap.counter,
        size: Some(heap.payload.len() as u64),
        offset: offset as u64,
    };
    let piece = piece(heap.payload, offset, plan.packet as usize);
    let len = encode_into(&head, heap.pointers, piece, packet);
    send(sent, &packet[..len], sink)
}

// At most `most` bytes from a place on.
fn piece(payload: &[u8], from: usize, most: usize) -> &[u8]
    requires { from ≤ length payload.now }
    ensures { result.now ≡ take most (drop from payload.now) }
{
    let (_, rest) = payload.split_at(from);
    &rest[..most.min(rest.len())]
}
