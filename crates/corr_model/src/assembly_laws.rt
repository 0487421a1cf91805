//! Laws of assembly: a whole heap has each of its bytes from one kept packet.

ghost use Rattle.std.specs.Prelude.{◌≡◌, ◌-◌, ◌<◌, ◌≤◌, ℕ, List, All, IfSome, Some, count_by, find, length, slice_index};
ghost use Rattle.corr_model.specs.declared.plan.Plan.{Plan};
ghost use Rattle.corr_model.specs.Packets.{Parts};
ghost use Rattle.corr_model.specs.Windows.{PlacedPacket, end_of, heard, members, placed_in};
ghost use Rattle.corr_model.specs.Assembly.{Fate, kept, whole_front, said_size, payload_bytes, holds_byte, joined};

/// A heard packet, and so a member of a heap, ends within the size that it says itself.
pub fn packets_end_within_their_sizes()
    ensures heard { (plan : Plan) (l : List (List ℕ))
        → All (λ p. IfSome p.size (λ size. end_of p ≤ size)) (heard plan l) }
    ensures members { (plan : Plan) (l : List (List ℕ)) (o : PlacedPacket)
        → All (λ m. IfSome m.packet.size (λ size. end_of m.packet ≤ size)) (members plan.window (placed_in plan l) o) }
{}

/// The kept packets of a whole heap hold each of its bytes exactly once, where each member ends within the size that it
/// says itself.
pub fn each_byte_once()
    ensures { (ms : List PlacedPacket) (front : List Fate) (k : ℕ)
        → All (λ m. IfSome m.packet.size (λ size. end_of m.packet ≤ size)) ms
        → whole_front ms ≡ Some front
        → k < payload_bytes (kept front)
        → count_by (holds_byte k) (kept front) ≡ 1 }
{}

/// So each byte of a whole heap's payload is one that a kept packet brought, and none is made up.
pub fn no_made_up_byte()
    ensures { (ms : List PlacedPacket) (front : List Fate) (k : ℕ)
        → All (λ m. IfSome m.packet.size (λ size. end_of m.packet ≤ size)) ms
        → whole_front ms ≡ Some front
        → k < payload_bytes (kept front)
        → (p : Parts)
        × (find (holds_byte k) (kept front) ≡ Some p)
        × (p.offset ≤ k)
        × (k < end_of p)
        × (slice_index (joined (kept front)) k ≡ slice_index p.payload (k - p.offset)) }
{}

/// A payload is as long as what its packets bring, and that of a whole heap is as long as the size that a kept packet
/// says.
pub fn whole_payload_has_its_size()
    ensures brought { (ps : List Parts) → length (joined ps) ≡ payload_bytes ps }
    ensures size { (ms : List PlacedPacket) (front : List Fate) → whole_front ms ≡ Some front
        → said_size (kept front) ≡ Some (length (joined (kept front))) }
{}
