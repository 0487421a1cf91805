//! Laws of the definition of a packet, over every byte string.

ghost use Rattle.std.specs.Prelude.{◌≡◌, ℕ, List};
ghost use Rattle.corr_model.specs.declared.pointer.Refusal.{Refusal};
ghost use Rattle.corr_model.specs.Packets.{Parts, Spells, refusal_of, parts_in, packet_in};

/// A byte string spells at most one packet.
pub fn spelled_at_most_once()
    ensures { (bytes : List ℕ) (p q : Parts) → Spells bytes p → Spells bytes q → p ≡ q }
{}

/// The packet that is read at the places of the bytes is the one that they spell.
pub fn read_as_spelled()
    ensures found { (bytes : List ℕ) (p : Parts) → packet_in bytes ≡ Some p → Spells bytes p }
    ensures again { (bytes : List ℕ) (p : Parts) → Spells bytes p → packet_in bytes ≡ Some p }
{}

/// Bytes have a refusal exactly where they spell no packet.
pub fn refused_or_spelled()
    ensures spelled { (bytes : List ℕ) → refusal_of bytes ≡ None → Spells bytes (parts_in bytes) }
    ensures refused { (bytes : List ℕ) (e : Refusal) (p : Parts)
        → refusal_of bytes ≡ Some e → ¬ Spells bytes p }
{}
