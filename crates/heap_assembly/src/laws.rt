//! Laws of heaps that are put together.

ghost use Rattle.std.specs.Prelude.{◌≡◌, ℕ, true, List, [], ◌∷◌, ◌++◌};
ghost use Rattle.corr_model.specs.Windows.{PlacedPacket};
ghost use Rattle.corr_model.specs.LiveHeaps.{LiveHeap, HeapStandsFor};
ghost use Rattle.corr_model.specs.PacketVerdicts.{member_outcome, Stale};

/// A member more of a heap that is whole is stale, and changes nothing.
pub fn stale_members_change_nothing()
    ensures stands { (h : LiveHeap) (ms : List PlacedPacket) (q : PlacedPacket) → h.whole ≡ true
        → HeapStandsFor h ms → HeapStandsFor h (ms ++ q ∷ []) }
    ensures outcome { (h : LiveHeap) (ms : List PlacedPacket) (q : PlacedPacket) (counter : ℕ) → h.whole ≡ true
        → HeapStandsFor h ms → member_outcome counter (ms ++ q ∷ []) ≡ Stale }
{}
