//! Laws of a window: what one more packet is to the heaps that it keeps.

ghost use Rattle.std.specs.Prelude.{◌≡◌, ◌≢◌, ◌≤◌, [], ℕ, List, Some, None, length, map, slice_get, is_none};
ghost use Rattle.std.specs.List.{AllPairs};
ghost use Rattle.corr_model.specs.Packets.{Parts};
ghost use Rattle.corr_model.specs.Windows.{placed, is_opening};
ghost use Rattle.corr_model.specs.LiveHeaps.{LiveHeap, WindowStandsFor};
ghost use Rattle.corr_model.specs.PacketVerdicts.{evicted_of};
ghost use Rattle.corr_model.specs.WindowSteps.{last_counters, place_of, first_unfinished, Joins, Opens};

/// A window that keeps no heap stands for no packet.
pub fn new_window()
    ensures { (window : ℕ) → WindowStandsFor window [] [] }
{}

/// The last openings have heap counters that are pairwise different, and the kept heaps have these counters in their
/// order. So there are at most W, and a packet opens a heap exactly where none of them has its counter.
pub fn counters_tell_heaps_apart()
    ensures apart { (window : ℕ) (h : List Parts)
        → AllPairs (λ m n. m ≢ n) (last_counters window (placed window h)) }
    ensures counters { (window : ℕ) (hs : List LiveHeap) (h : List Parts)
        → WindowStandsFor window hs h
        → map (λ e. e.counter) hs ≡ last_counters window (placed window h) }
    ensures few { (window : ℕ) (hs : List LiveHeap) (h : List Parts)
        → WindowStandsFor window hs h → length hs ≤ window }
    ensures opens { (window : ℕ) (hs : List LiveHeap) (h : List Parts) (p : Parts)
        → WindowStandsFor window hs h
        → is_opening window (placed window h) p ≡ is_none (place_of p.counter hs) }
{}

/// Where a kept heap has the packet's counter, the packet is one member more of that heap, and of no other.
pub fn packet_joins_its_heap()
    ensures { (window : ℕ) (hs : List LiveHeap) (h : List Parts) (p : Parts)
        (i : ℕ) (e : LiveHeap)
        → WindowStandsFor window hs h
        → slice_get hs i ≡ Some e → e.counter ≡ p.counter
        → Joins window hs h p i e }
{}

/// Where no kept heap has the packet's counter, the packet is the first member of a new heap, and of no other.
pub fn packet_opens_a_heap()
    ensures { (window : ℕ) (hs : List LiveHeap) (h : List Parts) (p : Parts)
        → 1 ≤ window → WindowStandsFor window hs h
        → place_of p.counter hs ≡ None
        → Opens window hs h p }
{}

/// The next opening evicts the first of W kept heaps, where that is not whole.
pub fn first_heap_is_evicted()
    ensures { (window : ℕ) (hs : List LiveHeap) (h : List Parts)
        → 1 ≤ window → WindowStandsFor window hs h
        → evicted_of window (placed window h) ≡ first_unfinished window hs }
{}
