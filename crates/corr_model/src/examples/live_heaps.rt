//! Worked examples of what a window keeps.

ghost use Rattle.std.specs.Prelude.{ℕ, List, [], ◌∷◌, take, true, Some, None};
ghost use Rattle.corr_model.specs.Descriptors.{immediate};
ghost use Rattle.corr_model.specs.Windows.{heard};
ghost use Rattle.corr_model.specs.LiveHeaps.{WindowStandsFor};
ghost use Rattle.corr_model.specs.Examples.{small_plan};
ghost use Rattle.corr_model.specs.ExamplesWindows.{byte_there, dropped_ones, first_heap, half_heap, halves, opened_heap, other_half_heap, pointed_late, reversed_pieces, three_pieces_heap, with_window};

/// Eviction from the window: with a window of 2 the last two heaps are kept, the older one first.
pub fn eviction_from_the_window()
    ensures none { WindowStandsFor 2 [] (heard (with_window 2) []) }
    ensures second { WindowStandsFor 2 (half_heap 1 ∷ half_heap 2 ∷ [])
        (heard (with_window 2) (take 2 halves)) }
    ensures third { WindowStandsFor 2 (half_heap 2 ∷ half_heap 3 ∷ [])
        (heard (with_window 2) (take 3 halves)) }
    ensures fourth { WindowStandsFor 2 (half_heap 3 ∷ other_half_heap 1 ∷ [])
        (heard (with_window 2) halves) }
{}

/// What is dropped or stale leaves no trace: the whole heap is that of the kept packets that made
/// it whole.
pub fn dropped_and_stale_packets()
    ensures dropped { WindowStandsFor 8 (first_heap ∷ opened_heap 3 ∷ [])
        (heard small_plan dropped_ones) }
    ensures stale { WindowStandsFor 8 (first_heap ∷ []) (heard small_plan pointed_late) }
{}

/// Pieces in reverse order: before the last one no size is known, and the greatest end is that of
/// the first.
pub fn pieces_in_reverse_order()
    ensures three { WindowStandsFor 8 (three_pieces_heap ∷ [])
        (heard small_plan (take 3 reversed_pieces)) }
    ensures whole { WindowStandsFor 8 (first_heap ∷ []) (heard small_plan reversed_pieces) }
{}

/// A window with fewer heaps, with more or with others in their places does not stand for them.
pub fn windows_of_other_heaps()
    ensures fewer { WindowStandsFor 2 (half_heap 1 ∷ []) (heard (with_window 2) (take 2 halves)) → ⊥ }
    ensures more { WindowStandsFor 2 (half_heap 1 ∷ half_heap 2 ∷ half_heap 3 ∷ [])
        (heard (with_window 2) (take 2 halves)) → ⊥ }
    ensures evicted { WindowStandsFor 2 (half_heap 1 ∷ half_heap 2 ∷ half_heap 3 ∷ [])
        (heard (with_window 2) (take 3 halves)) → ⊥ }
    ensures turned { WindowStandsFor 2 (half_heap 2 ∷ half_heap 1 ∷ [])
        (heard (with_window 2) (take 2 halves)) → ⊥ }
{}

/// A heap that differs in one thing that is kept does not stand for its members.
pub fn heaps_that_differ_in_one_thing()
    ensures size { WindowStandsFor 8 (record (half_heap 1) { size = None } ∷ [])
        (heard small_plan (take 1 halves)) → ⊥ }
    ensures ending { WindowStandsFor 8 (record (half_heap 1) { ending = 4 } ∷ [])
        (heard small_plan (take 1 halves)) → ⊥ }
    ensures bytes { WindowStandsFor 8 (record (half_heap 1) { byte = byte_there [] } ∷ [])
        (heard small_plan (take 1 halves)) → ⊥ }
    ensures pointers { WindowStandsFor 8 (record (half_heap 1) { pointers = immediate 10 1 ∷ [] } ∷ [])
        (heard small_plan (take 1 halves)) → ⊥ }
    ensures whole { WindowStandsFor 8 (record (half_heap 1) { whole = true } ∷ [])
        (heard small_plan (take 1 halves)) → ⊥ }
{}
