//! Worked examples of what one more packet or byte string is, and of what is counted.

ghost use Rattle.std.specs.Prelude.{◌≡◌, ℕ, true, false, List, [], ◌∷◌, filter, fold, map, replicate, take, Some, None};
ghost use Rattle.corr_model.specs.declared.heap.DropCause.TheVariants.{Overlap, PastLimit};
ghost use Rattle.corr_model.specs.declared.verdict.Verdict.TheVariants as verdict;
ghost use Rattle.corr_model.specs.Packets.{parts_in};
ghost use Rattle.corr_model.specs.Windows.{heard, placed_in};
ghost use Rattle.corr_model.specs.PacketVerdicts.{Part, Makes, Stale, Dropped, heap_made, next_outcome};
ghost use Rattle.corr_model.specs.PacketVerdicts.{counted, is_of_heap, is_part, is_stop, report_on};
ghost use Rattle.corr_model.specs.Reports.{evicts_next, with_string};
ghost use Rattle.corr_model.specs.WindowSteps.{first_unfinished, last_counters, members_now, place_of};
ghost use Rattle.corr_model.specs.Examples.{small_plan, first_packet, first_samples, voltage_pointers};
ghost use Rattle.corr_model.specs.ExamplesVerdicts.{each_verdict, nothing_counted, one_of_each};
ghost use Rattle.corr_model.specs.ExamplesWindows.{first_whole, half, half_heap, halves, other_half, piece, with_window};

/// What one more packet is: the one that makes its heap whole, stale after that, a part, or dropped.
pub fn outcomes_of_one_packet_more()
    ensures makes { next_outcome 4100 8 [] (parts_in first_packet) ≡ Makes first_whole }
    ensures stale { next_outcome 4100 8 (heard small_plan (first_packet ∷ [])) (parts_in first_packet)
        ≡ Stale }
    ensures part { next_outcome 4100 8 [] (parts_in (half 1)) ≡ Part }
    ensures overlap { next_outcome 4100 8 (heard small_plan (half 1 ∷ [])) (parts_in (half 1))
        ≡ Dropped Overlap }
    ensures past_the_limit { next_outcome 1 8 [] (parts_in (half 1)) ≡ Dropped PastLimit }
{}

/// Only a packet that makes a heap whole makes one.
pub fn heaps_that_are_made()
    ensures { map heap_made (Part ∷ Makes first_whole ∷ Stale ∷ Dropped Overlap ∷ [])
        ≡ None ∷ Some first_whole ∷ None ∷ None ∷ [] }
{}

/// Which verdicts are those of whole heaps; a report counts all strings but parts and stop heaps.
pub fn verdicts_that_are_counted()
    ensures of_heaps { filter is_of_heap each_verdict
        ≡ verdict.Stop
        ∷ verdict.Undescribed
        ∷ verdict.Foreign 1
        ∷ verdict.BeforeStart
        ∷ verdict.OffGrid
        ∷ verdict.Wild
        ∷ verdict.Beyond
        ∷ verdict.Late
        ∷ verdict.Twice
        ∷ verdict.Used 0 1
        ∷ [] }
    ensures parts { filter is_part each_verdict ≡ verdict.Part ∷ [] }
    ensures stops { filter is_stop each_verdict ≡ verdict.Stop ∷ [] }
    ensures report { report_on 2 3 each_verdict ≡ one_of_each 2 3 }
    ensures counted { counted (one_of_each 2 3) ≡ 12 }
{}

/// A report with one string of each verdict more: each is counted once, and what it evicts and
/// brings is added.
pub fn report_string_by_string()
    ensures each { fold (λ r v. with_string r v false 0) nothing_counted each_verdict ≡ one_of_each 0 0 }
    ensures evicts { with_string nothing_counted (verdict.Used 0 1) true 2
        ≡ record nothing_counted { taken = 1; evicted = 1; baddesc = 2; used = 1 } }
{}

/// The third of three halves evicts heap 1 from a window of 2; the second evicts nothing, and nor
/// does a packet past the heap limit.
pub fn eviction_by_one_packet_more()
    ensures third { evicts_next (with_window 2) (heard small_plan (take 2 halves)) (parts_in (half 3)) ≡ Some 1 }
    ensures second { evicts_next (with_window 2) (heard small_plan (take 1 halves)) (parts_in (half 2)) ≡ None }
    ensures past_the_limit { evicts_next (with_window 2) (heard small_plan (take 2 halves))
        (parts_in (piece 3 (Some 4101) 0 []))
        ≡ None }
{}

/// The counters of the last two openings, the places of heaps by their counters, and the heap that
/// the next opening evicts: the first of as many as the window has, where it is not whole.
pub fn heaps_that_a_window_keeps()
    ensures counters { last_counters 2 (placed_in (with_window 2) (take 3 halves)) ≡ 2 ∷ 3 ∷ [] }
    ensures place { place_of 3 (map half_heap (2 ∷ 3 ∷ [])) ≡ Some 1 }
    ensures first_place { place_of 3 (map half_heap (3 ∷ 3 ∷ [])) ≡ Some 0 }
    ensures no_place { place_of 1 (map half_heap (2 ∷ 3 ∷ [])) ≡ None }
    ensures unfinished { first_unfinished 2 (map half_heap (2 ∷ 3 ∷ [])) ≡ Some 2 }
    ensures whole { first_unfinished 1 (record (half_heap 2) { whole = true } ∷ []) ≡ None }
    ensures room { first_unfinished 3 (map half_heap (2 ∷ 3 ∷ [])) ≡ None }
{}

/// The members of a packet's heap, the packet included.
pub fn members_of_the_next_heap()
    ensures joins { map (λ q. q.place) (members_now 2 (heard small_plan (take 2 halves)) (parts_in (other_half 1)))
        ≡ 0 ∷ 2 ∷ [] }
    ensures opens { map (λ q. q.place) (members_now 2 (heard small_plan (take 3 halves)) (parts_in (other_half 1)))
        ≡ 3 ∷ [] }
{}
