//! Worked examples of heard packets, openings and members.

ghost use Rattle.std.specs.Prelude.{◌≡◌, ℕ, true, false, List, [], ◌∷◌, map, Some, None};
ghost use Rattle.corr_model.specs.Packets.{packet_in};
ghost use Rattle.corr_model.specs.Windows.{heard, placed_in};
ghost use Rattle.corr_model.specs.Examples.{small_plan, first_packet, both_heaps};
ghost use Rattle.corr_model.specs.ExamplesWindows.{piece, with_window, opened_counters, member_payloads, whole_counters};
ghost use Rattle.corr_model.specs.ExamplesWindows.{halves, just_in_time, one_two_one};

/// A size or an end of exactly the heap limit is heard, and one more is not.
pub fn heap_limit_is_met_exactly()
    ensures size { opened_counters small_plan (piece 1 (Some 4100) 0 [] ∷ piece 2 (Some 4101) 0 [] ∷ [])
        ≡ 1 ∷ [] }
    ensures end { opened_counters small_plan
        (piece 1 None 4098 (1 ∷ 2 ∷ []) ∷ piece 2 None 4099 (1 ∷ 2 ∷ []) ∷ [])
        ≡ 1 ∷ [] }
    ensures no_byte { opened_counters small_plan (piece 1 None 4100 [] ∷ piece 2 None 4101 [] ∷ [])
        ≡ 1 ∷ [] }
{}

/// Of the byte strings past the packet limit none is heard.
pub fn strings_past_the_limit_are_not_heard()
    ensures { map Some (heard (record small_plan { packet_limit = 1 }) both_heaps)
        ≡ packet_in first_packet ∷ [] }
{}

/// Eviction from the window: with a window of 2 all four halves open a heap, and none is whole.
pub fn eviction_from_the_window()
    ensures opens { map (λ q. q.opens) (placed_in (with_window 2) halves)
        ≡ true ∷ true ∷ true ∷ true ∷ [] }
    ensures openings { map (λ q. q.openings) (placed_in (with_window 2) halves) ≡ 1 ∷ 2 ∷ 3 ∷ 4 ∷ [] }
    ensures members { member_payloads (with_window 2) halves
        ≡ ((1 ∷ 2 ∷ []) ∷ []) ∷ ((1 ∷ 2 ∷ []) ∷ []) ∷ ((1 ∷ 2 ∷ []) ∷ []) ∷ ((3 ∷ 4 ∷ []) ∷ []) ∷ [] }
    ensures whole { whole_counters (with_window 2) halves ≡ [] }
{}

/// The same halves with a window of 3: heap 1 still waits for its second half.
pub fn no_eviction_from_a_wider_window()
    ensures opens { map (λ q. q.opens) (placed_in (with_window 3) halves)
        ≡ true ∷ true ∷ true ∷ false ∷ [] }
    ensures members { member_payloads (with_window 3) halves
        ≡ ((1 ∷ 2 ∷ []) ∷ (3 ∷ 4 ∷ []) ∷ []) ∷ ((1 ∷ 2 ∷ []) ∷ []) ∷ ((1 ∷ 2 ∷ []) ∷ []) ∷ [] }
    ensures whole { whole_counters (with_window 3) halves ≡ 1 ∷ [] }
{}

/// A packet just before the second later opening is a member, and one after it opens anew.
pub fn just_before_the_last_opening()
    ensures opens { map (λ q. q.opens) (placed_in (with_window 2) just_in_time)
        ≡ true ∷ true ∷ false ∷ true ∷ true ∷ [] }
    ensures members { member_payloads (with_window 2) just_in_time
        ≡ ((1 ∷ 2 ∷ []) ∷ (3 ∷ 4 ∷ []) ∷ []) ∷ ((1 ∷ 2 ∷ []) ∷ []) ∷ ((1 ∷ 2 ∷ []) ∷ []) ∷ ((3 ∷ 4 ∷ []) ∷ []) ∷ [] }
    ensures whole { whole_counters (with_window 2) just_in_time ≡ 1 ∷ [] }
{}

/// A whole heap keeps its place: until it is evicted, a packet with its counter opens nothing.
pub fn whole_heap_keeps_its_place()
    ensures opened { opened_counters (with_window 2) one_two_one ≡ 1 ∷ 2 ∷ [] }
    ensures whole { whole_counters (with_window 2) one_two_one ≡ 1 ∷ 2 ∷ [] }
{}

/// At the opening that evicts it the counter is free: with a window of 1 heap 1 opens anew.
pub fn evicted_counter_opens_anew()
    ensures opened { opened_counters (with_window 1) one_two_one ≡ 1 ∷ 2 ∷ 1 ∷ [] }
    ensures whole { whole_counters (with_window 1) one_two_one ≡ 1 ∷ 2 ∷ 1 ∷ [] }
{}
