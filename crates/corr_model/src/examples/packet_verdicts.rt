//! Worked examples of the verdict on each packet, of evictions and of the report on a stream.

ghost use Rattle.std.specs.Prelude.{◌≡◌, ℕ, List, [], ◌∷◌, ◌++◌, drop, replicate, take, Some, None};
ghost use Rattle.corr_model.specs.declared.heap.DropCause.TheVariants.{Overlap, PastLimit, PastSize, SizeDiffers, TooManyPointers};
ghost use Rattle.corr_model.specs.declared.pointer.Refusal.TheVariants.{Short, Magic, Version, Flavour, Pointers, NoCounter, NoOffset, NoLength, Length, PastHeap};
ghost use Rattle.corr_model.specs.declared.verdict.Verdict.TheVariants.{Refused, Dropped, Stale, Part, Stop, Undescribed, Foreign, BeforeStart, OffGrid, Wild, Beyond, Late, Twice, Used};
ghost use Rattle.corr_model.specs.PacketVerdicts.{packet_verdicts, report};
ghost use Rattle.corr_model.specs.Examples.{small_plan, both_heaps, first_packet, stop_heap, ten_refused};
ghost use Rattle.corr_model.specs.ExamplesDescriptors.{redescribed};
ghost use Rattle.corr_model.specs.ExamplesVerdicts.{described_late, evicted_in_turn, heaps_at, nothing_counted, stop_in_halves, stop_with_descriptor, stopped, timed, timed_plan, two_at_one_place, undescribed_plan, with_limit};
ghost use Rattle.corr_model.specs.ExamplesWindows.{between_halves, dropped_ones, half, halves, just_in_time, one_two_one, piece, pointed, repeated, reversed_pieces, whole_then_halves, with_window};

/// No string at all: no verdict, and nothing is counted.
pub fn nothing_taken()
    ensures verdicts { packet_verdicts small_plan 0 [] ≡ [] }
    ensures report { report small_plan 0 [] ≡ nothing_counted }
{}

/// A repeated packet: the second one comes after its heap was whole.
pub fn repeated_packet()
    ensures verdicts { packet_verdicts small_plan 0 repeated ≡ Used 0 0 ∷ Stale ∷ Used 0 1 ∷ [] }
    ensures report { report small_plan 0 repeated
        ≡ record nothing_counted { taken = 3; stale = 1; used = 2 } }
{}

/// Pieces in reverse order: three parts, and the last one makes the heap whole.
pub fn pieces_in_reverse_order()
    ensures verdicts { packet_verdicts small_plan 0 reversed_pieces
        ≡ Part ∷ Part ∷ Part ∷ Used 0 0 ∷ [] }
    ensures report { report small_plan 0 reversed_pieces
        ≡ record nothing_counted { taken = 4; used = 1 } }
{}

/// Eviction from the window: with a window of 2 the third packet evicts heap 1, and the fourth
/// heap 2.
pub fn eviction_from_the_window()
    ensures verdicts { packet_verdicts (with_window 2) 0 halves ≡ replicate 4 Part }
    ensures report { report (with_window 2) 0 halves
        ≡ record nothing_counted { taken = 4; evicted = 2 } }
    ensures evicted { evicted_in_turn (with_window 2) halves ≡ None ∷ None ∷ Some 1 ∷ Some 2 ∷ [] }
{}

/// The same halves with a window of 3 evict nothing, and with a window of 1 each opening evicts the
/// heap before it.
pub fn eviction_by_width()
    ensures wider { report (with_window 3) 0 halves
        ≡ record nothing_counted { taken = 4; undescribed = 1 } }
    ensures none { evicted_in_turn (with_window 3) halves ≡ replicate 4 None }
    ensures narrow { report (with_window 1) 0 halves
        ≡ record nothing_counted { taken = 4; evicted = 3 } }
    ensures each { evicted_in_turn (with_window 1) halves ≡ None ∷ Some 1 ∷ Some 2 ∷ Some 3 ∷ [] }
{}

/// A whole heap that leaves the window is not counted, and one that is not whole is.
pub fn evicted_while_not_whole()
    ensures whole { report (with_window 1) 0 one_two_one
        ≡ record nothing_counted { taken = 3; undescribed = 3 } }
    ensures verdicts { packet_verdicts (with_window 2) 0 just_in_time
        ≡ Part ∷ Part ∷ Undescribed ∷ Part ∷ Part ∷ [] }
    ensures both { report (with_window 2) 0 just_in_time
        ≡ record nothing_counted { taken = 5; undescribed = 1; evicted = 1 } }
    ensures evicted { evicted_in_turn (with_window 2) just_in_time
        ≡ None ∷ None ∷ None ∷ None ∷ Some 2 ∷ [] }
    ensures later { evicted_in_turn (with_window 2) whole_then_halves
        ≡ None ∷ None ∷ None ∷ None ∷ Some 2 ∷ [] }
{}

/// Drop causes: each packet that is not kept has its own.
pub fn drop_causes()
    ensures verdicts { packet_verdicts small_plan 0 dropped_ones
        ≡ Part
        ∷ Dropped Overlap
        ∷ Dropped SizeDiffers
        ∷ Dropped PastSize
        ∷ Used 0 0
        ∷ Dropped PastLimit
        ∷ Dropped TooManyPointers
        ∷ [] }
    ensures report { report small_plan 0 dropped_ones
        ≡ record nothing_counted { taken = 7; dropped = 5; used = 1 } }
{}

/// A packet past the heap limit opens nothing, so it evicts nothing; one that its own heap drops
/// has opened it.
pub fn dropped_packet_that_opens()
    ensures past_limit { packet_verdicts (with_window 1) 0
        (between_halves (piece 2 (Some 4101) 0 (9 ∷ [])))
        ≡ Part ∷ Dropped PastLimit ∷ Undescribed ∷ [] }
    ensures opened { packet_verdicts (with_window 1) 0 (between_halves (pointed 2 100 65))
        ≡ Part ∷ Dropped TooManyPointers ∷ Part ∷ [] }
    ensures evicted { report (with_window 1) 0 (between_halves (pointed 2 100 65))
        ≡ record nothing_counted { taken = 3; dropped = 1; evicted = 2 } }
{}

/// Of the verdicts on a packet that could apply, the first counts: refused, past the limit, stale,
/// the cause by which its heap drops it.
pub fn first_packet_verdict_counts()
    ensures refused { packet_verdicts small_plan 0 (piece 1 (Some 4101) 4100 (1 ∷ 2 ∷ []) ∷ [])
        ≡ Refused PastHeap ∷ [] }
    ensures past_limit { packet_verdicts small_plan 0
        (first_packet ∷ piece 1 (Some 4101) 0 (9 ∷ []) ∷ [])
        ≡ Used 0 0 ∷ Dropped PastLimit ∷ [] }
    ensures stale { packet_verdicts small_plan 0 (first_packet ∷ piece 1 (Some 8) 0 (9 ∷ []) ∷ [])
        ≡ Used 0 0 ∷ Stale ∷ [] }
{}

/// Undescribed until described: two heaps are not readable, and the descriptors are not bad.
pub fn undescribed_until_described()
    ensures verdicts { packet_verdicts undescribed_plan 0 described_late
        ≡ Undescribed ∷ Undescribed ∷ Used 0 1 ∷ [] }
    ensures report { report undescribed_plan 0 described_late
        ≡ record nothing_counted { taken = 3; undescribed = 2; used = 1 } }
{}

/// An unreadable redescription: a bad descriptor, and the next voltage heap is used.
pub fn unreadable_redescription()
    ensures verdicts { packet_verdicts small_plan 0 redescribed ≡ Undescribed ∷ Used 0 1 ∷ [] }
    ensures report { report small_plan 0 redescribed
        ≡ record nothing_counted { taken = 2; baddesc = 1; undescribed = 1; used = 1 } }
{}

/// Two heaps at one place: the second one is not used.
pub fn two_heaps_at_one_place()
    ensures verdicts { packet_verdicts small_plan 0 two_at_one_place ≡ Used 0 0 ∷ Twice ∷ [] }
    ensures report { report small_plan 0 two_at_one_place
        ≡ record nothing_counted { taken = 2; twice = 1; used = 1 } }
{}

/// Every verdict of time, in packets.
pub fn every_verdict_of_time()
    ensures verdicts { packet_verdicts timed_plan 0 (heaps_at timed)
        ≡ BeforeStart ∷ OffGrid ∷ Wild ∷ Used 1 0 ∷ Late ∷ Beyond ∷ Late ∷ Beyond ∷ Wild ∷ [] }
    ensures report { report timed_plan 0 (heaps_at timed)
        ≡ record nothing_counted {
          taken = 9;
          before = 1;
          offgrid = 1;
          wild = 2;
          beyond = 2;
          late = 2;
          used = 1;
        } }
    ensures first { report timed_plan 0 (take 1 (heaps_at timed))
        ≡ record nothing_counted { taken = 1; before = 1 } }
    ensures three { report timed_plan 0 (take 3 (heaps_at timed))
        ≡ record nothing_counted { taken = 3; before = 1; offgrid = 1; wild = 1 } }
    ensures late { report timed_plan 0 (drop 3 (take 5 (heaps_at timed)))
        ≡ record nothing_counted { taken = 2; late = 1; used = 1 } }
{}

/// Heaps of another antenna.
pub fn heaps_of_another_antenna()
    ensures verdicts { packet_verdicts small_plan 1 both_heaps ≡ Foreign 0 ∷ Foreign 0 ∷ [] }
    ensures report { report small_plan 1 both_heaps
        ≡ record nothing_counted { taken = 2; foreign = 2 } }
{}

/// Stop in the middle: the third string is not taken, and the stop heap is counted under no
/// verdict.
pub fn stop_in_the_middle()
    ensures verdicts { packet_verdicts small_plan 0 stopped ≡ Used 0 0 ∷ Stop ∷ [] }
    ensures report { report small_plan 0 stopped ≡ record nothing_counted { taken = 2; used = 1 } }
    ensures halves { packet_verdicts small_plan 0 (stop_in_halves ++ both_heaps)
        ≡ Part ∷ Stop ∷ [] }
{}

/// The descriptors of a stop heap are read: a bad one is counted, and one after the stop is not.
pub fn bad_descriptor_of_a_stop_heap()
    ensures verdicts { packet_verdicts small_plan 0 (stop_with_descriptor 1 ∷ redescribed)
        ≡ Stop ∷ [] }
    ensures report { report small_plan 0 (stop_with_descriptor 1 ∷ redescribed)
        ≡ record nothing_counted { taken = 1; baddesc = 1 } }
{}

/// What comes after a stop heap evicts nothing.
pub fn no_eviction_after_a_stop_heap()
    ensures { report (with_window 1) 0 (half 1 ∷ stop_heap 2 ∷ half 3 ∷ half 4 ∷ [])
        ≡ record nothing_counted { taken = 2; evicted = 1 } }
{}

/// Of the strings past the packet limit none has a verdict.
pub fn strings_past_the_packet_limit()
    ensures verdicts { packet_verdicts (with_limit 1) 0 both_heaps ≡ Used 0 0 ∷ [] }
    ensures report { report (with_limit 1) 0 both_heaps
        ≡ record nothing_counted { taken = 1; used = 1 } }
{}

/// The ten refusals, and then the first packet.
pub fn ten_refusals_and_a_packet()
    ensures verdicts { packet_verdicts small_plan 0 (ten_refused ++ first_packet ∷ [])
        ≡ Refused Short
        ∷ Refused Magic
        ∷ Refused Version
        ∷ Refused Flavour
        ∷ Refused Pointers
        ∷ Refused NoCounter
        ∷ Refused NoOffset
        ∷ Refused NoLength
        ∷ Refused (Length 4 5)
        ∷ Refused PastHeap
        ∷ Used 0 0
        ∷ [] }
    ensures report { report small_plan 0 (ten_refused ++ first_packet ∷ [])
        ≡ record nothing_counted { taken = 11; refused = 10; used = 1 } }
{}
