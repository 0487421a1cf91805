//! Worked examples of kept packets, causes of drops and whole heaps.

ghost use Rattle.std.specs.Prelude.{◌≡◌, ℕ, pos, neg_ℤ, List, [], ◌∷◌, map, take, replicate, Some, None};
ghost use Rattle.corr_model.specs.declared.heap.DropCause.TheVariants.{SizeDiffers, PastSize, Overlap, TooManyPointers};
ghost use Rattle.corr_model.specs.declared.verdict.Verdict.TheVariants.{Used};
ghost use Rattle.corr_model.specs.Descriptors.{immediate, addressed};
ghost use Rattle.corr_model.specs.Windows.{heard, placed_in};
ghost use Rattle.corr_model.specs.Assembly.{After, standing};
ghost use Rattle.corr_model.specs.Streams.{whole_in};
ghost use Rattle.corr_model.specs.Visibilities.{missing, none_yet};
ghost use Rattle.corr_model.specs.Outputs.{output, pairs};
ghost use Rattle.corr_model.specs.Examples.{small_plan, voltage_pointers, first_samples, second_samples};
ghost use Rattle.corr_model.specs.Examples.{verdicts, complex, values_of};
ghost use Rattle.corr_model.specs.ExamplesOutput.{head_bytes, heap_bytes, stop_bytes};
ghost use Rattle.corr_model.specs.ExamplesWindows.{piece, pointed, half, other_half};
ghost use Rattle.corr_model.specs.ExamplesWindows.{opened_counters, member_payloads, causes, kept_payloads, whole_counters, whole_payloads};
ghost use Rattle.corr_model.specs.ExamplesWindows.{reversed_pieces, reversed_alone, repeated, repeated_lost, dropped_ones};
ghost use Rattle.corr_model.specs.ExamplesWindows.{sized_late, sized_between, overlapping, shared_pointers};

/// Pieces in reverse order: all are kept, and the heap is whole at the last, which says its size.
pub fn pieces_in_reverse_order()
    ensures kept { causes reversed_pieces ≡ None ∷ None ∷ None ∷ None ∷ [] }
    ensures before { whole_in small_plan (take 3 reversed_pieces) ≡ [] }
    ensures whole { whole_in small_plan reversed_pieces
        ≡ record { counter = 1; pointers = voltage_pointers 0 0; payload = first_samples } ∷ [] }
    ensures used { verdicts small_plan 0 reversed_pieces ≡ Used 0 0 ∷ [] }
{}

/// Pieces in reverse order, and nothing of antenna 1: values and missing counts.
pub fn pieces_in_reverse_order_values()
    ensures first { values_of small_plan reversed_alone 0 0
        ≡ complex (pos 5) (pos 0)
        ∷ complex (pos 3) (pos 6)
        ∷ complex (pos 3) (neg_ℤ (pos 6))
        ∷ complex (pos 9) (pos 0)
        ∷ [] }
    ensures cross { values_of small_plan reversed_alone 0 1 ≡ replicate 4 none_yet }
    ensures second { values_of small_plan reversed_alone 1 1 ≡ replicate 4 none_yet }
    ensures missing { map (λ ij. missing small_plan reversed_alone 0 ij.0 ij.1) (pairs 2) ≡ 1 ∷ 2 ∷ 2 ∷ [] }
{}

/// A repeated packet: it opens nothing and comes after its heap was whole.
pub fn repeated_packet()
    ensures opened { opened_counters small_plan repeated ≡ 1 ∷ 2 ∷ [] }
    ensures members { member_payloads small_plan repeated
        ≡ (first_samples ∷ first_samples ∷ []) ∷ (second_samples ∷ []) ∷ [] }
    ensures after { standing (placed_in small_plan (take 2 repeated)) ≡ After }
    ensures whole { whole_counters small_plan repeated ≡ 1 ∷ 2 ∷ [] }
    ensures used { verdicts small_plan 0 repeated ≡ Used 0 0 ∷ Used 0 1 ∷ [] }
{}

/// A repeated packet leaves the output as it is without it.
pub fn repeated_packet_output()
    ensures { output small_plan repeated_lost ≡ head_bytes ∷ heap_bytes ∷ stop_bytes ∷ [] }
{}

/// Drop causes: of the heap of size 4 the first and the last packet are kept and make it whole; a
/// packet that says a size past the heap limit opens nothing; one with 65 pointers opens a heap.
pub fn drop_causes()
    ensures opened { opened_counters small_plan dropped_ones ≡ 1 ∷ 3 ∷ [] }
    ensures causes { causes dropped_ones
        ≡ None ∷ Some Overlap ∷ Some SizeDiffers ∷ Some PastSize ∷ None ∷ Some TooManyPointers ∷ [] }
    ensures kept { kept_payloads dropped_ones ≡ (1 ∷ 2 ∷ []) ∷ (3 ∷ 0 ∷ []) ∷ [] }
    ensures whole { whole_in small_plan dropped_ones
        ≡ record { counter = 1; pointers = voltage_pointers 0 0; payload = first_samples } ∷ [] }
    ensures used { verdicts small_plan 0 dropped_ones ≡ Used 0 0 ∷ [] }
{}

/// A packet that says a size of one more than the heap limit is not heard.
pub fn packet_past_the_heap_limit()
    ensures { heard small_plan (piece 2 (Some 4101) 0 (9 ∷ []) ∷ []) ≡ [] }
{}

/// Where several causes apply, the first in their order is the cause.
pub fn first_cause_counts()
    ensures size { causes (half 1 ∷ piece 1 (Some 8) 0 (1 ∷ 2 ∷ 3 ∷ 4 ∷ 5 ∷ []) ∷ [])
        ≡ None ∷ Some SizeDiffers ∷ [] }
    ensures end { causes (half 1 ∷ piece 1 None 1 (1 ∷ 2 ∷ 3 ∷ 4 ∷ []) ∷ []) ≡ None ∷ Some PastSize ∷ [] }
    ensures overlap { causes (half 1 ∷ overlapping ∷ []) ≡ None ∷ Some Overlap ∷ [] }
    ensures lesser_size { causes (half 1 ∷ piece 1 (Some 3) 2 [] ∷ []) ≡ None ∷ Some SizeDiffers ∷ [] }
{}

/// Where a kept packet's end is past the size that a later one says, the later one is dropped.
pub fn end_past_a_later_size()
    ensures past { causes (sized_late 5) ≡ None ∷ Some PastSize ∷ [] }
    ensures equal { causes (sized_late 6) ≡ None ∷ None ∷ [] }
    ensures whole { whole_payloads (sized_late 6) ≡ (5 ∷ 6 ∷ 1 ∷ 2 ∷ 3 ∷ 4 ∷ []) ∷ [] }
{}

/// The size that a dropped packet says is not known to its heap.
pub fn size_of_a_dropped_packet()
    ensures dropped { causes (sized_between 1) ≡ None ∷ Some Overlap ∷ None ∷ [] }
    ensures unknown { whole_counters small_plan (sized_between 1) ≡ [] }
    ensures known { whole_counters small_plan (sized_between 2) ≡ 1 ∷ [] }
{}

/// A packet without payload is kept inside a kept range, and at an offset equal to the size; past
/// the size it is dropped.
pub fn packet_without_payload()
    ensures inside { causes (half 1 ∷ piece 1 None 1 [] ∷ []) ≡ None ∷ None ∷ [] }
    ensures at_the_size { causes (half 1 ∷ piece 1 None 4 [] ∷ []) ≡ None ∷ None ∷ [] }
    ensures past_the_size { causes (half 1 ∷ piece 1 None 5 [] ∷ []) ≡ None ∷ Some PastSize ∷ [] }
{}

/// Neighbours share no byte, and packets that share one byte overlap.
pub fn neighbours_do_not_overlap()
    ensures after { causes (half 1 ∷ other_half 1 ∷ []) ≡ None ∷ None ∷ [] }
    ensures before { causes (other_half 1 ∷ half 1 ∷ []) ≡ None ∷ None ∷ [] }
    ensures last_byte { causes (half 1 ∷ piece 1 None 1 (2 ∷ []) ∷ []) ≡ None ∷ Some Overlap ∷ [] }
    ensures first_byte { causes (half 1 ∷ piece 1 None 0 (1 ∷ []) ∷ []) ≡ None ∷ Some Overlap ∷ [] }
{}

/// A heap keeps exactly 64 distinct pointers, said in one packet or in several, and no 65th.
pub fn sixty_four_pointers()
    ensures one_packet { causes (pointed 1 100 64 ∷ []) ≡ None ∷ [] }
    ensures one_more { causes (pointed 1 100 65 ∷ []) ≡ Some TooManyPointers ∷ [] }
    ensures two_packets { causes (pointed 1 100 60 ∷ pointed 1 160 4 ∷ pointed 1 164 1 ∷ [])
        ≡ None ∷ None ∷ Some TooManyPointers ∷ [] }
    ensures said_before { causes (pointed 1 100 64 ∷ pointed 1 120 10 ∷ []) ≡ None ∷ None ∷ [] }
{}

/// A whole heap has each pointer once, in the order of first standing; two that differ in mode, id
/// or value are two.
pub fn distinct_pointers_of_a_heap()
    ensures { map (λ heap. heap.pointers) (whole_in small_plan shared_pointers)
        ≡ (immediate 10 1 ∷ addressed 10 1 ∷ immediate 10 2 ∷ immediate 11 1 ∷ []) ∷ [] }
{}

/// A heap of size 0 is whole at its first packet.
pub fn empty_heap()
    ensures { whole_in small_plan (piece 7 (Some 0) 0 [] ∷ [])
        ≡ record { counter = 7; pointers = []; payload = [] } ∷ [] }
{}
