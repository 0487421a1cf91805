//! Worked examples of what a reader answers.

ghost use Rattle.std.specs.Prelude.{◌≡◌, ◌++◌, ◌∷◌, [], length, take, drop, pos, negsuc, map, replicate, Some, None};
ghost use Rattle.corr_model.specs.Examples.{small_plan, one_heap_lost};
ghost use Rattle.corr_model.specs.ExamplesOutput.{head_bytes, heap_bytes, stop_bytes};
ghost use Rattle.corr_model.specs.Outputs.{output};
ghost use Rattle.corr_model.specs.declared.pointer.Refusal.TheVariants.{Short, Magic};
ghost use Rattle.corr_model.specs.declared.item.DescRefusal.TheVariants as descriptors;
ghost use Rattle.corr_model.specs.declared.heap.DropCause.TheVariants.{PastLimit, Overlap};
ghost use Rattle.vis_read.specs.declared.cause.ReadCause.TheVariants as causes;
ghost use Rattle.vis_read.specs.Readings.{Nothing, Head, Heap, Stop, Refused, seen, reading, value_at, missing_at, end_cause};
ghost use Rattle.vis_read.specs.Examples.{whole_output, small_sizes, small_view, narrow_output, with_byte, first_piece, second_piece};

/// The output of 'two antennas, one heap lost' gives the head, the one visibility heap and the stop.
pub fn one_heap_lost_read_back()
    ensures answers { seen 1024 (output small_plan one_heap_lost)
        ≡ Head small_sizes ∷ Heap small_view ∷ Stop ∷ [] }
    ensures ended { end_cause (reading 1024 (output small_plan one_heap_lost)).turn ≡ None }
{}

/// Without the last datagram the answers are as before, and the stop is not there.
pub fn without_the_last_datagram()
    ensures answers { seen 1024 (head_bytes ∷ heap_bytes ∷ [])
        ≡ Head small_sizes ∷ Heap small_view ∷ [] }
    ensures ended { end_cause (reading 1024 (head_bytes ∷ heap_bytes ∷ [])).turn
        ≡ Some causes.NoStop }
{}

/// In pieces of 64 bytes the answers are the same but for more of Nothing.
pub fn in_pieces_of_64_bytes()
    ensures answers { seen 1024 narrow_output
        ≡ replicate 4 Nothing ++ Head small_sizes ∷ replicate 3 Nothing ++ Heap small_view ∷ Stop ∷ [] }
    ensures ended { end_cause (reading 1024 narrow_output).turn ≡ None }
{}

/// The three baselines.
pub fn three_baselines()
    ensures first { map (value_at small_view 0 0) (0 ∷ 1 ∷ 2 ∷ 3 ∷ []) ≡
        record { real = pos 6; imaginary = pos 0 } ∷ record { real = pos 3; imaginary = pos 7 }
        ∷ record { real = pos 3; imaginary = negsuc 6 } ∷ record { real = pos 10; imaginary = pos 0 } ∷ [] }
    ensures second { map (value_at small_view 0 1) (0 ∷ 1 ∷ 2 ∷ 3 ∷ []) ≡
        record { real = pos 2; imaginary = negsuc 0 } ∷ record { real = pos 0; imaginary = pos 5 }
        ∷ record { real = pos 0; imaginary = negsuc 2 } ∷ record { real = pos 6; imaginary = pos 3 } ∷ [] }
    ensures third { map (value_at small_view 0 2) (0 ∷ 1 ∷ 2 ∷ 3 ∷ []) ≡
        record { real = pos 1; imaginary = pos 0 } ∷ record { real = negsuc 0; imaginary = pos 2 }
        ∷ record { real = negsuc 0; imaginary = negsuc 1 } ∷ record { real = pos 5; imaginary = pos 0 } ∷ [] }
    ensures missing { map (missing_at small_view) (0 ∷ 1 ∷ 2 ∷ []) ≡ 0 ∷ 1 ∷ 1 ∷ [] }
{}

/// Each cause, at the first datagram that it applies to, and again at each later one.
pub fn each_cause()
    ensures packet { seen 1024 ((1 ∷ []) ∷ whole_output)
        ≡ replicate 4 (Refused (causes.Packet Short)) }
    ensures after_stop { drop 3 (seen 1024 (whole_output ++ stop_bytes ∷ head_bytes ∷ []))
        ≡ replicate 2 (Refused causes.AfterStop) }
    ensures unfinished { seen 1024 (first_piece ∷ stop_bytes ∷ [])
        ≡ Nothing ∷ Refused (causes.Unfinished 1) ∷ [] }
    ensures interleaved { seen 1024 (first_piece ∷ heap_bytes ∷ second_piece ∷ [])
        ≡ Nothing ∷ replicate 2 (Refused (causes.Unfinished 1)) }
    ensures past_limit { seen 287 whole_output ≡ replicate 3 (Refused (causes.Dropped PastLimit)) }
    ensures dropped { seen 288 (first_piece ∷ first_piece ∷ second_piece ∷ [])
        ≡ Nothing ∷ replicate 2 (Refused (causes.Dropped Overlap)) }
    ensures descriptor { seen 1024 (with_byte 64 0 head_bytes ∷ heap_bytes ∷ [])
        ≡ replicate 2 (Refused (causes.Descriptor (descriptors.Packet Magic))) }
    ensures form_of_the_first { seen 1024 (heap_bytes ∷ []) ≡ Refused (causes.Form 2) ∷ [] }
    ensures form_of_its_turn { seen 1024 (head_bytes ∷ stop_bytes ∷ [])
        ≡ Head small_sizes ∷ Refused (causes.Form 3) ∷ [] }
    ensures form_of_a_repeat { seen 1024 (head_bytes ∷ head_bytes ∷ heap_bytes ∷ [])
        ≡ Head small_sizes ∷ replicate 2 (Refused (causes.Form 1)) }
    ensures form_without_counts { seen 1024 (head_bytes ∷ with_byte 57 2 heap_bytes ∷ [])
        ≡ Head small_sizes ∷ Refused (causes.Form 2) ∷ [] }
    ensures form_of_other_lengths { seen 1024 (head_bytes ∷ with_byte 63 191 heap_bytes ∷ [])
        ≡ Head small_sizes ∷ Refused (causes.Form 2) ∷ [] }
{}

/// Where two causes apply the first counts.
pub fn first_cause_first()
    ensures packet_before_stop { drop 3 (seen 1024 (whole_output ++ (1 ∷ []) ∷ stop_bytes ∷ []))
        ≡ replicate 2 (Refused (causes.Packet Short)) }
    ensures packet_before_unfinished { drop 1 (seen 1024 (first_piece ∷ (1 ∷ []) ∷ []))
        ≡ Refused (causes.Packet Short) ∷ [] }
    ensures unfinished_before_dropped { drop 1 (seen 288 (first_piece ∷ with_byte 20 1 heap_bytes ∷ []))
        ≡ Refused (causes.Unfinished 1) ∷ [] }
    ensures descriptor_before_form { seen 1024 (with_byte 15 2 (with_byte 64 0 head_bytes) ∷ [])
        ≡ Refused (causes.Descriptor (descriptors.Packet Magic)) ∷ [] }
    ensures ended { end_cause (reading 1024 (first_piece ∷ stop_bytes ∷ [])).turn
        ≡ Some (causes.Unfinished 1) }
{}
