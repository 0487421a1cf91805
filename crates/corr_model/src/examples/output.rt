//! Worked examples of the output stream, byte for byte.

ghost use Rattle.std.specs.Prelude.{◌≡◌, ℕ, List, [], ◌∷◌, length, map, replicate, Some, None};
ghost use Rattle.std.specs.List.{flat_map};
ghost use Rattle.corr_model.specs.declared.plan.Plan.{Plan};
ghost use Rattle.corr_model.specs.Packets.{last_value};
ghost use Rattle.corr_model.specs.Descriptors.{immediate, descriptor_bytes};
ghost use Rattle.corr_model.specs.Outputs.{output, packets_of, timestamp_item, visibilities_item, missing_item, head_payload, head_packets};
ghost use Rattle.corr_model.specs.Outputs.{value_payload, complex_bytes};
ghost use Rattle.corr_model.specs.Examples.{small_plan, one_heap_lost, empty_lists};
ghost use Rattle.corr_model.specs.ExamplesOutput.{head_bytes, heap_bytes, stop_bytes, timestamp_bytes, visibilities_bytes, missing_bytes};
ghost use Rattle.corr_model.specs.ExamplesCorrelation.{narrow_plan, two_accumulations, two_channels, one_to_four, first_product, spelled, cut, own_contents};

/// Two antennas, one heap lost: the output is these three datagrams.
pub fn one_heap_lost_output()
    ensures { output small_plan one_heap_lost ≡ head_bytes ∷ heap_bytes ∷ stop_bytes ∷ [] }
{}

/// They have 352, 268 and 48 bytes.
pub fn one_heap_lost_sizes()
    ensures { map length (head_bytes ∷ heap_bytes ∷ stop_bytes ∷ []) ≡ 352 ∷ 268 ∷ 48 ∷ [] }
{}

/// Empty lists: there are three packets, of the same sizes.
pub fn empty_lists_output()
    ensures { map length (output small_plan empty_lists) ≡ 352 ∷ 268 ∷ 48 ∷ [] }
{}

/// The three descriptors of that output.
pub fn output_descriptors()
    ensures timestamp { descriptor_bytes timestamp_item ≡ timestamp_bytes }
    ensures visibilities { descriptor_bytes (visibilities_item small_plan) ≡ visibilities_bytes }
    ensures missing { descriptor_bytes (missing_item small_plan) ≡ missing_bytes }
{}

/// The pointers of the descriptor heap have just these three descriptors as contents.
pub fn contents_of_the_descriptor_heap()
    ensures { map own_contents (spelled (head_packets small_plan))
        ≡ (timestamp_bytes ∷ visibilities_bytes ∷ missing_bytes ∷ []) ∷ [] }
{}

/// For every plan the descriptors have 84, 115 and 89 bytes, so they stand at 0, 84 and 199.
pub fn output_descriptor_sizes()
    ensures timestamp { length (descriptor_bytes timestamp_item) ≡ 84 }
    ensures visibilities { (plan : Plan) → length (descriptor_bytes (visibilities_item plan))
        ≡ 115 }
    ensures missing { (plan : Plan) → length (descriptor_bytes (missing_item plan)) ≡ 89 }
    ensures all { (plan : Plan) → length (head_payload plan) ≡ 288 }
{}

/// A heap is cut into pieces of the packet's bytes, the last one shorter; an empty one is one piece.
pub fn pieces_of_a_heap()
    ensures shorter_last { cut 130 ≡ (0, 64) ∷ (64, 64) ∷ (128, 2) ∷ [] }
    ensures no_empty_last { cut 128 ≡ (0, 64) ∷ (64, 64) ∷ [] }
    ensures empty { cut 0 ≡ (0, 0) ∷ [] }
{}

/// Each piece says the heap's counter and size, and has all of the heap's pointers.
pub fn pointers_of_each_piece()
    ensures size { map (λ p. p.size) (spelled (packets_of narrow_plan 2 [] (replicate 65 7)))
        ≡ Some 65 ∷ Some 65 ∷ [] }
    ensures own { map (λ p. p.pointers) (spelled (packets_of narrow_plan 2 (immediate 6 2 ∷ []) (replicate 65 7)))
        ≡ (immediate 6 2 ∷ []) ∷ (immediate 6 2 ∷ []) ∷ [] }
{}

/// Two accumulations: the heaps have counters from 1, and each its first timestamp.
pub fn output_of_two_accumulations()
    ensures counters { map (λ p. p.counter) (spelled (output two_accumulations empty_lists))
        ≡ 1 ∷ 2 ∷ 3 ∷ 4 ∷ [] }
    ensures timestamps { map (λ p. last_value 0x1600 p.pointers) (spelled (output two_accumulations empty_lists))
        ≡ None ∷ Some 100 ∷ Some 108 ∷ None ∷ [] }
{}

/// The values stand by channel, baseline and product.
pub fn order_of_values()
    ensures { value_payload two_channels one_to_four 0
        ≡ flat_map complex_bytes (flat_map first_product (1 ∷ 3 ∷ 9 ∷ 4 ∷ 8 ∷ 16 ∷ [])) }
{}
