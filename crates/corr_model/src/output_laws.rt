//! Laws of the output stream: the lengths of its parts, the order of its baselines and the heaps it is made of.

ghost use Rattle.std.specs.Prelude.{◌≡◌, ◌+◌, ◌*◌, ◌^◌, ◌<◌, ◌≤◌, ◌++◌, ℕ, ℤ, List, All, length, slice_get, flat_map, option_map};
ghost use Rattle.corr_model.specs.declared.plan.Plan.{Plan};
ghost use Rattle.corr_model.specs.declared.pointer.Pointer.{Pointer};
ghost use Rattle.corr_model.specs.Plans.{Fits, baseline_count, baselines, value_bytes, visibility_bytes};
ghost use Rattle.corr_model.specs.Packets.{packet_in};
ghost use Rattle.corr_model.specs.Baselines.{baseline_number};
ghost use Rattle.corr_model.specs.Visibilities.{Complex, Lists};
ghost use Rattle.corr_model.specs.Outputs.{signed_bytes, complex_bytes, pairs, value_payload, missing_payload, head_payload};
ghost use Rattle.corr_model.specs.Outputs.{heap_packet, head_packets, heap_packets, stop_packets, output};

/// A part of a visibility is eight bytes, and a visibility is sixteen.
pub fn lengths_of_values()
    ensures part { (z : ℤ) → length (signed_bytes z) ≡ 8 }
    ensures whole { (x : Complex) → length (complex_bytes x) ≡ 16 }
{}

/// The pairs of antennas, the lesser first, stand in the order of their baselines' numbers: one for each baseline.
#[tactic(auto, using(crate::proofs::OutputLaws::pairs_length, crate::proofs::OutputLaws::pair_at_baseline))]
pub fn pairs_in_baseline_order()
    ensures count { (antennas : ℕ) → length (pairs antennas) ≡ baseline_count antennas }
    ensures at { (antennas i j : ℕ) → i ≤ j → j < antennas
        → slice_get (pairs antennas) (baseline_number i j) ≡ Some (i, j) }
{}

/// The payload of a visibility heap has 64 bytes for each channel and baseline, and then 4 for each baseline. That of
/// the descriptor heap has 288.
#[tactic(auto, using(crate::proofs::OutputLaws::value_payload_length, crate::proofs::OutputLaws::missing_payload_length, crate::proofs::OutputLaws::heap_payload_length))]
pub fn lengths_of_payloads()
    ensures values { (plan : Plan) (lists : Lists) (n : ℕ) → length (value_payload plan lists n) ≡ value_bytes plan }
    ensures missing { (plan : Plan) (lists : Lists) (n : ℕ)
        → length (missing_payload plan lists n) ≡ 4 * baselines plan }
    ensures whole { (plan : Plan) (lists : Lists) (n : ℕ)
        → length (value_payload plan lists n ++ missing_payload plan lists n) ≡ visibility_bytes plan }
    ensures head { (plan : Plan) → length (head_payload plan) ≡ 288 }
{}

/// A packet that is written with at most 60 pointers of its heap is read back as it was meant.
pub fn written_packet_is_read_back()
    ensures { (counter size offset : ℕ) (own : List Pointer) (payload : List ℕ)
        → counter < 2 ^ 48 → size < 2 ^ 48 → offset + length payload ≤ size → length own ≤ 60
        → All (λ p. (5 ≤ p.id) × (p.id < 2 ^ 15) × (p.value < 2 ^ 48)) own
        → packet_in (heap_packet counter size own offset payload)
        ≡ Some (record { counter = counter; size = Some size; offset = offset; pointers = own; payload = payload }) }
{}

/// The output is the descriptor heap, one visibility heap for each accumulation in order, and the stop heap.
pub fn a_heap_for_each_accumulation()
    ensures { (plan : Plan) (lists : Lists)
        → (heaps : List (List (List ℕ)))
        × (length heaps ≡ plan.accumulations)
        × ((n : ℕ) → n < plan.accumulations → slice_get heaps n ≡ Some (heap_packets plan lists n))
        × (output plan lists ≡ head_packets plan ++ (flat_map (λ heap. heap) heaps ++ stop_packets plan)) }
{}

/// Each packet of the output spells the counter of its heap: 1 for the descriptors, then one more for each
/// accumulation, and one more for the stop.
pub fn counters_in_order()
    ensures head { (plan : Plan) → Fits plan
        → All (λ bytes. option_map (λ p. p.counter) (packet_in bytes) ≡ Some 1) (head_packets plan) }
    ensures heaps { (plan : Plan) (lists : Lists) (n : ℕ) → Fits plan → n < plan.accumulations
        → All (λ bytes. option_map (λ p. p.counter) (packet_in bytes) ≡ Some (n + 2)) (heap_packets plan lists n) }
    ensures stop { (plan : Plan) → Fits plan
        → All (λ bytes. option_map (λ p. p.counter) (packet_in bytes) ≡ Some (plan.accumulations + 2))
        (stop_packets plan) }
{}

/// The output does not depend on how many slots and workers a run has.
pub fn slots_and_workers_change_nothing()
    ensures { (plan : Plan) (lists : Lists) (k w : ℕ)
        → output (record plan { slots = k; workers = w }) lists ≡ output plan lists }
{}
