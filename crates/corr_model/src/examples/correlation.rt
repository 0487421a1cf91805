//! Worked examples of visibilities and missing counts.

ghost use Rattle.std.specs.Prelude.{◌≡◌, ℕ, ◌*◌, ◌+◌, pos, neg_ℤ, List, [], ◌∷◌, map, replicate, Some, None};
ghost use Rattle.corr_model.specs.Baselines.{baseline_number};
ghost use Rattle.corr_model.specs.Lists.{numbers};
ghost use Rattle.corr_model.specs.Plans.{reserved};
ghost use Rattle.corr_model.specs.Visibilities.{sample, signed, of_cells, missing, missing_of, none_yet, part};
ghost use Rattle.corr_model.specs.Outputs.{pairs, products};
ghost use Rattle.corr_model.specs.Examples.{small_plan, trial_plan, large_plan, one_heap_lost, empty_lists};
ghost use Rattle.corr_model.specs.Examples.{complex, values_of};
ghost use Rattle.corr_model.specs.ExamplesCorrelation.{full_column, full_product, wide_plan, counted_samples, other_heap_lost, two_channels};

/// Two antennas, one heap lost: the four products of each baseline.
pub fn one_heap_lost_values()
    ensures first { values_of small_plan one_heap_lost 0 0
        ≡ complex (pos 6) (pos 0)
        ∷ complex (pos 3) (pos 7)
        ∷ complex (pos 3) (neg_ℤ (pos 7))
        ∷ complex (pos 10) (pos 0)
        ∷ [] }
    ensures cross { values_of small_plan one_heap_lost 0 1
        ≡ complex (pos 2) (neg_ℤ (pos 1))
        ∷ complex (pos 0) (pos 5)
        ∷ complex (pos 0) (neg_ℤ (pos 3))
        ∷ complex (pos 6) (pos 3)
        ∷ [] }
    ensures second { values_of small_plan one_heap_lost 1 1
        ≡ complex (pos 1) (pos 0)
        ∷ complex (neg_ℤ (pos 1)) (pos 2)
        ∷ complex (neg_ℤ (pos 1)) (neg_ℤ (pos 2))
        ∷ complex (pos 5) (pos 0)
        ∷ [] }
{}

/// Two antennas, one heap lost: each baseline with antenna 1 misses one timestamp.
pub fn one_heap_lost_missing()
    ensures { map (λ ij. missing small_plan one_heap_lost 0 ij.0 ij.1) (pairs 2) ≡ 0 ∷ 1 ∷ 1 ∷ [] }
{}

/// Two antennas, and the heap at 1 of antenna 0 is lost: its baselines miss one timestamp, and the
/// value of the two antennas is as where antenna 1 lost that heap.
pub fn other_heap_lost_values()
    ensures missing { map (λ ij. missing small_plan other_heap_lost 0 ij.0 ij.1) (pairs 2) ≡ 1 ∷ 1 ∷ 0 ∷ [] }
    ensures cross { values_of small_plan other_heap_lost 0 1
        ≡ complex (pos 2) (neg_ℤ (pos 1))
        ∷ complex (pos 0) (pos 5)
        ∷ complex (pos 0) (neg_ℤ (pos 3))
        ∷ complex (pos 6) (pos 3)
        ∷ [] }
{}

/// Two antennas, one heap lost: a part of the timestamps, for product 00 of antenna 0.
pub fn one_heap_lost_parts()
    ensures first { part small_plan one_heap_lost 0 0 0 0 0 0 0 1 ≡ complex (pos 5) (pos 0) }
    ensures second { part small_plan one_heap_lost 0 0 0 0 0 0 1 2 ≡ complex (pos 1) (pos 0) }
    ensures empty { part small_plan one_heap_lost 0 0 0 0 0 0 1 1 ≡ none_yet }
{}

/// Empty lists: all sums are 0, and both timestamps are missing on every baseline.
pub fn empty_lists_values()
    ensures values { map (λ ij. values_of small_plan empty_lists ij.0 ij.1) (pairs 2)
        ≡ replicate 3 (replicate 4 none_yet) }
    ensures missing { map (λ ij. missing small_plan empty_lists 0 ij.0 ij.1) (pairs 2) ≡ 2 ∷ 2 ∷ 2 ∷ [] }
{}

/// Full-scale samples: with every part −128 at each of 4,096 timestamps each product is 2^27.
pub fn full_scale_values()
    ensures values { map (λ pq. full_product pq.0 pq.1) products
        ≡ replicate 4 (complex (pos 134217728) (pos 0)) }
    ensures missing { missing_of full_column full_column ≡ 0 }
{}

/// The samples of a heap stand by channel, spectrum and polarisation.
pub fn order_of_samples()
    ensures first { sample wide_plan counted_samples 0 0 0 ≡ complex (pos 1) (pos 2) }
    ensures polarisation { sample wide_plan counted_samples 0 0 1 ≡ complex (pos 3) (pos 4) }
    ensures spectrum { sample wide_plan counted_samples 0 1 0 ≡ complex (pos 5) (pos 6) }
    ensures channel { sample wide_plan counted_samples 1 0 0 ≡ complex (pos 9) (pos 10) }
    ensures last { sample wide_plan counted_samples 1 1 1 ≡ complex (pos 15) (pos 16) }
    ensures one_channel { sample two_channels counted_samples 1 0 0 ≡ complex (pos 5) (pos 6) }
{}

/// A product is summed over the spectra of its channel: (9 + 10i)(11 − 12i) + (13 + 14i)(15 − 16i).
pub fn sum_over_spectra()
    ensures both { of_cells wide_plan 1 0 1 (Some counted_samples) (Some counted_samples)
        ≡ complex (pos 638) (pos 4) }
    ensures one_alone { of_cells wide_plan 1 0 1 (Some counted_samples) None ≡ none_yet }
    ensures other_alone { of_cells wide_plan 1 0 1 None (Some counted_samples) ≡ none_yet }
{}

/// A byte is a number in two's complement: up to 127 itself, from 128 on less 256.
pub fn bytes_as_signed_numbers()
    ensures { map signed (0 ∷ 1 ∷ 127 ∷ 128 ∷ 255 ∷ [])
        ≡ pos 0 ∷ pos 1 ∷ pos 127 ∷ neg_ℤ (pos 128) ∷ neg_ℤ (pos 1) ∷ [] }
{}

/// The pairs of four antennas stand in the order of their baseline numbers.
pub fn pairs_of_four_antennas()
    ensures { map (λ ij. baseline_number ij.0 ij.1) (pairs 4) ≡ numbers 0 10 }
{}

/// The product of polarisations p and q stands at place 2p + q.
pub fn places_of_products()
    ensures { map (λ pq. 2 * pq.0 + pq.1) products ≡ 0 ∷ 1 ∷ 2 ∷ 3 ∷ [] }
{}

/// The bytes that plans reserve: a small one without workers, which counts as with one; the same
/// with four slots, and with two workers as well; that of the simulated trial; one that is too large.
pub fn reserved_bytes()
    ensures small { reserved small_plan ≡ 74520 }
    ensures one_worker { reserved (record small_plan { workers = 1 }) ≡ 74520 }
    ensures four_slots { reserved (record small_plan { slots = 4 }) ≡ 75192 }
    ensures two_workers { reserved (record small_plan { slots = 4; workers = 2 }) ≡ 75416 }
    ensures trial { reserved trial_plan ≡ 202168680 }
    ensures too_large { reserved large_plan ≡ 1343559436 }
{}
