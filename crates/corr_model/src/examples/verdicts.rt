//! Worked examples of the verdicts of heaps.

ghost use Rattle.std.specs.Prelude.{◌≡◌, ℕ, ◌^◌, ◌-◌, false, List, [], ◌∷◌, ◌++◌, take, Some, None};
ghost use Rattle.corr_model.specs.declared.verdict.Verdict.TheVariants.{Undescribed, Foreign, BeforeStart, OffGrid, Wild, Beyond, Late, Twice, Used};
ghost use Rattle.corr_model.specs.Descriptors.{immediate, addressed};
ghost use Rattle.corr_model.specs.Streams.{above_top, cell, column, floor, heaps};
ghost use Rattle.corr_model.specs.Examples.{small_plan, voltage_heap, voltage_pointers, both_heaps, first_samples, second_samples, verdicts};
ghost use Rattle.corr_model.specs.Tables.{scalar, voltages};
ghost use Rattle.corr_model.specs.ExamplesVerdicts.{undescribed_plan, described_late, self_described, with_lag, heaps_at, two_at_one_place, timed_plan, timed, guarded_plan, late_in_time, own_first, other_first, immediate_voltages};
ghost use Rattle.corr_model.specs.ExamplesVerdicts.{described_as, signed_scalar, odd_plan, immediate_first};
ghost use Rattle.corr_model.specs.ExamplesDescriptors.{wider_then_own};

/// Undescribed until described: only the heap after the three descriptors is used.
pub fn undescribed_until_described()
    ensures verdicts { verdicts undescribed_plan 0 described_late
        ≡ Undescribed ∷ Undescribed ∷ Used 0 1 ∷ [] }
    ensures cells { column undescribed_plan 0 described_late 0 ≡ None ∷ Some second_samples ∷ [] }
    ensures preset { verdicts small_plan 0 described_late ≡ Used 0 0 ∷ Undescribed ∷ Used 0 1 ∷ [] }
{}

/// The descriptors of a heap count for it: one that brings its own is used.
pub fn described_in_the_same_heap()
    ensures { verdicts undescribed_plan 0 (self_described ∷ []) ≡ Used 0 0 ∷ [] }
{}

/// A heap's own descriptors come after those of the earlier heaps: after voltages of two channels,
/// a heap that brings the right description with its samples is used.
pub fn own_descriptors_come_last()
    ensures { verdicts small_plan 0 wider_then_own ≡ Undescribed ∷ Used 0 0 ∷ [] }
{}

/// Timestamp, antenna and voltages need a description each, and the numbers an unsigned one.
pub fn all_three_are_described()
    ensures all { verdicts undescribed_plan 0 (described_as (scalar 0x1600 ∷ scalar 0x4101 ∷ voltages small_plan ∷ []))
        ≡ Undescribed ∷ Used 0 0 ∷ [] }
    ensures voltages_alone { verdicts undescribed_plan 0 (described_as (voltages small_plan ∷ []))
        ≡ Undescribed ∷ Undescribed ∷ [] }
    ensures no_timestamp { verdicts undescribed_plan 0 (described_as (scalar 0x4101 ∷ voltages small_plan ∷ []))
        ≡ Undescribed ∷ Undescribed ∷ [] }
    ensures no_antenna { verdicts undescribed_plan 0 (described_as (scalar 0x1600 ∷ voltages small_plan ∷ []))
        ≡ Undescribed ∷ Undescribed ∷ [] }
    ensures no_voltages { verdicts undescribed_plan 0 (described_as (scalar 0x1600 ∷ scalar 0x4101 ∷ []))
        ≡ Undescribed ∷ Undescribed ∷ [] }
    ensures signed_timestamp { verdicts undescribed_plan 0
        (described_as (signed_scalar 0x1600 ∷ scalar 0x4101 ∷ voltages small_plan ∷ []))
        ≡ Undescribed ∷ Undescribed ∷ [] }
{}

/// The grid counts from the start: from 101 in steps of 4 there are 101, 105 and 109, and neither
/// 104, which is a multiple of 4, nor 106.
pub fn grid_from_an_odd_start()
    ensures { verdicts odd_plan 0 (heaps_at (100 ∷ 101 ∷ 104 ∷ 105 ∷ 106 ∷ 109 ∷ []))
        ≡ BeforeStart ∷ Used 0 0 ∷ OffGrid ∷ Used 0 1 ∷ OffGrid ∷ Used 1 0 ∷ [] }
{}

/// Lag one: a heap at timestamp 2 closes the first accumulation.
pub fn lag_one()
    ensures verdicts { verdicts (with_lag 1) 0 (heaps_at (2 ∷ 1 ∷ [])) ≡ Used 1 0 ∷ Late ∷ [] }
    ensures floor { floor (with_lag 1) 0 (heaps_at (2 ∷ [])) false ≡ 1 }
    ensures cell { cell (with_lag 1) 0 (heaps_at (2 ∷ 1 ∷ [])) 0 1 ≡ None }
{}

/// Lag two: it stays open, and a heap in it is used.
pub fn lag_two()
    ensures verdicts { verdicts (with_lag 2) 0 (heaps_at (2 ∷ 1 ∷ [])) ≡ Used 1 0 ∷ Used 0 1 ∷ [] }
    ensures floor { floor (with_lag 2) 0 (heaps_at (2 ∷ [])) false ≡ 0 }
    ensures cell { cell (with_lag 2) 0 (heaps_at (2 ∷ 1 ∷ [])) 0 1 ≡ Some first_samples }
{}

/// Two heaps at one place: the first one's samples count.
pub fn two_heaps_at_one_place()
    ensures verdicts { verdicts small_plan 0 two_at_one_place ≡ Used 0 0 ∷ Twice ∷ [] }
    ensures cells { column small_plan 0 two_at_one_place 0 ≡ Some first_samples ∷ None ∷ [] }
{}

/// Every verdict of time, in a plan with start 100, step 4, two accumulations and a guard of 2.
pub fn every_verdict_of_time()
    ensures verdicts { verdicts timed_plan 0 (heaps_at timed)
        ≡ BeforeStart ∷ OffGrid ∷ Wild ∷ Used 1 0 ∷ Late ∷ Beyond ∷ Late ∷ Beyond ∷ Wild ∷ [] }
    ensures floor_at_first { floor timed_plan 0 (take 3 (heaps_at timed)) false ≡ 0 }
    ensures floor_then { floor timed_plan 0 (take 4 (heaps_at timed)) false ≡ 1 }
    ensures floor_at_last { floor timed_plan 0 (heaps_at timed) false ≡ 2 }
{}

/// A heap that says another antenna's number is not used, and raises no floor.
pub fn heap_of_another_antenna()
    ensures verdicts { verdicts small_plan 1 both_heaps ≡ Foreign 0 ∷ Foreign 0 ∷ [] }
    ensures floor { floor small_plan 1 both_heaps false ≡ 0 }
    ensures far { verdicts (with_lag 1) 0 (voltage_heap 1 1 2 first_samples ∷ voltage_heap 2 0 0 first_samples ∷ [])
        ≡ Foreign 1 ∷ Used 0 0 ∷ [] }
{}

/// With no guard a heap may be as far ahead as it likes; with a guard of 1 it is next or none.
pub fn guard_of_none_and_of_one()
    ensures none { verdicts (guarded_plan 0) 0 (heaps_at (1000000 ∷ [])) ≡ Used 1000000 0 ∷ [] }
    ensures first { verdicts (guarded_plan 1) 0 (heaps_at (1 ∷ 0 ∷ 1 ∷ 3 ∷ 2 ∷ []))
        ≡ Wild ∷ Used 0 0 ∷ Used 1 0 ∷ Wild ∷ Used 2 0 ∷ [] }
{}

/// A timestamp of eight bytes may be 2^64 − 1; one of nine is no number.
pub fn timestamp_of_eight_bytes()
    ensures eight { verdicts (guarded_plan 0) 0 (late_in_time 8 ∷ []) ≡ Beyond ∷ [] }
    ensures top { above_top (guarded_plan 0) (heaps (guarded_plan 0) 0 (late_in_time 8 ∷ []))
        ≡ 2 ^ 64 }
    ensures floor { floor (guarded_plan 0) 0 (late_in_time 8 ∷ []) false ≡ 1048576 }
    ensures guarded { verdicts (guarded_plan (2 ^ 48 - 1)) 0 (late_in_time 8 ∷ []) ≡ Wild ∷ [] }
    ensures nine { verdicts (guarded_plan 0) 0 (late_in_time 9 ∷ []) ≡ Undescribed ∷ [] }
{}

/// Of two pointers of one id the first is the item.
pub fn first_pointer_is_the_item()
    ensures own { verdicts small_plan 0 (own_first ∷ [])
        ≡ Used 0 0 ∷ [] }
    ensures other { verdicts small_plan 0 (other_first ∷ [])
        ≡ Foreign 1 ∷ [] }
{}

/// Voltages may be longer than the samples, and then the first bytes count; they may not be shorter
/// or immediate.
pub fn length_of_voltages()
    ensures longer { column small_plan 0 (voltage_heap 1 0 0 (first_samples ++ 9 ∷ []) ∷ []) 0
        ≡ Some first_samples ∷ None ∷ [] }
    ensures shorter { verdicts small_plan 0 (voltage_heap 1 0 0 (1 ∷ 2 ∷ 3 ∷ []) ∷ [])
        ≡ Undescribed ∷ [] }
    ensures immediate { verdicts small_plan 0 (immediate_voltages ∷ [])
        ≡ Undescribed ∷ [] }
    ensures immediate_first { verdicts small_plan 0 (immediate_first ∷ [])
        ≡ Undescribed ∷ [] }
{}

/// Where several verdicts apply, the first in their order counts.
pub fn first_verdict_counts()
    ensures foreign { verdicts timed_plan 0 (voltage_heap 1 1 96 first_samples ∷ []) ≡ Foreign 1 ∷ [] }
    ensures before_start { verdicts timed_plan 0 (heaps_at (97 ∷ [])) ≡ BeforeStart ∷ [] }
    ensures late { verdicts (with_lag 1) 0 (heaps_at (0 ∷ 2 ∷ 0 ∷ [])) ≡ Used 0 0 ∷ Used 1 0 ∷ Late ∷ [] }
{}
