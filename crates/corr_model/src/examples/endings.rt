//! Worked examples of how a stream ends.

ghost use Rattle.std.specs.Prelude.{◌≡◌, ℕ, false, true, List, [], ◌∷◌, ◌++◌, take, Some, None};
ghost use Rattle.corr_model.specs.declared.verdict.Verdict.TheVariants.{Undescribed, Used};
ghost use Rattle.corr_model.specs.declared.verdict.Verdict.TheVariants as verdict;
ghost use Rattle.corr_model.specs.declared.verdict.Ending.TheVariants.{Stop, Limit};
ghost use Rattle.corr_model.specs.Descriptors.{immediate, addressed};
ghost use Rattle.corr_model.specs.Streams.{column, ending, floor, taken};
ghost use Rattle.corr_model.specs.Examples.{small_plan, example_packet, both_heaps, first_samples, verdicts};
ghost use Rattle.corr_model.specs.ExamplesVerdicts.{stopped, stop_in_halves, with_limit};

/// Stop in the middle: the stream ends at the stop heap, and the heap after it is not taken.
pub fn stop_in_the_middle()
    ensures verdicts { verdicts small_plan 0 stopped ≡ Used 0 0 ∷ verdict.Stop ∷ [] }
    ensures taken { taken small_plan stopped ≡ take 2 stopped }
    ensures ending { ending small_plan stopped ≡ Some Stop }
    ensures floor { floor small_plan 0 stopped false ≡ 1 }
    ensures cells { column small_plan 0 stopped 0 ≡ Some first_samples ∷ None ∷ [] }
{}

/// A stop heap as the last: everything is taken, and the stream has ended.
pub fn stop_as_the_last()
    ensures taken { taken small_plan (take 2 stopped) ≡ take 2 stopped }
    ensures ending { ending small_plan (take 2 stopped) ≡ Some Stop }
    ensures open_before { ending small_plan (take 1 stopped) ≡ None }
{}

/// A stop heap in two packets: the stream ends at the second, at which it is whole.
pub fn stop_in_two_packets()
    ensures open_before { ending small_plan (take 1 stop_in_halves) ≡ None }
    ensures ending { ending small_plan stop_in_halves ≡ Some Stop }
    ensures taken { taken small_plan (stop_in_halves ++ both_heaps) ≡ stop_in_halves }
{}

/// The stop number may be addressed, and another number stops nothing.
pub fn stop_numbers()
    ensures addressed { ending small_plan (example_packet 1 (Some 1) 0 (addressed 6 0 ∷ []) (2 ∷ []) ∷ [])
        ≡ Some Stop }
    ensures other { verdicts small_plan 0 (example_packet 1 (Some 0) 0 (immediate 6 1 ∷ []) [] ∷ [])
        ≡ Undescribed ∷ [] }
    ensures open { ending small_plan (example_packet 1 (Some 0) 0 (immediate 6 1 ∷ []) [] ∷ [])
        ≡ None }
{}

/// The packet limit is met at the last string: the stream has ended, and all of it is taken.
pub fn packet_limit_at_the_last_string()
    ensures verdicts { verdicts (with_limit 2) 0 both_heaps ≡ Used 0 0 ∷ Used 0 1 ∷ [] }
    ensures taken { taken (with_limit 2) both_heaps ≡ both_heaps }
    ensures ending { ending (with_limit 2) both_heaps ≡ Some Limit }
    ensures floor { floor (with_limit 2) 0 both_heaps false ≡ 1 }
{}

/// One string fewer than the packet limit leaves the stream open, and one more is not taken.
pub fn packet_limit_beside_the_last_string()
    ensures open { ending (with_limit 3) both_heaps ≡ None }
    ensures floor { floor (with_limit 3) 0 (take 1 both_heaps) false ≡ 0 }
    ensures taken { taken (with_limit 1) both_heaps ≡ take 1 both_heaps }
    ensures verdicts { verdicts (with_limit 1) 0 both_heaps ≡ Used 0 0 ∷ [] }
{}

/// A stop heap at the last string of the limit is a stop; past it there is none.
pub fn stop_at_the_packet_limit()
    ensures stop { ending (with_limit 2) stopped ≡ Some Stop }
    ensures limit { ending (with_limit 1) stopped ≡ Some Limit }
    ensures not_taken { taken (with_limit 1) stopped ≡ take 1 stopped }
{}

/// A stream that is said to have ended has its floor at the number of accumulations.
pub fn floor_of_an_ended_stream()
    ensures ended { floor small_plan 0 [] true ≡ 1 }
    ensures open { floor small_plan 0 [] false ≡ 0 }
{}
