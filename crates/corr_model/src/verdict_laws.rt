//! Laws of the verdicts on packets and of the report: what one more byte string brings, and what is
//! not reported.

ghost use Rattle.std.specs.Prelude.{◌≡◌, ◌<◌, ◌≤◌, ◌+◌, ◌++◌, ◌∷◌, [], ℕ, List, Some, None, length, map, filter, count_by, sum_by, is_some, true, if◌then◌else◌};
ghost use Rattle.corr_model.specs.declared.plan.Plan.{Plan};
ghost use Rattle.corr_model.specs.declared.pointer.Refusal.{Refusal};
ghost use Rattle.corr_model.specs.declared.verdict.Verdict.TheVariants.{Refused};
ghost use Rattle.corr_model.specs.Lists.{numbers};
ghost use Rattle.corr_model.specs.Packets.{Parts, packet_in, refusal_of};
ghost use Rattle.corr_model.specs.Windows.{heard, is_within, placed};
ghost use Rattle.corr_model.specs.Assembly.{whole_now};
ghost use Rattle.corr_model.specs.Streams.{column, ending, heaps, taken};
ghost use Rattle.corr_model.specs.PacketVerdicts.{counted, is_of_heap, is_part, is_stop, is_used};
ghost use Rattle.corr_model.specs.PacketVerdicts.{evicted_count, heap_made, next_evicted, next_outcome, packet_verdict, packet_verdicts, report, verdict_by};

/// A byte string after an open list has the next verdict, and changes no other: refused where it
/// spells no packet, else by what its packet is to its heap after those heard before it.
pub fn next_packet_verdict()
    ensures next { (plan : Plan) (antenna : ℕ) (l : List (List ℕ)) (b : List ℕ)
        → ending plan l ≡ None
        → packet_verdicts plan antenna (l ++ b ∷ [])
        ≡ packet_verdicts plan antenna l ++ packet_verdict plan antenna (l ++ b ∷ []) ∷ [] }
    ensures refused { (plan : Plan) (antenna : ℕ) (l : List (List ℕ)) (b : List ℕ)
        (refusal : Refusal) → refusal_of b ≡ Some refusal
        → packet_verdict plan antenna (l ++ b ∷ []) ≡ Refused refusal }
    ensures packet { (plan : Plan) (antenna : ℕ) (l : List (List ℕ)) (b : List ℕ) (p : Parts)
        → length l < plan.packet_limit → packet_in b ≡ Some p
        → packet_verdict plan antenna (l ++ b ∷ [])
        ≡ verdict_by (heaps plan antenna (l ++ b ∷ []))
        (next_outcome plan.heap_limit plan.window (heard plan l) p) }
{}

/// The heap that a packet makes whole by what it is to its heap is the one that is whole at it.
pub fn packet_makes_the_whole_heap()
    ensures { (limit window : ℕ) (h : List Parts) (p : Parts)
        → heap_made (next_outcome limit window h p)
        ≡ (if is_within limit p then whole_now window (placed window (h ++ p ∷ [])) else None) }
{}

/// One more heard packet evicts at most one heap that is not whole, and is counted exactly where it
/// does.
pub fn next_eviction()
    ensures { (window : ℕ) (h : List Parts) (p : Parts)
        → evicted_count window (placed window (h ++ p ∷ []))
        ≡ evicted_count window (placed window h)
        + (if is_some (next_evicted window (placed window h) p) then 1 else 0) }
{}

/// What lies beyond the strings that count has no verdict and is not reported on.
pub fn rest_is_not_reported()
    ensures verdicts { (plan : Plan) (antenna : ℕ) (l : List (List ℕ))
        → packet_verdicts plan antenna (taken plan l) ≡ packet_verdicts plan antenna l }
    ensures report { (plan : Plan) (antenna : ℕ) (l : List (List ℕ))
        → report plan antenna (taken plan l) ≡ report plan antenna l }
    ensures no_verdict { (plan : Plan) (antenna : ℕ) (l rest : List (List ℕ))
        → is_some (ending plan l) ≡ true
        → packet_verdicts plan antenna (l ++ rest) ≡ packet_verdicts plan antenna l }
    ensures same_report { (plan : Plan) (antenna : ℕ) (l rest : List (List ℕ))
        → is_some (ending plan l) ≡ true
        → report plan antenna (l ++ rest) ≡ report plan antenna l }
{}

/// Each string that counts has one verdict. The report counts it once, under that verdict, or not
/// at all where it is a part or a stop heap.
pub fn each_string_is_counted_once()
    ensures verdicts { (plan : Plan) (antenna : ℕ) (l : List (List ℕ))
        → length (packet_verdicts plan antenna l) ≡ length (taken plan l) }
    ensures taken { (plan : Plan) (antenna : ℕ) (l : List (List ℕ))
        → (report plan antenna l).taken ≡ length (taken plan l) }
    ensures counts { (plan : Plan) (antenna : ℕ) (l : List (List ℕ))
        → counted (report plan antenna l)
        + count_by is_part (packet_verdicts plan antenna l)
        + count_by is_stop (packet_verdicts plan antenna l)
        ≡ (report plan antenna l).taken }
{}

/// The verdicts of the stream's heaps are those among the verdicts on packets that are on whole
/// heaps, in their order. So as many strings are reported used as heaps are used.
pub fn each_heap_is_judged_at_one_packet()
    ensures verdicts { (plan : Plan) (antenna : ℕ) (l : List (List ℕ))
        → filter is_of_heap (packet_verdicts plan antenna l)
        ≡ map (λ j. j.verdict) (heaps plan antenna l) }
    ensures used { (plan : Plan) (antenna : ℕ) (l : List (List ℕ))
        → (report plan antenna l).used ≡ count_by (λ j. is_used j.verdict) (heaps plan antenna l) }
{}

/// As many strings are reported used as cells are there, over all columns.
pub fn each_used_heap_fills_a_cell()
    ensures { (plan : Plan) (antenna : ℕ) (l : List (List ℕ)) → 1 ≤ plan.heaps
        → (report plan antenna l).used
        ≡ sum_by (λ n. count_by is_some (column plan antenna l n)) (numbers 0 plan.accumulations) }
{}
