//! Laws of one stream: what one more byte string changes, and what no longer list can change.

ghost use Rattle.std.specs.Prelude.{◌≡◌, ◌<◌, ◌≤◌, ◌++◌, ◌∷◌, [], ℕ, List, Some, None, length, take, drop, count_by, is_some, true, false, if◌then◌else◌};
ghost use Rattle.std.specs.List.{list_any};
ghost use Rattle.std.specs.Option.{option_to_list};
ghost use Rattle.corr_model.specs.declared.plan.Plan.{Plan};
ghost use Rattle.corr_model.specs.Packets.{Parts, packet_in};
ghost use Rattle.corr_model.specs.Windows.{heard_in, heard, PlacedPacket, placed, place_next, is_member, members, placed_in};
ghost use Rattle.corr_model.specs.Assembly.{fates, fate_next, WholeHeap, whole_now, whole_heaps};
ghost use Rattle.corr_model.specs.PacketVerdicts.{heap_made, next_outcome};
ghost use Rattle.corr_model.specs.Streams.{whole_in, heaps, judge_next, has_stopped, ending, taken, floor, is_used_at, cell, column};

/// Below the packet limit a byte string that is heard comes after those heard before it, and another changes nothing.
/// From the limit on none is heard.
pub fn next_heard()
    ensures next { (plan : Plan) (l : List (List ℕ)) (b : List ℕ) → length l < plan.packet_limit
        → heard plan (l ++ b ∷ []) ≡ heard plan l ++ option_to_list (heard_in plan.heap_limit b) }
    ensures past { (plan : Plan) (l rest : List (List ℕ)) → plan.packet_limit ≤ length l
        → heard plan (l ++ rest) ≡ heard plan l }
{}

/// A packet more has its place by those before it, and changes none of theirs.
pub fn next_placed()
    ensures { (window : ℕ) (h : List Parts) (p : Parts)
        → placed window (h ++ p ∷ [])
        ≡ placed window h ++ place_next window (placed window h) p ∷ [] }
{}

/// A packet more is the last member of each heap of which it is one, and leaves the other heaps alone.
pub fn next_member()
    ensures { (window : ℕ) (ps : List PlacedPacket) (q o : PlacedPacket)
        → members window (ps ++ q ∷ []) o
        ≡ members window ps o ++ (if is_member window o q then q ∷ [] else []) }
{}

/// A member more is judged against those kept before it, and changes nothing about them.
pub fn next_fate()
    ensures { (ms : List PlacedPacket) (q : PlacedPacket)
        → fates (ms ++ q ∷ []) ≡ fates ms ++ fate_next (fates ms) q ∷ [] }
{}

/// A packet more makes at most one heap whole, and a heap that was whole stays as it was.
pub fn next_whole_heap()
    ensures { (window : ℕ) (ps : List PlacedPacket) (q : PlacedPacket)
        → whole_heaps window (ps ++ q ∷ [])
        ≡ whole_heaps window ps ++ option_to_list (whole_now window (ps ++ q ∷ [])) }
{}

/// Below the packet limit a byte string that is heard makes at most one heap of the stream whole, and another none.
/// From the limit on no heap becomes whole.
pub fn next_whole_in()
    ensures heard { (plan : Plan) (l : List (List ℕ)) (b : List ℕ) (p : Parts)
        → length l < plan.packet_limit → heard_in plan.heap_limit b ≡ Some p
        → whole_in plan (l ++ b ∷ [])
        ≡ whole_in plan l ++ option_to_list (whole_now plan.window (placed_in plan (l ++ b ∷ []))) }
    ensures unheard { (plan : Plan) (l : List (List ℕ)) (b : List ℕ) → length l < plan.packet_limit
        → heard_in plan.heap_limit b ≡ None
        → whole_in plan (l ++ b ∷ []) ≡ whole_in plan l }
    ensures past { (plan : Plan) (l rest : List (List ℕ)) → plan.packet_limit ≤ length l
        → whole_in plan (l ++ rest) ≡ whole_in plan l }
{}

/// Below the packet limit the heap that becomes whole at a byte string is the one that its packet makes, by what the
/// packet is to its heap, if it makes one. A byte string that spells no packet makes none.
pub fn next_made()
    ensures now { (plan : Plan) (l : List (List ℕ)) (b : List ℕ) (p : Parts)
        → length l < plan.packet_limit → heard_in plan.heap_limit b ≡ Some p
        → whole_now plan.window (placed_in plan (l ++ b ∷ []))
        ≡ heap_made (next_outcome plan.heap_limit plan.window (heard plan l) p) }
    ensures whole { (plan : Plan) (l : List (List ℕ)) (b : List ℕ) (p : Parts)
        → length l < plan.packet_limit → packet_in b ≡ Some p
        → whole_in plan (l ++ b ∷ []) ≡ whole_in plan l
        ++ option_to_list (heap_made (next_outcome plan.heap_limit plan.window (heard plan l) p)) }
    ensures refused { (plan : Plan) (l : List (List ℕ)) (b : List ℕ)
        → length l < plan.packet_limit → packet_in b ≡ None
        → whole_in plan (l ++ b ∷ []) ≡ whole_in plan l }
{}

/// Before a stop heap, a whole heap more is judged by those before it. With none more, and after the end, the judged
/// heaps are the same.
pub fn next_judged()
    ensures whole { (plan : Plan) (antenna : ℕ) (l : List (List ℕ)) (b : List ℕ) (heap : WholeHeap)
        → has_stopped plan l ≡ false → whole_in plan (l ++ b ∷ []) ≡ whole_in plan l ++ heap ∷ []
        → heaps plan antenna (l ++ b ∷ [])
        ≡ heaps plan antenna l ++ judge_next plan antenna (heaps plan antenna l) heap ∷ [] }
    ensures none { (plan : Plan) (antenna : ℕ) (l k : List (List ℕ))
        → whole_in plan k ≡ whole_in plan l
        → heaps plan antenna k ≡ heaps plan antenna l }
    ensures ended { (plan : Plan) (antenna : ℕ) (l rest : List (List ℕ))
        → is_some (ending plan l) ≡ true
        → heaps plan antenna (l ++ rest) ≡ heaps plan antenna l }
{}

/// All strings of an open list count, and so does one more. After the end none does, and the list has the same end.
pub fn strings_that_count()
    ensures all { (plan : Plan) (l : List (List ℕ)) → ending plan l ≡ None → taken plan l ≡ l }
    ensures next { (plan : Plan) (l : List (List ℕ)) (b : List ℕ) → ending plan l ≡ None
        → taken plan (l ++ b ∷ []) ≡ l ++ b ∷ [] }
    ensures ended { (plan : Plan) (l rest : List (List ℕ)) → is_some (ending plan l) ≡ true
        → taken plan (l ++ rest) ≡ taken plan l }
    ensures ending { (plan : Plan) (l rest : List (List ℕ)) → is_some (ending plan l) ≡ true
        → ending plan (l ++ rest) ≡ ending plan l }
{}

/// What lies beyond the strings that count says nothing: they have the same heaps, cells, columns and ending, and
/// all count.
pub fn rest_says_nothing()
    ensures heaps { (plan : Plan) (antenna : ℕ) (l : List (List ℕ))
        → heaps plan antenna (taken plan l) ≡ heaps plan antenna l }
    ensures cells { (plan : Plan) (antenna : ℕ) (l : List (List ℕ)) (n t : ℕ)
        → cell plan antenna (taken plan l) n t ≡ cell plan antenna l n t }
    ensures columns { (plan : Plan) (antenna : ℕ) (l : List (List ℕ)) (n : ℕ)
        → column plan antenna (taken plan l) n ≡ column plan antenna l n }
    ensures taken { (plan : Plan) (l : List (List ℕ)) → taken plan (taken plan l) ≡ taken plan l }
    ensures ending { (plan : Plan) (l : List (List ℕ)) → ending plan (taken plan l) ≡ ending plan l }
{}

/// At most one heap of a stream is used at a place of an accumulation.
pub fn one_heap_at_a_place()
    ensures { (plan : Plan) (antenna : ℕ) (l : List (List ℕ)) (n t : ℕ)
        → count_by (λ j. is_used_at n t j.verdict) (heaps plan antenna l) ≤ 1 }
{}

/// A longer list has the heaps of a shorter one first, and uses no other below the floor of the shorter one, and its
/// floor is not lower.
pub fn later_heaps_are_above_the_floor()
    ensures first { (plan : Plan) (antenna : ℕ) (l rest : List (List ℕ))
        → take (length (heaps plan antenna l)) (heaps plan antenna (l ++ rest))
        ≡ heaps plan antenna l }
    ensures above { (plan : Plan) (antenna : ℕ) (l rest : List (List ℕ)) (n t : ℕ)
        → n < floor plan antenna l false
        → list_any (λ j. is_used_at n t j.verdict)
        (drop (length (heaps plan antenna l)) (heaps plan antenna (l ++ rest))) ≡ false }
    ensures floor { (plan : Plan) (antenna : ℕ) (l rest : List (List ℕ))
        → floor plan antenna l false ≤ floor plan antenna (l ++ rest) false }
{}

/// The columns and cells below the floor are final: no longer list has others.
pub fn closed_columns_are_final()
    ensures columns { (plan : Plan) (antenna : ℕ) (l rest : List (List ℕ)) (n : ℕ)
        → n < floor plan antenna l false
        → column plan antenna (l ++ rest) n ≡ column plan antenna l n }
    ensures cells { (plan : Plan) (antenna : ℕ) (l rest : List (List ℕ)) (n t : ℕ)
        → n < floor plan antenna l false
        → cell plan antenna (l ++ rest) n t ≡ cell plan antenna l n t }
{}
