//! Laws of one stream that a feed of it rests on: what one more byte string does to the report, the
//! table and the columns, and what the strings so far say of the whole list.

ghost use Rattle.std.specs.Prelude.{◌≡◌, ◌<◌, ◌≤◌, ◌+◌, ◌++◌, ◌∷◌, [], ℕ, Bool, true, false, List, Some, None, is_some, take};
ghost use Rattle.corr_model.specs.declared.plan.Plan.{Plan};
ghost use Rattle.corr_model.specs.Packets.{Parts, packet_in};
ghost use Rattle.corr_model.specs.Windows.{heard};
ghost use Rattle.corr_model.specs.Assembly.{WholeHeap};
ghost use Rattle.corr_model.specs.Descriptors.{DescribedItem};
ghost use Rattle.corr_model.specs.Tables.{TableStandsFor, bad_count};
ghost use Rattle.corr_model.specs.Streams.{above_top, cell, column, contents_of, described_by, ending, floor, heaps, taken, IsTableOf};
ghost use Rattle.corr_model.specs.PacketVerdicts.{heap_made, next_outcome, packet_verdict, report};
ghost use Rattle.corr_model.specs.Reports.{with_string, evicts_next};

/// A byte string after an open list is counted once: as taken, under its verdict, and with the heap
/// that it evicts and the bad descriptors that it brings.
pub fn next_report()
    ensures packet { (plan : Plan) (antenna : ℕ) (l : List (List ℕ)) (b : List ℕ) (p : Parts)
        (bad : ℕ) → ending plan l ≡ None → packet_in b ≡ Some p
        → bad_count plan (described_by (heaps plan antenna (l ++ b ∷ [])))
        ≡ bad_count plan (described_by (heaps plan antenna l)) + bad
        → report plan antenna (l ++ b ∷ [])
        ≡ with_string (report plan antenna l) (packet_verdict plan antenna (l ++ b ∷ []))
        (is_some (evicts_next plan (heard plan l) p)) bad }
    ensures refused { (plan : Plan) (antenna : ℕ) (l : List (List ℕ)) (b : List ℕ)
        → ending plan l ≡ None → packet_in b ≡ None
        → report plan antenna (l ++ b ∷ [])
        ≡ with_string (report plan antenna l) (packet_verdict plan antenna (l ++ b ∷ [])) false 0 }
{}

/// A packet that makes a heap whole brings the table that heap's descriptors, and any other string
/// brings it none.
#[tactic(auto, using(crate::proofs::NextTable::table_made, crate::proofs::NextTable::table_kept, crate::proofs::NextTable::table_refused))]
pub fn next_table()
    ensures made { (plan : Plan) (antenna : ℕ) (l : List (List ℕ)) (b : List ℕ) (p : Parts)
        (h : WholeHeap) (entries : List DescribedItem)
        → ending plan l ≡ None → packet_in b ≡ Some p
        → heap_made (next_outcome plan.heap_limit plan.window (heard plan l) p) ≡ Some h
        → TableStandsFor plan entries (described_by (heaps plan antenna l) ++ contents_of h)
        → IsTableOf plan antenna entries (l ++ b ∷ []) }
    ensures kept { (plan : Plan) (antenna : ℕ) (l : List (List ℕ)) (b : List ℕ) (p : Parts)
        (entries : List DescribedItem)
        → ending plan l ≡ None → packet_in b ≡ Some p
        → heap_made (next_outcome plan.heap_limit plan.window (heard plan l) p) ≡ None
        → IsTableOf plan antenna entries l → IsTableOf plan antenna entries (l ++ b ∷ []) }
    ensures refused { (plan : Plan) (antenna : ℕ) (l : List (List ℕ)) (b : List ℕ)
        (entries : List DescribedItem)
        → ending plan l ≡ None → packet_in b ≡ None
        → IsTableOf plan antenna entries l → IsTableOf plan antenna entries (l ++ b ∷ []) }
{}

/// No heap is used in an accumulation that its stream did not reach.
#[tactic(auto, using(crate::proofs::Unreached::unreached_cells))]
pub fn unreached_columns_are_empty()
    ensures { (plan : Plan) (antenna : ℕ) (l : List (List ℕ)) (n t : ℕ)
        → above_top plan (heaps plan antenna l) ≤ n → cell plan antenna l n t ≡ None }
{}

/// A column below the floor of the strings so far is that of every longer list; where the stream was
/// said to have ended, of the strings so far alone.
#[tactic(auto, using(crate::proofs::Given::given_is_final))]
pub fn given_columns_are_final()
    ensures { (plan : Plan) (antenna : ℕ) (l rest : List (List ℕ)) (n : ℕ) (ended : Bool)
        → n < floor plan antenna l ended → (ended ≡ true → rest ≡ [])
        → column plan antenna (l ++ rest) n ≡ column plan antenna l n }
{}

/// A stream that has ended took all that counts: what counts of a front that has ended is what
/// counts of the whole list. One that ends at a string took all up to it, and nothing else counts.
#[tactic(auto, using(crate::proofs::Given::taken_of_front, crate::proofs::Given::taken_at_end))]
pub fn ended_front_took_all()
    ensures front { (plan : Plan) (l : List (List ℕ)) (n : ℕ)
        → is_some (ending plan (take n l)) ≡ true → taken plan (take n l) ≡ taken plan l }
    ensures here { (plan : Plan) (l rest : List (List ℕ)) (b : List ℕ)
        → ending plan l ≡ None → is_some (ending plan (l ++ b ∷ [])) ≡ true
        → taken plan ((l ++ b ∷ []) ++ rest) ≡ l ++ b ∷ [] }
{}
