//! Worked runs of the machine: which events move, where the machine then is, and what was sent.

ghost use Rattle.std.specs.Prelude.{◌≡◌, ◌++◌, ◌∷◌, [], true, false, Some, None};
ghost use Rattle.corr_model.specs.Outputs.{output};
ghost use Rattle.corr_machine.specs.Machines.{Filling, opening};
ghost use Rattle.corr_machine.specs.Runs.{reached, sent_by, done, full};
ghost use Rattle.corr_machine.specs.ExamplesRuns.{moved, short_ring, long_ring, heap_at, four_heaps};
ghost use Rattle.corr_machine.specs.ExamplesRuns.{ahead, goes_on, other_first, by_turns, second_computed_first};

/// A stream ahead of the ring waits: it takes no string while a column is due, and its next column
/// is not put while the slot has another number. Once the ring goes on it moves, and all is sent.
pub fn stream_ahead_of_the_ring_waits()
    ensures waits { moved short_ring (opening short_ring) ahead
        ≡ true ∷ true ∷ true ∷ false ∷ true ∷ true ∷ true ∷ false ∷ [] }
    ensures state { reached short_ring ahead ≡ record {
      streams = record { strings = heap_at 0 ∷ heap_at 1 ∷ heap_at 2 ∷ heap_at 3 ∷ []; ended = true; put = 1 }
          ∷ record { strings = []; ended = false; put = 0 } ∷ [];
      slots = record { number = 0; kind = Filling; columns = true ∷ false ∷ [] } ∷ [];
      works = None ∷ [];
      sent = 0;
    } }
    ensures goes_on { moved short_ring (reached short_ring ahead) goes_on
        ≡ true ∷ true ∷ true ∷ true ∷ true ∷ true ∷ true ∷ true ∷ true ∷ true ∷ false ∷ [] }
    ensures done { done short_ring (reached short_ring (ahead ++ goes_on))
        ≡ full short_ring four_heaps }
    ensures sent { sent_by short_ring (opening short_ring) (ahead ++ goes_on)
        ≡ output short_ring four_heaps }
{}

/// The other stream first sends the same.
pub fn other_stream_first()
    ensures waits { moved short_ring (opening short_ring) other_first
        ≡ true ∷ true ∷ false
        ∷ true ∷ true ∷ true ∷ true ∷ true ∷ true ∷ true ∷ true ∷ true
        ∷ true ∷ true ∷ true ∷ true ∷ true ∷ [] }
    ensures done { done short_ring (reached short_ring other_first) ≡ full short_ring four_heaps }
    ensures sent { sent_by short_ring (opening short_ring) other_first
        ≡ output short_ring four_heaps }
{}

/// All actors by turns send the same.
pub fn actors_by_turns()
    ensures waits { moved short_ring (opening short_ring) by_turns
        ≡ true ∷ true ∷ false ∷ false ∷ false
        ∷ true ∷ true ∷ false ∷ false ∷ false
        ∷ true ∷ false ∷ false ∷ false ∷ false
        ∷ true ∷ false ∷ true ∷ true ∷ true
        ∷ true ∷ true ∷ false ∷ false ∷ false
        ∷ true ∷ true ∷ true ∷ true ∷ true ∷ [] }
    ensures done { done short_ring (reached short_ring by_turns) ≡ full short_ring four_heaps }
    ensures sent { sent_by short_ring (opening short_ring) by_turns ≡ output short_ring four_heaps }
{}

/// Two slots and two works, the second accumulation computed first: its result waits for the first,
/// and the same is sent as by one work over one slot.
pub fn second_accumulation_computed_first()
    ensures waits { moved long_ring (opening long_ring) second_computed_first
        ≡ true ∷ true ∷ true
        ∷ true ∷ true ∷ true ∷ true ∷ true ∷ true ∷ true
        ∷ true ∷ true ∷ true ∷ false ∷ true ∷ true ∷ true ∷ [] }
    ensures done { done long_ring (reached long_ring second_computed_first)
        ≡ full long_ring four_heaps }
    ensures sent { sent_by long_ring (opening long_ring) second_computed_first
        ≡ output short_ring four_heaps }
{}
