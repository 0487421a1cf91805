//! Laws of states: which a run can have, how far one is, and what it says of the lists that it
//! fits.

ghost use Rattle.std.specs.Prelude.{◌≡◌, ◌≢◌, ◌+◌, ◌<◌, ◌≤◌, ℕ, List, true, Some};
ghost use Rattle.corr_model.specs.declared.plan.Plan.{Plan};
ghost use Rattle.corr_model.specs.Streams.{column};
ghost use Rattle.corr_model.specs.Visibilities.{Lists};
ghost use Rattle.corr_model.specs.Outputs.{heap_packets};
ghost use Rattle.corr_machine.specs.Machines.{StreamState, State, Event, Send, opening, enabled, step, stream_at, slot_at, slot_for, work_at, work_count, stream_floor, is_working, works_on, IsProper};
ghost use Rattle.corr_machine.specs.Runs.{reached, strings_of, done, full, StreamFits, FitsLists, IsNext};

/// The opening is proper, and each event keeps a state proper.
pub fn states_stay_proper()
    ensures opening { (plan : Plan) → 0 < plan.slots → 0 < plan.packet_limit
        → IsProper plan (opening plan) }
    ensures step { (plan : Plan) (state : State) (e : Event) → 0 < plan.slots
        → IsProper plan state → IsProper plan (step plan state e) }
    ensures reached { (plan : Plan) (events : List Event) → 0 < plan.slots → 0 < plan.packet_limit
        → IsProper plan (reached plan events) }
{}

/// In a proper state a work that is not free has the number of a slot that is working, each slot
/// that is working has a work, and no two works have one number.
pub fn works_and_slots_agree()
    ensures slot { (plan : Plan) (state : State) (w n : ℕ)
        → IsProper plan state → w < work_count plan → work_at state w ≡ Some n
        → works_on n (slot_for plan state n) ≡ true }
    ensures work { (plan : Plan) (state : State) (s : ℕ)
        → IsProper plan state → s < plan.slots → is_working (slot_at state s).kind ≡ true
        → (w : ℕ) × (w < work_count plan) × (work_at state w ≡ Some (slot_at state s).number) }
    ensures apart { (plan : Plan) (state : State) (v w n : ℕ)
        → IsProper plan state → v < work_count plan → w < work_count plan
        → work_at state v ≡ Some n → work_at state w ≡ Some n → v ≡ w }
{}

/// Each event that moves raises the measure by one, and it is at most that of a whole run.
pub fn each_move_is_one_step()
    ensures rises { (plan : Plan) (state : State) (e : Event) → 0 < plan.slots
        → IsProper plan state → enabled plan state e ≡ true
        → done plan (step plan state e) ≡ done plan state + 1 }
    ensures within { (plan : Plan) (state : State) (lists : Lists) → 0 < plan.antennas
        → IsProper plan state → FitsLists plan state lists → done plan state ≤ full plan lists }
{}

/// The next strings and ends of some lists keep a state that fits them so, and an event never makes
/// one fit that did not.
pub fn next_events_fit()
    ensures opening { (plan : Plan) (lists : Lists) → FitsLists plan (opening plan) lists }
    ensures step { (plan : Plan) (state : State) (lists : Lists) (e : Event)
        → IsProper plan state → FitsLists plan state lists → IsNext plan lists state e
        → FitsLists plan (step plan state e) lists }
    ensures before { (plan : Plan) (state : State) (lists : Lists) (e : Event)
        → IsProper plan state → FitsLists plan (step plan state e) lists
        → FitsLists plan state lists }
{}

/// A closed column, and the heap of a result, by the strings that a state took, are those of all
/// lists that it fits.
pub fn closed_columns_fit()
    ensures columns { (plan : Plan) (a n : ℕ) (x : StreamState) (l : List (List ℕ))
        → StreamFits plan x l → n < stream_floor plan a x
        → column plan a x.strings n ≡ column plan a l n }
    ensures heap { (plan : Plan) (state : State) (lists : Lists) → 0 < plan.slots
        → IsProper plan state → FitsLists plan state lists → enabled plan state Send ≡ true
        → heap_packets plan (strings_of state) state.sent ≡ heap_packets plan lists state.sent }
{}
