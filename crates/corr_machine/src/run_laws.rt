//! Laws of runs, for every list of events from the opening.

ghost use Rattle.std.specs.Prelude.{◌≡◌, ◌<◌, ◌++◌, List, true, false};
ghost use Rattle.corr_model.specs.declared.plan.Plan.{Plan};
ghost use Rattle.corr_model.specs.Visibilities.{Lists};
ghost use Rattle.corr_model.specs.Outputs.{output};
ghost use Rattle.corr_machine.specs.Machines.{State, Event, opening, enabled, step, IsProper};
ghost use Rattle.corr_machine.specs.Runs.{reached, OutputHeaps, heaps_of, output_of, appends, appended, sent_by, output_before, IsFront, done, full, FitsLists, IsNext, CanMove, IsOver};

/// Of any heaps, a run appends those that it counts as sent: a front of their output.
pub fn a_front_of_the_output_is_appended()
    ensures step { (plan : Plan) (heaps : OutputHeaps) (state : State) (e : Event)
        → output_before plan heaps state.sent ++ appends plan heaps state e
        ≡ output_before plan heaps (step plan state e).sent }
    ensures run { (plan : Plan) (heaps : OutputHeaps) (events : List Event)
        → appended plan heaps (opening plan) events
        ≡ output_before plan heaps (reached plan events).sent }
    ensures front { (plan : Plan) (heaps : OutputHeaps) (events : List Event)
        → 0 < plan.slots → 0 < plan.packet_limit → 0 < plan.antennas → 0 < plan.accumulations
        → IsFront (appended plan heaps (opening plan) events) (output_of plan heaps) }
    ensures output { (plan : Plan) (lists : Lists) → output_of plan (heaps_of plan lists)
        ≡ output plan lists }
{}

/// What a run sends, each heap by the strings taken until then, is a front of the output of all
/// lists that the state reached fits.
pub fn a_front_of_the_output_is_sent()
    ensures same { (plan : Plan) (lists : Lists) (events : List Event) → 0 < plan.slots
        → 0 < plan.packet_limit
        → FitsLists plan (reached plan events) lists
        → sent_by plan (opening plan) events
        ≡ appended plan (heaps_of plan lists) (opening plan) events }
    ensures front { (plan : Plan) (lists : Lists) (events : List Event)
        → 0 < plan.slots → 0 < plan.packet_limit → 0 < plan.antennas → 0 < plan.accumulations
        → FitsLists plan (reached plan events) lists
        → IsFront (sent_by plan (opening plan) events) (output plan lists) }
{}

/// No state is stuck: short of a whole run some next event is enabled. Where none is, all results
/// were sent and each stream has ended.
pub fn no_state_is_stuck()
    ensures moves { (plan : Plan) (lists : Lists) (state : State) → 0 < plan.slots
        → 0 < plan.antennas
        → IsProper plan state → FitsLists plan state lists → done plan state < full plan lists
        → CanMove plan lists state }
    ensures over { (plan : Plan) (lists : Lists) (state : State) → 0 < plan.slots
        → 0 < plan.antennas
        → IsProper plan state → FitsLists plan state lists
        → ((e : Event) → IsNext plan lists state e → enabled plan state e ≡ false)
        → IsOver plan state }
{}

/// Where no next event is enabled, the whole output was sent, whatever the order of the events was.
pub fn the_whole_output_is_sent()
    ensures heaps { (plan : Plan) (heaps : OutputHeaps) (lists : Lists) (events : List Event)
        → 0 < plan.slots → 0 < plan.packet_limit → 0 < plan.antennas → 0 < plan.accumulations
        → FitsLists plan (reached plan events) lists
        → ((e : Event) → IsNext plan lists (reached plan events) e
        → enabled plan (reached plan events) e ≡ false)
        → appended plan heaps (opening plan) events ≡ output_of plan heaps }
    ensures output { (plan : Plan) (lists : Lists) (events : List Event)
        → 0 < plan.slots → 0 < plan.packet_limit → 0 < plan.antennas → 0 < plan.accumulations
        → FitsLists plan (reached plan events) lists
        → ((e : Event) → IsNext plan lists (reached plan events) e
        → enabled plan (reached plan events) e ≡ false)
        → sent_by plan (opening plan) events ≡ output plan lists }
{}
