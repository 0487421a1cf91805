//! A run: one accumulation after another, and what is left of the streams.

ghost use Rattle.std.specs.Prelude.{◌≡◌, ◌<◌, ◌≤◌, ◌%◌, ℕ, true, false, length};
ghost use Rattle.corr_model.specs.declared.plan.Plan.{Plan};
ghost use Rattle.corr_model.specs.Plans.{Fits};
ghost use Rattle.corr_site.specs.Outside.{HasCause};
ghost use Rattle.corr_machine.specs.Machines.{State, opening};
ghost use Rattle.corr_core.specs.Standing.{StandFor};
ghost use Rattle.corr_core.specs.Sends.{value_with};
ghost use Rattle.corr_serial.specs.Sources.{AreBegun, KeepsSources};
ghost use Rattle.corr_serial.specs.Going.{IsAt, PassesOn};
ghost use Rattle.corr_serial.specs.Runs.{Runs};

use crate::turns::{drain_all, gather_all};
use corr_core::{CoreOf, Event, Stepped};
use corr_model::{Observation, Unheard};
use corr_site::{PacketSink, PacketSource};
use vis_back::Backend;
use vis_send::{Emit, SinkFault};

// The first work takes the slot of the next accumulation, computes and stores its value, and that is
// sent.
fn pass<B: Backend, E: Emit<Out = B::Out>, K: PacketSink>(
    core: &mut CoreOf<Unheard, B, E>,
    slot: u32,
    sink: &mut K,
) -> Result<(), SinkFault>
    requires in_range { slot < core.old.parts.plan.slots }
    requires sink { K.begun sink.old ≡ true }
    ensures passes { (plan : Plan) (backend : B) (number : ℕ) (state : State)
        → IsAt B.value plan backend core.old number plan.antennas state
        → slot ≡ number % plan.slots
        → PassesOn B.value plan backend (E.strings plan) core.old core.new number state
        (K.sent sink.old) (K.sent sink.new) (E.tally core.old.emit) (E.tally core.new.emit) result }
    ensures plan { core.new.parts.plan ≡ core.old.parts.plan }
    ensures backend { core.new.backend ≡ core.old.backend }
    ensures sink_begun { K.begun sink.new ≡ true }
    ensures sink_at { K.at sink.new ≡ K.at sink.old }
    ensures cause { HasCause (K.faults sink.old) (K.faults sink.new) result }
{
    core.step(Event::Take(0, slot), sink);
    core.step(Event::Store(0), sink);
    match core.step(Event::Send, sink) {
        Stepped::Failed => Err(SinkFault),
        Stepped::Moved => Ok(()),
        // It is never idle: the next value is there.
        Stepped::Idle => Ok(()),
    }
}

/// The heap of each accumulation in order, the head before the first and the stop after the last; and
/// what is left of the streams is taken. `SinkFault` comes only where the sink's count of faults
/// rose, and at once.
pub(crate) fn run<
    O: Observation,
    B: Backend,
    E: Emit<Out = B::Out>,
    S: PacketSource<O>,
    K: PacketSink,
>(core: &mut CoreOf<Unheard, B, E>, sources: &mut [S], sink: &mut K) -> Result<(), SinkFault>
    requires fits { Fits core.old.parts.plan }
    requires stands { StandFor (value_with (B.value core.old.backend) core.old.parts.plan)
        core.old.parts (opening core.old.parts.plan) }
    requires calm { core.old.failed ≡ false }
    requires enough { core.old.parts.plan.antennas ≤ length sources.old }
    requires begun { AreBegun S.begun core.old.parts.plan.antennas sources.old }
    requires sink { K.begun sink.old ≡ true }
    ensures sources { KeepsSources S.begun S.at S.gives S.belongs core.old.parts.plan.antennas
        sources.old sources.new }
    ensures plan { core.new.parts.plan ≡ core.old.parts.plan }
    ensures feeds { length core.new.parts.feeds ≡ core.old.parts.plan.antennas }
    ensures runs { Runs
        (record { strings = E.strings core.old.parts.plan; value = B.value core.old.backend core.old.parts.plan })
        core.old.parts.plan S.gives S.given S.faults sources.old sources.new core.new.parts.feeds
        (K.sent sink.old) (K.sent sink.new) (E.tally core.old.emit) (E.tally core.new.emit) result }
    ensures begun { K.begun sink.new ≡ true }
    ensures at { K.at sink.new ≡ K.at sink.old }
    ensures cause { HasCause (K.faults sink.old) (K.faults sink.new) result }
{
    let mut buf = [0u8; 65536];
    let accumulations = core.plan().accumulations;
    let slots = core.plan().slots;
    for number in 0..accumulations {
        gather_all::<O, B, E, S, K>(core, sources, sink, &mut buf);
        pass(core, number % slots, sink)?;
    }
    drain_all::<O, B, E, S, K>(core, sources, sink, &mut buf);
    Ok(())
}
