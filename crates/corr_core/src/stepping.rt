//! One event of a core's parts, with the back end and the emitter beside them.

ghost use Rattle.std.specs.Prelude.{◌≡◌, ◌<◌, true, false};
ghost use Rattle.corr_site.specs.Outside.{HasCause};
ghost use Rattle.vis_send.specs.Sending.{Tallies};

use crate::emitting::emit_with;
use crate::event::{Event, Stepped};
use crate::parts::Parts;
use corr_model::Observation;
use corr_site::PacketSink;
use vis_back::Backend;
use vis_send::{Emit, SinkFault};

impl<O: Observation, B: Backend> Parts<O, B> {
    ghost use Rattle.corr_machine.specs.Machines.{State};
    ghost use Rattle.corr_machine.specs.Machines as events;
    ghost use Rattle.corr_core.specs.Standing.{Value, StandFor};
    ghost use Rattle.corr_core.specs.Sends.{value_with, sent_together};
    ghost use Rattle.corr_core.specs.Cores.{Steps, StepHasCause, event_of, IsInRange, IsNextOf, KeepsEnds, EndsAfter};

    // Sends what goes with the value that was moved out.
    fn emit_value<E: Emit<Out = B::Out>, K: PacketSink>(
        &self,
        emit: &mut E,
        sink: &mut K,
    ) -> Result<(), SinkFault>
        requires plan { E.of_plan emit.old ≡ self.now.plan }
        requires in_range { self.now.outgoing.number < self.now.plan.accumulations }
        requires begun { K.begun sink.old ≡ true }
        ensures sent { Tallies (K.sent sink.old) (K.sent sink.new)
            (E.tally emit.old) (E.tally emit.new) result (sent_together self.now.plan (E.strings self.now.plan)
            self.now.outgoing.number self.now.outgoing.out.sums) }
        ensures plan { E.of_plan emit.new ≡ self.now.plan }
        ensures begun { K.begun sink.new ≡ true }
        ensures at { K.at sink.new ≡ K.at sink.old }
        ensures cause { HasCause (K.faults sink.old) (K.faults sink.new) result }
    {
        let number = self.outgoing.number();
        emit_with(emit, &self.plan, number, self.outgoing.out(), sink)
    }

    // The next value is sent.
    fn send<E: Emit<Out = B::Out>, K: PacketSink>(&mut self, emit: &mut E, sink: &mut K) -> Stepped
        requires plan { E.of_plan emit.old ≡ self.old.plan }
        requires begun { K.begun sink.old ≡ true }
        ensures steps { (value : Value) (state : State) → StandFor value self.old state
            → Steps value (E.strings self.old.plan) self.old self.new false state events.Send
            (K.sent sink.old) (K.sent sink.new) (E.tally emit.old) (E.tally emit.new) result }
        ensures ends { KeepsEnds self.old self.new }
        ensures plan { self.new.plan ≡ self.old.plan }
        ensures emit_plan { E.of_plan emit.new ≡ self.old.plan }
        ensures begun { K.begun sink.new ≡ true }
        ensures at { K.at sink.new ≡ K.at sink.old }
        ensures cause { StepHasCause (K.faults sink.old) (K.faults sink.new) result }
    {
        if !self.next_value() {
            return Stepped::Idle;
        }
        match self.emit_value(emit, sink) {
            Ok(()) => Stepped::Moved,
            Err(SinkFault) => Stepped::Failed,
        }
    }

    /// One event: it moves exactly where it is enabled, unless the sink fails at it. Only a Send
    /// sends.
    pub(crate) fn step<E: Emit<Out = B::Out>, K: PacketSink>(
        &mut self,
        event: Event<'_>,
        backend: &B,
        emit: &mut E,
        sink: &mut K,
    ) -> Stepped
        requires in_range { IsInRange self.old.plan event }
        requires next { O.names ≡ true → IsNextOf O.list self.old event }
        requires suits { B.serves backend.now self.old.plan ≡ true }
        requires plan { E.of_plan emit.old ≡ self.old.plan }
        requires begun { K.begun sink.old ≡ true }
        ensures steps { (state : State)
            → StandFor (value_with (B.value backend.now) self.old.plan) self.old state
            → Steps (value_with (B.value backend.now) self.old.plan) (E.strings self.old.plan)
            self.old self.new false state (event_of event.entry)
            (K.sent sink.old) (K.sent sink.new) (E.tally emit.old) (E.tally emit.new) result }
        ensures ends { EndsAfter self.old self.new event.entry result }
        ensures plan { self.new.plan ≡ self.old.plan }
        ensures emit_plan { E.of_plan emit.new ≡ self.old.plan }
        ensures begun { K.begun sink.new ≡ true }
        ensures at { K.at sink.new ≡ K.at sink.old }
        ensures cause { StepHasCause (K.faults sink.old) (K.faults sink.new) result }
    {
        match event {
            Event::Packet(antenna, bytes) => Stepped::of(self.packet(antenna, bytes)),
            Event::End(antenna, how) => Stepped::of(self.end(antenna, how)),
            Event::Put(antenna) => Stepped::of(self.put(antenna)),
            Event::Take(work, slot) => Stepped::of(self.take(work, slot, backend)),
            Event::Store(work) => Stepped::of(self.store(work)),
            Event::Send => self.send(emit, sink),
        }
    }
}
