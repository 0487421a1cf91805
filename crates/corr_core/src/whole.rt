//! A whole core: its parts, its back end and its emitter.

ghost use Rattle.std.specs.Prelude.{◌≡◌, ◌<◌, true, false};

use crate::event::{Event, Stepped};
use crate::parts::Parts;
use crate::prepared::PreparedOf;
use corr_model::{Ending, Observation, Plan};
use corr_site::PacketSink;
use std::marker::Model;
use stream_feed::StreamReport;
use vis_accum::Cross;
use vis_back::Backend;
use vis_send::{Emit, Sender, Sent};

/// The core of a run, over any back end and emitter: one feed and one hand for each antenna, the
/// ring of accumulations, works, the value that goes out, and the emitter.
///
/// A core stands for states of the machine of events: `StandFor` says for which. A step is an event
/// of that machine, so no order of steps can change what is sent.
#[derive(Drop)]
pub struct CoreOf<O: Observation, B: Backend, E: Emit<Out = B::Out>> {
    pub(crate) parts: Parts<O, B>,
    pub(crate) backend: B,
    pub(crate) emit: E,
    pub(crate) failed: bool,
}

/// The core with the plain back end and the sender of the output.
pub type Core<O> = CoreOf<O, Cross, Sender>;

impl<O: Observation, B: Backend, E: Emit<Out = B::Out>> Model for CoreOf<O, B, E> {
    ghost use Rattle.std.specs.Prelude.{◌≡◌, true};
    ghost use Rattle.corr_core.specs.Cores.{CoreView};

    ghost Value = { CoreView B E };

    ghost view = { λ c.
        record { parts = c.parts; backend = c.backend; emit = c.emit; failed = c.failed } };

    ghost invariant = { λ c. (B.serves c.backend c.parts.plan ≡ true)
        × (E.of_plan c.emit ≡ c.parts.plan) };
}

impl<O: Observation, B: Backend, E: Emit<Out = B::Out>> CoreOf<O, B, E> {
    ghost use Rattle.corr_machine.specs.Machines.{State, opening};
    ghost use Rattle.corr_core.specs.Standing.{StandFor};
    ghost use Rattle.corr_core.specs.Sends.{value_with};
    ghost use Rattle.corr_core.specs.Cores.{Steps, StepHasCause, has_failed, event_of, IsInRange, IsNextOf, EndsAfter, end_of};
    ghost use Rattle.corr_core.specs.Parts.{feed_in};

    /// The core of these parts, before its first event: it stands for the machine's opening.
    pub fn new(prepared: PreparedOf<O, B, E>) -> CoreOf<O, B, E>
        ensures stands { StandFor (value_with (B.value result.backend) result.parts.plan)
            result.parts (opening result.parts.plan) }
        ensures plan { result.parts.plan ≡ prepared.plan }
        ensures backend { result.backend ≡ prepared.backend }
        ensures emit { result.emit ≡ prepared.emit }
        ensures failed { result.failed ≡ false }
    {
        let PreparedOf {
            plan,
            feeds,
            hands,
            ring,
            works,
            outgoing,
            backend,
            emit,
            ..
        } = prepared;
        let feeds = feeds.into_list();
        let parts = Parts::new(plan, feeds, hands, ring, works, outgoing);
        CoreOf {
            parts,
            backend,
            emit,
            failed: false,
        }
    }

    /// The plan of the run.
    pub fn plan(&self) -> &Plan
        ensures { result.now ≡ self.now.parts.plan }
    {
        &self.parts.plan
    }

    /// The report on a stream.
    pub fn report(&self, antenna: u32) -> StreamReport
        requires { antenna < self.now.parts.plan.antennas }
        ensures { result ≡ (feed_in self.now.parts antenna).report }
    {
        self.parts.report(antenna)
    }

    /// How a stream ended, where it has.
    pub fn ended(&self, antenna: u32) -> Option<Ending>
        requires { antenna < self.now.parts.plan.antennas }
        ensures { result ≡ end_of self.now.parts antenna }
    {
        self.parts.ended(antenna)
    }

    /// What was sent: how many byte strings, how many bytes, and their mark.
    pub fn sent(&self) -> Sent
        ensures { result ≡ E.tally self.now.emit }
    {
        self.emit.sent()
    }

    /// One event. It moves exactly where it is enabled, unless the sink fails at it; it is idle
    /// exactly where it is not enabled or the sink failed before. Only a Send sends, and `Failed`
    /// comes only where the sink's count of faults rose. A stream that ended says how: by itself, or as
    /// its End was said.
    ///
    /// Where the observation names its lists, the string of a Packet that the stream takes is the
    /// next of its list, and an End that it takes comes after the last.
    pub fn step<K: PacketSink>(&mut self, event: Event<'_>, sink: &mut K) -> Stepped
        requires in_range { IsInRange self.old.parts.plan event }
        requires next { O.names ≡ true → IsNextOf O.list self.old.parts event }
        requires begun { K.begun sink.old ≡ true }
        ensures steps { (state : State)
            → StandFor (value_with (B.value self.old.backend) self.old.parts.plan)
            self.old.parts state
            → Steps (value_with (B.value self.old.backend) self.old.parts.plan)
            (E.strings self.old.parts.plan) self.old.parts self.new.parts self.old.failed
            state (event_of event.entry) (K.sent sink.old) (K.sent sink.new)
            (E.tally self.old.emit) (E.tally self.new.emit) result }
        ensures ends { EndsAfter self.old.parts self.new.parts event.entry result }
        ensures plan { self.new.parts.plan ≡ self.old.parts.plan }
        ensures backend { self.new.backend ≡ self.old.backend }
        ensures failed { self.new.failed ≡ has_failed self.old.failed result }
        ensures begun { K.begun sink.new ≡ true }
        ensures at { K.at sink.new ≡ K.at sink.old }
        ensures cause { StepHasCause (K.faults sink.old) (K.faults sink.new) result }
    {
        if self.failed {
            return Stepped::Idle;
        }
        let stepped = self.parts.step(event, &self.backend, &mut self.emit, sink);
        self.failed = stepped.is_failed();
        stepped
    }
}
