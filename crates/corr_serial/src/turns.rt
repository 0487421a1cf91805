//! Turns of the streams: one after another, each puts its column of the next accumulation; and at
//! last each is heard to its end.

ghost use Rattle.std.specs.Prelude.{◌≡◌, ◌<◌, ◌≤◌, ◌+◌, ℕ, [], true, length, is_some};
ghost use Rattle.corr_model.specs.declared.plan.Plan.{Plan};
ghost use Rattle.corr_machine.specs.Machines.{State};
ghost use Rattle.corr_core.specs.Cores.{has_moved, end_of};
ghost use Rattle.corr_serial.specs.Sources.{AreBegun, KeepsSources};
ghost use Rattle.corr_serial.specs.Going.{IsAt, CanTurn, HasSentAll, Goes, Puts};

use crate::hearing::hear;
use corr_core::{CoreOf, Event, Stepped};
use corr_model::{Observation, Unheard};
use corr_site::{PacketSink, PacketSource};
use vis_back::Backend;
use vis_send::Emit;

// Whether a step moved.
fn has_moved(stepped: Stepped) -> bool
    ensures { result ≡ has_moved stepped }
{
    matches!(stepped, Stepped::Moved)
}

// The stream whose turn it is puts its next column into the ring, where that is closed.
fn put<B: Backend, E: Emit<Out = B::Out>, K: PacketSink>(
    core: &mut CoreOf<Unheard, B, E>,
    antenna: u32,
    sink: &mut K,
) -> bool
    requires in_range { antenna < core.old.parts.plan.antennas }
    requires sink { K.begun sink.old ≡ true }
    ensures puts { (plan : Plan) (backend : B) (number : ℕ) (state : State)
        → IsAt B.value plan backend core.old number antenna state
        → antenna < plan.antennas → number < plan.accumulations
        → Puts B.value plan backend core.old core.new number antenna state
        (K.sent sink.old) (K.sent sink.new) (E.tally core.old.emit) (E.tally core.new.emit) result }
    ensures plan { core.new.parts.plan ≡ core.old.parts.plan }
    ensures backend { core.new.backend ≡ core.old.backend }
    ensures sink_begun { K.begun sink.new ≡ true }
    ensures sink_at { K.at sink.new ≡ K.at sink.old }
    ensures calm { K.faults sink.new ≡ K.faults sink.old }
{
    let stepped = core.step(Event::Put(antenna), sink);
    has_moved(stepped)
}

// The stream whose turn it is takes byte strings of its source until its column is in the ring. It
// takes none while a column is due.
fn gather<O: Observation, B: Backend, E: Emit<Out = B::Out>, S: PacketSource<O>, K: PacketSink>(
    core: &mut CoreOf<Unheard, B, E>,
    antenna: u32,
    sources: &mut [S],
    sink: &mut K,
    buf: &mut [u8; 65536],
)
    requires in_range { antenna < core.old.parts.plan.antennas }
    requires turn { CanTurn B.value core.old antenna }
    requires enough { core.old.parts.plan.antennas ≤ length sources.old }
    requires begun { AreBegun S.begun core.old.parts.plan.antennas sources.old }
    requires sink { K.begun sink.old ≡ true }
    ensures goes { (plan : Plan) (backend : B) (number : ℕ) (state : State)
        → IsAt B.value plan backend core.old number antenna state → number < plan.accumulations
        → Goes B.value S.gives S.given S.faults plan backend sources.old sources.new
        core.old core.new number (antenna + 1) state (K.sent sink.old) (K.sent sink.new)
        (E.tally core.old.emit) (E.tally core.new.emit) (λ all. []) }
    ensures sources { KeepsSources S.begun S.at S.gives S.belongs core.old.parts.plan.antennas
        sources.old sources.new }
    ensures plan { core.new.parts.plan ≡ core.old.parts.plan }
    ensures backend { core.new.backend ≡ core.old.backend }
    ensures sink_begun { K.begun sink.new ≡ true }
    ensures sink_at { K.at sink.new ≡ K.at sink.old }
    ensures calm { K.faults sink.new ≡ K.faults sink.old }
{
    'strings: while !put(core, antenna, sink) {
        hear::<O, B, E, S, K>(core, antenna, sources, sink, buf);
    }
}

/// Each stream takes byte strings of its source until its column of the next accumulation is in the
/// ring.
pub(crate) fn gather_all<
    O: Observation,
    B: Backend,
    E: Emit<Out = B::Out>,
    S: PacketSource<O>,
    K: PacketSink,
>(core: &mut CoreOf<Unheard, B, E>, sources: &mut [S], sink: &mut K, buf: &mut [u8; 65536])
    requires turn { CanTurn B.value core.old 0 }
    requires enough { core.old.parts.plan.antennas ≤ length sources.old }
    requires begun { AreBegun S.begun core.old.parts.plan.antennas sources.old }
    requires sink { K.begun sink.old ≡ true }
    ensures goes { (plan : Plan) (backend : B) (number : ℕ) (state : State)
        → IsAt B.value plan backend core.old number 0 state → number < plan.accumulations
        → Goes B.value S.gives S.given S.faults plan backend sources.old sources.new
        core.old core.new number plan.antennas state (K.sent sink.old) (K.sent sink.new)
        (E.tally core.old.emit) (E.tally core.new.emit) (λ all. []) }
    ensures sources { KeepsSources S.begun S.at S.gives S.belongs core.old.parts.plan.antennas
        sources.old sources.new }
    ensures plan { core.new.parts.plan ≡ core.old.parts.plan }
    ensures backend { core.new.backend ≡ core.old.backend }
    ensures sink_begun { K.begun sink.new ≡ true }
    ensures sink_at { K.at sink.new ≡ K.at sink.old }
    ensures calm { K.faults sink.new ≡ K.faults sink.old }
{
    let antennas = core.plan().antennas;
    for antenna in 0..antennas {
        gather::<O, B, E, S, K>(core, antenna, sources, sink, buf);
    }
}

// A stream takes byte strings of its source until it ends.
fn drain<O: Observation, B: Backend, E: Emit<Out = B::Out>, S: PacketSource<O>, K: PacketSink>(
    core: &mut CoreOf<Unheard, B, E>,
    antenna: u32,
    sources: &mut [S],
    sink: &mut K,
    buf: &mut [u8; 65536],
)
    requires in_range { antenna < core.old.parts.plan.antennas }
    requires sent { HasSentAll B.value core.old }
    requires enough { core.old.parts.plan.antennas ≤ length sources.old }
    requires begun { AreBegun S.begun core.old.parts.plan.antennas sources.old }
    requires sink { K.begun sink.old ≡ true }
    ensures over { is_some (end_of core.new.parts antenna) ≡ true }
    ensures goes { (plan : Plan) (backend : B) (state : State)
        → IsAt B.value plan backend core.old plan.accumulations 0 state
        → Goes B.value S.gives S.given S.faults plan backend sources.old sources.new
        core.old core.new plan.accumulations 0 state (K.sent sink.old) (K.sent sink.new)
        (E.tally core.old.emit) (E.tally core.new.emit) (λ all. []) }
    ensures sources { KeepsSources S.begun S.at S.gives S.belongs core.old.parts.plan.antennas
        sources.old sources.new }
    ensures plan { core.new.parts.plan ≡ core.old.parts.plan }
    ensures backend { core.new.backend ≡ core.old.backend }
    ensures sink_begun { K.begun sink.new ≡ true }
    ensures sink_at { K.at sink.new ≡ K.at sink.old }
    ensures calm { K.faults sink.new ≡ K.faults sink.old }
{
    'strings: while core.ended(antenna).is_none() {
        hear::<O, B, E, S, K>(core, antenna, sources, sink, buf);
    }
}

/// Each stream takes byte strings of its source until it ends.
pub(crate) fn drain_all<
    O: Observation,
    B: Backend,
    E: Emit<Out = B::Out>,
    S: PacketSource<O>,
    K: PacketSink,
>(core: &mut CoreOf<Unheard, B, E>, sources: &mut [S], sink: &mut K, buf: &mut [u8; 65536])
    requires sent { HasSentAll B.value core.old }
    requires enough { core.old.parts.plan.antennas ≤ length sources.old }
    requires begun { AreBegun S.begun core.old.parts.plan.antennas sources.old }
    requires sink { K.begun sink.old ≡ true }
    ensures over { (a : ℕ) → a < core.old.parts.plan.antennas
        → is_some (end_of core.new.parts a) ≡ true }
    ensures goes { (plan : Plan) (backend : B) (state : State)
        → IsAt B.value plan backend core.old plan.accumulations 0 state
        → Goes B.value S.gives S.given S.faults plan backend sources.old sources.new
        core.old core.new plan.accumulations 0 state (K.sent sink.old) (K.sent sink.new)
        (E.tally core.old.emit) (E.tally core.new.emit) (λ all. []) }
    ensures sources { KeepsSources S.begun S.at S.gives S.belongs core.old.parts.plan.antennas
        sources.old sources.new }
    ensures plan { core.new.parts.plan ≡ core.old.parts.plan }
    ensures backend { core.new.backend ≡ core.old.backend }
    ensures sink_begun { K.begun sink.new ≡ true }
    ensures sink_at { K.at sink.new ≡ K.at sink.old }
    ensures calm { K.faults sink.new ≡ K.faults sink.old }
{
    let antennas = core.plan().antennas;
    for antenna in 0..antennas {
        drain::<O, B, E, S, K>(core, antenna, sources, sink, buf);
    }
}
