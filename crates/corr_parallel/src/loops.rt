//! What each actor of a run does to its end: its turns, and a pause after each that waits.

ghost use Rattle.std.specs.Prelude.{◌≡◌, ◌≢◌, ◌↔◌, true, false, None, is_some, MatchBool};
ghost use Rattle.corr_serial.specs.Sources.{KeepsSource, RisesIf};
ghost use Rattle.corr_serial.specs.Hearing.{is_fault};
ghost use Rattle.corr_threads.specs.declared.turn.Turn.{Turn};
ghost use Rattle.corr_threads.specs.Receivers.{SourceTold, KeepsStream, HasReadAll};
ghost use Rattle.corr_parallel.specs.Senders.{SentSoFar};

use corr_model::Observation;
use corr_site::{ActorKind, Gate, PacketSink, PacketSource};
use corr_threads::{Dispatch, Receiver, Turn, Worker};
use slot_share::Share;
use std::sync::Wait;
use vis_back::Backend;
use vis_send::Emit;

/// What all threads of a run share.
#[derive(Drop)]
pub struct Context<'a, O: Observation, B: Backend, G: Gate> {
    /// The ring.
    pub share: Share<O, B>,
    /// What makes the values.
    pub backend: B,
    /// What each actor passes before each of its turns.
    pub gate: &'a G,
}

// Whether an actor of this kind goes on after this turn. After one that waits it waits for a change
// of the ring that can end its wait: `seen` is the count of such changes that was known before the
// turn, so that none is missed.
fn goes_on<O: Observation, B: Backend, R: Wait>(
    rt: &R,
    share: &Share<O, B>,
    kind: ActorKind,
    turn: Turn,
    seen: &mut u64,
) -> bool
    ensures { MatchBool result (turn ≢ Turn.Done) (turn ≡ Turn.Done) }
{
    match turn {
        Turn::Moved => true,
        Turn::Waits => {
            *seen = share.pause_for(rt, kind, *seen);
            true
        }
        Turn::Done => false,
    }
}

// What became of a worker's and the sender's turn together: the sender's, but that neither waits
// where the worker moved.
fn of_both(worked: Turn, sent: Turn) -> Turn
    ensures done { (result ≡ Turn.Done) ↔ (sent ≡ Turn.Done) }
    ensures waits { result ≡ Turn.Waits → (sent ≡ Turn.Waits) × (worked ≢ Turn.Moved) }
{
    match (worked, sent) {
        (Turn::Moved, Turn::Waits) => Turn::Moved,
        _ => sent,
    }
}

// Takes one stream to its end, and places its columns.
pub(crate) fn receive<O: Observation, B: Backend, S: PacketSource<O>, G: Gate, R: Wait>(
    rt: &R,
    shared: &Context<'_, O, B, G>,
    receiver: &mut Receiver<O>,
    source: &mut S,
)
    requires begun { S.begun source.old ≡ true }
    requires plan { O.names ≡ true → receiver.old.plan ≡ O.plan }
    requires told { O.names ≡ true → SourceTold S.belongs S.given source.old receiver.old }
    requires unended { receiver.old.feed.report.ended ≡ None }
    ensures keeps { KeepsStream receiver.old receiver.new }
    ensures source { KeepsSource S.begun S.at S.gives S.belongs source.old source.new }
    ensures over { is_some receiver.new.feed.report.ended ≡ true }
    ensures cause { RisesIf (is_fault receiver.new.feed.report.ended)
        (S.faults source.old) (S.faults source.new) }
    ensures told { O.names ≡ true → SourceTold S.belongs S.given source.new receiver.new }
    ensures read { O.names ≡ true → HasReadAll (O.list receiver.new.antenna) receiver.new }
{
    let mut seen = 0;
    for _ in rt.forever() {
        let turn = receiver.turn(rt, &shared.share, source, shared.gate);
        if !goes_on(rt, &shared.share, ActorKind::Receive, turn, &mut seen) {
            break;
        }
    }
    let _ended = receiver.ended();
}

// Works until nothing is left.
pub(crate) fn work<O: Observation, B: Backend, G: Gate, R: Wait>(
    rt: &R,
    shared: &Context<'_, O, B, G>,
    worker: &mut Worker<O, B>,
)
    requires { B.serves shared.now.backend worker.old.plan ≡ true }
    ensures { worker.new.plan ≡ worker.old.plan }
{
    let mut seen = 0;
    for _ in rt.forever() {
        let turn = worker.turn(rt, &shared.share, &shared.backend, shared.gate);
        if !goes_on(rt, &shared.share, ActorKind::Work, turn, &mut seen) {
            break;
        }
    }
}

// Takes the results to the last.
pub(crate) fn send<
    O: Observation,
    B: Backend,
    E: Emit<Out = B::Out>,
    K: PacketSink,
    G: Gate,
    R: Wait,
>(rt: &R, shared: &Context<'_, O, B, G>, dispatch: &mut Dispatch<O, B, E>, sink: &mut K)
    requires begun { K.begun sink.old ≡ true }
    requires new { (dispatch.old.passed ≡ 0) × (dispatch.old.broken ≡ false) }
    ensures sent { SentSoFar
        (record { names = O.names; plan = O.plan; list = O.list; shows = B.shows; fixed = B.fixed })
        (E.strings dispatch.old.plan) dispatch.old dispatch.new
        (record { sent = K.sent sink.old; faults = K.faults sink.old })
        (record { sent = K.sent sink.new; faults = K.faults sink.new }) }
    ensures all { dispatch.new.passed ≡ dispatch.new.plan.accumulations }
    ensures begun { K.begun sink.new ≡ true }
    ensures at { K.at sink.new ≡ K.at sink.old }
{
    let mut seen = 0;
    for _ in rt.forever() {
        let turn = dispatch.turn(rt, &shared.share, sink, shared.gate);
        if !goes_on(rt, &shared.share, ActorKind::Send, turn, &mut seen) {
            break;
        }
    }
}

// Takes the results to the last, by turns with one worker, and then takes the worker to its end.
pub(crate) fn send_by_turns<
    O: Observation,
    B: Backend,
    E: Emit<Out = B::Out>,
    K: PacketSink,
    G: Gate,
    R: Wait,
>(
    rt: &R,
    shared: &Context<'_, O, B, G>,
    worker: &mut Worker<O, B>,
    dispatch: &mut Dispatch<O, B, E>,
    sink: &mut K,
)
    requires begun { K.begun sink.old ≡ true }
    requires suits { B.serves shared.now.backend worker.old.plan ≡ true }
    requires new { (dispatch.old.passed ≡ 0) × (dispatch.old.broken ≡ false) }
    ensures sent { SentSoFar
        (record { names = O.names; plan = O.plan; list = O.list; shows = B.shows; fixed = B.fixed })
        (E.strings dispatch.old.plan) dispatch.old dispatch.new
        (record { sent = K.sent sink.old; faults = K.faults sink.old })
        (record { sent = K.sent sink.new; faults = K.faults sink.new }) }
    ensures all { dispatch.new.passed ≡ dispatch.new.plan.accumulations }
    ensures begun { K.begun sink.new ≡ true }
    ensures at { K.at sink.new ≡ K.at sink.old }
{
    let mut seen = 0;
    for _ in rt.forever() {
        let worked = worker.turn(rt, &shared.share, &shared.backend, shared.gate);
        let turn = dispatch.turn(rt, &shared.share, sink, shared.gate);
        // The sender waits for what this thread's worker stores, so both wait for columns.
        let both = of_both(worked, turn);
        if !goes_on(rt, &shared.share, ActorKind::Work, both, &mut seen) {
            break;
        }
    }
    work(rt, shared, worker);
}
