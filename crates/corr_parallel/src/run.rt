//! A run: a thread for each stream and each worker, and the sender in the calling thread.

ghost use Rattle.std.specs.Prelude.{◌≡◌, ◌≤◌, ◌<◌, ℕ, List, true, false, All, length, vec_len, slice_index_or, Some};
ghost use Rattle.corr_model.specs.Outputs.{output};
ghost use Rattle.corr_site.specs.Outside.{Rose};
ghost use Rattle.vis_send.specs.Emitters.{output_of};
ghost use Rattle.slot_ring.specs.Means.{meant};
ghost use Rattle.corr_serial.specs.Sources.{AreBegun, AreSameFrom, KeepsEach, KeepsBelonging};
ghost use Rattle.corr_serial.specs.Runs.{AreGiven, GaveTaken, NoneRose, IsWhole, SendsBy, SendsOutput, RanHasCause};
ghost use Rattle.corr_serial.specs.Runs.{AreReports, AreWholeReports, known, list_of};
ghost use Rattle.corr_parallel.specs.Seats.{IsSeated, LeavesSeat};
ghost use Rattle.corr_parallel.specs.Senders.{CanSend, HasCounted, HasSentAll};
ghost use Rattle.corr_parallel.specs.Runs.{AreObserved};
ghost use Rattle.corr_threads.specs.Receivers.{ReceiverView};

use crate::jobs::ByTurns;
use crate::joins::{run_beside, run_seats};
use crate::loops::Context;
use crate::seating::{take_reports, take_seats};
use crate::shared::{Shared, SharedOf};
use corr_model::Observation;
use corr_serial::{Outcome, Ran, Reports, first_fault, ran_as};
use corr_site::{Gate, PacketSink, PacketSource};
use corr_threads::{Dispatch, Seat, Worker};
use std::sync::Wait;
use std::thread::Threads;
use stream_feed::StreamReport;
use vis_accum::Cross;
use vis_back::Backend;
use vis_send::{Emit, Sender};

// Runs the seats and the workers beside the sender, or without workers in the plan, the seats alone
// beside the sender, which then drives one worker by turns.
fn run_actors<
    O: Observation + Send + Sync,
    B: Backend + Send + Sync,
    E: Emit<Out = B::Out>,
    S: PacketSource<O> + Send,
    K: PacketSink,
    G: Gate + Sync,
    R: Threads + Wait + Sync,
>(
    rt: &R,
    context: &Context<'_, O, B, G>,
    mut workers: Vec<Worker<O, B>>,
    seats: &mut [Seat<O, S>],
    mut dispatch: Dispatch<O, B, E>,
    by_turns: bool,
    sink: &mut K,
) -> Dispatch<O, B, E>
where
    B::Out: Send,
    requires some { (0 < vec_len workers) × (0 < length seats.old) }
    requires workers { All (λ w. B.serves context.now.backend w.plan ≡ true) workers.items }
    requires seats { All
        (λ s. IsSeated O.names O.plan S.begun S.belongs S.given s.source s.receiver)
        seats.old }
    requires sink { K.begun sink.old ≡ true }
    requires new { CanSend dispatch }
    ensures sent { HasSentAll
        (record { names = O.names; plan = O.plan; list = O.list; shows = B.shows; fixed = B.fixed })
        (E.strings dispatch.plan) dispatch result
        (record { sent = K.sent sink.old; faults = K.faults sink.old })
        (record { sent = K.sent sink.new; faults = K.faults sink.new }) }
    ensures seats { (a : ℕ) (d : _) (v : ReceiverView) → a < length seats.old
        → (slice_index_or seats.old a d).receiver ≡ Some v
        → LeavesSeat O.names O.list S.begun S.at S.gives S.belongs S.given S.faults v
        (slice_index_or seats.old a d).source (slice_index_or seats.new a d).source
        (slice_index_or seats.new a d).receiver }
    ensures begun { K.begun sink.new ≡ true }
    ensures at { K.at sink.new ≡ K.at sink.old }
{
    if !by_turns {
        run_beside(rt, context, &mut workers, seats, &mut dispatch, sink);
        return dispatch;
    }
    match workers.pop() {
        Some(worker) => {
            let mut sender = ByTurns { dispatch, worker };
            run_seats(rt, context, seats, &mut sender, sink);
            sender.dispatch
        }
        None => unreachable!(),
    }
}

/// A run in threads: one for each antenna's stream, with its source, and one for each worker, while
/// the calling thread sends; without workers in the plan it works too, by turns. It returns when
/// each stream was read to its end and all results were taken, also where the sink failed. It takes
/// no memory.
///
/// A source that fails ends its own stream alone. After `SinkFault` nothing more is sent.
///
/// Where the observation names its lists, its plan is that of the run and its sources are these, so
/// what is sent is what the lists define, whatever order the threads take their steps in, and
/// however many workers there are.
pub fn threads_with<
    O: Observation + Send + Sync,
    B: Backend + Send + Sync,
    E: Emit<Out = B::Out>,
    S: PacketSource<O> + Send,
    K: PacketSink,
    G: Gate + Sync,
    R: Threads + Wait + Sync,
>(rt: &R, shared: SharedOf<O, B, E>, seats: &mut [Seat<O, S>], sink: &mut K, gate: &G) -> Outcome
where
    B::Out: Send,
    requires enough { shared.plan.antennas ≤ length seats.old }
    requires begun { AreBegun (λ s. S.begun s.source) shared.plan.antennas seats.old }
    requires sink { K.begun sink.old ≡ true }
    requires observed { O.names ≡ true
        → AreObserved shared.plan (λ s. S.belongs s.source) (λ s. S.given s.source) seats.old }

    // What stays.
    ensures length { length seats.new ≡ length seats.old }
    ensures later { AreSameFrom shared.plan.antennas seats.old seats.new }
    ensures begun { AreBegun (λ s. S.begun s.source) shared.plan.antennas seats.new }
    ensures at { KeepsEach (λ s. S.at s.source) seats.old seats.new }
    ensures gives { KeepsEach (λ s. S.gives s.source) seats.old seats.new }
    ensures belongs { KeepsBelonging (λ s. S.belongs s.source) seats.old seats.new }
    ensures sink_begun { K.begun sink.new ≡ true }
    ensures sink_at { K.at sink.new ≡ K.at sink.old }

    // What is sent, what is taken, and what is reported.
    ensures observed { O.names ≡ true → B.shows ≡ true
        → SendsBy result.ran (K.sent sink.old) (K.sent sink.new) result.sent
        (output_of (E.strings shared.plan) shared.plan
        (meant (record {
          names = O.names;
          plan = O.plan;
          list = O.list;
          shows = B.shows;
          fixed = B.fixed;
        }))) }
    ensures counted { HasCounted (K.sent sink.old) (K.sent sink.new) result.sent }
    ensures taken { GaveTaken shared.plan (known O.names (λ s. S.gives s.source))
        (λ s. S.given s.source) seats.old seats.new }
    ensures reports { AreReports shared.plan (known O.names (λ s. S.gives s.source))
        (λ s. S.given s.source) (λ s. S.faults s.source) seats.old seats.new result.reports }
    ensures whole_reports { AreWholeReports shared.plan (known O.names (λ s. S.gives s.source))
        (λ s. S.given s.source) seats.old result.reports }

    // The causes.
    ensures cause { RanHasCause (λ s. S.faults s.source) shared.plan.antennas seats.old seats.new
        (K.faults sink.old) (K.faults sink.new) result.ran }
    ensures done { NoneRose shared.plan (λ s. S.faults s.source) seats.old seats.new
        → (Rose (K.faults sink.old) (K.faults sink.new) → ⊥) → result.ran ≡ Ran.Done }
{
    let SharedOf {
        plan,
        share,
        receivers,
        workers,
        dispatch,
        backend,
        mut reports,
        ..
    } = shared;
    let context = Context {
        share,
        backend,
        gate,
    };
    let own = &mut seats[..plan.antennas as usize];
    take_seats(receivers, own);
    let dispatch = run_actors(
        rt,
        &context,
        workers,
        own,
        dispatch,
        plan.workers == 0,
        sink,
    );
    take_reports(own, &mut reports);
    let ran = ran_as(!dispatch.is_broken(), first_fault(&reports));
    Outcome {
        ran,
        sent: dispatch.sent(),
        reports: Reports::of(reports),
    }
}

/// A run in threads with the plain back end and the sender of the output.
///
/// Where the observation names its lists, what is sent is the output of the definitions for these
/// lists, whatever order the threads take their steps in, and however many workers there are: all
/// of it, or after `SinkFault` a front.
pub fn correlate_threads<
    O: Observation + Send + Sync,
    S: PacketSource<O> + Send,
    K: PacketSink,
    G: Gate + Sync,
    R: Threads + Wait + Sync,
>(rt: &R, shared: Shared<O>, seats: &mut [Seat<O, S>], sink: &mut K, gate: &G) -> Outcome
    requires enough { shared.plan.antennas ≤ length seats.old }
    requires begun { AreBegun (λ s. S.begun s.source) shared.plan.antennas seats.old }
    requires sink { K.begun sink.old ≡ true }
    requires observed { O.names ≡ true
        → AreObserved shared.plan (λ s. S.belongs s.source) (λ s. S.given s.source) seats.old }

    // What stays.
    ensures length { length seats.new ≡ length seats.old }
    ensures later { AreSameFrom shared.plan.antennas seats.old seats.new }
    ensures begun { AreBegun (λ s. S.begun s.source) shared.plan.antennas seats.new }
    ensures at { KeepsEach (λ s. S.at s.source) seats.old seats.new }
    ensures gives { KeepsEach (λ s. S.gives s.source) seats.old seats.new }
    ensures belongs { KeepsBelonging (λ s. S.belongs s.source) seats.old seats.new }
    ensures sink_begun { K.begun sink.new ≡ true }
    ensures sink_at { K.at sink.new ≡ K.at sink.old }

    // What is sent, what is taken, and what is reported.
    ensures sends { (lists : List (List (List ℕ)))
        → AreGiven shared.plan (known O.names (λ s. S.gives s.source)) (λ s. S.given s.source)
        seats.old lists
        → SendsBy result.ran (K.sent sink.old) (K.sent sink.new) result.sent
        (output shared.plan (list_of lists)) }
    ensures observed { O.names ≡ true
        → SendsBy result.ran (K.sent sink.old) (K.sent sink.new) result.sent
        (output O.plan O.list) }
    ensures counted { O.names ≡ true → IsWhole result.ran
        → SendsOutput shared.plan (K.sent sink.old) (K.sent sink.new) result.sent }
    ensures taken { GaveTaken shared.plan (known O.names (λ s. S.gives s.source))
        (λ s. S.given s.source) seats.old seats.new }
    ensures reports { AreReports shared.plan (known O.names (λ s. S.gives s.source))
        (λ s. S.given s.source) (λ s. S.faults s.source) seats.old seats.new result.reports }
    ensures whole_reports { AreWholeReports shared.plan (known O.names (λ s. S.gives s.source))
        (λ s. S.given s.source) seats.old result.reports }

    // The causes.
    ensures cause { RanHasCause (λ s. S.faults s.source) shared.plan.antennas seats.old seats.new
        (K.faults sink.old) (K.faults sink.new) result.ran }
    ensures done { NoneRose shared.plan (λ s. S.faults s.source) seats.old seats.new
        → (Rose (K.faults sink.old) (K.faults sink.new) → ⊥) → result.ran ≡ Ran.Done }
{
    threads_with(rt, shared, seats, sink, gate)
}
