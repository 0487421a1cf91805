//! What the threads of a run do: a seat receives, a worker works, and the sender sends.

ghost use Rattle.std.specs.Prelude.{◌≡◌, true, false};

use crate::joins::{Job, Sending};
use crate::loops::{Context, receive, send, send_by_turns, work};
use corr_model::Observation;
use corr_site::{Gate, PacketSink, PacketSource};
use corr_threads::{Dispatch, Seat, Worker};
use std::sync::Wait;
use vis_back::Backend;
use vis_send::Emit;

impl<'a, O: Observation, B: Backend, G: Gate, S: PacketSource<O>> Job<Context<'a, O, B, G>>
    for Seat<O, S> {
    ghost use Rattle.std.specs.Prelude.{◌≡◌, Some};
    ghost use Rattle.corr_threads.specs.Receivers.{ReceiverView};
    ghost use Rattle.corr_parallel.specs.Seats.{IsSeated, LeavesSeat};

    ghost ready = { λ c s. IsSeated O.names O.plan S.begun S.belongs S.given s.source s.receiver };

    ghost done = { λ c s t. (v : ReceiverView) → s.receiver ≡ Some v
        → LeavesSeat O.names O.list S.begun S.at S.gives S.belongs S.given S.faults v
        s.source t.source t.receiver };

    fn run<R: Wait>(&mut self, rt: &R, shared: &Context<'a, O, B, G>) {
        if let Some(receiver) = &mut self.receiver {
            receive(rt, shared, receiver, &mut self.source);
        }
    }
}

impl<'a, O: Observation, B: Backend, G: Gate> Job<Context<'a, O, B, G>> for Worker<O, B> {
    ghost use Rattle.std.specs.Prelude.{◌≡◌, true};

    ghost ready = { λ c w. B.serves c.backend w.plan ≡ true };

    ghost done = { λ c w v. v.plan ≡ w.plan };

    fn run<R: Wait>(&mut self, rt: &R, shared: &Context<'a, O, B, G>) {
        work(rt, shared, self);
    }
}

impl<'a, O: Observation, B: Backend, G: Gate, E: Emit<Out = B::Out>> Sending<Context<'a, O, B, G>>
    for Dispatch<O, B, E> {
    ghost use Rattle.corr_parallel.specs.Senders.{HasSentAll, CanSend};

    ghost can_send = { λ c s. CanSend s };

    ghost sent = { λ c s t before after. HasSentAll
        (record { names = O.names; plan = O.plan; list = O.list; shows = B.shows; fixed = B.fixed })
        (E.strings s.plan) s t before after };

    fn send_all<K: PacketSink, R: Wait>(
        &mut self,
        rt: &R,
        shared: &Context<'a, O, B, G>,
        sink: &mut K,
    ) {
        send(rt, shared, self, sink);
    }
}

/// The sender with a worker of its own, for a run without threads for workers.
#[derive(Drop)]
pub struct ByTurns<O: Observation, B: Backend, E: Emit<Out = B::Out>> {
    /// The sender.
    pub dispatch: Dispatch<O, B, E>,
    /// Its worker.
    pub worker: Worker<O, B>,
}

impl<'a, O: Observation, B: Backend, G: Gate, E: Emit<Out = B::Out>> Sending<Context<'a, O, B, G>>
    for ByTurns<O, B, E> {
    ghost use Rattle.std.specs.Prelude.{◌≡◌, true};
    ghost use Rattle.corr_parallel.specs.Senders.{HasSentAll, CanSend};

    ghost can_send = { λ c s. (B.serves c.backend s.worker.plan ≡ true) × CanSend s.dispatch };

    ghost sent = { λ c s t before after. HasSentAll
        (record { names = O.names; plan = O.plan; list = O.list; shows = B.shows; fixed = B.fixed })
        (E.strings s.dispatch.plan) s.dispatch t.dispatch before after };

    fn send_all<K: PacketSink, R: Wait>(
        &mut self,
        rt: &R,
        shared: &Context<'a, O, B, G>,
        sink: &mut K,
    ) {
        send_by_turns(rt, shared, &mut self.worker, &mut self.dispatch, sink);
    }
}
