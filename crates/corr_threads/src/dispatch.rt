//! The sender: the actor that takes the results from the ring in order, and sends them.

ghost use Rattle.std.specs.Prelude.{◌≡◌, true, false, None};
ghost use Rattle.corr_model.specs.Plans.{Fits};
ghost use Rattle.corr_threads.specs.Dispatches.{DispatchTurn};

use crate::turn::Turn;
use corr_core::emit_with;
use corr_model::{Observation, Plan};
use corr_site::{Actor, ActorKind, Gate, PacketSink};
use slot_ring::{Gave, Held, Outgoing};
use slot_share::Share;
use std::marker::Model;
use std::sync::Wait;
use vis_back::Backend;
use vis_send::{Emit, Sent};

/// What the sending thread has of its own.
#[derive(Drop)]
pub struct Dispatch<O: Observation, B: Backend, E: Emit<Out = B::Out>> {
    plan: Plan,
    outgoing: Outgoing<O, B>,
    emit: E,
    passed: u64,
    broken: bool,
    held: Option<Held>,
}

impl<O: Observation, B: Backend, E: Emit<Out = B::Out>> Model for Dispatch<O, B, E> {
    ghost use Rattle.corr_threads.specs.Dispatches.{DispatchView, IsDispatch};

    ghost Value = { DispatchView };

    ghost view = { λ s. record {
      plan = s.plan;
      outgoing = s.outgoing;
      sent = E.tally s.emit;
      passed = s.passed;
      broken = s.broken;
      held = s.held;
    } };

    ghost invariant = { λ s. IsDispatch (E.of_plan s.emit) (record {
      plan = s.plan;
      outgoing = s.outgoing;
      sent = E.tally s.emit;
      passed = s.passed;
      broken = s.broken;
      held = s.held;
    }) };
}

impl<O: Observation, B: Backend, E: Emit<Out = B::Out>> Dispatch<O, B, E> {
    /// The sender that took nothing yet.
    pub fn new(plan: &Plan, outgoing: Outgoing<O, B>, emit: E) -> Dispatch<O, B, E>
        requires fits { Fits plan.now }
        requires same_plan { outgoing.plan ≡ plan.now }
        requires emit_plan { E.of_plan emit ≡ plan.now }
        ensures { result ≡ record {
          plan = plan.now;
          outgoing = outgoing;
          sent = E.tally emit;
          passed = 0;
          broken = false;
          held = None;
        } }
    {
        Dispatch {
            plan: *plan,
            outgoing,
            emit,
            passed: 0,
            broken: false,
            held: None,
        }
    }

    /// One turn: the next result is taken from the ring, and sent while the sink has not failed. It
    /// passes the gate first, and waits for nothing else but the ring's lock and the sink.
    pub fn turn<K: PacketSink, G: Gate, R: Wait>(
        &mut self,
        rt: &R,
        share: &Share<O, B>,
        sink: &mut K,
        gate: &G,
    ) -> Turn
        requires begun { K.begun sink.old ≡ true }
        ensures turn { DispatchTurn
            (record { names = O.names; plan = O.plan; list = O.list; shows = B.shows; fixed = B.fixed })
            (E.strings self.old.plan) self.old result self.new
            (K.sent sink.old) (K.sent sink.new) (K.faults sink.old) (K.faults sink.new) }
        ensures begun { K.begun sink.new ≡ true }
        ensures at { K.at sink.new ≡ K.at sink.old }
    {
        gate.pass(Actor {
            kind: ActorKind::Send,
            number: 0,
        });
        if self.passed >= u64::from(self.plan.accumulations) {
            return Turn::Done;
        }
        match share.send(rt, self.passed, &mut self.outgoing) {
            Gave::Given => {
                if self.broken {
                    self.passed += 1;
                    return Turn::Moved;
                }
                let out = self.outgoing.out();
                let written = emit_with(&mut self.emit, &self.plan, self.passed, out, sink);
                self.broken = written.is_err();
                self.passed += 1;
                Turn::Moved
            }
            Gave::Not(held) => {
                self.held = Some(held);
                Turn::Waits
            }
        }
    }

    /// How many results it took from the ring.
    pub fn passed(&self) -> u64
        ensures { result ≡ self.now.passed }
    {
        self.passed
    }

    /// Whether the sink failed.
    pub fn is_broken(&self) -> bool
        ensures { result ≡ self.now.broken }
    {
        self.broken
    }

    /// The number, the bytes and the mark of what was sent.
    pub fn sent(&self) -> Sent
        ensures { result ≡ self.now.sent }
    {
        self.emit.sent()
    }

    /// What the slot showed that refused last.
    pub fn held(&self) -> Option<Held>
        ensures { result ≡ self.now.held }
    {
        self.held
    }
}
