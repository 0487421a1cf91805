//! All memory of a run, taken before the first byte string.

ghost use Rattle.std.specs.Prelude.{◌≡◌, ◌<◌, true, length, IfOk};
ghost use Rattle.corr_model.specs.Plans.{Fits};
ghost use Rattle.vis_send.specs.Marks.{nothing};

use corr_core::CoreOf;
use corr_model::{Plan, Unheard};
use corr_site::NoMemory;
use std::alloc::{AllocError, Global};
use std::marker::Model;
use stream_feed::StreamReport;
use vis_accum::Cross;
use vis_back::Backend;
use vis_send::{Emit, Sender};

/// What a run works with: a core that took nothing and sent nothing, and room for a report on each
/// stream. A contract sees its plan, its back end and its emitter.
#[derive(Drop)]
pub struct Prepared<B: Backend, E: Emit<Out = B::Out>> {
    pub(crate) core: CoreOf<Unheard, B, E>,
    pub(crate) reports: Vec<StreamReport>,
}

impl<B: Backend, E: Emit<Out = B::Out>> Model for Prepared<B, E> {
    ghost use Rattle.std.specs.Prelude.{length};
    ghost use Rattle.corr_serial.specs.Preparing.{PreparedView, IsPrepared};

    ghost Value = { PreparedView B E };

    ghost view = { λ p. record { plan = p.core.parts.plan; backend = p.core.backend; emit = p.core.emit } };

    ghost invariant = { λ p. IsPrepared B.value p.core (E.tally p.core.emit) (length p.reports.items) };
}

// Room for a report on each stream.
fn new_reports<B: Backend, E: Emit<Out = B::Out>>(
    alloc: Global,
    core: &CoreOf<Unheard, B, E>,
) -> Result<Vec<StreamReport>, AllocError>
    ensures { IfOk result (λ v. length v.items ≡ core.now.parts.plan.antennas) }
{
    let antennas = core.plan().antennas;
    let mut reports = Vec::with_capacity(alloc, antennas as usize)?;
    for antenna in 0..antennas {
        reports.push_reserved(core.report(antenna));
    }
    Ok(reports)
}

/// What a run of the plan works with, by this back end and this emitter. `NoMemory` comes only for
/// want of memory.
pub fn prepare_with<B: Backend, E: Emit<Out = B::Out>>(
    alloc: Global,
    plan: &Plan,
    backend: B,
    emit: E,
) -> Result<Prepared<B, E>, NoMemory>
    requires fits { Fits plan.now }
    requires suits { B.serves backend plan.now ≡ true }
    requires plan { E.of_plan emit ≡ plan.now }
    requires sent { E.tally emit ≡ nothing }
    ensures plan { IfOk result (λ p. p.plan ≡ plan.now) }
    ensures backend { IfOk result (λ p. p.backend ≡ backend) }
    ensures emit { IfOk result (λ p. p.emit ≡ emit) }
{
    let parts = corr_core::prepare_with::<Unheard, B, E>(alloc, plan, backend, emit)?;
    let core = CoreOf::new(parts);
    let reports = new_reports(alloc, &core)?;
    Ok(Prepared { core, reports })
}

/// What a run of the plan works with, by the plain back end and the sender of the output.
/// `NoMemory` comes only for want of memory.
pub fn prepare(alloc: Global, plan: &Plan) -> Result<Prepared<Cross, Sender>, NoMemory>
    requires { Fits plan.now }
    ensures plan { IfOk result (λ p. p.plan ≡ plan.now) }
    ensures sender { IfOk result (λ p. p.emit.plan ≡ plan.now) }
{
    let sender = Sender::new(alloc, plan)?;
    prepare_with(alloc, plan, Cross, sender)
}
