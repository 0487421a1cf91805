//! What is sent with one value: its heap, before the first the head, and after the last the stop.

ghost use Rattle.std.specs.Prelude.{◌≡◌, ◌<◌, ◌+◌, ◌==◌, if◌then◌else◌, [], true};
ghost use Rattle.corr_site.specs.Outside.{HasCause};
ghost use Rattle.vis_send.specs.Sending.{Tallies};
ghost use Rattle.corr_core.specs.Sends.{sent_together};

use corr_model::Plan;
use corr_site::PacketSink;
use vis_send::{Emit, SinkFault};
use vis_shape::Made;

// Before the first number the head.
fn emit_first<E: Emit, K: PacketSink>(
    emit: &mut E,
    plan: &Plan,
    number: u64,
    sink: &mut K,
) -> Result<(), SinkFault>
    requires begun { K.begun sink.old ≡ true }
    requires plan { E.of_plan emit.old ≡ plan.now }
    ensures sent { Tallies (K.sent sink.old) (K.sent sink.new) (E.tally emit.old) (E.tally emit.new)
        result (if number == 0 then (E.strings plan.now).head else []) }
    ensures begun { K.begun sink.new ≡ true }
    ensures at { K.at sink.new ≡ K.at sink.old }
    ensures cause { HasCause (K.faults sink.old) (K.faults sink.new) result }
    ensures same { E.of_plan emit.new ≡ plan.now }
{
    if number == 0 {
        return emit.head(sink);
    }
    Ok(())
}

// The heap of a number.
fn emit_heap<M: Made, E: Emit<Out = M>, K: PacketSink>(
    emit: &mut E,
    plan: &Plan,
    number: u64,
    out: &M,
    sink: &mut K,
) -> Result<(), SinkFault>
    requires begun { K.begun sink.old ≡ true }
    requires plan { E.of_plan emit.old ≡ plan.now }
    requires out { (M.shown out.now).plan ≡ plan.now }
    requires in_range { number < plan.now.accumulations }
    ensures sent { Tallies (K.sent sink.old) (K.sent sink.new) (E.tally emit.old) (E.tally emit.new)
        result ((E.strings plan.now).heap number (M.shown out.now).sums) }
    ensures begun { K.begun sink.new ≡ true }
    ensures at { K.at sink.new ≡ K.at sink.old }
    ensures cause { HasCause (K.faults sink.old) (K.faults sink.new) result }
    ensures same { E.of_plan emit.new ≡ plan.now }
{
    emit.heap(number, out, sink)
}

// After the last number the stop.
fn emit_last<E: Emit, K: PacketSink>(
    emit: &mut E,
    plan: &Plan,
    number: u64,
    sink: &mut K,
) -> Result<(), SinkFault>
    requires begun { K.begun sink.old ≡ true }
    requires plan { E.of_plan emit.old ≡ plan.now }
    requires in_range { number < plan.now.accumulations }
    ensures sent { Tallies (K.sent sink.old) (K.sent sink.new) (E.tally emit.old) (E.tally emit.new)
        result (if number + 1 == plan.now.accumulations then (E.strings plan.now).stop else []) }
    ensures begun { K.begun sink.new ≡ true }
    ensures at { K.at sink.new ≡ K.at sink.old }
    ensures cause { HasCause (K.faults sink.old) (K.faults sink.new) result }
    ensures same { E.of_plan emit.new ≡ plan.now }
{
    let accumulations = u64::from(plan.accumulations);
    if number + 1 == accumulations {
        return emit.stop(sink);
    }
    Ok(())
}

/// Sends the heap of a number, before the first the head, and after the last the stop. `SinkFault`
/// comes only where the sink's count of faults rose; then a front of these strings was sent.
pub fn emit_with<M: Made, E: Emit<Out = M>, K: PacketSink>(
    emit: &mut E,
    plan: &Plan,
    number: u64,
    out: &M,
    sink: &mut K,
) -> Result<(), SinkFault>
    requires begun { K.begun sink.old ≡ true }
    requires plan { E.of_plan emit.old ≡ plan.now }
    requires out { (M.shown out.now).plan ≡ plan.now }
    requires in_range { number < plan.now.accumulations }
    ensures sent { Tallies (K.sent sink.old) (K.sent sink.new) (E.tally emit.old) (E.tally emit.new)
        result (sent_together plan.now (E.strings plan.now) number (M.shown out.now).sums) }
    ensures begun { K.begun sink.new ≡ true }
    ensures at { K.at sink.new ≡ K.at sink.old }
    ensures cause { HasCause (K.faults sink.old) (K.faults sink.new) result }
    ensures same { E.of_plan emit.new ≡ plan.now }
{
    emit_first(emit, plan, number, sink)?;
    emit_heap(emit, plan, number, out, sink)?;
    emit_last(emit, plan, number, sink)
}
