//! What sends an output, whatever the numbers of its heaps mean.

ghost use Rattle.std.specs.Prelude.{◌≡◌, ◌<◌, true};
ghost use Rattle.corr_site.specs.Outside.{HasCause};
ghost use Rattle.vis_send.specs.Sending.{Tallies};

use crate::sending::SinkFault;
use crate::tally::Sent;
use corr_site::PacketSink;
use vis_shape::Made;

/// What sends a head, a heap for each accumulation and a stop, and counts what it sent.
///
/// Each call that sends answers Ok where all of its strings were sent and counted. It answers
/// `SinkFault` only where the sink's count of faults rose in this call; then a front of its strings
/// was sent, and just that front was counted.
pub trait Emit: Drop {
    ghost use Rattle.std.specs.Prelude.{◌≡◌, ℕ, ℤ, List};
    ghost use Rattle.corr_model.specs.declared.plan.Plan.{Plan};
    ghost use Rattle.vis_send.specs.Emitters.{Strings};
    ghost use Rattle.vis_send.specs.declared.tally.Sent.{Sent as Tally};

    /// The value of an accumulation.
    type Out: Made;

    /// The plan for which it sends.
    ghost of_plan: { Self → Plan };
    /// The strings of the head.
    ghost head_list: { Self → List (List ℕ) };
    /// The strings of an accumulation, by its number and the sums of its value.
    ghost heap_list: { Self → ℕ → List ℤ → List (List ℕ) };
    /// The strings of the stop.
    ghost stop_list: { Self → List (List ℕ) };
    /// What was sent.
    ghost tally: { Self → Tally };
    /// The strings of every emitter of a plan.
    ghost strings: { Plan → Strings };

    /// Sends the head.
    fn head<K: PacketSink>(&mut self, sink: &mut K) -> Result<(), SinkFault>
        requires begun { K.begun sink.old ≡ true }
        ensures sent { Tallies (K.sent sink.old) (K.sent sink.new)
            (tally self.old) (tally self.new) result (head_list self.old) }
        ensures begun { K.begun sink.new ≡ true }
        ensures at { K.at sink.new ≡ K.at sink.old }
        ensures cause { HasCause (K.faults sink.old) (K.faults sink.new) result }
        ensures plan { of_plan self.new ≡ of_plan self.old }
        ensures heads { head_list self.new ≡ head_list self.old }
        ensures heaps { heap_list self.new ≡ heap_list self.old }
        ensures stops { stop_list self.new ≡ stop_list self.old };

    /// Sends the heap of an accumulation.
    fn heap<K: PacketSink>(
        &mut self,
        number: u64,
        out: &Self::Out,
        sink: &mut K,
    ) -> Result<(), SinkFault>
        requires number { number < (of_plan self.old).accumulations }
        requires made { (Self.Out.shown out.now).plan ≡ of_plan self.old }
        requires begun { K.begun sink.old ≡ true }
        ensures sent { Tallies (K.sent sink.old) (K.sent sink.new)
            (tally self.old) (tally self.new) result
            (heap_list self.old number (Self.Out.shown out.now).sums) }
        ensures begun { K.begun sink.new ≡ true }
        ensures at { K.at sink.new ≡ K.at sink.old }
        ensures cause { HasCause (K.faults sink.old) (K.faults sink.new) result }
        ensures plan { of_plan self.new ≡ of_plan self.old }
        ensures heads { head_list self.new ≡ head_list self.old }
        ensures heaps { heap_list self.new ≡ heap_list self.old }
        ensures stops { stop_list self.new ≡ stop_list self.old };

    /// Sends the stop.
    fn stop<K: PacketSink>(&mut self, sink: &mut K) -> Result<(), SinkFault>
        requires begun { K.begun sink.old ≡ true }
        ensures sent { Tallies (K.sent sink.old) (K.sent sink.new)
            (tally self.old) (tally self.new) result (stop_list self.old) }
        ensures begun { K.begun sink.new ≡ true }
        ensures at { K.at sink.new ≡ K.at sink.old }
        ensures cause { HasCause (K.faults sink.old) (K.faults sink.new) result }
        ensures plan { of_plan self.new ≡ of_plan self.old }
        ensures heads { head_list self.new ≡ head_list self.old }
        ensures heaps { heap_list self.new ≡ heap_list self.old }
        ensures stops { stop_list self.new ≡ stop_list self.old };

    /// The number, the bytes and the mark of all strings that were sent so far.
    fn sent(&self) -> Sent
        ensures { result ≡ tally self.now };

    /// The plan alone says the strings of the head.
    ghost head_by_plan: { (e : Self) → head_list e ≡ (strings (of_plan e)).head };
    /// The plan alone says the strings of each value.
    ghost heap_by_plan: { (e : Self) → heap_list e ≡ (strings (of_plan e)).heap };
    /// The plan alone says the strings of the stop.
    ghost stop_by_plan: { (e : Self) → stop_list e ≡ (strings (of_plan e)).stop };
}
