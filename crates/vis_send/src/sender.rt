//! The output of a run: the descriptor heap, a visibility heap for each accumulation, the stop heap.

ghost use Rattle.std.specs.Prelude.{◌≡◌, ◌+◌, ◌*◌, ◌<◌, true, length, IfOk};
ghost use Rattle.corr_model.specs.Plans.{Fits, visibility_bytes, value_bytes};
ghost use Rattle.corr_model.specs.Outputs.{head_packets, stop_packets, packets_of, visibility_pointers};
ghost use Rattle.corr_site.specs.Outside.{HasCause};
ghost use Rattle.vis_shape.specs.Shapes.{shown_of};
ghost use Rattle.vis_shape.specs.Payloads.{sums_packets, sums_payload};
ghost use Rattle.vis_send.specs.Marks.{nothing};
ghost use Rattle.vis_send.specs.Sending.{Tallies};

use crate::draft::Draft;
use crate::emit::Emit;
use crate::heap_sender::{OutputHeap, PACKET_ROOM, send_heap};
use crate::output_items::put_descriptors;
use crate::payload::Payload;
use crate::sending::SinkFault;
use crate::tally::Sent;
use crate::visibilities::{put_missing, put_values};
use corr_model::{Plan, Pointer};
use corr_site::{NoMemory, PacketSink};
use std::alloc::Global;
use std::marker::Model;
use vis_shape::{Visibility, baselines};

/// What sends the output of a plan: the descriptor heap, a visibility heap for each accumulation and
/// the stop heap. It counts what it sent, and takes no memory once it is made.
#[derive(Drop)]
pub struct Sender {
    plan: Plan,
    payload: Payload,
    sent: Sent,
}

impl Model for Sender {
    ghost use Rattle.vis_send.specs.Senders.{Sending, IsReady};

    ghost Value = { Sending };

    ghost view = { λ s. record { plan = s.plan; sent = s.sent } };

    ghost invariant = { λ s. IsReady s.plan s.payload };
}

// The bytes of an accumulation's values.
fn value_bytes(plan: &Plan) -> u64
    requires { Fits plan.now }
    ensures { result ≡ value_bytes plan.now }
{
    64 * u64::from(plan.channels) * u64::from(baselines(plan))
}

// The first timestamp of an accumulation.
fn first_timestamp(plan: &Plan, number: u64) -> u64
    requires fits { Fits plan.now }
    requires number { number < plan.now.accumulations }
    ensures { result ≡ plan.now.start + number * plan.now.heaps * plan.now.step }
{
    plan.start + number * u64::from(plan.heaps) * plan.step
}

impl Sender {
    /// One that sent nothing yet, with room for a visibility heap. `NoMemory` comes only for want of
    /// memory.
    pub fn new(alloc: Global, plan: &Plan) -> Result<Sender, NoMemory>
        requires { Fits plan.now }
        ensures { IfOk result (λ s. s ≡ record { plan = plan.now; sent = nothing }) }
    {
        let bytes = value_bytes(plan) + 4 * u64::from(baselines(plan));
        let payload = Payload::new(alloc, bytes as usize)?;
        Ok(Sender {
            plan: *plan,
            payload,
            sent: Sent::nothing(),
        })
    }
}

// Sends the descriptor heap.
fn send_head<K: PacketSink>(plan: &Plan, sent: &mut Sent, sink: &mut K) -> Result<(), SinkFault>
    requires fits { Fits plan.now }
    requires begun { K.begun sink.old ≡ true }
    ensures sent { Tallies (K.sent sink.old) (K.sent sink.new) sent.old sent.new result
        (head_packets plan.now) }
    ensures begun { K.begun sink.new ≡ true }
    ensures at { K.at sink.new ≡ K.at sink.old }
    ensures cause { HasCause (K.faults sink.old) (K.faults sink.new) result }
{
    let mut packet = [0; PACKET_ROOM];
    let mut descriptors = Draft::new();
    put_descriptors(plan, &mut descriptors);
    let heap = OutputHeap {
        counter: 1,
        pointers: &[
            Pointer::addressed(5, 0),
            Pointer::addressed(5, 84),
            Pointer::addressed(5, 199),
        ],
        payload: descriptors.as_slice(),
    };
    send_heap(plan, &heap, &mut packet, sent, sink)
}

// Puts the values and the missing counts of a value.
fn put_visibility(visibility: &Visibility, payload: &mut Payload)
    requires room { payload.old.room ≡ visibility_bytes visibility.now.plan }
    ensures room { payload.new.room ≡ payload.old.room }
    ensures bytes { payload.new.bytes
        ≡ sums_payload visibility.now.plan (shown_of visibility.now).sums }
    ensures size { length payload.new.bytes ≡ visibility_bytes visibility.now.plan }
{
    payload.clear();
    put_values(&visibility.plan, &visibility.values, payload);
    put_missing(&visibility.missing, payload);
}

// Sends the visibility heap of an accumulation.
fn send_visibility<K: PacketSink>(
    plan: &Plan,
    number: u64,
    payload: &[u8],
    sent: &mut Sent,
    sink: &mut K,
) -> Result<(), SinkFault>
    requires fits { Fits plan.now }
    requires number { number < plan.now.accumulations }
    requires size { length payload.now ≡ visibility_bytes plan.now }
    requires begun { K.begun sink.old ≡ true }
    ensures sent { Tallies (K.sent sink.old) (K.sent sink.new) sent.old sent.new result
        (packets_of plan.now (number + 2) (visibility_pointers plan.now number) payload.now) }
    ensures begun { K.begun sink.new ≡ true }
    ensures at { K.at sink.new ≡ K.at sink.old }
    ensures cause { HasCause (K.faults sink.old) (K.faults sink.new) result }
{
    let mut packet = [0; PACKET_ROOM];
    let heap = OutputHeap {
        counter: number + 2,
        pointers: &[
            Pointer::immediate(0x1600, first_timestamp(plan, number)),
            Pointer::addressed(0x1800, 0),
            Pointer::addressed(0x1801, value_bytes(plan)),
        ],
        payload,
    };
    send_heap(plan, &heap, &mut packet, sent, sink)
}

// Sends the stop heap.
fn send_stop<K: PacketSink>(plan: &Plan, sent: &mut Sent, sink: &mut K) -> Result<(), SinkFault>
    requires fits { Fits plan.now }
    requires begun { K.begun sink.old ≡ true }
    ensures sent { Tallies (K.sent sink.old) (K.sent sink.new) sent.old sent.new result
        (stop_packets plan.now) }
    ensures begun { K.begun sink.new ≡ true }
    ensures at { K.at sink.new ≡ K.at sink.old }
    ensures cause { HasCause (K.faults sink.old) (K.faults sink.new) result }
{
    let mut packet = [0; PACKET_ROOM];
    let heap = OutputHeap {
        counter: u64::from(plan.accumulations) + 2,
        pointers: &[Pointer::immediate(6, 2)],
        payload: &[],
    };
    send_heap(plan, &heap, &mut packet, sent, sink)
}

impl Emit for Sender {
    ghost use Rattle.std.proofs.Common.{refl};
    ghost use Rattle.corr_model.specs.Outputs.{head_packets, stop_packets};
    ghost use Rattle.vis_shape.specs.Payloads.{sums_packets};
    ghost use Rattle.vis_send.specs.Emitters.{sender_strings};

    type Out = Visibility;

    ghost of_plan = { λ s. s.plan };

    ghost head_list = { λ s. head_packets s.plan };

    ghost heap_list = { λ s n sums. sums_packets s.plan n sums };

    ghost stop_list = { λ s. stop_packets s.plan };

    ghost tally = { λ s. s.sent };

    ghost strings = { sender_strings };

    fn head<K: PacketSink>(&mut self, sink: &mut K) -> Result<(), SinkFault> {
        send_head(&self.plan, &mut self.sent, sink)
    }

    fn heap<K: PacketSink>(
        &mut self,
        number: u64,
        out: &Visibility,
        sink: &mut K,
    ) -> Result<(), SinkFault> {
        put_visibility(out, &mut self.payload);
        send_visibility(
            &self.plan,
            number,
            self.payload.as_slice(),
            &mut self.sent,
            sink,
        )
    }

    fn stop<K: PacketSink>(&mut self, sink: &mut K) -> Result<(), SinkFault> {
        send_stop(&self.plan, &mut self.sent, sink)
    }

    fn sent(&self) -> Sent {
        self.sent
    }

    ghost head_by_plan = { λ e. refl };

    ghost heap_by_plan = { λ e. refl };

    ghost stop_by_plan = { λ e. refl };
}
