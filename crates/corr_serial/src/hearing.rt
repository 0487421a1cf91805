//! Byte strings of the sources into the core.

ghost use Rattle.std.specs.Prelude.{◌≡◌, ◌<◌, ◌≤◌, ℕ, true, length};
ghost use Rattle.corr_model.specs.declared.plan.Plan.{Plan};
ghost use Rattle.corr_machine.specs.Machines.{State, stream_at, is_ready};
ghost use Rattle.corr_serial.specs.Sources.{AreBegun, KeepsSource, KeepsSources};
ghost use Rattle.corr_serial.specs.Going.{IsAt, ListensOn, HearsNext};

use corr_core::{CoreOf, Event};
use corr_model::{Ending, Observation, Unheard};
use corr_site::{Next, PacketSink, PacketSource};
use vis_back::Backend;
use vis_send::Emit;

// A stream takes the next byte string of its source, or the end where there is none.
fn listen<O: Observation, B: Backend, E: Emit<Out = B::Out>, S: PacketSource<O>, K: PacketSink>(
    core: &mut CoreOf<Unheard, B, E>,
    antenna: u32,
    source: &mut S,
    sink: &mut K,
    buf: &mut [u8; 65536],
)
    requires in_range { antenna < core.old.parts.plan.antennas }
    requires begun { S.begun source.old ≡ true }
    requires sink { K.begun sink.old ≡ true }
    ensures listens { (plan : Plan) (backend : B) (number turn : ℕ) (state : State)
        → IsAt B.value plan backend core.old number turn state
        → is_ready plan antenna (stream_at state antenna) ≡ true
        → ListensOn B.value plan backend core.old core.new number turn state antenna
        (S.gives source.old) (S.given source.old) (S.given source.new)
        (S.faults source.old) (S.faults source.new) (K.sent sink.old) (K.sent sink.new)
        (E.tally core.old.emit) (E.tally core.new.emit) }
    ensures source { KeepsSource S.begun S.at S.gives S.belongs source.old source.new }
    ensures plan { core.new.parts.plan ≡ core.old.parts.plan }
    ensures backend { core.new.backend ≡ core.old.backend }
    ensures sink_begun { K.begun sink.new ≡ true }
    ensures sink_at { K.at sink.new ≡ K.at sink.old }
    ensures calm { K.faults sink.new ≡ K.faults sink.old }
{
    match source.next(buf) {
        Next::Packet(len) => {
            let (bytes, _) = buf.split_at(len);
            core.step(Event::Packet(antenna, bytes), sink);
        }
        Next::End => {
            core.step(Event::End(antenna, Ending::End), sink);
        }
        Next::Failed => {
            core.step(Event::End(antenna, Ending::Fault), sink);
        }
    }
}

/// The stream of an antenna takes the next byte string of its source, or the end where there is
/// none.
pub(crate) fn hear<
    O: Observation,
    B: Backend,
    E: Emit<Out = B::Out>,
    S: PacketSource<O>,
    K: PacketSink,
>(
    core: &mut CoreOf<Unheard, B, E>,
    antenna: u32,
    sources: &mut [S],
    sink: &mut K,
    buf: &mut [u8; 65536],
)
    requires in_range { antenna < core.old.parts.plan.antennas }
    requires enough { core.old.parts.plan.antennas ≤ length sources.old }
    requires begun { AreBegun S.begun core.old.parts.plan.antennas sources.old }
    requires sink { K.begun sink.old ≡ true }
    ensures hears { (plan : Plan) (backend : B) (number turn : ℕ) (state : State)
        → IsAt B.value plan backend core.old number turn state
        → is_ready plan antenna (stream_at state antenna) ≡ true
        → HearsNext B.value S.gives S.given S.faults plan backend sources.old sources.new
        core.old core.new number turn state antenna (K.sent sink.old) (K.sent sink.new)
        (E.tally core.old.emit) (E.tally core.new.emit) }
    ensures sources { KeepsSources S.begun S.at S.gives S.belongs core.old.parts.plan.antennas
        sources.old sources.new }
    ensures plan { core.new.parts.plan ≡ core.old.parts.plan }
    ensures backend { core.new.backend ≡ core.old.backend }
    ensures sink_begun { K.begun sink.new ≡ true }
    ensures sink_at { K.at sink.new ≡ K.at sink.old }
    ensures calm { K.faults sink.new ≡ K.faults sink.old }
{
    listen::<O, B, E, S, K>(core, antenna, &mut sources[antenna as usize], sink, buf);
}
