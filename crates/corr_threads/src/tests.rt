//! All actors by turns on one thread, over byte strings that were worked out by hand.

ghost use Rattle.std.specs.Prelude.{◌≡◌, ◌<◌, ◌∷◌, [], Some, true, is_some, IfOk};
ghost use Rattle.corr_model.specs.Plans.{Fits};
ghost use Rattle.corr_site.specs.Memory.{source_given, source_gives};

use crate::{Dispatch, Receiver, Turn, Worker};
use corr_model::{Observation, Plan};
use corr_site::{ListSink, ListSource, NoGate, PacketSink, PacketSource, Place};
use slot_column::{Closed, Column};
use slot_ring::{Kind, Outgoing, Ring, Work};
use slot_share::Share;
use std::alloc::Global;
use std::sync::Wait;
use std::test::Fail;
use stream_feed::{Ending, Feed};
use vis_accum::Cross;
use vis_back::Backend;
use vis_send::{Sender, Sent};

// Two antennas, one channel, one spectrum a heap, and two timestamps in one accumulation.
const PLAN: Plan = Plan {
    antennas: 2,
    channels: 1,
    spectra: 1,
    heaps: 2,
    accumulations: 1,
    lag: 1,
    window: 8,
    slots: 1,
    workers: 0,
    packet: 1024,
    heap_limit: 4100,
    beams: 0,
    step: 1,
    start: 0,
    leap: 0,
    packet_limit: 1000,
    preset: true,
};

// Two heaps of antenna 0: (1 + 2i, 3) at 0 and (-1, i) at 1.
const FIRST: [u8; 68] = [
    0x53, 4, 2, 6, 0, 0, 0, 7, 0x80, 1, 0, 0, 0, 0, 0, 1, 0x80, 2, 0, 0, 0, 0, 0, 4, 0x80, 3, 0, 0,
    0, 0, 0, 0, 0x80, 4, 0, 0, 0, 0, 0, 4, 0x96, 0, 0, 0, 0, 0, 0, 0, 0xc1, 1, 0, 0, 0, 0, 0, 0,
    0x43, 0, 0, 0, 0, 0, 0, 0, 1, 2, 3, 0,
];

const SECOND: [u8; 68] = [
    0x53, 4, 2, 6, 0, 0, 0, 7, 0x80, 1, 0, 0, 0, 0, 0, 2, 0x80, 2, 0, 0, 0, 0, 0, 4, 0x80, 3, 0, 0,
    0, 0, 0, 0, 0x80, 4, 0, 0, 0, 0, 0, 4, 0x96, 0, 0, 0, 0, 0, 0, 1, 0xc1, 1, 0, 0, 0, 0, 0, 0,
    0x43, 0, 0, 0, 0, 0, 0, 0, 0xff, 0, 0, 1,
];

// One heap of antenna 1: (i, 2 - i) at 0. Its heap at 1 is lost.
const OTHER: [u8; 68] = [
    0x53, 4, 2, 6, 0, 0, 0, 7, 0x80, 1, 0, 0, 0, 0, 0, 1, 0x80, 2, 0, 0, 0, 0, 0, 4, 0x80, 3, 0, 0,
    0, 0, 0, 0, 0x80, 4, 0, 0, 0, 0, 0, 4, 0x96, 0, 0, 0, 0, 0, 0, 0, 0xc1, 1, 0, 0, 0, 0, 0, 1,
    0x43, 0, 0, 0, 0, 0, 0, 0, 0, 1, 2, 0xff,
];

// What is sent of both: 352, 268 and 48 bytes.
const ALL_SENT: Sent = Sent {
    packets: 3,
    bytes: 668,
    mark: 0x4e4e_a930_18d6_ba56,
};

// The plan and the two lists.
#[derive(Drop)]
struct OneHeapLost;

impl Observation for OneHeapLost {
    ghost use Rattle.std.specs.Prelude.{true, ◌∷◌, [], ◌==◌, if◌then◌else◌};
    ghost use Rattle.corr_threads.specs.declared.tests.TheConstants.{PLAN, FIRST, SECOND, OTHER};

    ghost names = { true };

    ghost plan = { PLAN };

    ghost list = { λ a. if a == 0 then FIRST ∷ SECOND ∷ [] else OTHER ∷ [] };
}

// A stream: its receiver, and a source that gives what the receiver is to take.
#[derive(Drop)]
struct Stream<O: Observation> {
    receiver: Receiver<O>,
    source: ListSource<O>,
    ghost begun: { is_some source.at ≡ true },
    ghost plan: { O.names ≡ true → receiver.plan ≡ O.plan },
    ghost gives: { O.names ≡ true → Some (source_gives source) ≡ Some (O.list receiver.antenna) },
    ghost given: { O.names ≡ true → source_given source ≡ receiver.feed.report.taken },
}

impl<O: Observation> Stream<O> {
    // The stream of an antenna, of which nothing was taken yet.
    #[tactic(auto, using(crate::proofs::ReceiverLemmas::none_taken))]
    fn new(
        alloc: Global,
        plan: &Plan,
        antenna: u32,
        source: ListSource<O>,
    ) -> Result<Stream<O>, Fail>
        requires fits { Fits plan.now }
        requires in_range { antenna < plan.now.antennas }
        requires begun { is_some source.at ≡ true }
        requires plan { O.names ≡ true → plan.now ≡ O.plan }
        requires gives { O.names ≡ true → source_gives source ≡ O.list antenna }
        requires given { source_given source ≡ 0 }
    {
        let feed = Feed::new(alloc, plan, antenna)?;
        let hand = Closed::spare(Column::new(alloc, plan)?);
        let receiver = Receiver::new(alloc, plan, antenna, feed, hand)?;
        Ok(Stream { receiver, source })
    }

    // One turn of its receiver.
    fn turn<B: Backend, R: Wait>(&mut self, rt: &R, share: &Share<O, B>) -> Turn {
        self.receiver.turn(rt, share, &mut self.source, &NoGate)
    }
}

// The actors of a run with one worker, what they share, and what each answered last: the receivers,
// the worker, the sender.
#[derive(Drop)]
struct Actors<O: Observation> {
    share: Share<O, Cross>,
    streams: [Stream<O>; 2],
    worker: Worker<O, Cross>,
    dispatch: Dispatch<O, Cross, Sender>,
    sink: ListSink,
    answers: [Turn; 4],
    ghost begun: { is_some sink.at ≡ true },
}

// The source of antenna 0.
fn first_source(alloc: Global) -> Result<ListSource<OneHeapLost>, Fail>
    ensures begun { IfOk result (λ s. is_some s.at ≡ true) }
    ensures given { IfOk result (λ s. source_given s ≡ 0) }
    ensures gives { IfOk result (λ s. source_gives s ≡ FIRST ∷ SECOND ∷ []) }
{
    let place = Place::read(alloc, "a.cap")?;
    let list = vec![in alloc; FIRST.to_vec(alloc)?, SECOND.to_vec(alloc)?]?;
    let mut source = ListSource::new(list, Vec::new(alloc), false);
    source.begin(0, &place)?;
    Ok(source)
}

// The source of antenna 1.
fn other_source(alloc: Global) -> Result<ListSource<OneHeapLost>, Fail>
    ensures begun { IfOk result (λ s. is_some s.at ≡ true) }
    ensures given { IfOk result (λ s. source_given s ≡ 0) }
    ensures gives { IfOk result (λ s. source_gives s ≡ OTHER ∷ []) }
{
    let place = Place::read(alloc, "b.cap")?;
    let list = vec![in alloc; OTHER.to_vec(alloc)?]?;
    let mut source = ListSource::new(list, Vec::new(alloc), false);
    source.begin(1, &place)?;
    Ok(source)
}

// A sink whose calls of `send` with these numbers fail.
fn sink_of(alloc: Global, fails: Vec<u64>) -> Result<ListSink, Fail>
    ensures { IfOk result (λ s. is_some s.at ≡ true) }
{
    let place = Place::read(alloc, "out.cap")?;
    let mut sink = ListSink::new(alloc, 3, 668, fails, false)?;
    sink.begin(&place)?;
    Ok(sink)
}

// The stream of antenna 0.
fn first_stream(alloc: Global, plan: &Plan) -> Result<Stream<OneHeapLost>, Fail>
    requires fits { Fits plan.now }
    requires named { plan.now ≡ PLAN }
{
    Stream::new(alloc, plan, 0, first_source(alloc)?)
}

// The stream of antenna 1.
fn other_stream(alloc: Global, plan: &Plan) -> Result<Stream<OneHeapLost>, Fail>
    requires fits { Fits plan.now }
    requires named { plan.now ≡ PLAN }
{
    Stream::new(alloc, plan, 1, other_source(alloc)?)
}

impl<O: Observation> Actors<O> {
    // Those of the plan, over these streams. The sink's calls with these numbers fail.
    fn new(
        alloc: Global,
        plan: &Plan,
        streams: [Stream<O>; 2],
        fails: Vec<u64>,
    ) -> Result<Actors<O>, Fail>
        requires { Fits plan.now }
    {
        let work = Work::new(alloc, plan, &Cross)?;
        let outgoing = Outgoing::new(alloc, plan, &Cross)?;
        let sender = Sender::new(alloc, plan)?;
        Ok(Actors {
            share: Share::new(Ring::new(alloc, plan, &Cross)?),
            streams,
            worker: Worker::new(alloc, 0, plan, work)?,
            dispatch: Dispatch::new(plan, outgoing, sender),
            sink: sink_of(alloc, fails)?,
            answers: [Turn::Moved; 4],
        })
    }

    // One turn of each actor that has not answered Done.
    fn round<R: Wait>(&mut self, rt: &R) {
        for antenna in 0..2 {
            if self.answers[antenna] != Turn::Done {
                self.answers[antenna] = self.streams[antenna].turn(rt, &self.share);
            }
        }
        if self.answers[2] != Turn::Done {
            self.answers[2] = self.worker.turn(rt, &self.share, &Cross, &NoGate);
        }
        if self.answers[3] != Turn::Done {
            self.answers[3] = self.dispatch.turn(rt, &self.share, &mut self.sink, &NoGate);
        }
    }

    // So many rounds, and what each actor answered last.
    fn rounds<R: Wait>(&mut self, rt: &R, count: u32) -> [Turn; 4] {
        for _ in 0..count {
            self.round(rt);
        }
        self.answers
    }

    // The number and the kind of what the sender was shown last.
    fn shown(&self) -> Option<(u64, Kind)> {
        let held = self.dispatch.held()?;
        Some((held.number, held.kind))
    }

    // How long the first datagrams are.
    fn lens(&self) -> [Option<usize>; 4] {
        [0, 1, 2, 3].map(|number| self.sink.string(number).map(<[u8]>::len))
    }

    // How many heaps of a stream were used, how many of its columns placed, and how it ended.
    fn read(&self, antenna: usize) -> Option<(u64, u64, Option<Ending>)> {
        let receiver = &self.streams.get(antenna)?.receiver;
        Some((receiver.report().used, receiver.placed(), receiver.ended()))
    }
}

// The actors over both streams.
fn actors_of(alloc: Global, plan: &Plan, fails: Vec<u64>) -> Result<Actors<OneHeapLost>, Fail>
    requires fits { Fits plan.now }
    requires named { plan.now ≡ PLAN }
{
    let first = first_stream(alloc, plan)?;
    let other = other_stream(alloc, plan)?;
    Actors::new(alloc, plan, [first, other], fails)
}

#[test]
fn turns_on_one_thread(rt: HostRuntime) -> Result<(), Fail> {
    assert!(rt; PLAN.fits());
    let mut actors = actors_of(rt.alloc(), &PLAN, Vec::new(rt.alloc()))?;
    assert_eq!(rt;
        actors.rounds(&rt, 1),
        [Turn::Moved, Turn::Moved, Turn::Waits, Turn::Waits]
    );
    assert_eq!(rt; actors.shown(), Some((0, Kind::Filling)));
    assert_eq!(rt; actors.rounds(&rt, 7), [Turn::Done; 4]);
    assert_eq!(rt; actors.dispatch.sent(), ALL_SENT);
    assert_eq!(rt; actors.lens(), [Some(352), Some(268), Some(48), None]);
    Ok(())
}

#[test]
fn after_a_sink_fault_all_is_taken_and_nothing_sent(rt: HostRuntime) -> Result<(), Fail> {
    assert!(rt; PLAN.fits());
    let fails = vec![in rt.alloc(); 1]?;
    let mut actors = actors_of(rt.alloc(), &PLAN, fails)?;
    assert_eq!(rt; actors.rounds(&rt, 8), [Turn::Done; 4]);
    assert!(rt; actors.dispatch.is_broken());
    assert_eq!(rt; actors.dispatch.passed(), 1);
    assert_eq!(rt; actors.worker.computed(), 1);
    assert_eq!(rt; actors.lens(), [Some(352), None, None, None]);
    assert_eq!(rt; actors.read(0), Some((2, 1, Some(Ending::End))));
    assert_eq!(rt; actors.read(1), Some((1, 1, Some(Ending::End))));
    Ok(())
}
