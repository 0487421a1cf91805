//! Two workers that compute at once.

ghost use Rattle.std.specs.Prelude.{◌≡◌, ◌≤◌, true, is_some, All, IfOk};
ghost use Rattle.std.specs.Vec.{vec_len};
ghost use Rattle.corr_model.specs.Plans.{Fits};

use crate::output::{HEAPS_AT_ZERO, ONE_HEAP_LOST, descriptors, stop, visibilities};
use crate::packets::{Strings, heap};
use corr_core::prepare_with;
use corr_model::{Observation, Plan, Unheard};
use corr_parallel::{share_with, threads_with};
use corr_serial::{Ran, correlate_serial, prepare};
use corr_site::{ListSink, ListSource, NoGate, PacketSink, PacketSource, Place};
use corr_threads::Seat;
use slot_column::Closed;
use std::alloc::{AllocError, Global};
use std::sync::atomic::{AtomicBool, AtomicU32, Ordering};
use std::sync::{Arc, Wait};
use std::test::Fail;
use std::thread::{Threads, yield_now};
use vis_accum::Cross;
use vis_back::Backend;
use vis_send::Sender;
use vis_shape::Visibility;

// Two antennas, one channel, one spectrum a heap, and two accumulations of two timestamps. Each
// accumulation has a slot, and there are two workers.
const PLAN: Plan = Plan {
    antennas: 2,
    channels: 1,
    spectra: 1,
    heaps: 2,
    accumulations: 2,
    lag: 1,
    window: 8,
    slots: 2,
    workers: 2,
    packet: 1024,
    heap_limit: 4100,
    beams: 0,
    step: 1,
    start: 0,
    leap: 0,
    packet_limit: 1000,
    preset: true,
};

// What two calls of `add` know of each other.
#[derive(Drop)]
struct Calls {
    begun: AtomicU32,
    alone: AtomicBool,
}

impl Calls {
    // Says that a call began, and waits until two have, for at most a million turns that each yield
    // the processor.
    fn meet(&self) {
        self.begun.fetch_add(1, Ordering::SeqCst);
        for _ in 0..1_000_000 {
            if 2 <= self.begun.load(Ordering::SeqCst) {
                return;
            }
            yield_now();
        }
        self.alone.store(true, Ordering::SeqCst);
    }
}

// The plain back end, which adds nothing before two calls have begun.
#[derive(Drop)]
struct Meeting {
    calls: Arc<Calls, Global>,
}

impl Backend for Meeting {
    ghost use Rattle.std.specs.Prelude.{true};
    ghost use Rattle.vis_value.specs.Crosses.{cross_value, cross_size};
    ghost use Rattle.vis_value.proofs.CrossLaws.{cross_splits, cross_local};
    ghost use Rattle.vis_value.proofs.BackLaws.{sized, starts};

    type Out = Visibility;

    ghost serves = { λ b p. true };

    ghost size = { cross_size };

    ghost value = { λ b p cs from to. cross_value p cs from to };

    ghost shows = { true };

    ghost fixed = { cross_value };

    fn suits(&self, plan: &Plan) -> bool {
        Cross.suits(plan)
    }

    fn make(&self, alloc: Global, plan: &Plan) -> Result<Visibility, AllocError> {
        Cross.make(alloc, plan)
    }

    fn clear(&self, out: &mut Visibility) {
        Cross.clear(out);
    }

    fn add<O: Observation>(&self, columns: &[Closed<O>], from: u32, to: u32, out: &mut Visibility) {
        self.calls.meet();
        Cross.add(columns, from, to, out);
    }

    fn added(&self, out: &Visibility) -> u32 {
        Cross.added(out)
    }

    ghost sized = { λ b p cs from to. sized p cs from to };

    ghost splits = { λ b p cs from mid to h k. cross_splits p cs from mid to h k };

    ghost starts = { λ b p cs from. starts p cs from };

    ghost local = { λ b p cs ds from to e. cross_local p cs ds from to e };
}

// A heap of antenna 0 at each of 0 to 3.
fn first_source(alloc: Global) -> Result<ListSource<Unheard>, Fail>
    ensures { IfOk result (λ s. is_some s.at ≡ true) }
{
    let mut strings = Strings::new(alloc);
    strings.add(heap(alloc, 1, 0, 0, [1, 2, 3, 0])?)?;
    strings.add(heap(alloc, 2, 1, 0, [0xff, 0, 0, 1])?)?;
    strings.add(heap(alloc, 3, 2, 0, [1, 2, 3, 0])?)?;
    strings.add(heap(alloc, 4, 3, 0, [0, 0, 0, 0])?)?;
    begun(alloc, strings, 0)
}

// A heap of antenna 1 at each of 0 to 3.
fn other_source(alloc: Global) -> Result<ListSource<Unheard>, Fail>
    ensures { IfOk result (λ s. is_some s.at ≡ true) }
{
    let mut strings = Strings::new(alloc);
    strings.add(heap(alloc, 1, 0, 1, [0, 1, 2, 0xff])?)?;
    strings.add(heap(alloc, 2, 1, 1, [0, 0, 0, 0])?)?;
    strings.add(heap(alloc, 3, 2, 1, [0, 1, 2, 0xff])?)?;
    strings.add(heap(alloc, 4, 3, 1, [0, 0, 0, 0])?)?;
    begun(alloc, strings, 1)
}

// The source of the strings, begun for an antenna.
fn begun(alloc: Global, strings: Strings, antenna: u32) -> Result<ListSource<Unheard>, Fail>
    ensures { IfOk result (λ s. is_some s.at ≡ true) }
{
    let place = Place::read(alloc, "in.cap")?;
    let mut source = strings.into_source(Vec::new(alloc), false);
    source.begin(antenna, &place)?;
    Ok(source)
}

// A sink that is begun, with room for more than is sent.
fn sink_of(alloc: Global) -> Result<ListSink, Fail>
    ensures { IfOk result (λ s. is_some s.at ≡ true) }
{
    let place = Place::read(alloc, "out.cap")?;
    let mut sink = ListSink::new(alloc, 8, 4096, Vec::new(alloc), false)?;
    sink.begin(&place)?;
    Ok(sink)
}

// What a run in threads by this back end sends.
fn by_threads<R: Threads + Wait + Sync>(
    rt: &R,
    alloc: Global,
    plan: &Plan,
    backend: Meeting,
) -> Result<ListSink, Fail>
    requires fits { Fits plan.now }
    requires two { plan.now.antennas ≡ 2 }
{
    let sender = Sender::new(alloc, plan)?;
    let prepared = prepare_with::<Unheard, Meeting, Sender>(alloc, plan, backend, sender)?;
    let shared = share_with(alloc, prepared)?;
    let mut seats = [
        Seat::new(first_source(alloc)?),
        Seat::new(other_source(alloc)?),
    ];
    let mut sink = sink_of(alloc)?;
    let outcome = threads_with(rt, shared, &mut seats, &mut sink, &NoGate);
    if outcome.ran != Ran::Done {
        return Err(Fail::from("a fault in threads"));
    }
    Ok(sink)
}

// What a run on one thread sends.
fn by_one(alloc: Global, plan: &Plan) -> Result<ListSink, Fail>
    requires fits { Fits plan.now }
    requires two { plan.now.antennas ≡ 2 }
{
    let prepared = prepare(alloc, plan)?;
    let mut sources = [first_source(alloc)?, other_source(alloc)?];
    let mut sink = sink_of(alloc)?;
    let outcome = correlate_serial::<Unheard, _, _>(prepared, &mut sources, &mut sink);
    if outcome.ran != Ran::Done {
        return Err(Fail::from("a fault on one thread"));
    }
    Ok(sink)
}

// The datagrams, worked out by hand: of each accumulation's second timestamp the samples of
// antenna 1 are 0, and of the last one those of antenna 0 too.
fn wanted(alloc: Global) -> Result<Vec<Vec<u8>>, AllocError> {
    let head = descriptors(alloc, 1)?;
    let first = visibilities(alloc, 2, 0, &ONE_HEAP_LOST, [0, 0, 0])?;
    let second = visibilities(alloc, 3, 2, &HEAPS_AT_ZERO, [0, 0, 0])?;
    let end = stop(alloc, 4)?;
    Ok(vec![in alloc; head, first, second, end]?)
}

#[test]
fn two_workers_compute_at_once(rt: HostRuntime) -> Result<(), Fail> {
    let alloc = rt.alloc();
    assert!(rt; PLAN.fits());
    let calls = Arc::new(
        alloc,
        Calls {
            begun: AtomicU32::new(0),
            alone: AtomicBool::new(false),
        },
    )?;
    let backend = Meeting {
        calls: Arc::try_clone(&calls)?,
    };
    let sent = by_threads(&rt, alloc, &PLAN, backend)?;
    assert_eq!(rt; calls.begun.load(Ordering::SeqCst), 2);
    assert!(rt; !calls.alone.load(Ordering::SeqCst));
    let serial = by_one(alloc, &PLAN)?;
    assert_eq!(rt; sent.len(), serial.len());
    let wanted = wanted(alloc)?;
    assert_eq!(rt; sent.len(), wanted.len());
    for number in 0..wanted.len() {
        assert_eq!(rt; sent.string(number), serial.string(number));
        assert_eq!(rt; sent.string(number), Some(wanted[number].as_slice()));
    }
    Ok(())
}
