//! Runs on real threads, over byte strings that were worked out by hand.

ghost use Rattle.std.specs.Prelude.{◌≡◌, is_some, true, IfOk};
ghost use Rattle.corr_model.specs.Plans.{Fits};

use crate::{correlate_threads, share};
use corr_core::prepare;
use corr_model::{Observation, Plan, Unheard};
use corr_serial::{Outcome, Ran};
use corr_site::{Failed, ListSink, Next, NoGate, PacketSink, PacketSource, Place};
use corr_threads::Seat;
use std::alloc::Global;
use std::sync::Wait;
use std::test::Fail;
use std::thread::Threads;
use vis_send::Sent;

// Two antennas, one channel, one spectrum a heap, and two timestamps in one accumulation.
const PLAN: Plan = Plan {
    antennas: 2,
    channels: 1,
    spectra: 1,
    heaps: 2,
    accumulations: 1,
    lag: 1,
    window: 8,
    slots: 1,
    workers: 0,
    packet: 1024,
    heap_limit: 4100,
    beams: 0,
    step: 1,
    start: 0,
    leap: 0,
    packet_limit: 1000,
    preset: true,
};

// Two heaps of antenna 0: (1 + 2i, 3) at 0 and (-1, i) at 1.
const FIRST: [&[u8]; 2] = [
    b"\x53\x04\x02\x06\0\0\0\x07\x80\x01\0\0\0\0\0\x01\x80\x02\0\0\0\0\0\x04\x80\x03\0\0\0\0\0\0\
      \x80\x04\0\0\0\0\0\x04\x96\0\0\0\0\0\0\0\xc1\x01\0\0\0\0\0\0\x43\0\0\0\0\0\0\0\x01\x02\x03\0",
    b"\x53\x04\x02\x06\0\0\0\x07\x80\x01\0\0\0\0\0\x02\x80\x02\0\0\0\0\0\x04\x80\x03\0\0\0\0\0\0\
      \x80\x04\0\0\0\0\0\x04\x96\0\0\0\0\0\0\x01\xc1\x01\0\0\0\0\0\0\x43\0\0\0\0\0\0\0\xff\0\0\x01",
];

// One heap of antenna 1: (i, 2 - i) at 0. Its heap at 1 is lost.
const SECOND: [&[u8]; 1] = [
    b"\x53\x04\x02\x06\0\0\0\x07\x80\x01\0\0\0\0\0\x01\x80\x02\0\0\0\0\0\x04\x80\x03\0\0\0\0\0\0\
      \x80\x04\0\0\0\0\0\x04\x96\0\0\0\0\0\0\0\xc1\x01\0\0\0\0\0\x01\x43\0\0\0\0\0\0\0\0\x01\x02\xff",
];

// What is sent of both: 352, 268 and 48 bytes.
const ALL_SENT: Sent = Sent {
    packets: 3,
    bytes: 668,
    mark: 0x4e4e_a930_18d6_ba56,
};

// A source that gives these byte strings, and tells nothing of them.
#[derive(Drop)]
struct Strings {
    list: &'static [&'static [u8]],
    given: usize,
}

impl Strings {
    // A source that gave nothing yet.
    fn new(list: &'static [&'static [u8]]) -> Strings {
        Strings { list, given: 0 }
    }
}

impl<O: Observation> PacketSource<O> for Strings {
    ghost use Rattle.std.specs.Prelude.{None, true};

    ghost gives = { λ s. None };

    ghost given = { λ s. 0 };

    ghost begun = { λ s. true };

    ghost at = { λ s. None };

    ghost belongs = { λ s a. ⊥ };

    ghost faults = { λ s. 0 };

    fn begin(&mut self, _antenna: u32, _place: &Place) -> Result<(), Failed> {
        Ok(())
    }

    fn next(&mut self, buf: &mut [u8; 65536]) -> Next {
        let list = self.list;
        match list.get(self.given) {
            Some(string) if string.len() < 65536 => {
                self.given = self.given.saturating_add(1);
                buf[..string.len()].copy_from_slice(string);
                Next::Packet(string.len())
            }
            _ => Next::End,
        }
    }

    ghost belongs_tells = { λ s a h. absurd h };
}

// A sink with room for what is sent.
fn sink_of(alloc: Global) -> Result<ListSink, Fail>
    ensures { IfOk result (λ s. is_some s.at ≡ true) }
{
    let place = Place::read(alloc, "out.cap")?;
    let mut sink = ListSink::new(alloc, 3, 668, Vec::new(alloc), false)?;
    sink.begin(&place)?;
    Ok(sink)
}

// A run of the plan over both lists: what it came to.
fn run<R: Threads + Wait + Sync>(rt: &R, alloc: Global, plan: &Plan) -> Result<Outcome, Fail>
    requires fits { Fits plan.now }
    requires two { plan.now.antennas ≡ 2 }
{
    let prepared = prepare::<Unheard>(alloc, plan)?;
    let shared = share(alloc, prepared)?;
    let mut seats = [
        Seat::new(Strings::new(&FIRST)),
        Seat::new(Strings::new(&SECOND)),
    ];
    let mut sink = sink_of(alloc)?;
    Ok(correlate_threads(rt, shared, &mut seats, &mut sink, &NoGate))
}

// The plan with so many workers.
fn plan_of(workers: u32) -> Plan
    ensures { result.antennas ≡ 2 }
{
    Plan { workers, ..PLAN }
}

#[test]
fn no_worker_one_and_four_send_the_same(rt: HostRuntime) -> Result<(), Fail> {
    for workers in [0, 1, 4] {
        let plan = plan_of(workers);
        assert!(rt; plan.fits());
        let outcome = run(&rt, rt.alloc(), &plan)?;
        assert_eq!(rt; outcome.ran, Ran::Done);
        assert_eq!(rt; outcome.sent, ALL_SENT);
    }
    Ok(())
}
