//! The serial run over byte strings that were worked out by hand.

ghost use Rattle.std.specs.Prelude.{◌≡◌};

use crate::{Outcome, Ran, correlate_serial, prepare};
use corr_model::{Observation, Plan, Unheard};
use corr_site::{Failed, Next, NoMemory, PacketSink, PacketSource, Place};
use std::alloc::Global;
use std::test::Fail;
use stream_feed::Ending;
use vis_send::Sent;

// Two antennas, one channel, one spectrum a heap, and two timestamps in one accumulation.
const ONE_ACCUMULATION: Plan = Plan {
    antennas: 2,
    channels: 1,
    spectra: 1,
    heaps: 2,
    accumulations: 1,
    lag: 1,
    window: 8,
    slots: 1,
    workers: 0,
    packet: 1024,
    heap_limit: 4100,
    beams: 0,
    step: 1,
    start: 0,
    leap: 0,
    packet_limit: 1000,
    preset: true,
};

// Two heaps of antenna 0: (1 + 2i, 3) at 0 and (-1, i) at 1.
const FIRST: [&[u8]; 2] = [
    b"\x53\x04\x02\x06\0\0\0\x07\x80\x01\0\0\0\0\0\x01\x80\x02\0\0\0\0\0\x04\x80\x03\0\0\0\0\0\0\
      \x80\x04\0\0\0\0\0\x04\x96\0\0\0\0\0\0\0\xc1\x01\0\0\0\0\0\0\x43\0\0\0\0\0\0\0\x01\x02\x03\0",
    b"\x53\x04\x02\x06\0\0\0\x07\x80\x01\0\0\0\0\0\x02\x80\x02\0\0\0\0\0\x04\x80\x03\0\0\0\0\0\0\
      \x80\x04\0\0\0\0\0\x04\x96\0\0\0\0\0\0\x01\xc1\x01\0\0\0\0\0\0\x43\0\0\0\0\0\0\0\xff\0\0\x01",
];

// One heap of antenna 1: (i, 2 - i) at 0. Its heap at 1 is lost.
const SECOND: [&[u8]; 1] = [
    b"\x53\x04\x02\x06\0\0\0\x07\x80\x01\0\0\0\0\0\x01\x80\x02\0\0\0\0\0\x04\x80\x03\0\0\0\0\0\0\
      \x80\x04\0\0\0\0\0\x04\x96\0\0\0\0\0\0\0\xc1\x01\0\0\0\0\0\x01\x43\0\0\0\0\0\0\0\0\x01\x02\xff",
];

// What is sent of both: 352, 268 and 48 bytes.
const ALL_SENT: Sent = Sent {
    packets: 3,
    bytes: 668,
    mark: 0x4e4e_a930_18d6_ba56,
};

// A source that gives these byte strings, and then ends or fails.
#[derive(Drop)]
struct Strings {
    list: &'static [&'static [u8]],
    given: usize,
    fails: bool,
    faults: u64,
}

impl Strings {
    fn new(list: &'static [&'static [u8]], fails: bool) -> Strings {
        Strings {
            list,
            given: 0,
            fails,
            faults: 0,
        }
    }
}

impl<O: Observation> PacketSource<O> for Strings {
    ghost use Rattle.std.specs.Prelude.{None, true};

    ghost gives = { λ s. None };

    ghost given = { λ s. 0 };

    ghost begun = { λ s. true };

    ghost at = { λ s. None };

    ghost belongs = { λ s a. ⊥ };

    ghost faults = { λ s. s.faults };

    fn begin(&mut self, _antenna: u32, _place: &Place) -> Result<(), Failed> {
        Ok(())
    }

    fn next(&mut self, buf: &mut [u8; 65536]) -> Next {
        let list = self.list;
        match list.get(self.given) {
            Some(string) if string.len() < 65536 => {
                self.given = self.given.saturating_add(1);
                buf[..string.len()].copy_from_slice(string);
                Next::Packet(string.len())
            }
            _ if self.fails => {
                self.faults = self.faults.saturating_add(1);
                Next::Failed
            }
            _ => Next::End,
        }
    }

    ghost belongs_tells = { λ s a h. absurd h };
}

// A sink that takes so many byte strings, and then fails.
#[derive(Drop)]
struct Room {
    strings: u64,
    faults: u64,
}

impl PacketSink for Room {
    ghost use Rattle.std.specs.Prelude.{None, true};

    ghost sent = { λ s. None };

    ghost begun = { λ s. true };

    ghost at = { λ s. None };

    ghost faults = { λ s. s.faults };

    fn begin(&mut self, _place: &Place) -> Result<(), Failed> {
        Ok(())
    }

    fn send(&mut self, _bytes: &[u8]) -> Result<(), Failed> {
        if self.strings == 0 {
            self.faults = self.faults.saturating_add(1);
            return Err(Failed);
        }
        self.strings -= 1;
        Ok(())
    }
}

// A run over both lists. The second source may fail where its list ends, and the sink after so many
// byte strings.
fn run(alloc: Global, fails: bool, strings: u64) -> Result<Outcome, NoMemory> {
    let prepared = prepare(alloc, &ONE_ACCUMULATION)?;
    let mut sources = [Strings::new(&FIRST, false), Strings::new(&SECOND, fails)];
    let mut sink = Room { strings, faults: 0 };
    Ok(correlate_serial::<Unheard, _, _>(prepared, &mut sources, &mut sink))
}

// How many heaps of each stream were used, and how each ended.
fn used(outcome: &Outcome, antenna: usize) -> Option<(u64, Option<Ending>)> {
    let report = outcome.reports.as_slice().get(antenna)?;
    Some((report.used, report.ended))
}

#[test]
fn two_antennas_one_heap_lost(rt: HostRuntime) -> Result<(), Fail> {
    let outcome = run(rt.alloc(), false, 3).map_err(|_| Fail::from("no memory"))?;
    assert_eq!(rt; outcome.ran, Ran::Done);
    assert_eq!(rt; outcome.sent, ALL_SENT);
    assert_eq!(rt; used(&outcome, 0), Some((2, Some(Ending::End))));
    assert_eq!(rt; used(&outcome, 1), Some((1, Some(Ending::End))));
    Ok(())
}

#[test]
fn a_source_fault_ends_its_own_stream(rt: HostRuntime) -> Result<(), Fail> {
    let outcome = run(rt.alloc(), true, 3).map_err(|_| Fail::from("no memory"))?;
    assert_eq!(rt; outcome.ran, Ran::SourceFault(1));
    assert_eq!(rt; outcome.sent, ALL_SENT);
    assert_eq!(rt; used(&outcome, 0), Some((2, Some(Ending::End))));
    assert_eq!(rt; used(&outcome, 1), Some((1, Some(Ending::Fault))));
    Ok(())
}

#[test]
fn a_sink_fault_leaves_a_front(rt: HostRuntime) -> Result<(), Fail> {
    let outcome = run(rt.alloc(), true, 1).map_err(|_| Fail::from("no memory"))?;
    assert_eq!(rt; outcome.ran, Ran::SinkFault);
    assert_eq!(rt; outcome.sent.packets, 1);
    assert_eq!(rt; outcome.sent.bytes, 352);
    Ok(())
}
