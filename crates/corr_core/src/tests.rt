//! Orders of events over byte strings that were worked out by hand.

ghost use Rattle.std.specs.Prelude.{◌≡◌};
ghost use Rattle.corr_model.specs.Plans.{Fits};

use crate::{Core, Event, Stepped, prepare};
use corr_model::{Ending, Plan, Unheard};
use corr_site::{Failed, PacketSink, Place};
use std::alloc::Global;
use std::test::Fail;

// Two antennas, one channel, one spectrum a heap, two timestamps in each of two accumulations.
const SHORT_RING: Plan = Plan {
    antennas: 2,
    channels: 1,
    spectra: 1,
    heaps: 2,
    accumulations: 2,
    lag: 1,
    window: 8,
    slots: 1,
    workers: 0,
    packet: 1024,
    heap_limit: 4100,
    beams: 0,
    step: 1,
    start: 0,
    leap: 0,
    packet_limit: 1000,
    preset: true,
};

// The same with two slots and two works.
const LONG_RING: Plan = Plan {
    slots: 2,
    workers: 2,
    ..SHORT_RING
};

// A heap of antenna 0 with samples (1 + 2i, 3), at timestamps 0 to 3.
const HEAPS: [&[u8]; 4] = [
    b"\x53\x04\x02\x06\0\0\0\x07\x80\x01\0\0\0\0\0\x01\x80\x02\0\0\0\0\0\x04\x80\x03\0\0\0\0\0\0\
      \x80\x04\0\0\0\0\0\x04\x96\0\0\0\0\0\0\0\xc1\x01\0\0\0\0\0\0\x43\0\0\0\0\0\0\0\x01\x02\x03\0",
    b"\x53\x04\x02\x06\0\0\0\x07\x80\x01\0\0\0\0\0\x02\x80\x02\0\0\0\0\0\x04\x80\x03\0\0\0\0\0\0\
      \x80\x04\0\0\0\0\0\x04\x96\0\0\0\0\0\0\x01\xc1\x01\0\0\0\0\0\0\x43\0\0\0\0\0\0\0\x01\x02\x03\0",
    b"\x53\x04\x02\x06\0\0\0\x07\x80\x01\0\0\0\0\0\x03\x80\x02\0\0\0\0\0\x04\x80\x03\0\0\0\0\0\0\
      \x80\x04\0\0\0\0\0\x04\x96\0\0\0\0\0\0\x02\xc1\x01\0\0\0\0\0\0\x43\0\0\0\0\0\0\0\x01\x02\x03\0",
    b"\x53\x04\x02\x06\0\0\0\x07\x80\x01\0\0\0\0\0\x04\x80\x02\0\0\0\0\0\x04\x80\x03\0\0\0\0\0\0\
      \x80\x04\0\0\0\0\0\x04\x96\0\0\0\0\0\0\x03\xc1\x01\0\0\0\0\0\0\x43\0\0\0\0\0\0\0\x01\x02\x03\0",
];

// Where the output's first visibility lies: the descriptor heap has 352 bytes, and a visibility
// heap a header of 8 and seven pointers of 8 before its payload.
const FIRST_VALUE: usize = 416;

// Where its missing counts lie: behind three baselines of four complex values of 16 bytes.
const FIRST_MISSING: usize = 608;

// Of antenna 0 with itself, |1 + 2i|² at both timestamps.
const TEN: [u8; 8] = [0, 0, 0, 0, 0, 0, 0, 10];

// At 0, 2 and 2 timestamps one of the two cells is missing.
const MISSING: [u8; 12] = [0, 0, 0, 0, 0, 0, 0, 2, 0, 0, 0, 2];

// A sink that keeps the bytes of 352, 268, 268 and 48 that are sent, and takes no string after so
// many.
#[derive(Drop)]
struct Kept {
    bytes: [u8; 936],
    len: usize,
    room: u64,
    faults: u64,
}

impl PacketSink for Kept {
    ghost use Rattle.std.specs.Prelude.{None, true};

    ghost sent = { λ s. None };

    ghost begun = { λ s. true };

    ghost at = { λ s. None };

    ghost faults = { λ s. s.faults };

    fn begin(&mut self, _place: &Place) -> Result<(), Failed> {
        Ok(())
    }

    fn send(&mut self, bytes: &[u8]) -> Result<(), Failed> {
        let len = self.len;
        if self.room == 0 || len > 936 || bytes.len() > 936 - len {
            self.faults = self.faults.saturating_add(1);
            return Err(Failed);
        }
        self.bytes[len..len + bytes.len()].copy_from_slice(bytes);
        self.len = len + bytes.len();
        self.room -= 1;
        Ok(())
    }
}

// What is sent by these events, each of which has to give the answer said, to a sink that takes so
// many strings.
fn sent_by(
    alloc: Global,
    plan: &Plan,
    order: &[(Event<'_>, Stepped)],
    room: u64,
) -> Result<Kept, Fail>
    requires { Fits plan.now }
{
    let prepared = prepare::<Unheard>(alloc, plan).map_err(|_| Fail::from("no memory"))?;
    let mut core = Core::new(prepared);
    let mut sink = new_sink(room);
    take_steps(&mut core, &mut sink, order)?;
    Ok(sink)
}

// A sink that takes so many strings.
fn new_sink(room: u64) -> Kept {
    Kept {
        bytes: [0; 936],
        len: 0,
        room,
        faults: 0,
    }
}

// These events, each of which has to give the answer said.
fn take_steps(
    core: &mut Core<Unheard>,
    sink: &mut Kept,
    order: &[(Event<'_>, Stepped)],
) -> Result<(), Fail> {
    for (event, answer) in order {
        if !event.is_in_range(core.plan()) || core.step(*event, sink) != *answer {
            return Err(Fail::from("another answer"));
        }
    }
    Ok(())
}

// The bytes that were sent.
fn bytes(sink: &Kept) -> &[u8] {
    &sink.bytes
}

// A stream whose second accumulation is closed while the ring waits for the first of the other, and
// then goes on.
fn ahead(alloc: Global) -> Result<Kept, Fail> {
    let order = [
        (Event::Packet(0, HEAPS[0]), Stepped::Moved),
        (Event::Packet(0, HEAPS[1]), Stepped::Moved),
        (Event::Packet(0, HEAPS[2]), Stepped::Moved),
        (Event::Packet(0, HEAPS[3]), Stepped::Idle),
        (Event::Put(0), Stepped::Moved),
        (Event::Packet(0, HEAPS[3]), Stepped::Moved),
        (Event::End(0, Ending::End), Stepped::Moved),
        (Event::Put(0), Stepped::Idle),
        (Event::End(1, Ending::End), Stepped::Moved),
        (Event::Put(1), Stepped::Moved),
        (Event::Take(0, 0), Stepped::Moved),
        (Event::Store(0), Stepped::Moved),
        (Event::Send, Stepped::Moved),
        (Event::Put(0), Stepped::Moved),
        (Event::Put(1), Stepped::Moved),
        (Event::Take(0, 0), Stepped::Moved),
        (Event::Store(0), Stepped::Moved),
        (Event::Send, Stepped::Moved),
        (Event::Send, Stepped::Idle),
    ];
    sent_by(alloc, &SHORT_RING, &order, 4)
}

// The other stream first: its second column waits in its hand.
fn other_first(alloc: Global) -> Result<Kept, Fail> {
    let order = [
        (Event::End(1, Ending::End), Stepped::Moved),
        (Event::Put(1), Stepped::Moved),
        (Event::Put(1), Stepped::Idle),
        (Event::Packet(0, HEAPS[0]), Stepped::Moved),
        (Event::Packet(0, HEAPS[1]), Stepped::Moved),
        (Event::Packet(0, HEAPS[2]), Stepped::Moved),
        (Event::Put(0), Stepped::Moved),
        (Event::Take(0, 0), Stepped::Moved),
        (Event::Packet(0, HEAPS[3]), Stepped::Moved),
        (Event::End(0, Ending::Fault), Stepped::Moved),
        (Event::Store(0), Stepped::Moved),
        (Event::Send, Stepped::Moved),
        (Event::Put(1), Stepped::Moved),
        (Event::Put(0), Stepped::Moved),
        (Event::Take(0, 0), Stepped::Moved),
        (Event::Store(0), Stepped::Moved),
        (Event::Send, Stepped::Moved),
    ];
    sent_by(alloc, &SHORT_RING, &order, 4)
}

// Work and sender are asked before each step of a stream.
fn by_turns(alloc: Global) -> Result<Kept, Fail> {
    let order = [
        (Event::Packet(0, HEAPS[0]), Stepped::Moved),
        (Event::Take(0, 0), Stepped::Idle),
        (Event::Store(0), Stepped::Idle),
        (Event::Send, Stepped::Idle),
        (Event::Packet(0, HEAPS[1]), Stepped::Moved),
        (Event::End(1, Ending::End), Stepped::Moved),
        (Event::Put(1), Stepped::Moved),
        (Event::Take(0, 0), Stepped::Idle),
        (Event::Packet(0, HEAPS[2]), Stepped::Moved),
        (Event::Put(0), Stepped::Moved),
        (Event::Store(0), Stepped::Idle),
        (Event::Take(0, 0), Stepped::Moved),
        (Event::Take(0, 0), Stepped::Idle),
        (Event::Put(1), Stepped::Idle),
        (Event::Send, Stepped::Idle),
        (Event::Packet(0, HEAPS[3]), Stepped::Moved),
        (Event::Store(0), Stepped::Moved),
        (Event::Send, Stepped::Moved),
        (Event::End(0, Ending::End), Stepped::Moved),
        (Event::Put(1), Stepped::Moved),
        (Event::Put(0), Stepped::Moved),
        (Event::Take(0, 0), Stepped::Moved),
        (Event::Store(0), Stepped::Moved),
        (Event::Send, Stepped::Moved),
    ];
    sent_by(alloc, &SHORT_RING, &order, 4)
}

// Two slots and two works: the second accumulation is computed before the first, and its value
// waits.
fn second_computed_first(alloc: Global) -> Result<Kept, Fail> {
    let order = [
        (Event::End(1, Ending::End), Stepped::Moved),
        (Event::Put(1), Stepped::Moved),
        (Event::Put(1), Stepped::Moved),
        (Event::Packet(0, HEAPS[0]), Stepped::Moved),
        (Event::Packet(0, HEAPS[1]), Stepped::Moved),
        (Event::Packet(0, HEAPS[2]), Stepped::Moved),
        (Event::Put(0), Stepped::Moved),
        (Event::Packet(0, HEAPS[3]), Stepped::Moved),
        (Event::End(0, Ending::End), Stepped::Moved),
        (Event::Put(0), Stepped::Moved),
        (Event::Take(1, 0), Stepped::Moved),
        (Event::Take(0, 1), Stepped::Moved),
        (Event::Store(0), Stepped::Moved),
        (Event::Send, Stepped::Idle),
        (Event::Store(1), Stepped::Moved),
        (Event::Send, Stepped::Moved),
        (Event::Send, Stepped::Moved),
    ];
    sent_by(alloc, &LONG_RING, &order, 4)
}

#[test]
fn a_stream_ahead_of_the_ring_waits(rt: HostRuntime) -> Result<(), Fail> {
    let sent = ahead(rt.alloc())?;
    assert_eq!(rt; sent.len, 936);
    assert!(rt; &sent.bytes[FIRST_VALUE..FIRST_VALUE + 8] == TEN.as_slice());
    assert!(rt; &sent.bytes[FIRST_MISSING..FIRST_MISSING + 12] == MISSING.as_slice());
    Ok(())
}

#[test]
fn each_order_sends_the_same_datagrams(rt: HostRuntime) -> Result<(), Fail> {
    let sent = ahead(rt.alloc())?;
    let others = [
        other_first(rt.alloc())?,
        by_turns(rt.alloc())?,
        second_computed_first(rt.alloc())?,
    ];
    for other in &others {
        assert!(rt; bytes(other) == bytes(&sent));
    }
    Ok(())
}

#[test]
fn after_a_sink_fault_every_event_is_idle(rt: HostRuntime) -> Result<(), Fail> {
    let order = [
        (Event::End(0, Ending::End), Stepped::Moved),
        (Event::End(1, Ending::End), Stepped::Moved),
        (Event::Put(0), Stepped::Moved),
        (Event::Put(1), Stepped::Moved),
        (Event::Take(0, 0), Stepped::Moved),
        (Event::Store(0), Stepped::Moved),
        (Event::Send, Stepped::Failed),
        (Event::Put(0), Stepped::Idle),
        (Event::Send, Stepped::Idle),
    ];
    let sent = sent_by(rt.alloc(), &SHORT_RING, &order, 1)?;
    // The descriptor heap alone.
    assert_eq!(rt; sent.len, 352);
    Ok(())
}

#[test]
fn a_core_tells_how_its_streams_ended(rt: HostRuntime) -> Result<(), Fail> {
    let order = [
        (Event::Packet(0, HEAPS[0]), Stepped::Moved),
        (Event::End(0, Ending::Fault), Stepped::Moved),
        (Event::End(1, Ending::End), Stepped::Moved),
        (Event::Put(0), Stepped::Moved),
        (Event::Put(1), Stepped::Moved),
        (Event::Take(0, 0), Stepped::Moved),
        (Event::Store(0), Stepped::Moved),
        (Event::Send, Stepped::Moved),
    ];
    let prepared = prepare::<Unheard>(rt.alloc(), &SHORT_RING).map_err(|_| Fail::from(
        "no memory",
    ))?;
    let mut core = Core::new(prepared);
    take_steps(&mut core, &mut new_sink(4), &order)?;
    if core.plan().antennas != 2 {
        return Err(Fail::from("another plan"));
    }
    assert_eq!(rt; core.report(0).used, 1);
    assert_eq!(rt; core.ended(0), Some(Ending::Fault));
    assert_eq!(rt; core.ended(1), Some(Ending::End));
    // The descriptor heap and one visibility heap.
    assert_eq!(rt; core.sent().bytes, 620);
    Ok(())
}
