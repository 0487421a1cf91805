//! What a sender sends of two antennas, over a sink in memory.

use crate::{Emit, Sender, SinkFault};
use corr_model::Plan;
use corr_site::{ListSink, PacketSink, Place};
use std::alloc::Global;
use std::test::Fail;
use vis_shape::Visibility;

const PLAN: Plan = Plan {
    antennas: 2,
    channels: 1,
    spectra: 1,
    heaps: 2,
    accumulations: 1,
    lag: 1,
    window: 8,
    slots: 1,
    workers: 0,
    packet: 1024,
    heap_limit: 4100,
    beams: 0,
    step: 1,
    start: 0,
    leap: 0,
    packet_limit: 100,
    preset: true,
};

// The value of two antennas with one heap lost: of each baseline, (0,0), (0,1), (1,1), real and
// imaginary part of the products 00, 01, 10, 11.
fn one_heap_lost(alloc: Global) -> Result<Visibility, Fail> {
    let values = vec![in alloc;
        6, 0, 3, 7, 3, -7, 10, 0, 2, -1, 0, 5, 0, -3, 6, 3, 1, 0, -1, 2, -1, -2, 5, 0,
    ]?;
    let missing = vec![in alloc; 0, 1, 1]?;
    Ok(Visibility {
        plan: PLAN,
        values,
        missing,
        added: 2,
    })
}

// A sink that is begun, and whose sends with these numbers fail.
fn sink(alloc: Global, fails: Vec<u64>) -> Result<ListSink, Fail> {
    let mut sink = ListSink::new(alloc, 8, 1000, fails, false)?;
    sink.begin(&Place::read(alloc, "out.cap")?)
        .ok()
        .ok_or("begin")?;
    Ok(sink)
}

#[test]
fn two_antennas_one_heap_lost(rt: HostRuntime) -> Result<(), Fail> {
    let alloc = rt.alloc();
    assert!(rt; PLAN.fits());
    let mut sink = sink(alloc, Vec::new(alloc))?;
    assert!(rt; sink.is_begun());
    let value = one_heap_lost(alloc)?;
    assert!(rt; value.plan == PLAN);
    let mut sender = Sender::new(alloc, &PLAN)?;
    assert_eq!(rt; sender.head(&mut sink), Ok(()));
    assert_eq!(rt; sender.heap(0, &value, &mut sink), Ok(()));
    assert_eq!(rt; sender.stop(&mut sink), Ok(()));
    let sent = sender.sent();
    assert_eq!(rt;
        (sent.packets, sent.bytes, sent.mark),
        (3, 668, 0x4e4e_a930_18d6_ba56)
    );
    assert_eq!(rt; sink.len(), 3);
    Ok(())
}

#[test]
fn front_is_counted_after_a_fault(rt: HostRuntime) -> Result<(), Fail> {
    let alloc = rt.alloc();
    let plan = Plan { packet: 64, ..PLAN };
    assert!(rt; plan.fits());
    let mut sink = sink(alloc, vec![in alloc; 3]?)?;
    assert!(rt; sink.is_begun());
    let mut sender = Sender::new(alloc, &plan)?;
    assert_eq!(rt; sender.head(&mut sink), Err(SinkFault));
    let sent = sender.sent();
    assert_eq!(rt; (sent.packets, sent.bytes), (3, 384));
    assert_eq!(rt; (sink.len(), sink.faults()), (3, 1));
    Ok(())
}
