//! Tables and heaps whose entries and samples were worked out by hand.

ghost use Rattle.std.specs.Prelude.{◌≡◌, true};

use crate::packets::{DESCRIBED, FIRST, ID_PLACE, ONE_ITEM, SECOND, STOP, UNREADABLE};
use crate::{Applied, Table};
use corr_model::Plan;
use heap_assembly::{Live, is_within};
use spead_wire::decode;
use std::test::Fail;

// One channel and one spectrum: four bytes of samples.
fn plan(preset: bool) -> Plan {
    Plan {
        antennas: 2,
        channels: 1,
        spectra: 1,
        heaps: 2,
        accumulations: 1,
        lag: 1,
        window: 8,
        slots: 1,
        workers: 0,
        packet: 1024,
        heap_limit: 4100,
        beams: 0,
        step: 1,
        start: 0,
        leap: 0,
        packet_limit: 1 << 40,
        preset,
    }
}

// Starts the heap anew with one packet. Whether it is whole by it.
fn is_whole_by(live: &mut Live, bytes: &[u8]) -> bool
    ensures { result ≡ true → live.new.whole ≡ true }
{
    let packet = match decode(bytes) {
        Ok(packet) => packet,
        Err(_) => return false,
    };
    live.start(packet.counter());
    if !is_within(live.limit(), &packet) {
        return false;
    }
    live.add(&packet);
    live.is_whole()
}

fn applied(changed: u32, refused: u32, full: u32) -> Applied {
    Applied {
        changed,
        refused,
        full,
    }
}

#[test]
fn an_unreadable_redescription(rt: HostRuntime) -> Result<(), Fail> {
    let plan = plan(true);
    let mut table = Table::preset(&plan);
    let mut live = Live::new(rt.alloc(), 256)?;
    assert!(rt; is_whole_by(&mut live, &UNREADABLE));
    assert_eq!(rt; table.apply(&live.whole()), applied(0, 1, 0));
    assert!(rt; table.look(&live.whole(), &plan).sight.is_none());
    assert!(rt; table.get(0x4300).is_some());
    assert!(rt; is_whole_by(&mut live, &SECOND));
    let heap = live.whole();
    let sight = table.look(&heap, &plan).sight.ok_or("unreadable")?;
    assert_eq!(rt; sight.timestamp, 1);
    assert_eq!(rt; sight.antenna, 0);
    assert_eq!(rt; sight.samples, [5, 6, 7, 8].as_slice());
    Ok(())
}

#[test]
fn undescribed_until_described(rt: HostRuntime) -> Result<(), Fail> {
    let plan = plan(false);
    let mut table = Table::empty();
    let mut live = Live::new(rt.alloc(), 256)?;
    for (bytes, changed, is_readable) in [
        (FIRST.as_slice(), 0, false),
        (DESCRIBED.as_slice(), 3, false),
        (SECOND.as_slice(), 0, true),
    ] {
        assert!(rt; is_whole_by(&mut live, bytes));
        let heap = live.whole();
        assert_eq!(rt; table.apply(&heap), applied(changed, 0, 0));
        assert_eq!(rt; table.look(&heap, &plan).sight.is_some(), is_readable);
    }
    Ok(())
}

#[test]
fn a_stop_heap_ends_its_stream(rt: HostRuntime) -> Result<(), Fail> {
    let plan = plan(true);
    let table = Table::preset(&plan);
    let mut live = Live::new(rt.alloc(), 256)?;
    assert!(rt; is_whole_by(&mut live, &STOP));
    assert!(rt; table.look(&live.whole(), &plan).stop);
    assert!(rt; is_whole_by(&mut live, &FIRST));
    assert!(rt; !table.look(&live.whole(), &plan).stop);
    Ok(())
}

#[test]
fn a_table_has_sixty_four_ids(rt: HostRuntime) -> Result<(), Fail> {
    let mut table = Table::empty();
    let mut live = Live::new(rt.alloc(), 256)?;
    let mut packet = ONE_ITEM;
    for id in 1..=65u8 {
        packet[ID_PLACE] = id;
        assert!(rt; is_whole_by(&mut live, &packet));
        let full = u32::from(64 < id);
        assert_eq!(rt; table.apply(&live.whole()), applied(1 - full, 0, full));
        assert_eq!(rt; table.get(u32::from(id)).is_some(), id <= 64);
    }
    assert!(rt; is_whole_by(&mut live, &ONE_ITEM));
    assert_eq!(rt; table.apply(&live.whole()), applied(1, 0, 0));
    Ok(())
}
