//! The list of one antenna, given packet by packet, by its lengths.

use super::*;
use corr_model::{Plan, Unheard};
use corr_site::{Next, PacketSource};
use std::test::Fail;

// One antenna, two heaps of 4 bytes.
const SMALL: Plan = Plan {
    antennas: 1,
    channels: 1,
    spectra: 1,
    heaps: 2,
    accumulations: 1,
    lag: 1,
    window: 8,
    slots: 1,
    workers: 0,
    packet: 1024,
    heap_limit: 4100,
    beams: 0,
    step: 1,
    start: 0,
    leap: 0,
    packet_limit: 4,
    preset: true,
};

// From seed 5 heap 1, whose packet is sent twice, comes before heap 0.
#[test]
fn a_small_list_is_given_to_its_end(rt: HostRuntime) -> Result<(), Fail> {
    assert!(rt; SMALL.fits());
    let mut source: SimSource<Unheard> = SimSource::new(rt.alloc(), &SMALL, 5, 0)?;
    let mut buf = [0; 65536];
    for len in [341, 68, 68, 68, 48] {
        assert_eq!(rt; source.next(&mut buf), Next::Packet(len));
    }
    assert_eq!(rt; source.next(&mut buf), Next::End);
    assert_eq!(rt; source.next(&mut buf), Next::End);
    Ok(())
}
