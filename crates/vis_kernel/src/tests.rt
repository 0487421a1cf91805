ghost use Rattle.std.specs.Prelude.{◌≡◌, ◌<◌, ◌≤◌, length};
ghost use Rattle.corr_model.specs.Plans.{sample_bytes};

use crate::multiply;
use corr_model::Plan;
use slot_column::Column;
use std::alloc::Global;
use std::process::Abort;
use std::test::*;

const TWO: Plan = Plan {
    antennas: 2,
    channels: 1,
    spectra: 1,
    heaps: 2,
    accumulations: 1,
    lag: 1,
    window: 1,
    slots: 1,
    workers: 0,
    packet: 64,
    heap_limit: 64,
    beams: 0,
    step: 1,
    start: 0,
    leap: 0,
    packet_limit: 1,
    preset: true,
};

const THREE: Plan = Plan {
    spectra: 3,
    heaps: 1,
    ..TWO
};

const LONG: Plan = Plan { heaps: 4096, ..TWO };

const WIDE: Plan = Plan {
    heaps: 1,
    heap_limit: 260,
    ..TWO
};

// Puts samples at a timestamp.
fn put(column: &mut Column, t: u32, samples: &[u8])
    requires in_range { t < column.old.plan.heaps }
    requires whole { length samples.now ≡ sample_bytes column.old.plan }
    ensures { column.new.plan ≡ column.old.plan }
{
    column.place(t, samples);
}

// Puts samples of the greatest size at every timestamp.
fn put_full_scale(column: &mut Column)
    requires { sample_bytes column.old.plan ≡ 4 }
    ensures { column.new.plan ≡ column.old.plan }
{
    let heaps = column.plan().heaps;
    for t in 0..heaps {
        put(column, t, &[128; 4]);
    }
}

// Bytes that rise by a step, modulo 256.
fn rising(first: u8, step: u8) -> [u8; 260] {
    let mut bytes = [0; 260];
    let mut next = first;
    for at in 0..260 {
        bytes[at] = next;
        next = next.wrapping_add(step);
    }
    bytes
}

// The sums over one timestamp of so many spectra, of samples that rise by different steps.
fn sums_of(rt: &impl Abort, alloc: Global, spectra: u32) -> [i64; 8]
    requires { spectra ≤ 65 }
{
    let plan = Plan { spectra, ..WIDE };
    assert!(rt; plan.fits());
    let mut out = [0; 8];
    let (Ok(mut first), Ok(mut second)) = (Column::new(alloc, &plan), Column::new(alloc, &plan))
    else {
        assert!(rt; false);
        return out;
    };
    let len = 4 * spectra as usize;
    put(&mut first, 0, &rising(11, 37)[..len]);
    put(&mut second, 0, &rising(5, 91)[..len]);
    let mut missing = 0;
    multiply(&first, &second, 0, 1, &mut out, &mut missing);
    assert_eq!(rt; missing, 0);
    out
}

#[test]
fn two_antennas_one_heap_lost(rt: HostRuntime) {
    assert!(rt; TWO.fits());
    let (Ok(mut first), Ok(mut second)) = (
        Column::new(rt.alloc(), &TWO),
        Column::new(rt.alloc(), &TWO),
    ) else {
        assert!(rt; false);
        return;
    };
    put(&mut first, 0, &[1, 2, 3, 0]);
    put(&mut first, 1, &[255, 0, 0, 1]);
    put(&mut second, 0, &[0, 1, 2, 255]);
    let mut out = [0; 8];
    let mut missing = 0;
    multiply(&first, &second, 0, 2, &mut out, &mut missing);
    assert_eq!(rt; out, [2, -1, 0, 5, 0, -3, 6, 3]);
    assert_eq!(rt; missing, 1);
}

#[test]
fn two_spectra_and_one_more(rt: HostRuntime) {
    assert!(rt; THREE.fits());
    let (Ok(mut first), Ok(mut second)) = (
        Column::new(rt.alloc(), &THREE),
        Column::new(rt.alloc(), &THREE),
    ) else {
        assert!(rt; false);
        return;
    };
    put(&mut first, 0, &[1, 2, 3, 0, 255, 0, 0, 1, 2, 253, 128, 127]);
    put(
        &mut second,
        0,
        &[0, 1, 2, 255, 4, 0, 0, 254, 1, 1, 128, 128],
    );
    let mut out = [0; 8];
    let mut missing = 0;
    multiply(&first, &second, 0, 1, &mut out, &mut missing);
    assert_eq!(rt; out, [-3, -6, 128, 643, -1, 256, 132, -32637]);
    assert_eq!(rt; missing, 0);
}

#[test]
fn odd_and_even_numbers_of_spectra(rt: HostRuntime) {
    assert_eq!(rt;
        sums_of(&rt, rt.alloc(), 1),
        [4663, -816, 297, -3554, 12137, -7550, -3181, -10288]
    );
    assert_eq!(rt;
        sums_of(&rt, rt.alloc(), 7),
        [7177, -7248, 14295, -48174, 21143, -3442, -19219, -25424]
    );
    assert_eq!(rt;
        sums_of(&rt, rt.alloc(), 8),
        [12056, -9600, 13032, -53264, 10216, -10736, -28296, -16512]
    );
    assert_eq!(rt;
        sums_of(&rt, rt.alloc(), 9),
        [6543, -19888, 5073, -44530, 7441, -8814, -25525, -14512]
    );
    assert_eq!(rt;
        sums_of(&rt, rt.alloc(), 63),
        [
            -53263, -164560, 83439, -80798, 30639, 98302, -57227, -164560
        ]
    );
    assert_eq!(rt;
        sums_of(&rt, rt.alloc(), 65),
        [
            -59657, -153648, 101737, -82018, 49577, 92674, -63149, -182320
        ]
    );
}

#[test]
fn full_scale_samples(rt: HostRuntime) {
    assert!(rt; LONG.fits());
    let Ok(mut column) = Column::new(rt.alloc(), &LONG) else {
        assert!(rt; false);
        return;
    };
    put_full_scale(&mut column);
    let mut out = [0; 8];
    let mut missing = 0;
    multiply(&column, &column, 0, 4096, &mut out, &mut missing);
    assert_eq!(rt;
        out,
        [134217728, 0, 134217728, 0, 134217728, 0, 134217728, 0]
    );
    assert_eq!(rt; missing, 0);
}
