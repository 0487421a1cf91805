//! The sums of one baseline over a range of timestamps.

ghost use Rattle.std.specs.Prelude.{◌≡◌, ◌+◌, ◌-◌, ◌*◌, ◌^◌, ◌≤◌, length};
ghost use Rattle.vis_kernel.specs.Sizes.{AreUpTo};
ghost use Rattle.vis_kernel.specs.Kernels.{add_sums, baseline_values, missing_in};

use crate::adding::add_place;
use slot_column::Column;

/// Adds to `out` the products of two columns' samples, over the timestamps from `from` up to, and not
/// including, `to`, and to `missing` the number of these at which one of the two cells is none.
///
/// A product is a sample of the first column times the complex conjugate of one of the second, at one
/// timestamp, channel and spectrum. It is summed over timestamps and spectra, by channel and by
/// polarisations: `out` has for each channel the products of polarisations 0 and 0, 0 and 1, 1 and 0,
/// and 1 and 1, of each the real part and then the imaginary part. A cell that is none adds nothing.
///
/// The columns are of one plan. Each number of `out` is at most 2^55 in size before, and `missing` at
/// most 4,096, so that nothing wraps.
pub fn multiply(a: &Column, b: &Column, from: u32, to: u32, out: &mut [i64], missing: &mut u32)
    requires plan { b.now.plan ≡ a.now.plan }
    requires order { from ≤ to }
    requires last { to ≤ a.now.plan.heaps }
    requires room { length out.old ≡ 8 * a.now.plan.channels }
    requires sums { AreUpTo out.old (2 ^ 55) }
    requires few { missing.old ≤ 4096 }
    ensures sums { out.new ≡ add_sums out.old (baseline_values a.now.plan a.now.cells b.now.cells from to) }
    ensures missing { missing.new ≡ missing.old + missing_in a.now.cells b.now.cells from to }
    // What is added is not great.
    ensures small { AreUpTo (baseline_values a.now.plan a.now.cells b.now.cells from to)
        ((to - from) * (a.now.plan.spectra * 2 ^ 15)) }
    ensures few { missing_in a.now.cells b.now.cells from to ≤ to - from }
{
    let _plan = b.plan();
    for t in from..to {
        add_place(a.plan(), a.heap(t), b.heap(t), out, missing);
    }
}
