//! The products of two cells, added to the sums of a baseline. The sums have 64 bits, and eight numbers
//! for each channel: of each of four products the real and the imaginary part.

ghost use Rattle.std.specs.Prelude.{◌≡◌, ◌+◌, ◌*◌, ◌^◌, ◌<◌, ◌≤◌, ◌||◌, Some, length, take, drop, IfSome, is_none, option_map, if◌then◌else◌};
ghost use Rattle.corr_model.specs.Plans.{Fits, sample_bytes};
ghost use Rattle.vis_kernel.specs.Sizes.{complex_of, AreUpTo, IsSmall, AreSmall, eight_parts};
ghost use Rattle.vis_kernel.specs.Kernels.{add_sums, two_parts, add_at, cell_values};

use crate::products::{Products, Value, channel_products};
use corr_model::Plan;

// Adds a value to a sum of its two parts.
fn add_two(out: &mut [i64], value: Value)
    requires room { length out.old ≡ 2 }
    requires sums { AreUpTo out.old (2 ^ 56) }
    requires value { IsSmall value (2 ^ 40) }
    ensures { out.new ≡ add_sums out.old (two_parts (complex_of value)) }
{
    let real = out[0] + i64::from(value.real);
    let imaginary = out[1] + i64::from(value.imaginary);
    out[0] = real;
    out[1] = imaginary;
}

// Adds a value to the two sums at a place.
fn add_value(out: &mut [i64], at: usize, value: Value)
    requires room { at + 2 ≤ length out.old }
    requires sums { AreUpTo (take 2 (drop at out.old)) (2 ^ 56) }
    requires value { IsSmall value (2 ^ 40) }
    ensures { out.new ≡ add_at at 2 out.old (two_parts (complex_of value)) }
{
    add_two(&mut out[at..at + 2], value);
}

// Adds four products to a sum of their parts.
fn add_eight(out: &mut [i64], sum: Products)
    requires room { length out.old ≡ 8 }
    requires sums { AreUpTo out.old (2 ^ 56) }
    requires products { AreSmall sum (2 ^ 40) }
    ensures { out.new ≡ add_sums out.old (eight_parts sum) }
{
    add_value(out, 0, sum.xx);
    add_value(out, 2, sum.xy);
    add_value(out, 4, sum.yx);
    add_value(out, 6, sum.yy);
}

// Adds four products to the eight sums at a place.
fn add_products(out: &mut [i64], at: usize, sum: Products)
    requires room { at + 8 ≤ length out.old }
    requires sums { AreUpTo (take 8 (drop at out.old)) (2 ^ 56) }
    requires products { AreSmall sum (2 ^ 40) }
    ensures { out.new ≡ add_at at 8 out.old (eight_parts sum) }
{
    add_eight(&mut out[at..at + 8], sum);
}

// Adds the products of two cells, channel by channel.
fn add_cells(plan: &Plan, x: &[u8], y: &[u8], out: &mut [i64])
    requires fits { Fits plan.now }
    requires x_whole { length x.now ≡ sample_bytes plan.now }
    requires y_whole { length y.now ≡ sample_bytes plan.now }
    requires room { length out.old ≡ 8 * plan.now.channels }
    requires sums { AreUpTo out.old (2 ^ 56) }
    ensures value { out.new ≡ add_sums out.old (cell_values plan.now (Some x.now) (Some y.now)) }
    ensures small { AreUpTo (cell_values plan.now (Some x.now) (Some y.now)) (plan.now.spectra * 2 ^ 15) }
{
    for channel in 0..plan.channels {
        let sum = channel_products(plan, x, y, channel);
        add_products(out, 8 * channel as usize, sum);
    }
}

/// Adds the products of what stands at one place of two columns, and counts the place where one of
/// the cells is none.
pub(crate) fn add_place(
    plan: &Plan,
    x: Option<&[u8]>,
    y: Option<&[u8]>,
    out: &mut [i64],
    missing: &mut u32,
)
    requires fits { Fits plan.now }
    requires x_whole { IfSome x (λ s. length s.now ≡ sample_bytes plan.now) }
    requires y_whole { IfSome y (λ s. length s.now ≡ sample_bytes plan.now) }
    requires room { length out.old ≡ 8 * plan.now.channels }
    requires sums { AreUpTo out.old (2 ^ 56) }
    requires few { missing.old ≤ 65536 }
    ensures value { let bytes = option_map (λ s. s.now) in
        out.new ≡ add_sums out.old (cell_values plan.now (bytes x.entry) (bytes y.entry)) }
    ensures small { let bytes = option_map (λ s. s.now) in
        AreUpTo (cell_values plan.now (bytes x.entry) (bytes y.entry)) (plan.now.spectra * 2 ^ 15) }
    ensures missing { let bytes = option_map (λ s. s.now) in
        missing.new ≡ missing.old + (if is_none (bytes x.entry) || is_none (bytes y.entry) then 1 else 0) }
{
    match (x, y) {
        (Some(x), Some(y)) => add_cells(plan, x, y, out),
        _ => *missing += 1,
    }
}
