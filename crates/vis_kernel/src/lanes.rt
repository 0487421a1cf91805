//! Products of samples in lanes, two spectra at a time. A lane of the four sums holds the sum over every
//! second spectrum, so that at most 2048 · 2^15 is in it.

ghost use Rattle.std.specs.Prelude.{◌≡◌, ◌+◌, ◌*◌, ◌/◌, ◌^◌, ◌<◌, ◌≤◌, ◌+ℤ◌, ℕ, List, length, slice_index, FitsSigned};
ghost use Rattle.std.specs.Int.{w8};
ghost use Rattle.std.specs.Simd.Lanes.{zip2};
ghost use Rattle.corr_model.specs.declared.plan.Plan.{Plan};
ghost use Rattle.corr_model.specs.Plans.{Fits, sample_bytes};
ghost use Rattle.corr_model.specs.Visibilities.{signed};
ghost use Rattle.vis_kernel.specs.Sizes.{IsUpTo, ArePartsOf};
ghost use Rattle.vis_kernel.specs.Lanes.{two_spectra, turned, crossed, neighbour_products, first_spectra, lane, HoldsParts, AreFour, HoldsPairs};

use crate::products::{Products, Value};
use corr_model::Plan;
use std::simd::prelude::*;

/// The sums of the four products, over the even spectra in lanes 0 and 1, over the odd ones in 2 and 3: of
/// equal polarisations the first and the second, and across, first by second and second by first.
#[derive(Clone, Copy)]
pub(crate) struct Lanes {
    pub same_real: i32x4,
    pub same_imaginary: i32x4,
    pub cross_real: i32x4,
    pub cross_imaginary: i32x4,
}

// The number at a place of the samples.
#[inline(always)]
fn part_at(cell: &[u8], at: usize) -> i8
    requires { at < length cell.now }
    ensures value { result ≡ signed (slice_index cell.now at) }
    ensures small { IsUpTo result 128 }
    ensures fits { FitsSigned w8 result }
{
    cell[at].cast_signed()
}

// The samples of a cell at a channel, of both polarisations at a spectrum and at the next.
#[inline(always)]
fn parts_at(plan: &Plan, cell: &[u8], channel: u32, spectrum: u32) -> i16x8
    requires fits { Fits plan.now }
    requires whole { length cell.now ≡ sample_bytes plan.now }
    requires channel { channel < plan.now.channels }
    requires spectra { spectrum + 2 ≤ plan.now.spectra }
    ensures value { result ≡ two_spectra plan.now cell.now channel spectrum }
    ensures parts { HoldsParts result }
{
    let at = 4 * (plan.spectra as usize * channel as usize + spectrum as usize);
    let parts = i8x8::from_array([
        part_at(cell, at),
        part_at(cell, at + 1),
        part_at(cell, at + 2),
        part_at(cell, at + 3),
        part_at(cell, at + 4),
        part_at(cell, at + 5),
        part_at(cell, at + 6),
        part_at(cell, at + 7),
    ]);
    parts.cast::<i16>()
}

// Each two lanes as a complex number, divided by the imaginary unit.
#[inline(always)]
fn turn(x: i16x8) -> i16x8
    requires { HoldsParts x }
    ensures { result ≡ turned x }
{
    x.swizzle::<8>([1, 0, 3, 2, 5, 4, 7, 6]) * i16x8::from_array([1, -1, 1, -1, 1, -1, 1, -1])
}

// The samples of each spectrum with the polarisations exchanged.
#[inline(always)]
fn cross(y: i16x8) -> i16x8
    requires { HoldsParts y }
    ensures { result ≡ crossed y }
{
    y.swizzle::<8>([2, 3, 0, 1, 6, 7, 4, 5])
}

// Sums with the products of neighbouring lanes added.
#[inline(always)]
fn add_neighbours(sums: i32x4, x: i16x8, y: i16x8) -> i32x4
    requires first { HoldsParts x }
    requires second { HoldsParts y }
    requires sums { AreFour sums (2 ^ 29) }
    ensures { result ≡ zip2 (λ a b. a +ℤ b) sums (neighbour_products x y) }
{
    let products = x.cast::<i32>().strict_mul(y.cast::<i32>());
    sums + (products.swizzle::<4>([0, 2, 4, 6]) + products.swizzle::<4>([1, 3, 5, 7]))
}

// The sum of the first lane and the third, and of the second and the fourth.
#[inline(always)]
fn halves(sums: i32x4) -> (i32, i32)
    requires { AreFour sums (2 ^ 29) }
    ensures even { result.0 ≡ lane sums 0 +ℤ lane sums 2 }
    ensures odd { result.1 ≡ lane sums 1 +ℤ lane sums 3 }
{
    let lanes = sums.to_array();
    (lanes[0] + lanes[2], lanes[1] + lanes[3])
}

// Sums of nothing.
#[inline(always)]
fn no_sums() -> Lanes
    ensures { (plan : Plan) (x : List ℕ) (y : List ℕ) (c : ℕ) → HoldsPairs plan x y c 0 result }
{
    Lanes {
        same_real: i32x4::splat(0),
        same_imaginary: i32x4::splat(0),
        cross_real: i32x4::splat(0),
        cross_imaginary: i32x4::splat(0),
    }
}

// The lanes' sums over all pairs of spectra of one channel of two cells.
fn sum_pairs(plan: &Plan, x: &[u8], y: &[u8], channel: u32) -> Lanes
    requires fits { Fits plan.now }
    requires x_whole { length x.now ≡ sample_bytes plan.now }
    requires y_whole { length y.now ≡ sample_bytes plan.now }
    requires channel { channel < plan.now.channels }
    ensures { HoldsPairs plan.now x.now y.now channel (plan.now.spectra / 2) result }
{
    let mut sums = no_sums();
    for pair in 0..plan.spectra / 2 {
        let straight = parts_at(plan, x, channel, 2 * pair);
        let across = turn(straight);
        let same = parts_at(plan, y, channel, 2 * pair);
        let other = cross(same);
        sums = Lanes {
            same_real: add_neighbours(sums.same_real, straight, same),
            same_imaginary: add_neighbours(sums.same_imaginary, across, same),
            cross_real: add_neighbours(sums.cross_real, straight, other),
            cross_imaginary: add_neighbours(sums.cross_imaginary, across, other),
        };
    }
    sums
}

/// The four products of two cells at one channel, summed over all pairs of spectra.
pub(crate) fn pair_products(plan: &Plan, x: &[u8], y: &[u8], channel: u32) -> Products
    requires fits { Fits plan.now }
    requires x_whole { length x.now ≡ sample_bytes plan.now }
    requires y_whole { length y.now ≡ sample_bytes plan.now }
    requires channel { channel < plan.now.channels }
    ensures { let pairs = plan.now.spectra / 2 in
        ArePartsOf result (2 * pairs * 2 ^ 15) (first_spectra plan.now x.now y.now channel (2 * pairs)) }
{
    let sums = sum_pairs(plan, x, y, channel);
    let (xx_real, yy_real) = halves(sums.same_real);
    let (xx_imaginary, yy_imaginary) = halves(sums.same_imaginary);
    let (xy_real, yx_real) = halves(sums.cross_real);
    let (xy_imaginary, yx_imaginary) = halves(sums.cross_imaginary);
    Products {
        xx: Value {
            real: xx_real,
            imaginary: xx_imaginary,
        },
        xy: Value {
            real: xy_real,
            imaginary: xy_imaginary,
        },
        yx: Value {
            real: yx_real,
            imaginary: yx_imaginary,
        },
        yy: Value {
            real: yy_real,
            imaginary: yy_imaginary,
        },
    }
}
