//! Products of samples, summed over the spectra of one channel of two cells. Such a sum is at most
//! 4096 · 2^15 in size, so that 32 bits hold it.

ghost use Rattle.std.specs.Prelude.{◌≡◌, ◌+◌, ◌*◌, ◌^◌, ◌<◌, ◌≤◌, ◌*ℤ◌, Some, length, slice_index};
ghost use Rattle.corr_model.specs.Plans.{Fits, sample_bytes};
ghost use Rattle.corr_model.specs.Visibilities.{signed, sample, times_conjugate, plus, of_cells};
ghost use Rattle.vis_kernel.specs.Sizes.{complex_of, IsUpTo, IsSmall, ArePartsOf};

use crate::lanes::pair_products;
use corr_model::Plan;

/// A complex number in whole numbers.
#[derive(Clone, Copy, Debug, PartialEq, Eq)]
pub(crate) struct Value {
    pub real: i32,
    pub imaginary: i32,
}

/// The four products of two samples or sums of them, by the polarisations of the first and the second.
#[derive(Clone, Copy, Debug, PartialEq, Eq)]
pub(crate) struct Products {
    pub xx: Value,
    pub xy: Value,
    pub yx: Value,
    pub yy: Value,
}

// The number at a place of the samples.
fn signed_at(cell: &[u8], at: usize) -> i32
    requires { at < length cell.now }
    ensures value { result ≡ signed (slice_index cell.now at) }
    ensures small { IsUpTo result 128 }
{
    i32::from(cell[at].cast_signed())
}

// The sample of a cell at a channel, a spectrum and a polarisation.
fn sample_at(plan: &Plan, cell: &[u8], channel: u32, spectrum: u32, p: u32) -> Value
    requires fits { Fits plan.now }
    requires whole { length cell.now ≡ sample_bytes plan.now }
    requires channel { channel < plan.now.channels }
    requires spectrum { spectrum < plan.now.spectra }
    requires polarisation { p < 2 }
    ensures value { complex_of result ≡ sample plan.now cell.now channel spectrum p }
    ensures small { IsSmall result 128 }
{
    let row = plan.spectra as usize * channel as usize + spectrum as usize;
    let at = 2 * (2 * row + p as usize);
    Value {
        real: signed_at(cell, at),
        imaginary: signed_at(cell, at + 1),
    }
}

// The product of two parts of samples.
fn times(a: i32, b: i32) -> i32
    requires first { IsUpTo a 128 }
    requires second { IsUpTo b 128 }
    ensures value { result ≡ a *ℤ b }
    ensures small { IsUpTo result 16384 }
{
    a * b
}

// A sample times the complex conjugate of another.
fn product(x: Value, y: Value) -> Value
    requires first { IsSmall x 128 }
    requires second { IsSmall y 128 }
    ensures value { complex_of result ≡ times_conjugate (complex_of x) (complex_of y) }
    ensures small { IsSmall result 32768 }
{
    Value {
        real: times(x.real, y.real) + times(x.imaginary, y.imaginary),
        imaginary: times(x.imaginary, y.real) - times(x.real, y.imaginary),
    }
}

impl Value {
    // The sum of the two.
    fn plus(self, more: Value) -> Value
        requires first { IsSmall self (2 ^ 29) }
        requires second { IsSmall more (2 ^ 29) }
        ensures { complex_of result ≡ plus (complex_of self) (complex_of more) }
    {
        Value {
            real: self.real + more.real,
            imaginary: self.imaginary + more.imaginary,
        }
    }
}

/// The four products of two cells at one channel, summed over the spectra: over pairs of them in lanes, and
/// over a last one that is left by itself.
pub(crate) fn channel_products(plan: &Plan, x: &[u8], y: &[u8], channel: u32) -> Products
    requires fits { Fits plan.now }
    requires x_whole { length x.now ≡ sample_bytes plan.now }
    requires y_whole { length y.now ≡ sample_bytes plan.now }
    requires channel { channel < plan.now.channels }
    ensures { ArePartsOf result (plan.now.spectra * 2 ^ 15)
        (λ p q. of_cells plan.now channel p q (Some x.now) (Some y.now)) }
{
    let mut sum = pair_products(plan, x, y, channel);
    for spectrum in 2 * (plan.spectra / 2)..plan.spectra {
        let x0 = sample_at(plan, x, channel, spectrum, 0);
        let x1 = sample_at(plan, x, channel, spectrum, 1);
        let y0 = sample_at(plan, y, channel, spectrum, 0);
        let y1 = sample_at(plan, y, channel, spectrum, 1);
        sum = Products {
            xx: sum.xx.plus(product(x0, y0)),
            xy: sum.xy.plus(product(x0, y1)),
            yx: sum.yx.plus(product(x1, y0)),
            yy: sum.yy.plus(product(x1, y1)),
        };
    }
    sum
}
