//! Samples within the bytes of one cell.

ghost use Rattle.std.specs.Prelude.{◌≡◌, ◌<◌, length, slice_index};
ghost use Rattle.corr_model.specs.Plans.{Fits, sample_bytes};
ghost use Rattle.corr_model.specs.Visibilities.{signed, sample};

use corr_model::Plan;

// The byte at a place as a signed number.
fn signed_at(cell: &[u8], at: usize) -> i8
    requires { at < length cell.now }
    ensures { result ≡ signed (slice_index cell.now at) }
{
    cell[at].cast_signed()
}

/// The real and the imaginary part of the sample at a channel, a spectrum and a polarisation.
pub(crate) fn sample_at(plan: &Plan, cell: &[u8], channel: u32, spectrum: u32, p: u32) -> (i8, i8)
    requires fits { Fits plan.now }
    requires whole { length cell.now ≡ sample_bytes plan.now }
    requires channel { channel < plan.now.channels }
    requires spectrum { spectrum < plan.now.spectra }
    requires polarisation { p < 2 }
    ensures real { result.0 ≡ (sample plan.now cell.now channel spectrum p).real }
    ensures imaginary { result.1 ≡ (sample plan.now cell.now channel spectrum p).imaginary }
{
    let row = plan.spectra as usize * channel as usize + spectrum as usize;
    let at = 2 * (2 * row + p as usize);
    (signed_at(cell, at), signed_at(cell, at + 1))
}
