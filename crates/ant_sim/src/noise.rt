//! Samples from a seed.

ghost use Rattle.std.specs.Prelude.{◌≡◌, ◌<◌, ◌^◌, length, map, zip};
ghost use Rattle.ant_sim.specs.Noise.{half, key, mixed, noise, samples};

use rand_core::{Rng, SeedableRng};
use rand_xoshiro::SplitMix64;

/// The seed of the generator of an antenna's heap.
pub(crate) fn key(seed: u64, antenna: u32, heap: u64) -> u64
    ensures { result ≡ key seed antenna heap }
{
    let place = (u64::from(antenna) << 32).wrapping_add(heap);
    seed.wrapping_add(place.wrapping_mul(2))
}

// Fills the bytes with noise.
fn put_noise(seed: u64, bytes: &mut [u8])
    ensures { bytes.new ≡ noise seed (length bytes.old) }
{
    SplitMix64::seed_from_u64(seed).fill_bytes(bytes);
}

// The byte of the greatest whole number that is at most half of a signed byte.
fn half(byte: u8) -> u8
    ensures { result ≡ half byte }
{
    if byte < 128 { byte / 2 } else { byte / 2 + 128 }
}

/// Puts the samples of a heap; `sky` is room for as many bytes.
pub(crate) fn put_samples(seed: u64, antenna: u32, heap: u64, bytes: &mut [u8], sky: &mut [u8])
    requires { length sky.old ≡ length bytes.old }
    ensures { bytes.new ≡ samples seed antenna heap (length bytes.old) }
{
    put_noise(key(seed, antenna, heap), bytes);
    put_noise(key(seed, 64, heap), sky);
    mix(bytes, sky);
}

// Mixes the bytes with others.
fn mix(bytes: &mut [u8], sky: &[u8])
    requires { length sky.now ≡ length bytes.old }
    ensures { bytes.new ≡ map mixed (zip bytes.old sky.now) }
{
    for i in 0..bytes.len() {
        bytes[i] = half(bytes[i]).wrapping_add(half(sky[i]));
    }
}
