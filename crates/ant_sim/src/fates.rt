//! Which packets of a heap are lost, sent twice or turned round.

ghost use Rattle.std.specs.Prelude.{◌≡◌, ◌≤◌, ◌+◌, ◌*◌, ◌%◌, ◌^◌, take, length, ◌∷◌, [], ◌++◌, replicate};
ghost use Rattle.ant_sim.specs.Fates.{order, pieces_from, times, words};

use rand_core::SeedableRng;
use rand_core::utils::NextWord;
use rand_xoshiro::SplitMix64;

/// The fate of a heap.
pub(crate) fn heap_fate(seed: u64) -> u64
    ensures { words seed 1 ≡ result ∷ [] }
{
    SplitMix64::seed_from_u64(seed).next_word()
}

// How often a piece with this fate is sent.
fn times(fate: u64) -> usize
    ensures value { result ≡ times fate }
    ensures few { result ≤ 2 }
{
    match fate % 256 {
        0 => 0,
        1 => 2,
        _ => 1,
    }
}

// Puts a number so many times from a place on. The answer is the place behind.
fn put_times(out: &mut [u32], len: usize, k: u32, count: usize) -> usize
    requires few { count ≤ 2 }
    requires room { len + count ≤ length out.old }
    ensures len { result ≡ len + count }
    ensures value { take result out.new ≡ take len out.old ++ replicate count k }
{
    if count > 0 {
        out[len] = k;
    }
    if count > 1 {
        out[len + 1] = k;
    }
    len + count
}

/// Puts the pieces of a heap, numbered from 0, as often as their fates say: those of `pieces` words
/// of the generator. The answer is how many.
pub(crate) fn put_pieces(generator: &mut SplitMix64, pieces: u32, out: &mut [u32]) -> usize
    requires { 2 * pieces ≤ length out.old }
    ensures within { result ≤ length out.new }
    ensures value { take result out.new ≡ pieces_from 0 (words generator.old pieces) }
{
    let mut len = 0usize;
    for k in 0..pieces {
        let fate = generator.next_word();
        len = put_times(out, len, k, times(fate));
    }
    len
}
