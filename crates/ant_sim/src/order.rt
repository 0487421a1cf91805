//! The order in which heaps and their pieces are sent.

ghost use Rattle.std.specs.Prelude.{◌≡◌, ◌≤◌, ◌<◌, ◌+◌, ◌*◌, ◌^◌, take, length};
ghost use Rattle.ant_sim.specs.Fates.{order};
ghost use Rattle.ant_sim.specs.Simulated.{changes, fate, fate_key, heap_at};

use crate::fates::{heap_fate, put_pieces};
use crate::noise::key;
use rand_core::SeedableRng;
use rand_core::utils::NextWord;
use rand_xoshiro::SplitMix64;

/// The seed of the fates of a heap.
pub(crate) fn fate_key(seed: u64, antenna: u32, heap: u64) -> u64
    ensures { result ≡ fate_key seed antenna heap }
{
    key(seed, antenna, heap).wrapping_add(1)
}

/// Puts the numbers of the pieces of a heap in the order in which they are sent. The answer is how
/// many.
pub(crate) fn put_order(seed: u64, pieces: u32, out: &mut [u32]) -> usize
    requires room { 2 * pieces ≤ length out.old }
    ensures within { result ≤ length out.new }
    ensures room { length out.new ≡ length out.old }
    ensures value { take result out.new ≡ order seed pieces }
{
    let mut generator = SplitMix64::seed_from_u64(seed);
    let fate = generator.next_word();
    let len = put_pieces(&mut generator, pieces, out);
    if fate % 8 == 0 {
        out[..len].reverse();
    }
    len
}

// Whether the heaps of the pair with this first one change places.
fn changes(seed: u64, antenna: u32, heaps: u64, first: u64) -> bool
    requires { first < 2 ^ 63 }
    ensures { result ≡ changes seed antenna heaps first }
{
    first + 1 < heaps && heap_fate(fate_key(seed, antenna, first)) / 8 % 8 == 0
}

/// The heap that is sent at a place, of so many.
pub(crate) fn heap_at(seed: u64, antenna: u32, heaps: u64, place: u64) -> u64
    requires { place < 2 ^ 63 }
    ensures { result ≡ heap_at seed antenna heaps place }
{
    let first = 2 * (place / 2);
    if !changes(seed, antenna, heaps, first) {
        return place;
    }
    if place == first { first + 1 } else { first }
}
