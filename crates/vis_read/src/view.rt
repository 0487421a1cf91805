//! A visibility heap, read in place.

ghost use Rattle.std.specs.Prelude.{◌≡◌, ◌<◌, ◌≤◌, ◌+◌, ◌*◌, length};
ghost use Rattle.vis_read.specs.Readings.{value_at, missing_at};
ghost use Rattle.vis_read.specs.Standing.{AreFew};

use crate::turn::Sizes;
use byteorder::{BigEndian, ByteOrder};
use spead_types::int_at;

/// A visibility heap, for as long as the reader is not used.
#[derive(Drop)]
pub struct VisView<'a> {
    pub(crate) number: u64,
    pub(crate) timestamp: u64,
    pub(crate) sizes: Sizes,
    pub(crate) values: &'a [u8],
    pub(crate) missing: &'a [u8],
    ghost values_long: { length values.now ≡ 64 * sizes.channels * sizes.baselines },
    ghost few: { AreFew sizes },
    ghost missing_long: { length missing.now ≡ 4 * sizes.baselines },
}

impl<'a> VisView<'a> {
    ghost use Rattle.vis_read.specs.Views.{view_of};

    /// The number of the accumulation, from 0.
    pub fn number(&self) -> u64
        ensures { result ≡ (view_of self.now).number }
    {
        self.number
    }

    /// The timestamp of its first heap, in ticks of the clock.
    pub fn timestamp(&self) -> u64
        ensures { result ≡ (view_of self.now).timestamp }
    {
        self.timestamp
    }

    /// The number of channels.
    pub fn channels(&self) -> u32
        ensures few { result ≤ 4096 }
        ensures value { result ≡ (view_of self.now).sizes.channels }
    {
        self.sizes.channels
    }

    /// The number of baselines.
    pub fn baselines(&self) -> u32
        ensures few { result ≤ 2080 }
        ensures value { result ≡ (view_of self.now).sizes.baselines }
    {
        self.sizes.baselines
    }

    /// The value of a channel, a baseline and a product: real and imaginary part. Product `2p + q` is
    /// that of polarisation `p` of the first antenna and `q` of the second.
    pub fn at(&self, channel: u32, baseline: u32, product: u32) -> (i64, i64)
        requires channel { channel < (view_of self.now).sizes.channels }
        requires baseline { baseline < (view_of self.now).sizes.baselines }
        requires product { product < 4 }
        ensures { record { real = result.0; imaginary = result.1 }
            ≡ value_at (view_of self.now) channel baseline product }
    {
        let place = self.place(channel, baseline, product);
        (
            int_at(self.values, 64, true, 2 * place),
            int_at(self.values, 64, true, 2 * place + 1),
        )
    }

    /// At how many timestamps of the accumulation a baseline was without one of its two cells.
    pub fn missing(&self, baseline: u32) -> u32
        requires { baseline < (view_of self.now).sizes.baselines }
        ensures { result ≡ missing_at (view_of self.now) baseline }
    {
        let (_, count) = self.missing.split_at(4 * baseline as usize);
        BigEndian::read_u32(count)
    }

    // The place of a value among all of the heap.
    fn place(&self, channel: u32, baseline: u32, product: u32) -> usize
        requires channel { channel < (view_of self.now).sizes.channels }
        requires baseline { baseline < (view_of self.now).sizes.baselines }
        requires product { product < 4 }
        ensures value { result
            ≡ (channel * (view_of self.now).sizes.baselines + baseline) * 4 + product }
        ensures within { (result + 1) * 16 ≤ length (view_of self.now).values }
    {
        let _ = self.values.len();
        (channel as usize * self.sizes.baselines as usize + baseline as usize) * 4
            + product as usize
    }
}
