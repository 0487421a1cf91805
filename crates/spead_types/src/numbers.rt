//! Integers of 8, 16, 32 or 64 bits, one after another, the highest byte first.

ghost use Rattle.std.specs.Prelude.{◌≡◌, ◌≤◌, ◌<◌, ◌+◌, ◌-◌, ◌*◌, ◌/◌, ◌^◌, ◌≤ℤ◌, ◌<ℤ◌};
ghost use Rattle.std.specs.Prelude.{pos, neg_ℤ, true, false, length, IsTrue};
ghost use Rattle.corr_model.specs.Packets.{big};
ghost use Rattle.spead_types.specs.Numbers.{is_width, number_bytes, number_at, with_number};

use byteorder::{BigEndian, ByteOrder};

/// The number at a place among numbers of `bits` bits, in two's complement where `signed`.
pub fn int_at(bytes: &[u8], bits: u16, signed: bool, place: usize) -> i64
    requires width { IsTrue (is_width bits) }
    requires room { (place + 1) * (bits / 8) ≤ length bytes.now }
    requires small { signed ≡ false → big (number_bytes (bits / 8) place bytes.now) < 2 ^ 63 }
    ensures { result ≡ number_at bytes.now bits signed place }
{
    let width = usize::from(bits / 8);
    let (_, number) = bytes.split_at(place * width);
    if signed {
        BigEndian::read_int(number, width)
    } else {
        BigEndian::read_uint(number, width).cast_signed()
    }
}

/// Writes a number, in two's complement, at a place among numbers of `bits` bits.
pub fn put_int(bytes: &mut [u8], bits: u16, place: usize, value: i64)
    requires width { IsTrue (is_width bits) }
    requires room { (place + 1) * (bits / 8) ≤ length bytes.old }
    requires low { neg_ℤ (pos (2 ^ (bits - 1))) ≤ℤ value }
    requires high { value <ℤ pos (2 ^ bits) }
    ensures written { bytes.new ≡ with_number bytes.old bits place value }
    ensures signed { value <ℤ pos (2 ^ (bits - 1)) → number_at bytes.new bits true place ≡ value }
    ensures unsigned { pos 0 ≤ℤ value → number_at bytes.new bits false place ≡ value }
{
    let width = usize::from(bits / 8);
    let at = place * width;
    bytes[at..at + width].copy_from_slice(&value.to_be_bytes()[8 - width..]);
}
