//! Bytes as a number.

ghost use Rattle.std.specs.Prelude.{◌≡◌};
ghost use Rattle.corr_model.specs.Items.{short_number};

use byteorder::{BigEndian, ByteOrder};

/// One to eight bytes as an unsigned number, the highest byte first; none for another length.
pub fn short_number(bytes: &[u8]) -> Option<u64>
    ensures { result ≡ short_number bytes.now }
{
    if bytes.is_empty() || 8 < bytes.len() {
        return None;
    }
    Some(BigEndian::read_uint(bytes, bytes.len()))
}
