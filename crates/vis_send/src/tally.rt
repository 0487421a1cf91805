//! The number, the bytes and the mark of what was sent.

ghost use Rattle.std.specs.Prelude.{◌≡◌, ◌+◌, ◌*◌, ◌%◌, ◌^◌, fold};
ghost use Rattle.vis_send.specs.Marks.{marked, nothing, one_more};

/// What was sent. The mark is a number to compare two outputs by: it starts at 0, and each byte `b`
/// of each datagram in order makes it `31 * mark + b + 1` modulo 2^64.
#[derive(Clone, Copy, Debug, PartialEq, Eq)]
pub struct Sent {
    /// How many datagrams, 2^64 - 1 at most.
    pub packets: u64,
    /// How many bytes, 2^64 - 1 at most.
    pub bytes: u64,
    /// The mark over all bytes.
    pub mark: u64,
}

impl Sent {
    /// Nothing was sent yet.
    pub fn nothing() -> Sent
        ensures { result ≡ nothing }
    {
        Sent {
            packets: 0,
            bytes: 0,
            mark: 0,
        }
    }

    /// Counts one datagram more.
    pub fn count(&mut self, datagram: &[u8])
        ensures { self.new ≡ one_more self.old datagram.now }
    {
        self.packets = self.packets.saturating_add(1);
        self.bytes = self.bytes.saturating_add(datagram.len() as u64);
        self.mark = mark_after(self.mark, datagram);
    }
}

// The mark after more bytes.
fn mark_after(mark: u64, bytes: &[u8]) -> u64
    ensures { result ≡ fold marked mark bytes.now }
{
    let mut now = mark;
    for byte in bytes {
        now = now
            .wrapping_mul(31)
            .wrapping_add(u64::from(*byte))
            .wrapping_add(1);
    }
    now
}
