//! Datagrams that are sent on as they come.

ghost use Rattle.std.specs.Prelude.{◌≡◌, ℕ, true};
ghost use Rattle.corr_tools.specs.Relaying.{RelayHasCause, Relays};

use corr_model::Observation;
use corr_site::{Next, PacketSink, PacketSource};

/// How a relay ended.
#[derive(Clone, Copy, Debug, PartialEq, Eq)]
pub enum Relayed {
    /// So many datagrams were sent: all that the source gave up to its end, or to the limit.
    Done(u64),
    /// So many datagrams were sent, and then the source failed.
    SourceFault(u64),
    /// The sink failed.
    SinkFault,
}

/// Sends what the source gives to the sink, in order, and takes no more than so many byte strings.
///
/// A failure of the source ends it; what came before was sent. One of the sink ends it at once.
pub fn relay<O: Observation, S: PacketSource<O>, K: PacketSink>(
    source: &mut S,
    sink: &mut K,
    limit: u64,
) -> Relayed
    requires source { S.begun source.old ≡ true }
    requires sink { K.begun sink.old ≡ true }
    ensures relays { Relays (S.gives source.old) (S.given source.old) (S.given source.new) limit
        (K.sent sink.old) (K.sent sink.new) result }
    ensures cause { RelayHasCause (S.faults source.old) (S.faults source.new)
        (K.faults sink.old) (K.faults sink.new) result }

    // What stays.
    ensures gives { S.gives source.new ≡ S.gives source.old }
    ensures belongs { (a : ℕ) → S.belongs source.old a → S.belongs source.new a }
    ensures source_begun { S.begun source.new ≡ true }
    ensures source_at { S.at source.new ≡ S.at source.old }
    ensures sink_begun { K.begun sink.new ≡ true }
    ensures sink_at { K.at sink.new ≡ K.at sink.old }
{
    let mut buf = [0; 65536];
    for count in 0..limit {
        match source.next(&mut buf) {
            Next::Packet(len) => {
                if sink.send(&buf[..len]).is_err() {
                    return Relayed::SinkFault;
                }
            }
            Next::End => return Relayed::Done(count),
            Next::Failed => return Relayed::SourceFault(count),
        }
    }
    Relayed::Done(limit)
}
