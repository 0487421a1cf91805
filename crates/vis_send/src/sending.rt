//! Sending beside counting.

ghost use Rattle.std.specs.Prelude.{◌≡◌, ◌∷◌, [], true};
ghost use Rattle.corr_site.specs.Outside.{HasCause};
ghost use Rattle.vis_send.specs.Sending.{Tallies};

use crate::tally::Sent;
use corr_site::{Failed, PacketSink};

/// A packet could not be sent. The sink counted a fault.
#[derive(Clone, Copy, Debug, PartialEq, Eq)]
pub struct SinkFault;

impl From<Failed> for SinkFault {
    ghost from_gives = { λ _ e. e ≡ record {} };

    fn from(_error: Failed) -> SinkFault {
        SinkFault
    }
}

/// Sends one datagram and counts it. `SinkFault` comes only where the sink's count of faults rose,
/// and then nothing is sent or counted.
pub(crate) fn send<K: PacketSink>(
    sent: &mut Sent,
    datagram: &[u8],
    sink: &mut K,
) -> Result<(), SinkFault>
    requires begun { K.begun sink.old ≡ true }
    ensures sent { Tallies (K.sent sink.old) (K.sent sink.new) sent.old sent.new result
        (datagram.now ∷ []) }
    ensures begun { K.begun sink.new ≡ true }
    ensures at { K.at sink.new ≡ K.at sink.old }
    ensures cause { HasCause (K.faults sink.old) (K.faults sink.new) result }
{
    sink.send(datagram)?;
    sent.count(datagram);
    Ok(())
}
