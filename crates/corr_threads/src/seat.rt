//! A source with room for the receiver of its stream, so that one thread is handed both.

ghost use Rattle.std.specs.Prelude.{◌≡◌, None};

use crate::receiver::Receiver;
use corr_model::Observation;
use corr_site::{Failed, Next, PacketSource, Place};

/// A source, and the receiver of its stream while a run goes on.
#[derive(Drop)]
pub struct Seat<O: Observation, S: PacketSource<O>> {
    /// The source.
    pub source: S,
    /// Its receiver.
    pub receiver: Option<Receiver<O>>,
}

impl<O: Observation, S: PacketSource<O>> Seat<O, S> {
    /// A seat without a receiver.
    pub fn new(source: S) -> Seat<O, S>
        ensures source { result.source ≡ source }
        ensures receiver { result.receiver ≡ None }
    {
        Seat {
            source,
            receiver: None,
        }
    }

    /// The source.
    pub fn source(&self) -> &S
        ensures { result.now ≡ self.now.source }
    {
        &self.source
    }
}

impl<O: Observation, S: PacketSource<O>> PacketSource<O> for Seat<O, S> {
    ghost gives = { λ s. S.gives s.source };

    ghost given = { λ s. S.given s.source };

    ghost begun = { λ s. S.begun s.source };

    ghost at = { λ s. S.at s.source };

    ghost belongs = { λ s a. S.belongs s.source a };

    ghost faults = { λ s. S.faults s.source };

    fn begin(&mut self, antenna: u32, place: &Place) -> Result<(), Failed> {
        self.source.begin(antenna, place)
    }

    fn next(&mut self, buf: &mut [u8; 65536]) -> Next {
        self.source.next(buf)
    }

    ghost belongs_tells = { λ s a b. S.belongs_tells s.source a b };
}
