//! What can happen to a core, and what became of it.

ghost use Rattle.std.specs.Prelude.{◌≡◌, ◌⊎◌, MatchBool};

use corr_model::{Ending, Plan};

/// What can happen to a core. Streams are named by their antenna, works and slots by their number,
/// all from 0.
#[derive(Clone, Copy)]
pub enum Event<'a> {
    /// The next byte string of a stream.
    Packet(u32, &'a [u8]),
    /// The end of a stream: its source has no more, or failed.
    End(u32, Ending),
    /// The next closed column of a stream goes into its slot of the ring.
    Put(u32),
    /// A free work takes the columns of a full slot, and computes their value.
    Take(u32, u32),
    /// A work's value goes into its slot.
    Store(u32),
    /// The next value is sent.
    Send,
}

impl Event<'_> {
    ghost use Rattle.std.specs.Prelude.{◌↔◌, true};
    ghost use Rattle.corr_core.specs.Cores.{IsInRange};

    /// Whether it names a stream, a work and a slot that the plan has, and an end that can be said:
    /// End or Fault.
    pub fn is_in_range(self, plan: &Plan) -> bool
        ensures { result ≡ true ↔ IsInRange plan.now self.entry }
    {
        let works = plan.workers.max(1);
        match self {
            Event::Packet(antenna, _) | Event::Put(antenna) => antenna < plan.antennas,
            Event::End(antenna, how) => antenna < plan.antennas && is_said(how),
            Event::Take(work, slot) => work < works && slot < plan.slots,
            Event::Store(work) => work < works,
            Event::Send => true,
        }
    }
}

// Whether an end can be said of a stream.
fn is_said(how: Ending) -> bool
    ensures { MatchBool result ((how ≡ Ending.End) ⊎ (how ≡ Ending.Fault))
        ((how ≡ Ending.End) ⊎ (how ≡ Ending.Fault) → ⊥) }
{
    matches!(how, Ending::End | Ending::Fault)
}

/// What became of an event.
#[derive(Clone, Copy, Debug, PartialEq, Eq)]
pub enum Stepped {
    /// It happened.
    Moved,
    /// It can't happen now, or the sink failed before: nothing was sent, and the core stands for
    /// the same state.
    Idle,
    /// It happened, but the sink failed at it. From then on every event is idle.
    Failed,
}

impl Stepped {
    ghost use Rattle.std.specs.Prelude.{false};
    ghost use Rattle.corr_core.specs.Cores.{stepped_of, has_failed};

    // Moved where it happened.
    pub(crate) fn of(happened: bool) -> Stepped
        ensures { result ≡ stepped_of happened }
    {
        if happened {
            Stepped::Moved
        } else {
            Stepped::Idle
        }
    }

    // Whether the sink failed.
    pub(crate) fn is_failed(self) -> bool
        ensures { result ≡ has_failed false self }
    {
        matches!(self, Stepped::Failed)
    }
}
