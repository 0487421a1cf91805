//! The parts of a core that its events change, but for the emitter.

ghost use Rattle.std.specs.Prelude.{◌≡◌, true};
ghost use Rattle.corr_model.specs.Plans.{Fits};
ghost use Rattle.slot_ring.specs.Means.{spare_hand};
ghost use Rattle.slot_ring.specs.Slots.{free_work, no_outgoing};
ghost use Rattle.slot_ring.specs.Rings.{empty_ring};
ghost use Rattle.corr_machine.specs.Machines.{work_count};
ghost use Rattle.corr_core.specs.New.{Built, IsNewFeed};

use corr_model::{Observation, Plan};
use slot_column::Closed;
use slot_ring::{Outgoing, Ring, Work};
use std::marker::Model;
use stream_feed::Feed;
use vis_back::Backend;

/// Feeds, hands, ring, works, the value that goes out, and the number of the next one.
#[derive(Drop)]
pub(crate) struct Parts<O: Observation, B: Backend> {
    pub(crate) plan: Plan,
    pub(crate) feeds: Vec<Feed<O>>,
    pub(crate) hands: Vec<Closed<O>>,
    pub(crate) ring: Ring<O, B>,
    pub(crate) works: Vec<Work<O, B>>,
    pub(crate) outgoing: Outgoing<O, B>,
    pub(crate) sent: u64,
}

impl<O: Observation, B: Backend> Model for Parts<O, B> {
    ghost use Rattle.corr_core.specs.Parts.{PartsView, IsSoundParts};

    ghost Value = { PartsView };

    ghost view = { λ p. record {
      plan = p.plan;
      feeds = p.feeds.items;
      hands = p.hands.items;
      ring = p.ring;
      works = p.works.items;
      outgoing = p.outgoing;
      sent = p.sent;
    } };

    ghost invariant = { λ p. IsSoundParts O.names O.plan
        (record {
          plan = p.plan;
          feeds = p.feeds.items;
          hands = p.hands.items;
          ring = p.ring;
          works = p.works.items;
          outgoing = p.outgoing;
          sent = p.sent;
        }) };
}

impl<O: Observation, B: Backend> Parts<O, B> {
    ghost use Rattle.corr_machine.specs.Machines.{opening};
    ghost use Rattle.corr_core.specs.Standing.{Value, StandFor};

    /// The parts before the first event.
    pub(crate) fn new(
        plan: Plan,
        feeds: Vec<Feed<O>>,
        hands: Vec<Closed<O>>,
        ring: Ring<O, B>,
        works: Vec<Work<O, B>>,
        outgoing: Outgoing<O, B>,
    ) -> Parts<O, B>
        requires fits { Fits plan }
        requires named { O.names ≡ true → plan ≡ O.plan }
        requires feeds { Built (IsNewFeed plan) plan.antennas feeds.items }
        requires hands { Built (λ a h. h ≡ spare_hand plan) plan.antennas hands.items }
        requires ring { ring ≡ empty_ring plan (B.size plan) }
        requires works { Built (λ w k. k ≡ free_work plan (B.size plan))
            (work_count plan) works.items }
        requires outgoing { outgoing ≡ no_outgoing plan (B.size plan) }
        ensures stands { (value : Value) → StandFor value result (opening plan) }
        ensures plan { result.plan ≡ plan }
    {
        Parts {
            plan,
            feeds,
            hands,
            ring,
            works,
            outgoing,
            sent: 0,
        }
    }
}
