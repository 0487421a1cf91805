//! How far a stream has come.

ghost use Rattle.std.specs.Prelude.{◌≡◌, ◌^◌, ◌+◌, ◌≤◌, ℕ, Bool, List, max, true, false};
ghost use Rattle.corr_model.specs.Streams.{floor};
ghost use Rattle.stream_rules.specs.Marking.{AreMarksOf, MarksState, floor_by, open_floor, is_wild_at};

use corr_model::Plan;
use std::marker::Model;

/// How far a stream has come: one more than the greatest accumulation that it reached, or 0 before
/// any, and whether it has ended. The number past the greatest timestamp still fits.
#[derive(Drop)]
pub struct Marks {
    above: u128,
    finished: bool,
}

impl Model for Marks {
    ghost use Rattle.std.specs.Prelude.{◌≤◌, ◌^◌};
    ghost use Rattle.stream_rules.specs.Marking.{MarksState};

    ghost Value = { MarksState };

    ghost view = { λ s. record { above = s.above; finished = s.finished } };

    ghost invariant = { λ s. s.above ≤ 2 ^ 64 };
}

impl Marks {
    /// The marks of a stream that reached nothing yet.
    pub fn new() -> Marks
        ensures { result ≡ record { above = 0; finished = false } }
    {
        Marks {
            above: 0,
            finished: false,
        }
    }

    /// The floor: the accumulations below it are closed. That is one more than the greatest that was
    /// reached, less the lag, and at most all of them; where the stream has ended, all.
    pub fn floor(&self, plan: &Plan) -> u64
        ensures value { result ≡ floor_by plan.now self.now }
        ensures most { result ≤ plan.now.accumulations }
        ensures definition { (antenna : ℕ) (l : List (List ℕ)) (ended : Bool)
            → AreMarksOf plan.now antenna l ended self.now → result ≡ floor plan.now antenna l ended }
    {
        if self.finished {
            return plan.accumulations.into();
        }
        self.open_floor(plan)
    }

    /// The stream reached this accumulation, by a heap that was used, late, past the last or a second
    /// one at its place.
    pub fn raise(&mut self, n: u64)
        ensures { self.new ≡ record self.old { above = max self.old.above (n + 1) } }
    {
        self.above = self.above.max(u128::from(n) + 1);
    }

    /// The stream has ended: all accumulations are closed.
    pub fn finish(&mut self)
        ensures { self.new ≡ record self.old { finished = true } }
    {
        self.finished = true;
    }

    /// The floor of the marks while the stream goes on.
    pub(crate) fn open_floor(&self, plan: &Plan) -> u64
        ensures value { result ≡ open_floor plan.now self.now.above }
        ensures most { result ≤ plan.now.accumulations }
    {
        let accumulations = u128::from(plan.accumulations);
        self.above
            .saturating_sub(plan.lag.into())
            .min(accumulations) as u64
    }

    /// Whether the accumulation is past the plan's guard, where it has one.
    pub(crate) fn is_past_guard(&self, plan: &Plan, n: u64) -> bool
        ensures { result ≡ is_wild_at plan.now self.now.above n }
    {
        0 < plan.leap && self.above + u128::from(plan.leap) <= u128::from(n)
    }
}
