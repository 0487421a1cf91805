//! Places on the grid of timestamps: every `step` clock ticks from `start` on, `heaps` to each
//! accumulation.

ghost use Rattle.std.specs.Prelude.{◌≡◌, ◌<◌, ◌≤◌};
ghost use Rattle.stream_rules.specs.Grid.{IsOnGrid};

use corr_model::Plan;

/// A place on the grid: an accumulation, and a timestamp's place in it.
#[derive(Clone, Copy)]
pub(crate) struct GridPlace {
    pub(crate) accumulation: u64,
    pub(crate) place: u32,
}

/// What a timestamp is to the grid.
#[derive(Clone, Copy)]
pub(crate) enum OnGrid {
    /// It is before the start.
    Before,
    /// It is between two steps.
    Off,
    /// It is at this place.
    At(GridPlace),
}

/// What the timestamp is to the grid of the plan.
pub(crate) fn on_grid(plan: &Plan, timestamp: u64) -> OnGrid
    requires step { 0 < plan.now.step }
    requires heaps { 0 < plan.now.heaps }
    requires few { plan.now.heaps ≤ 4096 }
    ensures { IsOnGrid plan.now timestamp result }
{
    if timestamp < plan.start {
        return OnGrid::Before;
    }
    let ticks = timestamp - plan.start;
    if ticks % plan.step != 0 {
        return OnGrid::Off;
    }
    let steps = ticks / plan.step;
    let heaps = u64::from(plan.heaps);
    OnGrid::At(GridPlace {
        accumulation: steps / heaps,
        place: (steps % heaps) as u32,
    })
}
