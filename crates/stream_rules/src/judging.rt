//! The verdict on a whole heap, up to whether another was used at its place.

ghost use Rattle.std.specs.Prelude.{◌≡◌, List, Option, if◌then◌else◌, option_map};
ghost use Rattle.corr_model.specs.Plans.{Fits};
ghost use Rattle.corr_model.specs.Tables.{Sight};
ghost use Rattle.corr_model.specs.Streams.{above_top, heap_verdict, verdict_at};
ghost use Rattle.corr_model.specs.Streams.{JudgedHeap};
ghost use Rattle.corr_model.specs.declared.verdict.Verdict.TheVariants as verdicts;
ghost use Rattle.stream_rules.specs.Judging.{told, verdict_of, IsPlaced, IsPlacedAt};

use crate::grid::{GridPlace, OnGrid, on_grid};
use crate::judged::Judged;
use crate::marks::Marks;
use corr_model::Plan;

/// Judges a whole heap of an antenna's stream by the marks of the earlier ones. `stop` says whether
/// it is a stop heap; `sight` is its timestamp in clock ticks and its antenna number, where it is
/// readable.
pub fn judge(
    marks: &Marks,
    stop: bool,
    sight: Option<(u64, u64)>,
    plan: &Plan,
    antenna: u32,
) -> Judged
    requires { Fits plan.now }
    ensures verdict { (js : List JudgedHeap) (seen : Option Sight) → above_top plan.now js ≡ marks.now.above
        → option_map told seen ≡ sight
        → (if stop then verdicts.Stop else heap_verdict plan.now antenna js seen) ≡ verdict_of js result }
    ensures place { IsPlaced plan.now marks.now.above sight result }
{
    if stop {
        return Judged::Stop;
    }
    let (timestamp, number) = match sight {
        Some(sight) => sight,
        None => return Judged::Undescribed,
    };
    if number != u64::from(antenna) {
        return Judged::Foreign(number);
    }
    match on_grid(plan, timestamp) {
        OnGrid::Before => Judged::BeforeStart,
        OnGrid::Off => Judged::OffGrid,
        OnGrid::At(at) => judge_at(marks, plan, at),
    }
}

// The verdict at a place of the grid.
fn judge_at(marks: &Marks, plan: &Plan, at: GridPlace) -> Judged
    ensures verdict { (js : List JudgedHeap) → above_top plan.now js ≡ marks.now.above
        → verdict_at plan.now js at.accumulation at.place ≡ verdict_of js result }
    ensures place { IsPlacedAt plan.now marks.now.above at.accumulation at.place result }
{
    let n = at.accumulation;
    if marks.is_past_guard(plan, n) {
        return Judged::Wild;
    }
    if u64::from(plan.accumulations) <= n {
        return Judged::Beyond(n);
    }
    if n < marks.open_floor(plan) {
        return Judged::Late;
    }
    Judged::At(n, at.place)
}
