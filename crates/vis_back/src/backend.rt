//! Back ends.

ghost use Rattle.std.specs.Prelude.{◌≡◌, ◌+◌, ◌-◌, ◌≤◌, ℕ, List, Option, IfOk, true, length};
ghost use Rattle.corr_model.specs.declared.plan.Plan.{Plan};
ghost use Rattle.corr_model.specs.Plans.{Fits};
ghost use Rattle.vis_shape.specs.Sums.{add_sums, zeros, with_sums, no_sums};
ghost use Rattle.vis_back.specs.Sets.{IsFullSet, cells_of, in_range};

use corr_model::{Observation, Plan};
use slot_column::Closed;
use std::alloc::{AllocError, Global};
use vis_shape::Made;

/// What makes a value of the closed columns of all antennas.
///
/// The value of columns and a range of timestamps is a list of whole numbers, as many for every range.
/// Beside the back end it rests on the plan and the cells of the range alone. A value in memory, the
/// `Out`, is made for a plan and holds what was added to it; its numbers are added place by place.
pub trait Backend: Drop {
    ghost use Rattle.std.specs.Prelude.{ℕ, ℤ, Bool, List, Option};
    ghost use Rattle.corr_model.specs.declared.plan.Plan.{Plan};

    /// A value in memory.
    type Out: Made;

    /// Whether it can serve a plan.
    ghost serves: { Self → Plan → Bool };
    /// How many sums a value has.
    ghost size: { Plan → ℕ };
    /// The value of columns over a range of timestamps.
    ghost value: { Self → Plan → List (List (Option (List ℕ))) → ℕ → ℕ → List ℤ };
    /// Whether the type of the back end alone fixes the value, whatever the back end holds: then it
    /// shows its value.
    ghost shows: { Bool };
    /// The value that the type fixes, where it does.
    ghost fixed: { Plan → List (List (Option (List ℕ))) → ℕ → ℕ → List ℤ };

    /// Whether it can serve the plan.
    fn suits(&self, plan: &Plan) -> bool
        ensures { result ≡ serves self.now plan.now };

    /// A value for the plan, to which nothing was added. It takes all memory that the value needs; an
    /// `AllocError` comes where that is refused.
    fn make(&self, alloc: Global, plan: &Plan) -> Result<Self::Out, AllocError>
        requires fits { Fits plan.now }
        requires suits { serves self.now plan.now ≡ true }
        ensures { IfOk result (λ out. Self.Out.shown out ≡ no_sums plan.now (size plan.now)) };

    /// Takes all away that was added. The plan stays.
    fn clear(&self, out: &mut Self::Out)
        requires size { length (Self.Out.shown out.old).sums ≡ size (Self.Out.shown out.old).plan }
        ensures { Self.Out.shown out.new
            ≡ no_sums (Self.Out.shown out.old).plan (size (Self.Out.shown out.old).plan) };

    /// Adds the value of the timestamps from `from` up to, and not including, `to`, place by place. The
    /// columns are closed, and are those of all antennas in order, of one number and of the plan for which
    /// `out` was made. No more timestamps are added than an accumulation has.
    fn add<O: Observation>(&self, columns: &[Closed<O>], from: u32, to: u32, out: &mut Self::Out)
        requires suits { serves self.now (Self.Out.shown out.old).plan ≡ true }
        requires columns { IsFullSet (Self.Out.shown out.old).plan columns.now }
        requires size { length (Self.Out.shown out.old).sums ≡ size (Self.Out.shown out.old).plan }
        requires order { from ≤ to }
        requires last { to ≤ (Self.Out.shown out.old).plan.heaps }
        requires room { (Self.Out.shown out.old).added + (to - from) ≤ (Self.Out.shown out.old).plan.heaps }
        ensures added { let plan = (Self.Out.shown out.old).plan in
            Self.Out.shown out.new
            ≡ with_sums (Self.Out.shown out.old) (value self.now plan (cells_of columns.now) from to) (to - from) }
        ensures fixed { let plan = (Self.Out.shown out.old).plan in
            shows ≡ true
            → value self.now plan (cells_of columns.now) from to ≡ fixed plan (cells_of columns.now) from to };

    /// How many timestamps were added.
    fn added(&self, out: &Self::Out) -> u32
        ensures { result ≡ (Self.Out.shown out.now).added };

    /// A value has as many sums as an Out.
    ghost sized: { (b : Self) (p : Plan) (cs : List (List (Option (List ℕ)))) (from to : ℕ)
        → length (value b p cs from to) ≡ size p };
    /// The value of a range is that of its two parts, added up.
    ghost splits: { (b : Self) (p : Plan) (cs : List (List (Option (List ℕ)))) (from mid to : ℕ) → from ≤ mid → mid ≤ to
        → value b p cs from to ≡ add_sums (value b p cs from mid) (value b p cs mid to) };
    /// The value of no timestamps is nothing.
    ghost starts: { (b : Self) (p : Plan) (cs : List (List (Option (List ℕ)))) (from : ℕ)
        → value b p cs from from ≡ zeros (size p) };
    /// The value rests on the cells of its range alone.
    ghost local: { (b : Self) (p : Plan) (cs ds : List (List (Option (List ℕ)))) (from to : ℕ)
        → in_range from to cs ≡ in_range from to ds
        → value b p cs from to ≡ value b p ds from to };
}
