//! The law of parts: an accumulation may be cut into ranges of timestamps, whose values are added up
//! in any order.

ghost use Rattle.std.specs.Prelude.{◌≡◌, ℕ, List, Option};
ghost use Rattle.corr_model.specs.declared.plan.Plan.{Plan};
ghost use Rattle.vis_shape.specs.Sums.{Sums};
ghost use Rattle.vis_back.specs.Parts.{Making, MakeUp, parts_of, made_so};

use crate::backend::Backend;

/// Disjoint parts that make up an accumulation, each added to a cleared value or to one that is merged
/// later, in any order, give the value of the whole, and its number of timestamps.
pub fn parts_make_the_whole<B: Backend>()
    ensures { (back : B) (plan : Plan) (cells : List (List (Option (List ℕ)))) (making : Making) (total : ℕ)
        → MakeUp (parts_of making) total
        → made_so plan (B.size plan) (B.value back plan cells) making
        ≡ record { plan = plan; sums = B.value back plan cells 0 total; added = total } }
{}
