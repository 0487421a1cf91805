//! What a core with the plain back end and the sender sends.

ghost use Rattle.std.specs.Prelude.{◌≡◌};
ghost use Rattle.corr_model.specs.declared.plan.Plan.{Plan};
ghost use Rattle.corr_model.specs.Visibilities.{Lists};
ghost use Rattle.vis_value.specs.Crosses.{cross_value};
ghost use Rattle.vis_send.specs.Emitters.{sender_strings};
ghost use Rattle.corr_machine.specs.Runs.{heaps_of};
ghost use Rattle.corr_core.specs.Sends.{value_with, heaps_by};

/// The heaps that the core with `Cross` and `Sender` sends of some lists are those of the output of
/// these lists: the descriptor heap, the visibility heap of each accumulation, the stop heap.
pub fn plain_heaps_are_the_output()
    ensures { (plan : Plan) (lists : Lists)
        → heaps_by (value_with cross_value plan) (sender_strings plan) plan lists
        ≡ heaps_of plan lists }
{}
