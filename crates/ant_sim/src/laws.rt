//! Laws of the definitions.

ghost use Rattle.std.specs.Prelude.{ℕ, ◌<◌, ◌^◌, length};
ghost use Rattle.corr_model.specs.declared.plan.Plan.{Plan};
ghost use Rattle.corr_model.specs.Plans.{Fits};
ghost use Rattle.ant_sim.specs.Simulated.{simulated};

/// The packets of a list can be counted in 64 bits.
pub fn a_list_can_be_counted()
    ensures { (plan : Plan) (seed antenna : ℕ) → Fits plan → length (simulated plan seed antenna) < 2 ^ 64 }
{}
