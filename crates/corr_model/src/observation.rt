//! What a contract may say of the outside of a run, with no value when the program runs.

ghost use Rattle.std.specs.Prelude.{false, []};
ghost use Rattle.corr_model.specs.Plans.{no_plan};

/// The plan and the byte strings that a run is said to be of. It has no value at run time.
pub trait Observation: Drop {
    ghost use Rattle.std.specs.Prelude.{ℕ, Bool, List};
    ghost use Rattle.corr_model.specs.declared.plan.Plan.{Plan};

    /// Whether it names a plan and lists.
    ghost names: { Bool };
    /// The plan of the run.
    ghost plan: { Plan };
    /// The byte strings that the stream of an antenna is sent, in order.
    ghost list: { ℕ → List (List ℕ) };
}

/// The program's own observation, which names nothing.
#[derive(Drop)]
pub struct Unheard;

impl Observation for Unheard {
    ghost names = { false };

    ghost plan = { no_plan };

    ghost list = { λ a. [] };
}
