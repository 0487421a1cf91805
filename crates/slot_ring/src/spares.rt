//! Spare columns.

ghost use Rattle.std.specs.Prelude.{◌≡◌, IfOk, replicate, false};
ghost use Rattle.corr_model.specs.Plans.{Fits};
ghost use Rattle.slot_column.specs.Columns.{Hand, empty_column};
ghost use Rattle.slot_ring.specs.Means.{spare_hand};

use corr_model::{Observation, Plan};
use slot_column::{Closed, Column};
use std::alloc::{AllocError, Global};

/// A spare column for each antenna of the plan.
pub(crate) fn spare_columns<O: Observation>(
    alloc: Global,
    plan: &Plan,
) -> Result<Vec<Closed<O>>, AllocError>
    requires { Fits plan.now }
    ensures { IfOk result (λ v. v.items ≡ replicate plan.now.antennas (spare_hand plan.now)) }
{
    let mut hands = Vec::with_capacity(alloc, plan.antennas as usize)?;
    for _ in 0..plan.antennas {
        hands.push_reserved(Closed::spare(Column::new(alloc, plan)?));
    }
    Ok(hands)
}
