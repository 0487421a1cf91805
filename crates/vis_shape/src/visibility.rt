//! The values and missing counts of all baselines in one accumulation.

ghost use Rattle.std.specs.Prelude.{◌≡◌, ◌+◌, ◌*◌, ◌<◌, ◌≤◌, IfOk, length, get_or, pos};
ghost use Rattle.corr_model.specs.Plans.{Fits, baselines};
ghost use Rattle.vis_shape.specs.Shapes.{IsVis, none_of, block, shown_of};

use crate::adding::{add_counts, add_values};
use crate::made::Made;
use corr_model::Plan;
use std::alloc::{AllocError, Global};
use std::marker::Model;

/// The sums of all baselines: eight numbers for each baseline and channel, which are the real and
/// the imaginary parts of its four products, and a missing count for each baseline.
///
/// The fields are public, so that a back end adds in place. The type keeps how many numbers there are
/// and how great they can be.
#[derive(Drop)]
pub struct Visibility {
    /// The plan for which it was made.
    pub plan: Plan,
    /// By baseline, channel and product, the real part and then the imaginary part. The unit is that of
    /// the samples, squared.
    pub values: Vec<i64>,
    /// By baseline, at how many of the added timestamps one of its two cells was none.
    pub missing: Vec<u32>,
    /// How many timestamps were added.
    pub added: u32,
}

impl Model for Visibility {
    ghost use Rattle.vis_shape.specs.Shapes.{Vis, IsVis};

    ghost Value = { Vis };

    ghost view = { λ s. record { plan = s.plan; values = s.values.items; missing = s.missing.items; added = s.added } };

    ghost invariant = { λ s.
        IsVis (record { plan = s.plan; values = s.values.items; missing = s.missing.items; added = s.added }) };
}

/// The number of baselines of the plan's antennas, each antenna with itself included.
pub fn baselines(plan: &Plan) -> u32
    requires { Fits plan.now }
    ensures { result ≡ baselines plan.now }
{
    plan.antennas * (plan.antennas + 1) / 2
}

impl Visibility {
    /// A value for the plan, to which nothing was added. It takes all memory that the value needs; an
    /// `AllocError` comes where that is refused.
    pub fn new(alloc: Global, plan: &Plan) -> Result<Visibility, AllocError>
        requires { Fits plan.now }
        ensures { IfOk result (λ v. v ≡ none_of plan.now) }
    {
        let count = baselines(plan) as usize;
        let values = vec![in alloc; 0; count * (8 * plan.channels as usize)]?;
        let missing = vec![in alloc; 0; count]?;
        Ok(Visibility {
            plan: *plan,
            values,
            missing,
            added: 0,
        })
    }

    /// Takes all away that was added. The plan stays.
    pub fn clear(&mut self)
        ensures { self.new ≡ none_of self.old.plan }
    {
        self.values.fill(0);
        self.missing.fill(0);
        self.added = 0;
    }

    /// The real and the imaginary part of a product of a baseline at a channel. Product `2p + q` is that
    /// of polarisation `p` of the first antenna and `q` of the second.
    pub fn at(&self, channel: u32, baseline: u32, product: u32) -> (i64, i64)
        requires channel { channel < self.now.plan.channels }
        requires baseline { baseline < baselines self.now.plan }
        requires product { product < 4 }
        ensures { let place = baseline * block self.now.plan + (8 * channel + 2 * product) in
            result ≡ (get_or self.now.values place (pos 0), get_or self.now.values (place + 1) (pos 0)) }
    {
        let block = 8 * self.plan.channels as usize;
        let place = baseline as usize * block + (8 * channel as usize + 2 * product as usize);
        (self.values[place], self.values[place + 1])
    }

    /// At how many of the added timestamps one of the baseline's two cells was none.
    pub fn missing(&self, baseline: u32) -> u32
        requires { baseline < baselines self.now.plan }
        ensures { result ≡ get_or self.now.missing baseline 0 }
    {
        self.missing[baseline as usize]
    }

    /// How many timestamps were added.
    pub fn added(&self) -> u32
        ensures { result ≡ self.now.added }
    {
        self.added
    }
}

impl Made for Visibility {
    ghost use Rattle.vis_shape.specs.Shapes.{shown_of};

    ghost shown = { shown_of };

    fn merge(&mut self, part: &Self) {
        let more = part.added;
        add_values(&mut self.values, &part.values);
        add_counts(&mut self.missing, &part.missing);
        self.added += more;
    }
}
