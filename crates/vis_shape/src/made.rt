//! Values that are made of parts.

ghost use Rattle.std.specs.Prelude.{◌≡◌, ◌+◌, ◌≤◌, length};
ghost use Rattle.vis_shape.specs.Sums.{Sums, with_sums};

/// A value made of parts: the plan for which it was made, a list of sums, and the number of
/// timestamps that were added. What the sums are of, a back end says.
pub trait Made: Drop {
    ghost use Rattle.vis_shape.specs.Sums.{Sums};

    /// What it shows.
    ghost shown: { Self → Sums };

    /// Adds the sums of another one, place by place, and its number of timestamps. The plan stays. The
    /// two are of one plan, and have no more timestamps together than an accumulation of it.
    fn merge(&mut self, part: &Self)
        requires plan { (shown part.now).plan ≡ (shown self.old).plan }
        requires size { length (shown part.now).sums ≡ length (shown self.old).sums }
        requires room { (shown self.old).added + (shown part.now).added ≤ (shown self.old).plan.heaps }
        ensures { shown self.new
            ≡ with_sums (shown self.old) (shown part.now).sums (shown part.now).added };
}
