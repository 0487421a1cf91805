//! Laws of visibilities: sums of ranges, the lists on which they depend, antennas turned round, and how great they are.

ghost use Rattle.std.specs.Prelude.{◌≡◌, ◌^◌, ◌<◌, ◌≤◌, ℕ, neg_ℤ, unsigned_abs, All};
ghost use Rattle.corr_model.specs.declared.plan.Plan.{Plan};
ghost use Rattle.corr_model.specs.Plans.{Fits};
ghost use Rattle.corr_model.specs.Visibilities.{Lists, plus, part, missing};

/// The value of a range of timestamps is the sum of the values of its two parts.
#[tactic(auto, using(crate::proofs::SumLaws::parts_add))]
pub fn parts_add()
    ensures { (plan : Plan) (lists : Lists) (n i j c p q from mid to : ℕ) → from ≤ mid → mid ≤ to
        → plus (part plan lists n i j c p q from mid) (part plan lists n i j c p q mid to)
        ≡ part plan lists n i j c p q from to }
{}

/// The value and the missing count of antennas `i` and `j` depend on the byte strings of these two antennas alone.
#[tactic(auto, using(crate::proofs::SumLaws::part_of_two_lists, crate::proofs::SumLaws::missing_of_two_lists))]
pub fn two_lists_alone()
    ensures value { (plan : Plan) (lists others : Lists) (n i j c p q from to : ℕ) → lists i ≡ others i
        → lists j ≡ others j
        → part plan lists n i j c p q from to ≡ part plan others n i j c p q from to }
    ensures missing { (plan : Plan) (lists others : Lists) (n i j : ℕ) → lists i ≡ others i → lists j ≡ others j
        → missing plan lists n i j ≡ missing plan others n i j }
{}

/// With the antennas and the polarisations turned round, a value is the complex conjugate. So on the baseline of an
/// antenna with itself the products 01 and 10 are conjugates.
#[tactic(auto, using(crate::proofs::SumLaws::turned_real, crate::proofs::SumLaws::turned_imaginary))]
pub fn turned_round_is_conjugate()
    ensures real { (plan : Plan) (lists : Lists) (n i j c p q from to : ℕ)
        → (part plan lists n j i c q p from to).real ≡ (part plan lists n i j c p q from to).real }
    ensures imaginary { (plan : Plan) (lists : Lists) (n i j c p q from to : ℕ)
        → (part plan lists n j i c q p from to).imaginary ≡ neg_ℤ (part plan lists n i j c p q from to).imaginary }
{}

/// A missing count is the same with the antennas turned round.
#[tactic(auto, using(crate::proofs::SumLaws::missing_turned))]
pub fn missing_is_the_same_turned_round()
    ensures { (plan : Plan) (lists : Lists) (n i j : ℕ)
        → missing plan lists n j i ≡ missing plan lists n i j }
{}

/// Neither part of a value is greater than 2^39 in size, for a plan that fits and streams of byte strings.
pub fn parts_are_small()
    ensures { (plan : Plan) (lists : Lists) (n i j c p q from to : ℕ)
        → Fits plan
        → All (All (λ b. b < 256)) (lists i)
        → All (All (λ b. b < 256)) (lists j)
        → (unsigned_abs (part plan lists n i j c p q from to).real ≤ 2 ^ 39)
        × (unsigned_abs (part plan lists n i j c p q from to).imaginary ≤ 2 ^ 39) }
{}
