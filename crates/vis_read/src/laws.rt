//! The law that the output decodes, and laws of what a reader answers.

ghost use Rattle.std.specs.Prelude.{◌≡◌, ◌≤◌, ◌<◌, ◌*◌, ◌+◌, ℕ, List, All, None, length, replicate};
ghost use Rattle.corr_model.specs.declared.plan.Plan.{Plan};
ghost use Rattle.corr_model.specs.Plans.{Fits, visibility_bytes};
ghost use Rattle.corr_model.specs.Packets.{Parts};
ghost use Rattle.corr_model.specs.Baselines.{baseline_number};
ghost use Rattle.corr_model.specs.Visibilities.{Lists, vis, missing};
ghost use Rattle.corr_model.specs.Outputs.{output};
ghost use Rattle.vis_read.specs.declared.cause.ReadCause.{ReadCause};
ghost use Rattle.vis_read.specs.declared.turn.Turn.TheVariants.{Broken};
ghost use Rattle.vis_read.specs.Readings.{Refused, seen_from, seen, reading, end_cause, value_at, missing_at};
ghost use Rattle.vis_read.specs.Endings.{end_by};
ghost use Rattle.vis_read.specs.Outputs.{view_sent, answers_of};

/// The output of a plan that fits is read back, whatever the streams are: the head with the plan's
/// sizes, a visibility heap for each accumulation with its number and timestamp, and the stop. No
/// datagram is refused, and each one at which no heap is whole gives Nothing.
///
/// Each value of such a heap is the visibility, where the streams are byte strings, and each
/// missing count is that of the baseline.
pub fn output_is_read_back()
    ensures answers { (limit : ℕ) (plan : Plan) (lists : Lists) → Fits plan
        → 288 ≤ limit → visibility_bytes plan ≤ limit
        → seen limit (output plan lists) ≡ answers_of plan lists }
    ensures ended { (limit : ℕ) (plan : Plan) (lists : Lists) → Fits plan
        → 288 ≤ limit → visibility_bytes plan ≤ limit
        → end_cause (reading limit (output plan lists)).turn ≡ None }
    ensures values { (plan : Plan) (lists : Lists) (n i j c p q : ℕ) → Fits plan
        → All (All (λ b. b < 256)) (lists i) → All (All (λ b. b < 256)) (lists j)
        → i ≤ j → j < plan.antennas → c < plan.channels → p < 2 → q < 2
        → value_at (view_sent plan lists n) c (baseline_number i j) (2 * p + q)
        ≡ vis plan lists n i j c p q }
    ensures missing { (plan : Plan) (lists : Lists) (n i j : ℕ) → Fits plan
        → i ≤ j → j < plan.antennas
        → missing_at (view_sent plan lists n) (baseline_number i j) ≡ missing plan lists n i j }
{}

/// After a refusal each later datagram is refused for the same cause, whatever it is.
#[tactic(auto, using(crate::proofs::EndingLemmas::refused_again))]
pub fn refused_for_good()
    ensures { (limit : ℕ) (cause : ReadCause) (begun : List Parts) (l : List (List ℕ))
        → seen_from limit (record { turn = Broken cause; begun = begun }) l
        ≡ replicate (length l) (Refused cause) }
{}

/// How a list ends is seen from the answers to it: by the cause of the first refusal, and where
/// there is none, by whether the stop is among them.
#[tactic(auto, using(crate::proofs::EndingLemmas::end_is_seen))]
pub fn end_is_seen()
    ensures { (limit : ℕ) (l : List (List ℕ))
        → end_cause (reading limit l).turn ≡ end_by (seen limit l) }
{}
