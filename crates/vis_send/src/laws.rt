//! Laws of what is sent and of what is counted.

ghost use Rattle.std.specs.Prelude.{◌≡◌, ◌-◌, ◌^◌, ◌++◌, ℕ, ℤ, List, min, length, fold, sum_by};
ghost use Rattle.std.specs.List.{flat_map};
ghost use Rattle.corr_model.specs.declared.plan.Plan.{Plan};
ghost use Rattle.corr_model.specs.Visibilities.{Lists};
ghost use Rattle.corr_model.specs.Outputs.{heap_packets, output};
ghost use Rattle.vis_shape.specs.Payloads.{sums_packets};
ghost use Rattle.vis_send.specs.Marks.{marked, more, sent_of};
ghost use Rattle.vis_send.specs.Emitters.{output_of, sender_strings};

/// What a sender sends of values whose heaps are those of the lists is the output of the lists.
#[tactic(auto, using(crate::proofs::OutputLemmas::output_of_sender))]
pub fn a_sender_sends_the_output()
    ensures { (plan : Plan) (lists : Lists) (values : ℕ → List ℤ)
        → ((n : ℕ) → sums_packets plan n (values n) ≡ heap_packets plan lists n)
        → output_of (sender_strings plan) plan values ≡ output plan lists }
{}

/// What was sent of some strings is their number and their bytes, each up to the last number of 64
/// bits, and the mark over all bytes in order.
pub fn all_strings_are_counted()
    ensures packets { (strings : List (List ℕ))
        → (sent_of strings).packets ≡ min (length strings) (2 ^ 64 - 1) }
    ensures bytes { (strings : List (List ℕ))
        → (sent_of strings).bytes ≡ min (sum_by length strings) (2 ^ 64 - 1) }
    ensures mark { (strings : List (List ℕ))
        → (sent_of strings).mark ≡ fold marked 0 (flat_map (λ string. string) strings) }
{}

/// What was counted of strings and then of further ones is what is counted of both lists at once.
#[tactic(auto, using(crate::proofs::TallyLemmas::counted_twice))]
pub fn counts_go_on()
    ensures { (first next : List (List ℕ)) → more (sent_of first) next ≡ sent_of (first ++ next) }
{}
