//! Laws of the descriptor table: what one more descriptor content changes.

ghost use Rattle.std.specs.Prelude.{◌≡◌, ◌≢◌, ◌+◌, ◌++◌, ◌∷◌, ◌==◌, [], ℕ, List, Some, Ok, true, false, if◌then◌else◌};
ghost use Rattle.std.specs.List.{list_any};
ghost use Rattle.corr_model.specs.declared.plan.Plan.{Plan};
ghost use Rattle.corr_model.specs.Descriptors.{DescribedItem, described_in};
ghost use Rattle.corr_model.specs.Tables.{bad_count, is_bad_after, readable_descriptors, table_entry, table_ids};

/// A bad descriptor content is counted, and changes neither the ids of the table nor an entry.
pub fn bad_descriptor_changes_nothing()
    ensures counted { (plan : Plan) (contents : List (List ℕ)) (c : List ℕ)
        → bad_count plan (contents ++ c ∷ [])
        ≡ bad_count plan contents + (if is_bad_after plan contents c then 1 else 0) }
    ensures ids { (plan : Plan) (contents : List (List ℕ)) (c : List ℕ)
        → is_bad_after plan contents c ≡ true
        → table_ids (readable_descriptors plan (contents ++ c ∷ []))
        ≡ table_ids (readable_descriptors plan contents) }
    ensures entries { (plan : Plan) (contents : List (List ℕ)) (c : List ℕ) (id : ℕ)
        → is_bad_after plan contents c ≡ true
        → table_entry (readable_descriptors plan (contents ++ c ∷ [])) id
        ≡ table_entry (readable_descriptors plan contents) id }
{}

/// Any other descriptor is the entry of its id from then on. The id comes last, where it was not
/// there, and the entries of other ids stay.
pub fn descriptor_is_the_entry_of_its_id()
    ensures ids { (plan : Plan) (contents : List (List ℕ)) (c : List ℕ) (d : DescribedItem)
        → described_in c ≡ Ok d → is_bad_after plan contents c ≡ false
        → table_ids (readable_descriptors plan (contents ++ c ∷ []))
        ≡ (if list_any (λ x. x == d.id) (table_ids (readable_descriptors plan contents))
        then table_ids (readable_descriptors plan contents)
        else table_ids (readable_descriptors plan contents) ++ d.id ∷ []) }
    ensures own { (plan : Plan) (contents : List (List ℕ)) (c : List ℕ) (d : DescribedItem)
        → described_in c ≡ Ok d → is_bad_after plan contents c ≡ false
        → table_entry (readable_descriptors plan (contents ++ c ∷ [])) d.id ≡ Some d }
    ensures others { (plan : Plan) (contents : List (List ℕ)) (c : List ℕ) (d : DescribedItem)
        (id : ℕ) → described_in c ≡ Ok d → d.id ≢ id
        → table_entry (readable_descriptors plan (contents ++ c ∷ [])) id
        ≡ table_entry (readable_descriptors plan contents) id }
{}
