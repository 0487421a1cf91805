//! Worked examples of bad descriptors and of what a table stands for.

ghost use Rattle.std.specs.Prelude.{◌≡◌, ℕ, true, false, List, [], ◌∷◌, ◌++◌, reverse, take};
ghost use Rattle.corr_model.specs.Items.{descriptor_contents};
ghost use Rattle.corr_model.specs.Descriptors.{descriptor_bytes};
ghost use Rattle.corr_model.specs.Tables.{bad_count, is_bad_after, TableStandsFor};
ghost use Rattle.corr_model.specs.PacketVerdicts.{report};
ghost use Rattle.corr_model.specs.Examples.{small_plan};
ghost use Rattle.corr_model.specs.ExamplesVerdicts.{described_ids, described_in_two_heaps, is_bad_id, nothing_counted, undescribed_plan};
ghost use Rattle.corr_model.specs.ExamplesDescriptors.{four_descriptors, missing_three, unreadable_voltages, voltage_table, wider_missing_and_back, wider_table, wider_voltages};

/// The 65th id is bad each time; a descriptor of one of the 64 ids, and a 64th id, are not.
pub fn sixty_fifth_id()
    ensures room { is_bad_id undescribed_plan 63 64 ≡ false }
    ensures past { is_bad_id undescribed_plan 64 65 ≡ true }
    ensures replaced { is_bad_id undescribed_plan 64 64 ≡ false }
    ensures preset { is_bad_id small_plan 61 62 ≡ true }
    ensures preset_room { is_bad_id small_plan 60 61 ≡ false }
    ensures count { bad_count undescribed_plan (described_ids 1 66 ++ described_ids 64 2) ≡ 3 }
    ensures none { bad_count undescribed_plan (described_ids 1 64 ++ described_ids 64 1) ≡ 0 }
{}

/// The 65th id of a stream, in the second of two heaps.
pub fn sixty_fifth_id_of_a_stream()
    ensures { report undescribed_plan 0 described_in_two_heaps
        ≡ record nothing_counted { taken = 2; baddesc = 1; undescribed = 2 } }
{}

/// A refused descriptor is bad, also one that has no content; an immediate pointer brings none.
pub fn refused_descriptors()
    ensures unreadable { is_bad_after small_plan [] unreadable_voltages ≡ true }
    ensures again { bad_count small_plan (unreadable_voltages ∷ unreadable_voltages ∷ []) ≡ 2 }
    ensures pointers { bad_count small_plan (descriptor_contents four_descriptors) ≡ 3 }
    ensures readable { bad_count small_plan (descriptor_bytes wider_voltages ∷ []) ≡ 0 }
{}

/// What a table stands for: the three voltage items; a later description in the place of the
/// earlier one; an item that is added; and nothing of a refused one.
pub fn entries_of_tables()
    ensures empty { TableStandsFor undescribed_plan [] (unreadable_voltages ∷ []) }
    ensures preset { TableStandsFor small_plan voltage_table (unreadable_voltages ∷ []) }
    ensures redescribed { TableStandsFor small_plan wider_table
        (descriptor_bytes wider_voltages ∷ []) }
    ensures added { TableStandsFor small_plan (voltage_table ++ missing_three ∷ [])
        wider_missing_and_back }
{}

/// A table in another order, without an entry or with an earlier entry does not stand for the
/// descriptors.
pub fn other_tables()
    ensures order { TableStandsFor small_plan (reverse voltage_table) [] → ⊥ }
    ensures fewer { TableStandsFor small_plan (take 2 voltage_table) [] → ⊥ }
    ensures earlier { TableStandsFor small_plan voltage_table
        (descriptor_bytes wider_voltages ∷ []) → ⊥ }
{}
