//! Worked examples of items and of the descriptor table.

ghost use Rattle.std.specs.Prelude.{◌≡◌, ℕ, true, false, List, [], ◌∷◌, ◌++◌, map, replicate, Some, None};
ghost use Rattle.corr_model.specs.declared.verdict.Verdict.TheVariants.{Undescribed, Used};
ghost use Rattle.corr_model.specs.Lists.{numbers};
ghost use Rattle.corr_model.specs.Items.{addressed_content, item, number_item, descriptor_contents};
ghost use Rattle.corr_model.specs.Descriptors.{immediate, addressed, descriptor_bytes};
ghost use Rattle.corr_model.specs.Tables.{scalar, voltages, preset, readable_descriptors, table_ids, table_entry};
ghost use Rattle.corr_model.specs.Tables.{item_type_of, is_unsigned_scalar, is_voltages, has_shape};
ghost use Rattle.corr_model.specs.declared.item.Dim.TheVariants.{Fixed, Variable};
ghost use Rattle.corr_model.specs.Examples.{small_plan, verdicts};
ghost use Rattle.corr_model.specs.ExamplesVerdicts.{undescribed_plan};
ghost use Rattle.corr_model.specs.ExamplesCorrelation.{two_channels};
ghost use Rattle.corr_model.specs.ExamplesDescriptors.{shared_offsets, unreadable_voltages, redescribed, wider_voltages, missing_with, voltages_with};
ghost use Rattle.corr_model.specs.ExamplesDescriptors.{wider_and_back, wider_then_one, twice_six, six_addressed, four_descriptors};

/// Two items at one offset: the first is empty, and the later one has the bytes.
pub fn two_items_at_one_offset()
    ensures first { addressed_content shared_offsets 0x2000 ≡ Some [] }
    ensures later { addressed_content shared_offsets 0x2002 ≡ Some (10 ∷ 11 ∷ []) }
    ensures next { addressed_content shared_offsets 0x2003 ≡ Some (12 ∷ 13 ∷ []) }
{}

/// An offset equal to the size is an empty item, and one past it is none.
pub fn offset_at_and_past_the_size()
    ensures at { addressed_content shared_offsets 0x2004 ≡ Some [] }
    ensures past { addressed_content shared_offsets 0x2005 ≡ None }
{}

/// An immediate item has a number and no content; an addressed one is a number of one to eight bytes.
pub fn numbers_of_items()
    ensures immediate { number_item shared_offsets 0x2001 ≡ Some 1 }
    ensures no_content { addressed_content shared_offsets 0x2001 ≡ None }
    ensures addressed { number_item shared_offsets 0x2002 ≡ Some 2571 }
    ensures empty { number_item shared_offsets 0x2000 ≡ None }
    ensures absent { number_item shared_offsets 0x2007 ≡ None }
{}

/// Of two pointers of one id the first is the item, whichever its mode.
pub fn two_pointers_of_one_id()
    ensures first { item 6 twice_six ≡ Some (1, immediate 6 7) }
    ensures number { number_item six_addressed 6 ≡ Some 9 }
{}

/// Every addressed descriptor pointer is read; one past the end counts as no bytes.
pub fn contents_of_descriptors()
    ensures { descriptor_contents four_descriptors ≡ (1 ∷ 2 ∷ []) ∷ (3 ∷ []) ∷ [] ∷ [] }
{}

/// An unreadable redescription: it changes nothing, so the next voltage heap is used.
pub fn unreadable_redescription()
    ensures verdicts { verdicts small_plan 0 redescribed ≡ Undescribed ∷ Used 0 1 ∷ [] }
    ensures kept { table_entry (readable_descriptors small_plan (unreadable_voltages ∷ [])) 0x4300
        ≡ Some (voltages small_plan) }
{}

/// A readable redescription of another shape counts: the voltage heap after it is not readable.
pub fn readable_redescription()
    ensures verdicts { verdicts small_plan 0 wider_then_one ≡ Undescribed ∷ Undescribed ∷ [] }
    ensures last { table_entry (readable_descriptors small_plan (descriptor_bytes wider_voltages ∷ [])) 0x4300
        ≡ Some wider_voltages }
    ensures and_back { table_entry (readable_descriptors small_plan wider_and_back) 0x4300
        ≡ Some (voltages small_plan) }
{}

/// The table has the first 64 ids, and the 65th is none of it.
pub fn sixty_four_ids()
    ensures ids { table_ids (map scalar (numbers 1 65)) ≡ numbers 1 64 }
    ensures last { table_entry (map scalar (numbers 1 65)) 64 ≡ Some (scalar 64) }
    ensures past { table_entry (map scalar (numbers 1 65)) 65 ≡ None }
    ensures repeated { table_ids (map scalar (numbers 1 64) ++ map scalar (numbers 3 5))
        ≡ numbers 1 64 }
{}

/// A timestamp or an antenna number needs no dimension and one unsigned type, of any width.
pub fn unsigned_numbers()
    ensures narrow { is_unsigned_scalar (missing_with [] (item_type_of 117 1 ∷ [])) ≡ true }
    ensures signed { is_unsigned_scalar (missing_with [] (item_type_of 105 48 ∷ [])) ≡ false }
    ensures dimension { is_unsigned_scalar (missing_with (Fixed 1 ∷ []) (item_type_of 117 48 ∷ [])) ≡ false }
    ensures two_types { is_unsigned_scalar (missing_with [] (replicate 2 (item_type_of 117 24))) ≡ false }
{}

/// Voltages need their four fixed dimensions in order, and one signed type of 8 bits.
pub fn shapes_of_voltages()
    ensures right { is_voltages small_plan (voltages_with (1 ∷ 1 ∷ 2 ∷ 2 ∷ []) (item_type_of 105 8 ∷ [])) ≡ true }
    ensures channels { is_voltages two_channels (voltages_with (2 ∷ 1 ∷ 2 ∷ 2 ∷ []) (item_type_of 105 8 ∷ [])) ≡ true }
    ensures order { is_voltages small_plan (voltages_with (2 ∷ 2 ∷ 1 ∷ 1 ∷ []) (item_type_of 105 8 ∷ [])) ≡ false }
    ensures fewer { is_voltages small_plan (voltages_with (1 ∷ 1 ∷ 2 ∷ []) (item_type_of 105 8 ∷ [])) ≡ false }
    ensures more { is_voltages small_plan (voltages_with (1 ∷ 1 ∷ 2 ∷ 2 ∷ 1 ∷ []) (item_type_of 105 8 ∷ [])) ≡ false }
    ensures wide { is_voltages small_plan (voltages_with (1 ∷ 1 ∷ 2 ∷ 2 ∷ []) (item_type_of 105 16 ∷ [])) ≡ false }
    ensures unsigned { is_voltages small_plan (voltages_with (1 ∷ 1 ∷ 2 ∷ 2 ∷ []) (item_type_of 117 8 ∷ [])) ≡ false }
    ensures two_types { is_voltages small_plan (voltages_with (1 ∷ 1 ∷ 2 ∷ 2 ∷ []) (replicate 2 (item_type_of 105 8)))
        ≡ false }
    ensures variable { has_shape (1 ∷ []) (Variable ∷ []) ≡ false }
{}

/// A table starts empty, or with timestamp, antenna and voltages.
pub fn tables_at_the_start()
    ensures empty { table_ids (readable_descriptors undescribed_plan []) ≡ [] }
    ensures preset { table_ids (readable_descriptors small_plan [])
        ≡ 0x1600 ∷ 0x4101 ∷ 0x4300 ∷ [] }
{}

/// What is described beforehand, written out: numbers of type u48 for timestamp and antenna, and
/// voltages of type i8 by channel, spectrum, polarisation and part; none has a name.
pub fn items_described_beforehand()
    ensures preset { preset two_channels
        ≡ record { id = 0x1600; shape = []; types = record { letter = 117; bits = 48 } ∷ []; name = [] }
        ∷ record { id = 0x4101; shape = []; types = record { letter = 117; bits = 48 } ∷ []; name = [] }
        ∷ record {
          id = 0x4300;
          shape = Fixed 2 ∷ Fixed 1 ∷ Fixed 2 ∷ Fixed 2 ∷ [];
          types = record { letter = 105; bits = 8 } ∷ [];
          name = [];
        }
        ∷ [] }
    ensures none { preset undescribed_plan ≡ [] }
{}
