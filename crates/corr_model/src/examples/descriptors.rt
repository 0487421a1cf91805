//! Worked examples of item descriptors.

ghost use Rattle.std.specs.Prelude.{◌≡◌, ℕ, List, [], ◌∷◌, ◌++◌, map, replicate, take, Ok, Err};
ghost use Rattle.corr_model.specs.declared.item.DescRefusal.TheVariants.{NoId, ShapeBytes, TypeBytes, NoType, Letter, Bits, TooMany, Packet};
ghost use Rattle.corr_model.specs.declared.pointer.Refusal.TheVariants.{Length, Short};
ghost use Rattle.corr_model.specs.Descriptors.{addressed, immediate, described_in, descriptor_bytes, dimension, dimension_bytes};
ghost use Rattle.corr_model.specs.Lists.{numbers};
ghost use Rattle.corr_model.specs.Outputs.{timestamp_item};
ghost use Rattle.corr_model.specs.Tables.{item_type_of};
ghost use Rattle.corr_model.specs.declared.item.Dim.TheVariants.{Fixed, Variable};
ghost use Rattle.corr_model.specs.Examples.{with_byte, with_bytes, without_pointer};
ghost use Rattle.corr_model.specs.ExamplesOutput.{missing_bytes, timestamp_bytes};
ghost use Rattle.corr_model.specs.ExamplesDescriptors.{missing_three, missing_variable, missing_many, missing_as, missing_of_type, shape_at, types_at, shape_before_types, unreadable_voltages, named};
ghost use Rattle.corr_model.specs.ExamplesDescriptors.{missing_own, missing_under, missing_with, missing_bare, long_dimension};

/// The descriptor of `missing` with three baselines, read and written: 89 bytes.
pub fn missing_descriptor()
    ensures read { described_in missing_bytes ≡ Ok missing_three }
    ensures written { descriptor_bytes missing_three ≡ missing_bytes }
{}

/// Descriptor refusals: that descriptor changed in as many ways, and the refusal that each brings.
pub fn descriptor_refusals()
    ensures cut { described_in (take 88 missing_bytes) ≡ Err (Packet (Length 17 16)) }
    ensures no_id { described_in (without_pointer 4 missing_bytes) ≡ Err NoId }
    ensures shape_bytes { described_in (shape_at 11) ≡ Err ShapeBytes }
    ensures type_bytes { described_in (types_at 6) ≡ Err TypeBytes }
    ensures no_type { described_in (without_pointer 6 missing_bytes) ≡ Err NoType }
    ensures letter { described_in (with_byte 79 0x66 missing_bytes) ≡ Err Letter }
    ensures bits { described_in (with_byte 81 0 missing_bytes) ≡ Err Bits }
    ensures too_many { described_in (descriptor_bytes (missing_many 9 1)) ≡ Err TooMany }
    ensures nothing { described_in [] ≡ Err (Packet Short) }
{}

/// Of a shape and types at one offset the later one has the bytes: this one reads as a scalar.
pub fn shape_before_types_at_one_offset()
    ensures { described_in shape_before_types ≡ Ok timestamp_item }
{}

/// The least and the greatest id are read, and the numbers beside them are none.
pub fn ends_of_the_ids()
    ensures zero { described_in (descriptor_bytes (missing_as 0)) ≡ Err NoId }
    ensures least { described_in (descriptor_bytes (missing_as 1)) ≡ Ok (missing_as 1) }
    ensures greatest { described_in (descriptor_bytes (missing_as 0x7fffff))
        ≡ Ok (missing_as 0x7fffff) }
    ensures past { described_in (descriptor_bytes (missing_as 0x800000)) ≡ Err NoId }
{}

/// The letters and the ends of the widths.
pub fn ends_of_the_types()
    ensures signed { described_in (descriptor_bytes (missing_of_type 105 1))
        ≡ Ok (missing_of_type 105 1) }
    ensures character { described_in (descriptor_bytes (missing_of_type 99 64))
        ≡ Ok (missing_of_type 99 64) }
    ensures wide { described_in (descriptor_bytes (missing_of_type 117 65)) ≡ Err Bits }
    ensures two_bytes { described_in (with_byte 80 1 missing_bytes) ≡ Err Bits }
    ensures letter_before_bits { described_in (descriptor_bytes (missing_of_type 98 0))
        ≡ Err Letter }
{}

/// Eight dimensions and eight types are read; nine types are too many.
pub fn eight_dimensions_and_types()
    ensures eight { described_in (descriptor_bytes (missing_many 8 8)) ≡ Ok (missing_many 8 8) }
    ensures nine_types { described_in (descriptor_bytes (missing_many 0 9)) ≡ Err TooMany }
{}

/// Bit 0 of a dimension's first byte alone says variable, and then the length is ignored.
pub fn variable_dimension()
    ensures variable { described_in (with_byte 82 1 missing_bytes)
        ≡ Ok missing_variable }
    ensures other_bits { described_in (with_byte 82 0xfe missing_bytes) ≡ Ok missing_three }
    ensures all_bits { described_in (with_byte 82 0xff missing_bytes) ≡ Ok missing_variable }
    ensures both { described_in (descriptor_bytes missing_variable) ≡ Ok missing_variable }
    ensures written { descriptor_bytes missing_variable
        ≡ with_bytes 82 (1 ∷ 0 ∷ 0 ∷ 0 ∷ 0 ∷ 0 ∷ 0 ∷ []) missing_bytes }
{}

/// All six bytes after the first of a dimension are its length.
pub fn length_of_a_dimension()
    ensures read { dimension long_dimension ≡ Fixed 0x010203040506 }
    ensures written { dimension_bytes (Fixed 0x010203040506) ≡ long_dimension }
{}

/// A descriptor without shape and name has no dimension and an empty name.
pub fn descriptor_without_shape()
    ensures { described_in (missing_under (immediate 0x14 0x1801 ∷ addressed 0x13 7 ∷ addressed 0x2000 10 ∷ []))
        ≡ Ok missing_bare }
{}

/// Types are addressed: an immediate pointer before the addressed one is the item, and no type.
pub fn immediate_types_before_addressed_ones()
    ensures { described_in (missing_under (immediate 0x13 7 ∷ missing_own)) ≡ Err NoType }
{}

/// A descriptor with id, name and a description in numpy's form alone has no type.
pub fn descriptor_without_types()
    ensures { described_in unreadable_voltages ≡ Err NoType }
{}

/// Of a name the first 64 bytes count, and the descriptor is read all the same.
pub fn long_name()
    ensures exact { described_in (descriptor_bytes (named 64)) ≡ Ok (named 64) }
    ensures cut { described_in (descriptor_bytes (named 65)) ≡ Ok (named 64) }
{}

/// Where several refusals apply, the first in their order counts.
pub fn first_descriptor_refusal_counts()
    ensures id { described_in (without_pointer 4 (shape_at 11)) ≡ Err NoId }
    ensures shape { described_in (with_byte 63 6 (shape_at 11)) ≡ Err ShapeBytes }
    ensures types { described_in (with_byte 79 0x66 (types_at 6)) ≡ Err TypeBytes }
    ensures bits { described_in (descriptor_bytes (missing_with (replicate 9 Variable) (item_type_of 117 0 ∷ [])))
        ≡ Err Bits }
{}

/// The counter, the size and the offset of a descriptor's packet have no effect, a pointer that
/// stands twice counts once, and there may be more than 64 pointers.
pub fn packet_of_a_descriptor()
    ensures other_places { described_in (missing_under missing_own) ≡ Ok missing_three }
    ensures twice { described_in (missing_under (missing_own ++ addressed 0x13 7 ∷ [])) ≡ Ok missing_three }
    ensures many { described_in (missing_under (map (λ id. immediate id 0) (numbers 100 65) ++ missing_own))
        ≡ Ok missing_three }
{}
