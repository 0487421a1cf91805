//! Laws of the definition of a descriptor, over every item.

ghost use Rattle.std.specs.Prelude.{◌≡◌, Ok};
ghost use Rattle.corr_model.specs.Descriptors.{DescribedItem, described_in, descriptor_bytes};
ghost use Rattle.spead_types.specs.Valid.{IsValid};

/// A valid descriptor that is written as its definition says is read back as it was, with
/// dimensions that may vary too.
pub fn written_descriptor_is_read_back()
    ensures { (d : DescribedItem) → IsValid d → described_in (descriptor_bytes d) ≡ Ok d }
{}
