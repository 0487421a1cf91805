//! What a descriptor says of an item.

use crate::name::Name;
use crate::shape::Shape;
use crate::types::Types;
use std::marker::Model;

// The ids of a descriptor's own items.

/// The item's name.
pub(crate) const NAME_ID: u32 = 0x10;

/// Its dimensions.
pub(crate) const SHAPE_ID: u32 = 0x12;

/// The types of one element.
pub(crate) const TYPES_ID: u32 = 0x13;

/// Its id.
pub(crate) const DESCRIBED_ID: u32 = 0x14;

/// What a descriptor says of an item.
#[derive(Clone, Copy, Debug, PartialEq, Eq)]
pub struct Descriptor {
    /// The item's id, from 1 to `0x7fffff` in a descriptor that is valid.
    pub id: u32,
    /// Its dimensions.
    pub shape: Shape,
    /// The types of one element.
    pub types: Types,
    /// Its name.
    pub name: Name,
}

impl Model for Descriptor {
    ghost use Rattle.corr_model.specs.Descriptors.{DescribedItem};

    ghost Value = { DescribedItem };

    ghost view = { λ d. record { id = d.id; shape = d.shape; types = d.types; name = d.name } };

    ghost inverse = { λ d. record { id = d.id; shape = d.shape; types = d.types; name = d.name } };
}
