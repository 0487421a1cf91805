//! The entries of a shape and of a type list, read in place.

ghost use Rattle.std.specs.Prelude.{◌≡◌, ◌≤◌, length};
ghost use Rattle.corr_model.specs.Descriptors.{dimension, item_type, shape_of, types_of};

use crate::shape::Shape;
use crate::types::Types;
use byteorder::{BigEndian, ByteOrder};
use corr_model::{Dim, ItemType};
use std::marker::Model;

// The bytes of a type entry: a letter and a number of bits.
const TYPE_BYTES: usize = 3;

// The bytes of a dimension: whether it may vary, and its length.
const DIM_BYTES: usize = 7;

/// The type entries that are left, each in three bytes; fewer bytes than that are none.
#[derive(Drop)]
pub(crate) struct TypeEntries<'a> {
    rest: &'a [u8],
}

impl<'a> Model for TypeEntries<'a> {
    ghost use Rattle.std.specs.Prelude.{List};
    ghost use Rattle.corr_model.specs.declared.item.ItemType.{ItemType};
    ghost use Rattle.corr_model.specs.Descriptors.{types_of};

    ghost Value = { List ItemType };

    ghost view = { λ s. types_of s.rest.now };
}

impl<'a> TypeEntries<'a> {
    /// The type entries that the bytes are.
    pub(crate) fn new(bytes: &'a [u8]) -> Self
        ensures { result ≡ types_of bytes.now }
    {
        TypeEntries { rest: bytes }
    }
}

impl Iterator for TypeEntries<'_> {
    ghost use Rattle.std.specs.Iterator.{YieldsFirst, item_count};

    type Item = ItemType;

    ghost next_gives = { YieldsFirst (λ s. s) };

    ghost remaining = { item_count (λ s. s) };

    fn next(&mut self) -> Option<ItemType> {
        if self.rest.len() < TYPE_BYTES {
            return None;
        }
        let (entry, rest) = self.rest.split_at(TYPE_BYTES);
        self.rest = rest;
        Some(read_type(entry))
    }
}

// The type in three bytes.
fn read_type(entry: &[u8]) -> ItemType
    requires { length entry.now ≡ 3 }
    ensures { result ≡ item_type entry.now }
{
    let (_, bits) = entry.split_at(1);
    ItemType {
        letter: entry[0],
        bits: BigEndian::read_u16(bits),
    }
}

/// The dimensions that are left, each in seven bytes; fewer bytes than that are none.
#[derive(Drop)]
pub(crate) struct DimEntries<'a> {
    rest: &'a [u8],
}

impl<'a> Model for DimEntries<'a> {
    ghost use Rattle.std.specs.Prelude.{List};
    ghost use Rattle.corr_model.specs.declared.item.Dim.{Dim};
    ghost use Rattle.corr_model.specs.Descriptors.{shape_of};

    ghost Value = { List Dim };

    ghost view = { λ s. shape_of s.rest.now };
}

impl<'a> DimEntries<'a> {
    /// The dimensions that the bytes are.
    pub(crate) fn new(bytes: &'a [u8]) -> Self
        ensures { result ≡ shape_of bytes.now }
    {
        DimEntries { rest: bytes }
    }
}

impl Iterator for DimEntries<'_> {
    ghost use Rattle.std.specs.Iterator.{YieldsFirst, item_count};

    type Item = Dim;

    ghost next_gives = { YieldsFirst (λ s. s) };

    ghost remaining = { item_count (λ s. s) };

    fn next(&mut self) -> Option<Dim> {
        if self.rest.len() < DIM_BYTES {
            return None;
        }
        let (entry, rest) = self.rest.split_at(DIM_BYTES);
        self.rest = rest;
        Some(read_dim(entry))
    }
}

// The dimension in seven bytes: bit 0 of the first says that it may vary.
fn read_dim(entry: &[u8]) -> Dim
    requires { length entry.now ≡ 7 }
    ensures { result ≡ dimension entry.now }
{
    if entry[0] % 2 == 1 {
        return Dim::Variable;
    }
    let (_, length) = entry.split_at(1);
    Dim::Fixed(BigEndian::read_u48(length))
}

/// The types that the bytes are.
pub(crate) fn read_types(bytes: &[u8]) -> Types
    requires { length bytes.now ≤ 24 }
    ensures { result ≡ types_of bytes.now }
{
    let mut types = Types::empty();
    for entry in TypeEntries::new(bytes) {
        types.push(entry);
    }
    types
}

/// The shape that the bytes are.
pub(crate) fn read_shape(bytes: &[u8]) -> Shape
    requires { length bytes.now ≤ 56 }
    ensures { result ≡ shape_of bytes.now }
{
    let mut shape = Shape::empty();
    for dim in DimEntries::new(bytes) {
        shape.push(dim);
    }
    shape
}
