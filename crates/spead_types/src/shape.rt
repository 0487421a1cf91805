//! The shape of an item.

ghost use Rattle.std.specs.Prelude.{◌≡◌, ◌≤◌, ◌<◌, ◌++◌, ◌∷◌, [], length};

use corr_model::Dim;
use std::marker::Model;

/// The shape of an item: at most 8 dimensions, and none for a single number.
#[derive(Clone, Copy, Debug, PartialEq, Eq)]
pub struct Shape {
    dims: [Dim; 8],
    len: usize,
}

impl Model for Shape {
    ghost use Rattle.std.specs.Prelude.{List, length, take};
    ghost use Rattle.corr_model.specs.declared.item.Dim.{Dim};
    ghost use Rattle.corr_model.specs.declared.item.Dim.TheVariants.{Variable};
    ghost use Rattle.spead_types.specs.Filled.{filled, IsFilled, length-counted};

    ghost Value = { List Dim };

    ghost view = { λ s. take s.len s.dims };

    ghost invariant = { λ s. IsFilled 8 Variable s.dims s.len };

    ghost inverse = { λ xs. record { dims = filled 8 Variable xs; len = length xs } };

    ghost inverse_ok = { λ s h i. record {
      dims = h.rest i;
      len = length-counted 8 Variable s.dims s.len h i;
    } };
}

impl Shape {
    /// The shape with these dimensions, the slowest first.
    pub fn new(dims: &[Dim]) -> Self
        requires { length dims.now ≤ 8 }
        ensures { result ≡ dims.now }
    {
        let mut all = Self::empty();
        for dim in dims {
            all.push(*dim);
        }
        all
    }

    /// The shape of a single number.
    pub(crate) fn empty() -> Self
        ensures { result ≡ [] }
    {
        Shape {
            dims: [Dim::Variable; 8],
            len: 0,
        }
    }

    /// The dimensions, the slowest first.
    pub fn as_slice(&self) -> &[Dim]
        ensures value { result.now ≡ self.now }
        ensures few { length self.now ≤ 8 }
    {
        &self.dims[..self.len]
    }

    /// Puts a dimension behind the others.
    pub(crate) fn push(&mut self, dim: Dim)
        requires { length self.old < 8 }
        ensures { self.new ≡ self.old ++ dim ∷ [] }
    {
        self.dims[self.len] = dim;
        self.len += 1;
    }
}
