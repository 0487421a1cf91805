//! Places in order, as those of all inputs.

ghost use Rattle.std.specs.Prelude.{◌≡◌};

use crate::place::Place;
use std::marker::Model;

/// Places in order, seen as a list.
#[derive(Debug, Drop)]
pub struct Places {
    places: Vec<Place>,
}

impl Model for Places {
    ghost use Rattle.std.specs.Prelude.{List};
    ghost use Rattle.corr_site.specs.declared.place.Place.{Place};

    ghost Value = { List Place };

    ghost view = { λ p. p.places.items };
}

impl Places {
    /// The places of the vector, in its memory.
    pub fn from_vec(places: Vec<Place>) -> Places
        ensures value { result ≡ places.items }
    {
        Places { places }
    }

    /// The places as a slice.
    pub fn as_slice(&self) -> &[Place]
        ensures value { result.now ≡ self.now }
    {
        self.places.as_slice()
    }

    /// The places as a vector, in the memory that they have.
    pub fn into_vec(self) -> Vec<Place>
        ensures value { result.items ≡ self }
    {
        self.places
    }
}
