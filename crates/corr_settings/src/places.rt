//! The places that strings of the settings name.

ghost use Rattle.std.specs.Prelude.{◌≡◌, ◌≤◌, length, map, IfOk};
ghost use Rattle.std.specs.List.{AllByRecursion};
ghost use Rattle.toml.specs.View.{view};
ghost use Rattle.corr_site.specs.Places.{place_of};
ghost use Rattle.corr_settings.specs.Values.{string_of};

use corr_site::{NoMemory, Place, Places};
use std::alloc::Global;
use toml::Value;

// The place that a string names.
pub(crate) fn place_at(alloc: Global, value: &Value) -> Result<Place, NoMemory>
    requires short { length (string_of (view value.now)) ≤ 4096 }
    ensures value { IfOk result (λ p. p ≡ place_of (string_of (view value.now))) }
{
    match value.as_str() {
        Some(word) => Place::read(alloc, word),
        None => Place::read(alloc, ""),
    }
}

// The places that strings name, in order.
pub(crate) fn places_at(alloc: Global, values: &[Value]) -> Result<Places, NoMemory>
    requires short { AllByRecursion (λ d. length (string_of d) ≤ 4096) (map view values.now) }
    ensures value { IfOk result (λ p. p ≡ map place_of (map string_of (map view values.now))) }
{
    let mut places = Vec::new(alloc);
    for value in values {
        places.push(place_at(alloc, value)?)?;
    }
    Ok(Places::from_vec(places))
}
