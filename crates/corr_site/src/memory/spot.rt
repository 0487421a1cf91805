//! Where an object in memory was begun, kept in a field of fixed size.

ghost use Rattle.std.specs.Prelude.{◌≡◌, ◌↔◌, ◌≤◌, length, IsTrue, is_some, option_map};
ghost use Rattle.corr_site.specs.declared.place.Place.{Place};

use crate::place::Place;
use std::marker::Model;

/// A place, or none.
#[derive(Drop)]
pub struct Spot {
    is_set: bool,
    udp: bool,
    len: usize,
    bytes: [u8; 4096],
}

impl Model for Spot {
    ghost use Rattle.std.specs.Prelude.{◌≤◌, Option, Some, None, take, if◌then◌else◌};
    ghost use Rattle.corr_site.specs.declared.place.Place.{Place};

    ghost Value = { Option Place };

    ghost view = { λ s. if s.is_set then Some (record { udp = s.udp; text = take s.len s.bytes }) else None };

    ghost invariant = { λ s. s.len ≤ 4096 };
}

impl Spot {
    /// No place.
    pub fn new() -> Spot
        ensures { result ≡ None }
    {
        Spot {
            is_set: false,
            udp: false,
            len: 0,
            bytes: [0; 4096],
        }
    }

    /// Forgets the place.
    pub fn clear(&mut self)
        ensures { self.new ≡ None }
    {
        self.is_set = false;
    }

    /// Puts a place in.
    pub fn set(&mut self, udp: bool, text: &[u8])
        requires fits { length text.now ≤ 4096 }
        ensures { self.new ≡ Some (record { udp = udp; text = text.now }) }
    {
        self.is_set = true;
        self.udp = udp;
        self.len = text.len();
        self.bytes[..text.len()].copy_from_slice(text);
    }

    /// Whether there is a place.
    pub fn is_set(&self) -> bool
        ensures { result ≡ is_some self.now }
    {
        self.is_set
    }

    /// Whether it is this place.
    pub fn is(&self, udp: bool, text: &[u8]) -> bool
        ensures { IsTrue result ↔ (self.now ≡ Some (record { udp = udp; text = text.now })) }
    {
        self.is_set && self.udp == udp && &self.bytes[..self.len] == text
    }

    /// Whether it is a place with this text.
    pub fn has_text(&self, text: &[u8]) -> bool
        ensures { IsTrue result ↔ (option_map (λ p. p.text) self.now ≡ Some text.now) }
    {
        self.is_set && &self.bytes[..self.len] == text
    }
}
