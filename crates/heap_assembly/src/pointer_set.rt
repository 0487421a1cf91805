//! The distinct pointers of a heap that is being put together.

ghost use Rattle.std.specs.Prelude.{◌≡◌, ◌<◌, ◌≤◌, [], length, take, IfOk, MatchBool};
ghost use Rattle.std.specs.List.{list_any};
ghost use Rattle.corr_model.specs.Assembly.{are_same};
ghost use Rattle.heap_assembly.specs.Steps.{with_pointer, with_pointers};

use corr_model::Pointer;
use spead_wire::Packet;
use std::alloc::{AllocError, Global};
use std::marker::Model;

// The most distinct pointers that a heap can have.
const MOST: usize = 64;

/// At most 64 item pointers in the order of their first standing, no two of them the same. They
/// stand apart, so that a heap that is moved is a few words.
#[derive(Drop)]
pub(crate) struct PointerSet {
    pointers: Vec<Pointer>,
    len: usize,
}

impl Model for PointerSet {
    ghost use Rattle.std.specs.Prelude.{◌≡◌, ◌≤◌, List, take};
    ghost use Rattle.std.specs.Vec.{vec_len};
    ghost use Rattle.corr_model.specs.declared.pointer.Pointer.{Pointer};

    ghost Value = { List Pointer };

    ghost view = { λ s. take s.len s.pointers.items };

    ghost invariant = { λ s. (s.len ≤ 64) × (vec_len s.pointers ≡ 64) };
}

impl PointerSet {
    /// No pointer. `AllocError` where there is no memory for the most.
    pub(crate) fn new(alloc: Global) -> Result<Self, AllocError>
        ensures { IfOk result (λ s. s ≡ []) }
    {
        let unused = Pointer {
            immediate: false,
            id: 0,
            value: 0,
        };
        Ok(PointerSet {
            pointers: vec![in alloc; unused; MOST]?,
            len: 0,
        })
    }

    /// The pointers.
    pub(crate) fn as_slice(&self) -> &[Pointer]
        ensures value { result.now ≡ self.now }
        ensures few { length self.now ≤ 64 }
    {
        &self.pointers[..self.len]
    }

    /// Adds the packet's pointers that are not there yet. Where there would be more than 64, it
    /// answers false and adds none.
    pub(crate) fn add(&mut self, packet: &Packet<'_>) -> bool
        ensures cases { MatchBool result
            (self.new ≡ with_pointers self.old packet.now.pointers)
            (64 < length (with_pointers self.old packet.now.pointers)) }
        ensures few { length self.new ≤ 64 }
        ensures kept { MatchBool result (length self.old ≤ length self.new) (self.new ≡ self.old) }
    {
        let before = self.len();
        for pointer in packet.pointers() {
            if !self.insert(pointer) {
                self.truncate(before);
                return false;
            }
        }
        true
    }

    /// Takes all pointers away.
    pub(crate) fn clear(&mut self)
        ensures { self.new ≡ [] }
    {
        self.truncate(0);
    }

    fn len(&self) -> usize
        ensures value { result ≡ length self.now }
        ensures few { result ≤ 64 }
    {
        self.as_slice().len()
    }

    // Keeps the first few alone.
    fn truncate(&mut self, len: usize)
        requires { len ≤ length self.old }
        ensures { self.new ≡ take len self.old }
    {
        self.len = len;
    }

    // Whether one of the pointers is the same as this.
    fn contains(&self, pointer: &Pointer) -> bool
        ensures { result ≡ list_any (are_same pointer.now) self.now }
    {
        self.as_slice().iter().any(|other| pointer.is_same(other))
    }

    // Puts the pointer behind those that stand there, unless one of them is the same; false where
    // there is no room for it.
    fn insert(&mut self, pointer: Pointer) -> bool
        ensures cases { MatchBool result
            (self.new ≡ with_pointer self.old pointer)
            ((self.new ≡ self.old) × (64 < length (with_pointer self.old pointer))) }
        ensures few { length self.new ≤ 64 }
    {
        if self.contains(&pointer) {
            return true;
        }
        if self.len == MOST {
            return false;
        }
        self.pointers[self.len] = pointer;
        self.len += 1;
        true
    }
}
