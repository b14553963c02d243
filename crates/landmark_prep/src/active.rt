//! The landmarks that serve between two nodes.
ghost use Rattle.std.specs.Prelude.{◌≡◌, ◌<◌, ◌++◌, ◌↔◌, [], ◌∷◌, Option, ℕ, IsTrue, length, Contains};

use arrayvec::ArrayVec;
use std::marker::Model;

/// The most landmarks that serve at a time.
pub const MOST_ACTIVE: usize = 4;

/// At most four places of landmarks, that which says most first. Contracts see it as that list.
#[derive(Drop)]
pub struct Active {
    places: ArrayVec<u32, 4>,
}

impl Model for Active {
    ghost use Rattle.std.specs.Prelude.{List, ℕ};

    ghost Value = { List ℕ };

    ghost view = { λ active. active.places.items };
}

impl Active {
    /// No place.
    pub(crate) fn new() -> Active
        ensures { result ≡ [] }
    {
        Active {
            places: ArrayVec::new(),
        }
    }

    /// How many there are.
    pub fn len(&self) -> usize
        ensures { result ≡ length self.now }
    {
        self.places.len()
    }

    /// Whether there are none.
    pub fn is_empty(&self) -> bool
        ensures { IsTrue result ↔ (self.now ≡ []) }
    {
        self.places.is_empty()
    }

    /// The places, in their order.
    pub fn as_slice(&self) -> &[u32]
        ensures { result.now ≡ self.now }
    {
        self.places.as_slice()
    }

    /// One more place at the end.
    pub(crate) fn push(&mut self, place: u32)
        requires { length self.old < 4 }
        ensures { self.new ≡ self.old ++ place ∷ [] }
    {
        self.places.push(place);
    }

    /// Whether a place is among them.
    pub(crate) fn has(&self, place: u32) -> bool
        ensures { IsTrue result ↔ Contains self.now place }
    {
        self.places.as_slice().contains(&place)
    }
}
