//! Changes of the roads, each by a command of an actor.
ghost use Rattle.std.specs.Prelude.{◌≡◌, ◌↔◌, IsTrue, IfOk};

use gh_base::{DirEdge, NoMemory};
use landmark_prep::Prep;
use std::alloc::Global;
use std::marker::Model;
use std::sync::Arc;

/// A preparation that several entries and an actor share. Contracts see the preparation.
#[derive(Drop)]
pub struct Shared {
    prep: Arc<Prep, Global>,
}

impl Model for Shared {
    ghost use Rattle.landmark_prep.specs.Preparations.{Preparation};
    ghost use Rattle.std.specs.Arc.{arc_value};

    ghost Value = { Preparation };

    ghost view = { λ s. arc_value s.prep };
}

impl Shared {
    pub fn new(alloc: Global, prep: Prep) -> Result<Shared, NoMemory>
        ensures { IfOk result (λ shared. shared ≡ prep) }
    {
        Ok(Shared {
            prep: Arc::new(alloc, prep)?,
        })
    }

    /// The same preparation, once more.
    pub fn again(&self) -> Result<Shared, NoMemory>
        ensures { IfOk result (λ shared. shared ≡ self.now) }
    {
        Ok(Shared {
            prep: Arc::try_clone(&self.prep)?,
        })
    }

    pub fn prep(&self) -> &Prep
        ensures { result.now ≡ self.now }
    {
        &self.prep
    }

    /// Whether another preparation is the same.
    pub fn is_same(&self, other: &Shared) -> bool
        ensures { IsTrue result ↔ (self.now ≡ other.now) }
    {
        self.prep().is_same(other.prep())
    }
}

/// A change: by which command of which actor, and what.
#[derive(Drop)]
pub struct Entry {
    pub actor: u32,
    pub number: u32,
    pub what: What,
}

/// What a change is. Speeds are in milli-km/h.
#[derive(Drop)]
pub enum What {
    /// A lower limit on a directed edge.
    Lower { edge: DirEdge, speed: u32 },
    /// A higher one, not above that which the edge opened with.
    Restore { edge: DirEdge, speed: u32 },
    /// A preparation for all queries of its profile.
    Publish { prep: Shared },
}

impl Entry {
    /// Whether another change is the same, by the same command of the same actor. Preparations are compared last.
    pub fn is_same(&self, other: &Entry) -> bool
        ensures { IsTrue result ↔ (self.now ≡ other.now) }
    {
        self.actor == other.actor && self.number == other.number && self.what.is_same(&other.what)
    }
}

impl What {
    fn is_same(&self, other: &What) -> bool
        ensures { IsTrue result ↔ (self.now ≡ other.now) }
    {
        match (self, other) {
            (
                What::Lower { edge, speed },
                What::Lower {
                    edge: by,
                    speed: to,
                },
            ) => edge == by && speed == to,
            (
                What::Restore { edge, speed },
                What::Restore {
                    edge: by,
                    speed: to,
                },
            ) => edge == by && speed == to,
            (What::Publish { prep }, What::Publish { prep: own }) => prep.is_same(own),
            _ => false,
        }
    }
}
