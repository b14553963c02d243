//! The roads by a name, and what is true over them by its type.
ghost use Rattle.std.specs.Prelude.{◌≡◌, ◌<◌, length, IfOk};
ghost use Rattle.traffic_core.specs.History.{limit_in};
ghost use Rattle.traffic_core.specs.Truth.{IsTrueOver};
ghost use Rattle.traffic_share.specs.TrueEntries.{IsTrueEntry};

use gh_base::{DirEdge, NoMemory};
use std::marker::{Brand, Model, PhantomData};
use traffic_core::{Entry, Shared, What, listed_limit};

/// Which roads they are. Each run picks them.
pub trait Naming: Send + Sync {
    ghost use Rattle.traffic_core.specs.Lands.{Land};

    ghost land: { Land };
}

impl Naming for Brand {
    ghost use Rattle.traffic_share.specs.TrueEntries.{no_land};

    ghost land = { no_land };
}

/// A preparation that is true over the roads. Contracts see the preparation.
#[derive(Drop)]
pub struct TruePrep<J: Naming> {
    prep: Shared,
    of: PhantomData<J>,
}

impl<J: Naming> Model for TruePrep<J> {
    ghost use Rattle.landmark_prep.specs.Preparations.{Preparation};
    ghost use Rattle.traffic_core.specs.Truth.{IsTrueOver};

    ghost Value = { Preparation };

    ghost view = { λ t. t.prep };

    ghost invariant = { λ t. IsTrueOver J.land t.prep };
}

impl<J: Naming> TruePrep<J> {
    pub fn new(prep: Shared) -> TruePrep<J>
        requires { IsTrueOver J.land prep }
        ensures { result ≡ prep }
    {
        TruePrep {
            prep,
            of: PhantomData,
        }
    }

    pub fn shared(&self) -> &Shared
        ensures same { result.now ≡ self.now }
        ensures holds { IsTrueOver J.land result.now }
    {
        &self.prep
    }

    /// The limit of a directed edge at which the profile was prepared.
    pub(crate) fn limit(&self, edge: DirEdge) -> u32
        requires { edge.edge.0 < length J.land.graph.edges }
        ensures { result ≡ limit_in self.now.snapshot edge }
    {
        listed_limit(self.shared().prep().snapshot(), edge)
    }
}

/// An entry that is true over the roads. Contracts see the entry.
#[derive(Drop)]
pub struct Sealed<J: Naming> {
    entry: Entry,
    of: PhantomData<J>,
}

impl<J: Naming> Model for Sealed<J> {
    ghost use Rattle.traffic_core.specs.declared.entry.Entry.{Entry};
    ghost use Rattle.traffic_share.specs.TrueEntries.{IsTrueEntry};

    ghost Value = { Entry };

    ghost view = { λ s. s.entry };

    ghost invariant = { λ s. IsTrueEntry J.land s.entry };
}

impl<J: Naming> Sealed<J> {
    pub fn new(entry: Entry) -> Sealed<J>
        requires { IsTrueEntry J.land entry }
        ensures { result ≡ entry }
    {
        Sealed {
            entry,
            of: PhantomData,
        }
    }

    pub fn entry(&self) -> &Entry
        ensures same { result.now ≡ self.now }
        ensures holds { IsTrueEntry J.land result.now }
    {
        &self.entry
    }

    /// The same entry, once more. A preparation is shared.
    pub(crate) fn again(&self) -> Result<Sealed<J>, NoMemory>
        ensures { IfOk result (λ sealed. sealed ≡ self.now) }
    {
        Ok(Sealed {
            entry: Entry {
                actor: self.entry.actor,
                number: self.entry.number,
                what: what_again(&self.entry.what)?,
            },
            of: PhantomData,
        })
    }
}

fn what_again(what: &What) -> Result<What, NoMemory>
    ensures { IfOk result (λ again. again ≡ what.now) }
{
    Ok(match what {
        What::Lower { edge, speed } => What::Lower {
            edge: *edge,
            speed: *speed,
        },
        What::Restore { edge, speed } => What::Restore {
            edge: *edge,
            speed: *speed,
        },
        What::Publish { prep } => What::Publish {
            prep: prep.again()?,
        },
    })
}
