//! The small errors that all layers share.
use std::alloc::{AllocError, AllocFailed};
use thiserror::Error;

/// A call of the outside failed, and its object counted it.
#[derive(Clone, Copy, Debug, PartialEq, Eq, Error)]
#[error("a call of the outside failed")]
pub struct Failed;

/// There was no memory. It is the one answer that may come at any call that takes some.
#[derive(Clone, Copy, Debug, PartialEq, Eq, Error)]
#[error("no memory")]
pub struct NoMemory;

impl From<AllocError> for NoMemory {
    fn from(_: AllocError) -> NoMemory {
        NoMemory
    }
}

impl<T: Drop> From<AllocFailed<T>> for NoMemory {
    fn from(_: AllocFailed<T>) -> NoMemory {
        NoMemory
    }
}

/// Why a text was not written whole.
#[derive(Clone, Copy, Debug, PartialEq, Eq, Error)]
pub enum GiveFault {
    #[error("no memory")]
    NoMemory,
    #[error("cannot write")]
    WriteFault,
}

impl From<NoMemory> for GiveFault {
    ghost use Rattle.std.specs.Prelude.{◌≡◌};
    ghost use Rattle.gh_base.specs.declared.faults.GiveFault.TheVariants as give;

    ghost from_gives = { λ _ e. e ≡ give.NoMemory };

    fn from(_: NoMemory) -> GiveFault {
        GiveFault::NoMemory
    }
}

impl From<Failed> for GiveFault {
    ghost use Rattle.std.specs.Prelude.{◌≡◌};
    ghost use Rattle.gh_base.specs.declared.faults.GiveFault.TheVariants as give;

    ghost from_gives = { λ _ e. e ≡ give.WriteFault };

    fn from(_: Failed) -> GiveFault {
        GiveFault::WriteFault
    }
}

/// Why a part of a text is not read.
#[derive(Clone, Copy, Debug, PartialEq, Eq)]
pub enum PartFault<K> {
    NoMemory,
    /// What is wrong with it.
    Is(K),
}

impl<K> From<NoMemory> for PartFault<K> {
    ghost use Rattle.std.specs.Prelude.{◌≡◌};
    ghost use Rattle.gh_base.specs.declared.faults.PartFault.TheVariants as part;

    ghost from_gives = { λ _ e. e ≡ part.NoMemory };

    fn from(_: NoMemory) -> PartFault<K> {
        PartFault::NoMemory
    }
}
