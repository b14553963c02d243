//! Why a file is not read.
ghost use Rattle.std.specs.Prelude.{◌≡◌};
ghost use Rattle.pbf_wire.specs.Faults.{is_run};
ghost use Rattle.pbf_reader.specs.Reading.{Gives};
ghost use Rattle.pbf_reader.specs.declared.fault.PbfFault.TheVariants.{At, NoMemory};

use gh_base::PbfKind;
use thiserror::Error;

/// Why a file is not read.
#[derive(Debug, Drop, Error)]
pub enum PbfFault {
    /// The first byte of what is wrong, counted from 0, and what it is.
    #[error("the map is not in its form")]
    At { byte: u64, kind: PbfKind },
    /// The source failed, and counted it.
    #[error("cannot read the map")]
    ReadFault,
    /// The source holds more bytes than a map may have.
    #[error("the map is too long")]
    TooLong,
    #[error("no memory")]
    NoMemory,
}

impl From<gh_base::NoMemory> for PbfFault {
    ghost from_gives = { λ _ e. e ≡ NoMemory };

    fn from(_: gh_base::NoMemory) -> PbfFault {
        PbfFault::NoMemory
    }
}

/// A fault at a byte.
pub(crate) fn fault(byte: u64, kind: PbfKind) -> PbfFault
    ensures { result ≡ At byte kind }
{
    PbfFault::At { byte, kind }
}

/// A fault at the least key where something is no run of fields.
pub(crate) fn check_run(bad: Option<u64>) -> Result<(), PbfFault>
    ensures { Gives result (is_run bad) }
{
    match bad {
        None => Ok(()),
        Some(key) => Err(fault(key, PbfKind::BadWire)),
    }
}
