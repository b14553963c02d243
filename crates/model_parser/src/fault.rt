//! Why a value is not a model.
ghost use Rattle.std.specs.Prelude.{◌≡◌};
ghost use Rattle.model_parser.specs.Faults.{Answers};
ghost use Rattle.model_parser.specs.Faults as spec;
ghost use Rattle.model_parser.specs.declared.fault.ModelFault.TheVariants.{NoMemory};

use gh_base::{ModelKind, NoMemory as Exhausted, Part, Place3};
use model_texts::BadText;
use std::alloc::AllocError;
use thiserror::Error;

/// Why a value is not a model.
#[derive(Clone, Copy, Debug, PartialEq, Eq, Error)]
pub enum ModelFault {
    /// The first fault: the part, the item in it, the byte in its text, and what is wrong there.
    #[error("the value is no model")]
    At { place: Place3, kind: ModelKind },
    #[error("no memory")]
    NoMemory,
}

impl From<Exhausted> for ModelFault {
    ghost from_gives = { λ _ e. e ≡ NoMemory };

    fn from(_: Exhausted) -> ModelFault {
        ModelFault::NoMemory
    }
}

impl From<AllocError> for ModelFault {
    ghost from_gives = { λ _ e. e ≡ NoMemory };

    fn from(_: AllocError) -> ModelFault {
        ModelFault::NoMemory
    }
}

/// A fault of an item itself.
pub(crate) fn fault(part: Part, item: u32, kind: ModelKind) -> ModelFault
    ensures { result ≡ ModelFault.At (record { part = part; item = item; byte = 0 }) kind }
{
    ModelFault::At {
        place: Place3 {
            part,
            item,
            byte: 0,
        },
        kind,
    }
}

/// Refuses an item, unless this is so.
pub(crate) fn must(is: bool, part: Part, item: u32, kind: ModelKind) -> Result<(), ModelFault>
    ensures { Answers (spec.must part item kind is) result }
{
    if is {
        Ok(())
    } else {
        Err(fault(part, item, kind))
    }
}

/// A fault of a text of an item.
pub(crate) fn in_text(part: Part, item: u32, bad: BadText) -> ModelFault
    ensures { result ≡ ModelFault.At (record { part = part; item = item; byte = bad.byte }) bad.kind }
{
    ModelFault::At {
        place: Place3 {
            part,
            item,
            byte: bad.byte,
        },
        kind: bad.kind,
    }
}
