//! Why a script is not read.
ghost use Rattle.std.specs.Prelude.{◌≡◌};
ghost use Rattle.script_text.specs.declared.fault.LineFault.TheVariants as faults;

use gh_base::ScriptKind;
use thiserror::Error;

/// Why a line is not read.
#[derive(Clone, Copy, Debug, PartialEq, Eq)]
pub enum LineFault {
    NoMemory,
    /// The first byte of the word that is wrong, and what is wrong with it.
    At(u32, ScriptKind),
}

impl From<gh_base::NoMemory> for LineFault {
    ghost from_gives = { λ _ e. e ≡ faults.NoMemory };

    fn from(_: gh_base::NoMemory) -> LineFault {
        LineFault::NoMemory
    }
}

/// Why a script is not read.
#[derive(Clone, Copy, Debug, PartialEq, Eq, Error)]
pub enum ScriptFault {
    /// The first word that is wrong: its line, counted from 1, and its first byte in the line, counted from 0.
    #[error("the script is not in its form")]
    At {
        line: u32,
        byte: u32,
        kind: ScriptKind,
    },
    #[error("no memory")]
    NoMemory,
}
