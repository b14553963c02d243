//! Why a plain map is not read.
use gh_base::{PartFault, PlainKind};
use thiserror::Error;

/// Why a word is not read.
pub type WordFault = PartFault<PlainKind>;

/// Why a line is not read.
#[derive(Clone, Copy, Debug, PartialEq, Eq)]
pub enum LineFault {
    NoMemory,
    /// What is wrong, and the first byte of the word where it is.
    At(u32, PlainKind),
}

/// Why a plain map is not read.
#[derive(Clone, Copy, Debug, PartialEq, Eq, Error)]
pub enum PlainFault {
    /// The first word that is wrong: its line, counted from 1, and its first byte in the line, counted from 0.
    #[error("the map is not in its form")]
    At {
        line: u32,
        byte: u32,
        kind: PlainKind,
    },
    /// The source failed, and counted it.
    #[error("cannot read the map")]
    ReadFault,
    /// The source holds more bytes than a map may have.
    #[error("the map is too long")]
    TooLong,
    #[error("no memory")]
    NoMemory,
}
