//! Why a text is not read.
use gh_base::ModelKind;
use thiserror::Error;

/// What is wrong at a byte of a text, counted from 0.
#[derive(Clone, Copy, Debug, PartialEq, Eq, Error)]
#[error("the text can't stand in a model")]
pub struct BadText {
    pub byte: u32,
    pub kind: ModelKind,
}

/// Why a condition is not read.
#[derive(Clone, Copy, Debug, PartialEq, Eq, Error)]
pub enum ConditionFault {
    /// The first fault when the text is read from the left.
    #[error("the text is no condition")]
    At(BadText),
    #[error("no memory")]
    NoMemory,
}
