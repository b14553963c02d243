//! Why a text is not read.
use gh_base::JsonKind;
use thiserror::Error;

/// Why a text is not read as a value.
#[derive(Clone, Copy, Debug, PartialEq, Eq, Error)]
pub enum JsonFault {
    /// The first fault when the text is read from the left: its byte, counted from 0, and what is wrong there.
    #[error("the text is not JSON")]
    At { byte: u32, kind: JsonKind },
    #[error("no memory")]
    NoMemory,
}
