//! A message as a run of fields.
use crate::wire::Field;
use gh_base::Sequence;

/// A field, and the place of its key.
#[derive(Clone, Copy, Debug, PartialEq, Eq)]
pub struct Spot {
    pub key: usize,
    pub field: Field,
}

/// The fields of a message up to the first place where none stands, and that place.
#[derive(Debug, Drop)]
pub struct Run {
    pub fields: Sequence<Spot>,
    pub bad: Option<u64>,
}

/// A stretch of bytes.
#[derive(Clone, Copy, Debug, PartialEq, Eq)]
pub struct Piece {
    pub start: usize,
    pub end: usize,
}

/// The numbers of a list, and the key of the first field that isn't a run of varints.
#[derive(Debug, Drop)]
pub struct Values {
    pub values: Sequence<u64>,
    pub bad: Option<u64>,
}
