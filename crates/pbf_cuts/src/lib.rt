//! A law of PBF files: what is read of a file that was cut, at whatever length.
//!
//! Promises: of a file that is read, a front is read exactly where it ends with a blob, and then as
//! the first nodes and ways of the whole; every other front that isn't empty is `Truncated` at its
//! length. The statement stands in `specs/Cuts.antt`, over the definition of `pbf_wire`, which
//! `pbf_reader`'s `read_pbf` is proved to follow. It has no code, and no crate needs it.
#![tactic(auto)]

mod law;
mod numbers;

pub use law::cuts_are_told;
pub use numbers::three_blobs_in_numbers;
