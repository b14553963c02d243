//! Fields of a protocol buffers message: varints, keys and values, at their places; and what an OpenStreetMap
//! PBF file is, for those who read and write one.
//!
//! Promises: a varint or a field is read exactly, or the first fault is named; what is put is read again.
//! Definitions stand in `specs/`: how fields are read (Wire) and written (Put); then the messages of a file,
//! from its runs of fields (Runs) to the whole (Files). Their types stand in `fields` and `messages`.
#![tactic(auto)]

mod fields;
mod messages;
mod put;
mod wire;

pub use fields::{Piece, Run, Spot, Values};
pub use messages::{
    Axis, BlobHeader, Block, Dense, Group, GroupSoFar, Groups, Message, Node, Scale, Way,
};
pub use put::{put_bytes, put_varint};
pub use wire::{Field, WireFault, WireKind, field_at, varint};
