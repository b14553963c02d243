//! The messages of a block as they are written (OSM wiki, "PBF Format").
//!
//! `place` is the first byte of a message, `bad` the least key where it is no run of fields.
use crate::fields::{Piece, Spot};
use gh_base::{OsmMap, OsmNodes, Sequence};

#[derive(Debug, Drop)]
pub struct Node {
    pub place: u64,
    pub id: Option<u64>,
    pub lat: Option<u64>,
    pub lon: Option<u64>,
    pub bad: Option<u64>,
}

/// Nodes as lists: each id and coordinate is the difference from the one before it.
#[derive(Debug, Drop)]
pub struct Dense {
    pub place: u64,
    pub ids: Sequence<u64>,
    pub lats: Sequence<u64>,
    pub lons: Sequence<u64>,
    pub tags: Sequence<u64>,
    pub bad: Option<u64>,
}

#[derive(Debug, Drop)]
pub struct Way {
    pub place: u64,
    pub id: Option<u64>,
    pub keys: Sequence<u64>,
    pub values: Sequence<u64>,
    pub refs: Sequence<u64>,
    pub bad: Option<u64>,
}

#[derive(Debug, Drop)]
pub enum Message {
    Node(Node),
    Dense(Dense),
    Way(Way),
}

/// The messages of a group, in the order of their bytes.
#[derive(Debug, Drop)]
pub struct Group {
    pub messages: Sequence<Message>,
    pub bad: Option<u64>,
}

/// The groups of a block, in the order of their bytes.
#[derive(Debug, Drop)]
pub struct Groups {
    pub groups: Sequence<Group>,
    pub bad: Option<u64>,
}

/// A block: the bytes of its table of strings, where they stand, the fields of the table, and the groups.
#[derive(Debug, Drop)]
pub struct Block {
    pub table: Sequence<u8>,
    pub pieces: Sequence<Piece>,
    pub strings: Sequence<Spot>,
    pub granularity: Option<u64>,
    pub lat_offset: Option<u64>,
    pub lon_offset: Option<u64>,
    pub groups: Sequence<Group>,
    pub bad: Option<u64>,
}

/// How the coordinates of a block are written, in 1e-9 degree.
#[derive(Clone, Copy, Debug, PartialEq, Eq)]
pub struct Scale {
    pub granularity: i32,
    pub lat_offset: i64,
    pub lon_offset: i64,
}

/// How latitudes or longitudes are written, and how far from 0 they go, in 1e-7 degree.
#[derive(Clone, Copy, Debug, PartialEq, Eq)]
pub struct Axis {
    pub granularity: i32,
    pub offset: i64,
    pub most: u32,
}

/// A map, with the messages of a group so far: its dense nodes come last.
#[derive(Debug, Drop)]
pub struct GroupSoFar {
    pub map: OsmMap,
    pub dense: OsmNodes,
}

/// What a BlobHeader says: where its type stands, how long its Blob is, and where the Blob begins.
#[derive(Clone, Copy, Debug, PartialEq, Eq)]
pub struct BlobHeader {
    pub name: Piece,
    pub datasize: u64,
    pub end: usize,
}
