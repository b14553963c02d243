//! A map as it is read: nodes and ways, in order (OSM wiki, "Elements").
use crate::lists::Sequence;
use crate::text::Text;

/// The greatest latitude, in 1e-7 degree.
pub const MOST_LAT: u32 = 900_000_000;

/// The greatest longitude, in 1e-7 degree.
pub const MOST_LON: u32 = 1_800_000_000;

/// A place: whole numbers of 1e-7 degree.
#[derive(Clone, Copy, Debug, PartialEq, Eq)]
pub struct Point {
    pub lat: i32,
    pub lon: i32,
}

#[derive(Clone, Copy, Debug, PartialEq, Eq)]
pub struct OsmNode {
    pub id: i64,
    pub place: Point,
}

#[derive(Debug, Drop)]
pub struct OsmTag {
    pub key: Text,
    pub value: Text,
}

/// Ids, in order.
pub type IdList = Sequence<i64>;

/// Tags, in order.
pub type TagList = Sequence<OsmTag>;

/// A way: its tags, and the ids of its nodes in order.
#[derive(Debug, Drop)]
pub struct OsmWay {
    pub id: i64,
    pub tags: TagList,
    pub refs: IdList,
}

/// Nodes, in order.
pub type OsmNodes = Sequence<OsmNode>;

/// Ways, in order.
pub type OsmWays = Sequence<OsmWay>;

#[derive(Debug, Drop)]
pub struct OsmMap {
    pub nodes: OsmNodes,
    pub ways: OsmWays,
}
