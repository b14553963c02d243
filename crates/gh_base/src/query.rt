//! What a query speaks of, and what it is answered.
use crate::edges::{Hops, LabelList};
use crate::map::Point;

#[derive(Clone, Copy, Debug, PartialEq, Eq)]
pub enum Vehicle {
    Car,
    Bike,
    Foot,
}

/// A place of a query: the tower of an OpenStreetMap id, or a point.
#[derive(Clone, Copy, Debug, PartialEq, Eq)]
pub enum Place {
    Id(i64),
    At(Point),
}

/// The answer to a query for a route. Weights are in ms, lengths in mm.
#[derive(Debug, Drop)]
pub enum RouteAnswer {
    /// No tower has this id.
    NoNode {
        id: i64,
    },
    /// No road can be used at point 1 or 2.
    NoSnap {
        point: u32,
    },
    /// No walk leads there.
    NoRoute {
        settled: u32,
    },
    /// The least weight is over 9007199254740991.
    WeightOverflow {
        weight: u128,
    },
    /// A least walk.
    Walk {
        weight: u64,
        mm: u64,
        settled: u32,
        hops: Hops,
    },
    /// The least weight, with a label for each tower by number.
    Labelled {
        weight: u64,
        labels: LabelList,
    },
}
