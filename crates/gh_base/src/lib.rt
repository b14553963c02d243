//! What the layers share: the outside (sources, sinks, files, gates) as traits with a meaning, its
//! forms in memory, views of roads, lists that contracts see as lists, and plain types.
//!
//! Promises: each form in memory keeps its trait's contract; a source is read whole or the cause is
//! named; a decimal is read exactly. Definitions stand in `specs/`: causes, networks, places, maps that
//! can be said, decimals, readings.
#![tactic(auto)]

mod decimal;
mod edges;
mod faults;
mod giving;
mod kinds;
mod lists;
mod map;
mod memory;
mod numbers;
mod outside;
mod parts;
mod query;
mod shape;
mod sure;
mod text;
mod views;
mod whole;

pub use decimal::{BadDecimal, read_decimal};
pub use edges::{
    Arrival, DirEdge, EdgeId, EdgeWords, Hop, Hops, LabelList, LimitList, Limits, NodeId,
};
pub use faults::{Failed, GiveFault, NoMemory, PartFault};
pub use giving::give_all;
pub use kinds::{Form, JsonKind, ModelKind, Part, PbfKind, Place3, PlainKind, ScriptKind};
pub use lists::Sequence;
pub use map::{
    IdList, MOST_LAT, MOST_LON, OsmMap, OsmNode, OsmNodes, OsmTag, OsmWay, OsmWays, Point, TagList,
};
pub use memory::{FreeGate, MemFiles, MemSink, MemSource};
pub use numbers::{read_id, read_natural};
pub use outside::{Files, Gate, Sink, Source};
pub use parts::{first_bytes, first_part, valid_text};
pub use query::{Place, RouteAnswer, Vehicle};
pub use shape::{Shape, Shapes};
pub use sure::{SureFiles, SureSink, SureSource};
pub use text::Text;
pub use views::{FreshView, Potential, RoadView, Unwanted};
pub use whole::{TakeFault, read_whole};
