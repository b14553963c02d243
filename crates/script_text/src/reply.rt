//! What a command is answered.
use gh_base::{DirEdge, Hops, JsonKind, LabelList, ModelKind, Place3};
use model_check::Speeding;

/// The answer to a command. Weights are in ms, lengths in mm, limits in milli-km/h.
#[derive(Debug, Drop)]
pub enum Reply {
    /// A least walk.
    Route {
        weight: u64,
        mm: u64,
        settled: u32,
        hops: Hops,
    },
    /// The least weight, with a label for each tower by number.
    Labels {
        weight: u64,
        labels: LabelList,
    },
    /// No walk leads there.
    NoRoute {
        settled: u32,
    },
    /// The least weight is over 9007199254740991.
    Overflow {
        weight: u128,
    },
    /// No road can be used at point 1 or 2.
    NoSnap {
        point: u32,
    },
    /// No tower has this id.
    NoNode {
        id: i64,
    },
    /// The model is in force.
    Taken,
    /// The model's text is no JSON.
    BadJson {
        byte: u32,
        kind: JsonKind,
    },
    /// The JSON is no model.
    BadModel {
        place: Place3,
        kind: ModelKind,
    },
    /// The model could make the profile faster.
    Speeds(Speeding),
    Lowered,
    /// The limit is not above the speed that was asked for.
    NotLower {
        now: u32,
    },
    NoSuchEdge,
    /// The journal has as many entries as it may.
    JournalFull,
    Restored,
    /// The limit is not below the speed that was asked for.
    NotHigher {
        now: u32,
    },
    /// The speed is above the limit that the edge opened with.
    OverBase {
        base: u32,
    },
    Prepared {
        landmarks: u32,
    },
    /// No road can be used under the profile.
    NoLandmark,
    Published,
    /// The actor holds no preparation of the profile.
    Nothing,
    /// A limit rose above what it was when the preparation was made.
    NotInForce {
        edge: DirEdge,
        then: u32,
        now: u32,
    },
}
