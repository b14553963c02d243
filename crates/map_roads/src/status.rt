//! How a run ends.
use gh_base::{PbfKind, PlainKind, ScriptKind};
use map_import::ImportFault;
use prep_store::PrepFault;

/// What was being read.
#[derive(Clone, Copy, Debug, PartialEq, Eq)]
pub enum Which {
    Map,
    Script,
}

/// What has a greatest size.
#[derive(Clone, Copy, Debug, PartialEq, Eq)]
pub enum Quantity {
    /// The bytes of a map, at most 268435456.
    Map,
    /// The bytes of a script, at most 16777216.
    Script,
    /// The landmark labels that are asked for.
    Labels,
    /// The bytes of one way in a PBF file.
    Way,
}

/// What is wrong with a map, at its first fault.
#[derive(Debug, Drop)]
pub enum MapFault {
    /// Lines count from 1, bytes from 0 within the line.
    Plain {
        line: u32,
        byte: u32,
        kind: PlainKind,
    },
    /// Bytes count from 0 in the file.
    Pbf {
        byte: u64,
        kind: PbfKind,
    },
    /// The map is in its grammar, and has no roads.
    Import(ImportFault),
}

/// How a run ended. Each but `Done` and `NoMemory` has its cause as a clause of `run`.
#[derive(Debug, Drop)]
pub enum Status {
    Done,
    Usage,
    NoMemory,
    OpenFault,
    ReadFault(Which),
    WriteFault,
    BadMap(MapFault),
    /// Lines count from 1, bytes from 0 within the line.
    BadScript {
        line: u32,
        byte: u32,
        kind: ScriptKind,
    },
    TooLarge {
        what: Quantity,
        limit: u64,
    },
    /// No road can be used, so there is nowhere to place a landmark.
    NoLandmark,
    /// What was read is no preparation of the map's roads, at its first fault.
    BadPrep(PrepFault),
}

impl From<gh_base::NoMemory> for Status {
    ghost use Rattle.std.specs.Prelude.{◌≡◌};
    ghost use Rattle.map_roads.specs.declared.status.Status.TheVariants as status;

    ghost from_gives = { λ _ e. e ≡ status.NoMemory };

    fn from(_: gh_base::NoMemory) -> Status {
        Status::NoMemory
    }
}
