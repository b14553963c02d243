//! What a line of the journal notes.
use gh_base::DirEdge;

/// A change of the roads: the limit of a directed edge in milli-km/h, or the preparation of a profile, by its number.
#[derive(Clone, Copy, Debug, PartialEq, Eq)]
pub enum Noted {
    Lower { edge: DirEdge, speed: u32 },
    Restore { edge: DirEdge, speed: u32 },
    Publish { profile: u32 },
}
