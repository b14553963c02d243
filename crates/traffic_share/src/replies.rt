//! What the calls of a seat answer. `at` is the number of entries of the seat's list when the call returns.
use gh_base::DirEdge;

/// What `lower` answers.
#[derive(Debug, Clone, Copy, PartialEq, Eq)]
pub enum LowerReply {
    /// There is no edge of this number.
    NoSuchEdge { edge: u32 },
    /// The speed isn't below the limit of now, in milli-km/h.
    NotLower { at: u32, now: u32 },
    /// The log has no cell left for the entry.
    JournalFull { at: u32 },
    /// The entry is the last of the list.
    Lowered { at: u32 },
}

/// What `restore` answers.
#[derive(Debug, Clone, Copy, PartialEq, Eq)]
pub enum RestoreReply {
    /// There is no edge of this number.
    NoSuchEdge { edge: u32 },
    /// The speed isn't above the limit of now, in milli-km/h.
    NotHigher { at: u32, now: u32 },
    /// The speed is above the limit that the directed edge opened with, in milli-km/h.
    OverBase { at: u32, base: u32 },
    /// The log has no cell left for the entry.
    JournalFull { at: u32 },
    /// The entry is the last of the list.
    Restored { at: u32 },
}

/// What `publish` answers.
#[derive(Debug, Clone, Copy, PartialEq, Eq)]
pub enum PublishReply {
    /// On this directed edge, the first of its kind, the preparation was made for a limit below that of now, both in
    /// milli-km/h: what it says would be too much. It has to be made anew.
    NotInForce {
        at: u32,
        edge: DirEdge,
        then: u32,
        now: u32,
    },
    /// The log has no cell left for the entry.
    JournalFull {
        at: u32,
    },
    /// The entry is the last of the list.
    Published {
        at: u32,
    },
}
