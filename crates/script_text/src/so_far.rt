//! What the lines of a script said so far.
use crate::script::{Names, Phase, Phases};
use weighting::Profiles;

/// What the lines said so far: the phases that ended, and the commands of the one that didn't.
#[derive(Debug, Drop)]
pub struct SoFar {
    pub profiles: Profiles,
    pub journal: Option<u32>,
    pub actors: Names,
    pub done: Phases,
    pub phase: Phase,
}

/// What is counted beside it, so that no line is looked at twice: the commands, those of them that may become
/// entries of the journal, and those of each actor.
#[derive(Debug, Drop)]
pub struct Tally {
    pub commands: u32,
    pub changes: u32,
    pub numbers: [u32; 16],
}
