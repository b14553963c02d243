//! What a script says.
use gh_base::{Place, Sequence, Text};
use weighting::Profiles;

/// What an actor asks for. Profiles and edges are numbers from 0, speeds are in milli-km/h.
#[derive(Debug, Drop)]
pub enum Command {
    /// The rule of the actor's later queries: a profile, and a model in JSON; the empty text is no statement.
    Model {
        profile: u32,
        text: Text,
    },
    /// A least walk, or the labels that prove its weight.
    Route {
        from: Place,
        to: Place,
        labels: bool,
    },
    /// A lower limit on a directed edge.
    Lower {
        edge: u32,
        reverse: bool,
        speed: u32,
    },
    /// A higher limit on a directed edge.
    Restore {
        edge: u32,
        reverse: bool,
        speed: u32,
    },
    /// A preparation of a profile with so many landmarks.
    Prepare {
        profile: u32,
        count: u32,
    },
    /// The actor's last preparation of a profile, for all.
    Publish {
        profile: u32,
    },
}

/// A command: its actor, by number from 0, and its own number among the commands of that actor, from 1.
#[derive(Debug, Drop)]
pub struct Line {
    pub actor: u32,
    pub number: u32,
    pub command: Command,
}

/// Names, in order.
pub type Names = Sequence<Text>;

/// Commands that are run side by side, in the order of the script.
pub type Phase = Sequence<Line>;

/// Phases, one after another.
pub type Phases = Sequence<Phase>;

/// The most entries of the journal, the actors by number, and their commands by phase.
#[derive(Debug, Drop)]
pub struct Script {
    pub capacity: u32,
    pub actors: Names,
    pub phases: Phases,
}

/// A script with the profiles that it declares.
#[derive(Debug, Drop)]
pub struct ScriptRead {
    pub profiles: Profiles,
    pub script: Script,
}
