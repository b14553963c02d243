//! What a custom model is made of.
ghost use Rattle.std.specs.Prelude.{◌≡◌};
ghost use Rattle.model_eval.specs.Models.{IsModel, no_model};
ghost use Rattle.model_eval.specs.Slowing.{IsSlow};

use crate::conditions::{NumberName, Test};
use gh_base::{Point, Sequence, Text};
use std::alloc::Global;

/// Where a statement stands in its block: an `if` begins one, and what follows belongs to it.
#[derive(Clone, Copy, Debug, PartialEq, Eq)]
pub enum Branch {
    If,
    ElseIf,
    Else,
}

/// What the statements of a list change: the running speed in milli-km/h, or the running priority in
/// millionths.
#[derive(Clone, Copy, Debug, PartialEq, Eq)]
pub enum Running {
    Speed,
    Priority,
}

/// What a statement does. Factors are in millionths. A limit is in milli-km/h in the list of speeds and in
/// millionths in the list of priorities. A scaled action takes the stored number times `by` millionths.
#[derive(Clone, Copy, Debug, PartialEq, Eq)]
pub enum Action {
    Multiply(u32),
    Limit(u32),
    MultiplyScaled { name: NumberName, by: u32 },
    LimitScaled { name: NumberName, by: u32 },
}

#[derive(Debug, Drop)]
pub struct Statement {
    pub branch: Branch,
    pub test: Test,
    pub action: Action,
}

/// A closed line: its last point is its first.
pub type Ring = Sequence<Point>;

/// The rings of all polygons of an area.
pub type RingList = Sequence<Ring>;

#[derive(Debug, Drop)]
pub struct Area {
    pub id: Text,
    pub rings: RingList,
}

/// Statements, in order.
pub type Statements = Sequence<Statement>;

/// Areas, in order; a condition names one by its place.
pub type Areas = Sequence<Area>;

/// A custom model. `distance_influence` is in seconds for a kilometre.
#[derive(Debug, Drop)]
pub struct CustomModel {
    pub speed: Statements,
    pub priority: Statements,
    pub distance_influence: Option<u32>,
    pub areas: Areas,
}

/// The model without a statement. It takes no memory.
#[tactic(auto, using(crate::proofs::NoStatement::nothing_is_model, crate::proofs::NoStatement::nothing_is_slow))]
pub fn no_model(alloc: Global) -> CustomModel
    ensures value { result ≡ no_model }
    ensures model { IsModel result }
    ensures slow { IsSlow result }
{
    CustomModel {
        speed: Sequence::new(alloc),
        priority: Sequence::new(alloc),
        distance_influence: None,
        areas: Sequence::new(alloc),
    }
}
