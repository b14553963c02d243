//! The check, and the model without a statement.
ghost use Rattle.std.specs.Prelude.{◌≡◌, ◌≤◌, ◌*◌, ◌↔◌, length, All, [], MatchOption, IfOk, IfErr, OnOk, None, Some, unwrap_or, IfSome};
ghost use Rattle.model_eval.specs.Models.{IsBounded, IsModel, no_model};
ghost use Rattle.model_eval.specs.Slowing as spec;
ghost use Rattle.model_eval.specs.declared.custom_model.CustomModel.{CustomModel};

use gh_base::Part;
use model_eval::{Action, CustomModel, NumberName, SlowModel, Statement, no_model};
use std::alloc::Global;
use thiserror::Error;

/// One in millionths.
const ONE: u32 = 1_000_000;

const MOST_LANES: u32 = 7;

/// The greatest maximum speed that a tag gives, in km/h.
const GREATEST_MAX_SPEED: u32 = 254;

const GREATEST_SPEED: u32 = 255;

/// Why a model isn't taken: its first offender. Items of `speed` and `priority` count from 1 and have a factor
/// in millionths as value; `distance_influence` is item 0 and has itself as value.
#[derive(Clone, Copy, Debug, PartialEq, Eq, Error)]
#[error("the model makes a road lighter than the profile does")]
pub struct Speeding {
    pub part: Part,
    pub item: u32,
    pub value: u32,
}

/// The greatest number that can be stored and isn't missing.
fn greatest(name: NumberName) -> u32
    ensures value { result ≡ spec.greatest name }
    ensures small { result ≤ 255 }
{
    match name {
        NumberName::Lanes => MOST_LANES,
        NumberName::MaxSpeed => GREATEST_MAX_SPEED,
        NumberName::CarSpeed => GREATEST_SPEED,
        NumberName::BikeSpeed => GREATEST_SPEED,
        NumberName::FootSpeed => GREATEST_SPEED,
    }
}

/// The greatest factor of an action, in millionths.
fn factor_of(action: Action) -> Option<u32>
    requires { IsBounded action }
    ensures { result ≡ spec.factor_of action }
{
    match action {
        Action::Multiply(factor) => Some(factor),
        Action::Limit(_) => None,
        Action::MultiplyScaled { name, by } => Some(greatest(name) * by),
        Action::LimitScaled { name: _, by: _ } => None,
    }
}

/// The first factor above 1.
fn first_offence(part: Part, statements: &[Statement]) -> Option<Speeding>
    requires few { length statements.now ≤ 100 }
    requires bounded { All (λ s. IsBounded s.action) statements.now }
    ensures { MatchOption result (spec.offender_among part 1 statements.now ≡ None) (λ s. spec.offender_among part 1 statements.now ≡ Some (record { part = s.part; item = s.item; value = s.value })) }
{
    let mut item = 1;
    for s in statements {
        if let Some(value) = factor_of(s.action) {
            if value > ONE {
                return Some(Speeding { part, item, value });
            }
        }
        item += 1;
    }
    None
}

/// An influence of distance below the profile's.
fn low_influence(profile: Option<u32>, query: Option<u32>) -> Option<Speeding>
    ensures { MatchOption result (spec.low_influence profile query ≡ None) (λ s. spec.low_influence profile query ≡ Some (record { part = s.part; item = s.item; value = s.value })) }
{
    let value = query?;
    if value < profile.unwrap_or(0) {
        Some(Speeding {
            part: Part::Influence,
            item: 0,
            value,
        })
    } else {
        None
    }
}

/// Takes a query's model under a profile, or names the first offender: in the list of speeds, then in the
/// list of priorities, then `distance_influence`. It takes no memory.
#[tactic(auto, using(crate::proofs::Offenders::in_speed, crate::proofs::Offenders::in_priority, crate::proofs::Offenders::in_influence))]
pub fn check(profile: &CustomModel, query: CustomModel) -> Result<SlowModel, Speeding>
    requires { IsModel query }
    ensures kept { IfOk result (λ slow. slow ≡ query) }
    ensures taken { OnOk result (spec.offender profile.now query ≡ None) }
    ensures refused { IfErr result (λ s. spec.offender profile.now query ≡ Some (record { part = s.part; item = s.item; value = s.value })) }
{
    match first_offence(Part::Speed, query.speed.as_slice()) {
        Some(speeding) => return Err(speeding),
        None => {}
    }
    match first_offence(Part::Priority, query.priority.as_slice()) {
        Some(speeding) => return Err(speeding),
        None => {}
    }
    match low_influence(profile.distance_influence, query.distance_influence) {
        Some(speeding) => Err(speeding),
        None => Ok(SlowModel::of(query)),
    }
}

/// The model without a statement, of which the type says that it only slows. It takes no memory.
pub fn plain(alloc: Global) -> SlowModel
    ensures { result ≡ no_model }
{
    SlowModel::of(no_model(alloc))
}

/// There is an offender exactly where a factor is above 1 or the query's influence of distance is below the
/// profile's.
pub fn offenders_are_exact()
    ensures { (profile query : CustomModel) → (spec.offender profile query ≡ None) ↔ (spec.IsSlow query × IfSome query.distance_influence (λ d. unwrap_or profile.distance_influence 0 ≤ d)) }
{}
