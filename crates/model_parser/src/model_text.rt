//! A custom model as a JSON value.
ghost use Rattle.std.specs.Prelude.{◌≡◌, ◌≤◌, IfOk, IfSome};
ghost use Rattle.std.specs.List.{list_all};
ghost use Rattle.std.specs.Option.{option_map};
ghost use Rattle.model_eval.specs.Models.{IsModel};
ghost use Rattle.model_parser.specs.Faults.{Answers};
ghost use Rattle.model_parser.specs.ModelText as spec;

use crate::fault::{ModelFault, fault, in_text, must};
use crate::features::areas_of;
use crate::statements::statements_of;
use crate::values::{find, number_of, object_of, text_of};
use exact_json::{Decimal, Json, Member};
use gh_base::{ModelKind, Part};
use model_eval::{CustomModel, Running};
use model_texts::{BadText, decimal, within};
use std::alloc::Global;

/// The greatest distance influence, in seconds for a kilometre.
const MOST_INFLUENCE: u32 = 100_000;

fn is_key(key: &str) -> bool
    ensures { result ≡ spec.is_key key.now }
{
    key == "speed" || key == "priority" || key == "distance_influence" || key == "areas"
}

fn are_keys(members: &[Member]) -> bool
    ensures { result ≡ spec.are_keys members.now }
{
    for member in members {
        if !is_key(member.key.as_str()) {
            return false;
        }
    }
    true
}

/// A whole number of at most 100000; places that are all 0 may stand behind it.
#[tactic(auto, using(exact_json::proofs::Limits::ten_pow), unfolding(crate::specs::ModelText::whole_number))]
fn whole_number(number: Decimal) -> Option<u32>
    ensures value { result ≡ spec.whole_number number }
    ensures small { IfSome result (λ n. n ≤ 100000) }
{
    let unit = 10u64.pow(u32::from(number.places));
    if number.negative || number.digits % unit != 0 {
        return None;
    }
    let whole = number.digits / unit;
    if whole > u64::from(MOST_INFLUENCE) {
        return None;
    }
    Some(whole as u32)
}

/// A whole number of at most 100000 as a text.
#[tactic(auto, unfolding(crate::specs::ModelText::whole_text))]
fn whole_text(text: &str) -> Result<u32, BadText>
    ensures value { spec.AnswersWhole (spec.whole_text text.now) result }
    ensures small { IfOk result (λ n. n ≤ 100000) }
{
    match decimal(text.as_bytes(), 0) {
        Ok(value) => match within(MOST_INFLUENCE, value) {
            Some(n) => Ok(n),
            None => Err(BadText {
                byte: 0,
                kind: ModelKind::Number,
            }),
        },
        Err(bad) => Err(BadText {
            byte: bad.byte,
            kind: ModelKind::Number,
        }),
    }
}

fn influence_by(value: &Json) -> Result<u32, ModelFault>
    ensures value { Answers (spec.influence_in value.now) result }
    ensures small { IfOk result (λ n. n ≤ 100000) }
{
    if let Some(text) = text_of(value) {
        return match whole_text(text) {
            Ok(n) => Ok(n),
            Err(bad) => Err(in_text(Part::Influence, 0, bad)),
        };
    }
    if let Some(number) = number_of(value) {
        return match whole_number(number) {
            Some(n) => Ok(n),
            None => Err(fault(Part::Influence, 0, ModelKind::Number)),
        };
    }
    Err(fault(Part::Influence, 0, ModelKind::Number))
}

/// The distance influence of a model; none where it has no such part.
fn influence_of(part: Option<&Json>) -> Result<Option<u32>, ModelFault>
    ensures value { Answers (spec.influence_of (option_map (λ x. x.now) part.entry)) result }
    ensures small { IfOk result (λ influence. IfSome influence (λ n. n ≤ 100000)) }
{
    match part {
        Some(value) => {
            let n = influence_by(value)?;
            Ok(Some(n))
        }
        None => Ok(None),
    }
}

/// The custom model that a value is, or its first fault.
///
/// A model is an object with no keys but `speed`, `priority`, `distance_influence` and `areas`, each of which may
/// be missing. The order of the faults is top, areas, speed, priority, distance influence, in each part item by
/// item from 1; item 0 is the part itself. `NoMemory` says that there was none.
#[tactic(auto, unfolding(crate::specs::ModelText::model_of))]
pub fn parse_model(alloc: Global, json: &Json) -> Result<CustomModel, ModelFault>
    // Ok with the model that the value is, At with the value's first fault.
    ensures model { Answers (spec.model_of json.now) result }
    ensures is_model { IfOk result (λ model. IsModel model) }
    ensures influence { IfOk result (λ model. IfSome model.distance_influence (λ n. n ≤ 100000)) }
{
    let Some(members) = object_of(json) else {
        return Err(fault(Part::Top, 0, ModelKind::NotObject));
    };
    must(are_keys(members), Part::Top, 0, ModelKind::UnknownKey)?;
    let areas = areas_of(alloc, find(members, "areas"))?;
    let speed = statements_of(
        alloc,
        Running::Speed,
        areas.as_slice(),
        find(members, "speed"),
    )?;
    let priority = statements_of(
        alloc,
        Running::Priority,
        areas.as_slice(),
        find(members, "priority"),
    )?;
    let distance_influence = influence_of(find(members, "distance_influence"))?;
    Ok(CustomModel {
        speed,
        priority,
        distance_influence,
        areas,
    })
}
