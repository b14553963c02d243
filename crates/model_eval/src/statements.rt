//! The run of statements, block by block.
ghost use Rattle.std.specs.Prelude.{◌≡◌, ◌≤◌, ◌*◌, ◌/◌, min, option_map, length, All};
ghost use Rattle.model_eval.specs.Conditions as conditions;
ghost use Rattle.model_eval.specs.Running as spec;
ghost use Rattle.model_eval.specs.Models.{IsBounded, IsModel, IsStatement};

use crate::conditions::{NumberName, number_of, passes};
use crate::custom_model::{Action, Branch, CustomModel, Running, Statement};
use encoded_values::{DirValues, MISSING_MAX_SPEED};

/// Millionths in one.
const MILLION: u64 = 1_000_000;

/// The greatest result of a multiplication.
const GREATEST: u64 = 1_000_000_000;

/// Millionths of a km/h in a milli-km/h.
const MILLIONTHS_IN_MILLI: u32 = 1000;

/// A stored number, or None where it is missing.
fn known(name: NumberName, values: &DirValues) -> Option<u8>
    ensures { result ≡ spec.known name values.now }
{
    let number = number_of(name, values);
    match name {
        NumberName::MaxSpeed => {
            if number == MISSING_MAX_SPEED {
                None
            } else {
                Some(number)
            }
        }
        _ => Some(number),
    }
}

/// A stored number times a factor in millionths.
fn scaled(name: NumberName, by: u32, values: &DirValues) -> Option<u32>
    requires { by ≤ 10000000 }
    ensures { result ≡ option_map (λ n. n * by) (spec.known name values.now) }
{
    match known(name, values) {
        Some(number) => Some(u32::from(number) * by),
        None => None,
    }
}

fn as_limit(running: Running, millionths: u32) -> u32
    ensures { result ≡ spec.as_limit running millionths }
{
    match running {
        Running::Speed => millionths / MILLIONTHS_IN_MILLI,
        Running::Priority => millionths,
    }
}

/// The factor in millionths, or the limit, of an action.
fn amount_of(running: Running, action: Action, values: &DirValues) -> Option<u32>
    requires { IsBounded action }
    ensures { result ≡ spec.amount_of running action values.now }
{
    match action {
        Action::Multiply(factor) => Some(factor),
        Action::Limit(limit) => Some(limit),
        Action::MultiplyScaled { name, by } => scaled(name, by, values),
        Action::LimitScaled { name, by } => match scaled(name, by, values) {
            Some(millionths) => Some(as_limit(running, millionths)),
            None => None,
        },
    }
}

fn multiplies(action: Action) -> bool
    ensures { result ≡ spec.multiplies action }
{
    match action {
        Action::Multiply(_) => true,
        Action::Limit(_) => false,
        Action::MultiplyScaled { name: _, by: _ } => true,
        Action::LimitScaled { name: _, by: _ } => false,
    }
}

fn multiplied(x: u32, factor: u32) -> u32
    ensures { result ≡ min (x * factor / 1000000) 1000000000 }
{
    (u64::from(x) * u64::from(factor) / MILLION).min(GREATEST) as u32
}

fn act(running: Running, action: Action, values: &DirValues, x: u32) -> u32
    requires { IsBounded action }
    ensures { result ≡ spec.act running action values.now x }
{
    match amount_of(running, action, values) {
        None => x,
        Some(amount) => {
            if multiplies(action) {
                multiplied(x, amount)
            } else {
                x.min(amount)
            }
        }
    }
}

/// What statements make of a running number.
#[tactic(auto, using(crate::proofs::Blocks::from_start), unfolding(crate::specs::Running::run))]
fn run(
    running: Running,
    statements: &[Statement],
    values: &DirValues,
    areas: u64,
    start: u32,
) -> u32
    requires { All (λ s. IsBounded s.action) statements.now }
    ensures { result ≡ spec.run running statements.now values.now areas start }
{
    let mut x = start;
    let mut taken = true;
    for s in statements {
        if s.branch == Branch::If {
            taken = false;
        }
        if !taken && passes(&s.test, values, areas) {
            x = act(running, s.action, values, x);
            taken = true;
        }
    }
    x
}

/// The running speed after the model's statements, in milli-km/h. The values are those of the direction of
/// travel, and bit i of `areas` tells whether the edge lies in area i.
pub fn speed_of(model: &CustomModel, values: &DirValues, areas: u64, start: u32) -> u32
    requires { IsModel model.now }
    ensures { result ≡ spec.run Running.Speed model.now.speed values.now areas start }
{
    run(Running::Speed, model.speed.as_slice(), values, areas, start)
}

/// The running priority after the model's statements, in millionths; all else as for the speed.
pub fn priority_of(model: &CustomModel, values: &DirValues, areas: u64, start: u32) -> u32
    requires { IsModel model.now }
    ensures { result ≡ spec.run Running.Priority model.now.priority values.now areas start }
{
    run(
        Running::Priority,
        model.priority.as_slice(),
        values,
        areas,
        start,
    )
}
