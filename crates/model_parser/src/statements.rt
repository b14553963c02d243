//! Statements and their lists.
ghost use Rattle.std.specs.Prelude.{◌≡◌, ◌≤◌, ◌<◌, ◌||◌, ◌&&◌, [], length, IfOk, IsTrue, false, Some, None};
ghost use Rattle.std.specs.Option.{option_map};
ghost use Rattle.model_eval.specs.Models.{IsBounded, IsStatement, AreStatements, are_in_blocks};
ghost use Rattle.model_eval.specs.Models as models;
ghost use Rattle.model_eval.specs.Running as running_spec;
ghost use Rattle.model_eval.specs.Conditions.{names_areas_of};
ghost use Rattle.model_parser.specs.Faults.{Answers};
ghost use Rattle.model_parser.specs.Values as values_spec;
ghost use Rattle.model_parser.specs.Statements as spec;

use crate::fault::{ModelFault, fault, in_text, must};
use crate::values::{array_of, is_null, number_of, object_of, text_of};
use exact_json::{Decimal, Json};
use gh_base::{ModelKind, Part};
use model_eval::{Action, Area, Branch, Running, Statement, Statements, Test};
use model_texts::{
    ConditionFault, Verb, action_of, most_of, places_of, plain_action, read_condition,
};
use std::alloc::Global;

/// The most statements of a list.
const MOST_STATEMENTS: usize = 100;

fn branch_of(key: &str) -> Option<Branch>
    ensures { result ≡ spec.branch_of key.now }
{
    match key {
        "if" => Some(Branch::If),
        "else_if" => Some(Branch::ElseIf),
        "else" => Some(Branch::Else),
        _ => None,
    }
}

fn verb_of(key: &str) -> Option<Verb>
    ensures { result ≡ spec.verb_of key.now }
{
    match key {
        "multiply_by" => Some(Verb::Multiply),
        "limit_to" => Some(Verb::Limit),
        _ => None,
    }
}

fn part_of(running: Running) -> Part
    ensures { result ≡ spec.part_of running }
{
    match running {
        Running::Speed => Part::Speed,
        Running::Priority => Part::Priority,
    }
}

fn begins(branch: Branch) -> bool
    ensures { result ≡ running_spec.begins branch }
{
    match branch {
        Branch::If => true,
        Branch::ElseIf | Branch::Else => false,
    }
}

/// Whether an `else_if` or `else` may follow.
fn goes_on(branch: Branch) -> bool
    ensures { result ≡ models.goes_on branch }
{
    match branch {
        Branch::If | Branch::ElseIf => true,
        Branch::Else => false,
    }
}

fn is_empty(text: Option<&str>) -> bool
    ensures { result ≡ spec.is_empty (option_map (λ x. x.now) text.entry) }
{
    match text {
        Some(text) => text.is_empty(),
        None => false,
    }
}

/// Whether a branch may ask this.
fn fits(branch: Branch, asked: &Json) -> bool
    ensures { result ≡ spec.fits branch asked.now }
{
    match branch {
        Branch::If => text_of(asked).is_some(),
        Branch::ElseIf => text_of(asked).is_some(),
        Branch::Else => is_null(asked) || is_empty(text_of(asked)),
    }
}

fn is_amount(value: &Json) -> bool
    ensures { result ≡ spec.is_amount value.now }
{
    text_of(value).is_some() || number_of(value).is_some()
}

/// Whether what a branch asks and what an action takes are of the right kind.
fn are_of_kind(branch: Branch, asked: &Json, amount: &Json) -> bool
    ensures { result ≡ (spec.fits branch asked.now && spec.is_amount amount.now) }
{
    fits(branch, asked) && is_amount(amount)
}

fn stands_in_block(branch: Branch, may_go_on: bool) -> bool
    ensures { result ≡ (running_spec.begins branch || may_go_on) }
{
    begins(branch) || may_go_on
}

/// The condition that a text is.
fn condition(
    alloc: Global,
    running: Running,
    item: u32,
    areas: &[Area],
    text: &str,
) -> Result<Test, ModelFault>
    requires { length areas.now ≤ 50 }
    ensures test { Answers (spec.in_condition running item areas.now text.now) result }
    ensures named { IfOk result (λ t. IsTrue (names_areas_of (length areas.now) t)) }
{
    match read_condition(alloc, areas, text.as_bytes()) {
        Ok(test) => Ok(test),
        Err(ConditionFault::At(bad)) => Err(in_text(part_of(running), item, bad)),
        Err(ConditionFault::NoMemory) => Err(ModelFault::NoMemory),
    }
}

/// What a branch asks; `else` asks nothing.
fn test_of(
    alloc: Global,
    running: Running,
    item: u32,
    areas: &[Area],
    branch: Branch,
    asked: &Json,
) -> Result<Test, ModelFault>
    requires { length areas.now ≤ 50 }
    ensures test { Answers (spec.test_of running item areas.now branch (values_spec.text_of asked.now)) result }
    ensures named { IfOk result (λ t. IsTrue (names_areas_of (length areas.now) t)) }
    ensures unconditional { IfOk result (λ t. branch ≡ Branch.Else → t ≡ Test.True) }
{
    if branch == Branch::Else {
        return Ok(Test::True);
    }
    match text_of(asked) {
        Some(text) => condition(alloc, running, item, areas, text),
        None => Err(fault(part_of(running), item, ModelKind::Statement)),
    }
}

/// A number with at most so many places, in units of the last of them, up to a greatest.
#[tactic(auto, using(exact_json::proofs::Limits::ten_pow))]
fn scaled(number: Decimal, places: u8, most: u32) -> Option<u32>
    requires { places ≤ 6 }
    ensures { result ≡ spec.scaled places most number }
{
    if number.negative || number.places > places {
        return None;
    }
    let unit = 10u64.pow(u32::from(places - number.places));
    let amount = u128::from(number.digits) * u128::from(unit);
    if amount > u128::from(most) {
        return None;
    }
    Some(amount as u32)
}

/// An action by a number.
fn by_number(verb: Verb, running: Running, item: u32, number: Decimal) -> Result<Action, ModelFault>
    ensures action { Answers (spec.action_by verb running item None (Some number)) result }
    ensures bounded { IfOk result IsBounded }
{
    match scaled(number, places_of(verb, running), most_of(verb, running)) {
        Some(amount) => Ok(plain_action(verb, amount)),
        None => Err(fault(part_of(running), item, ModelKind::Number)),
    }
}

/// An action by a text.
fn by_text(verb: Verb, running: Running, item: u32, text: &str) -> Result<Action, ModelFault>
    ensures action { Answers (spec.action_by verb running item (Some text.now) None) result }
    ensures bounded { IfOk result IsBounded }
{
    match action_of(verb, running, text.as_bytes()) {
        Ok(action) => Ok(action),
        Err(bad) => Err(in_text(part_of(running), item, bad)),
    }
}

/// An action, by its text or its number.
fn action_by(verb: Verb, running: Running, item: u32, amount: &Json) -> Result<Action, ModelFault>
    ensures action { Answers (spec.action_by verb running item (values_spec.text_of amount.now) (values_spec.number_of amount.now)) result }
    ensures bounded { IfOk result IsBounded }
{
    if let Some(text) = text_of(amount) {
        return by_text(verb, running, item, text);
    }
    match number_of(amount) {
        Some(number) => by_number(verb, running, item, number),
        None => Err(fault(part_of(running), item, ModelKind::Statement)),
    }
}

/// Where a statement stands: its list, the areas of its model, its place from 1, and whether it may go on with a
/// block.
#[derive(Clone, Copy)]
struct Spot {
    running: Running,
    item: u32,
    may_go_on: bool,
}

/// What a statement asks, and then what it does.
#[tactic(auto, unfolding(crate::specs::Statements::acting))]
fn acting(
    alloc: Global,
    areas: &[Area],
    spot: Spot,
    branch: Branch,
    asked: &Json,
    verb: Verb,
    amount: &Json,
) -> Result<Statement, ModelFault>
    requires { length areas.now ≤ 50 }
    ensures statement { Answers (spec.acting spot.running areas.now spot.item branch asked.now verb amount.now) result }
    ensures sound { IfOk result (λ s. IsStatement (length areas.now) s) }
    ensures branch { IfOk result (λ s. s.branch ≡ branch) }
{
    let test = test_of(alloc, spot.running, spot.item, areas, branch, asked)?;
    let action = action_by(verb, spot.running, spot.item, amount)?;
    Ok(Statement {
        branch,
        test,
        action,
    })
}

/// A statement by its branch, what that asks, its verb and the amount of that.
#[tactic(auto, unfolding(crate::specs::Statements::written))]
fn written(
    alloc: Global,
    areas: &[Area],
    spot: Spot,
    branch: Branch,
    asked: &Json,
    verb: Verb,
    amount: &Json,
) -> Result<Statement, ModelFault>
    requires { length areas.now ≤ 50 }
    ensures statement { Answers (spec.written spot.running areas.now spot.item spot.may_go_on branch asked.now verb amount.now) result }
    ensures sound { IfOk result (λ s. IsStatement (length areas.now) s) }
    ensures in_block { IfOk result (λ s. IsTrue (running_spec.begins s.branch || spot.may_go_on)) }
{
    let part = part_of(spot.running);
    must(
        are_of_kind(branch, asked, amount),
        part,
        spot.item,
        ModelKind::Statement,
    )?;
    must(
        stands_in_block(branch, spot.may_go_on),
        part,
        spot.item,
        ModelKind::NoIf,
    )?;
    acting(alloc, areas, spot, branch, asked, verb, amount)
}

/// A statement: an object of two members, in either order.
#[tactic(auto, unfolding(crate::specs::Statements::statement_of))]
fn statement_of(
    alloc: Global,
    areas: &[Area],
    spot: Spot,
    value: &Json,
) -> Result<Statement, ModelFault>
    requires { length areas.now ≤ 50 }
    ensures statement { Answers (spec.statement_of spot.running areas.now spot.item spot.may_go_on value.now) result }
    ensures sound { IfOk result (λ s. IsStatement (length areas.now) s) }
    ensures in_block { IfOk result (λ s. IsTrue (running_spec.begins s.branch || spot.may_go_on)) }
{
    let Some([a, b]) = object_of(value) else {
        return Err(fault(part_of(spot.running), spot.item, ModelKind::Statement));
    };
    if let (Some(branch), Some(verb)) = (branch_of(a.key.as_str()), verb_of(b.key.as_str())) {
        return written(alloc, areas, spot, branch, &a.value, verb, &b.value);
    }
    if let (Some(branch), Some(verb)) = (branch_of(b.key.as_str()), verb_of(a.key.as_str())) {
        return written(alloc, areas, spot, branch, &b.value, verb, &a.value);
    }
    Err(fault(part_of(spot.running), spot.item, ModelKind::Statement))
}

/// Statements, in order.
#[tactic(auto, using(crate::proofs::Blocks::none_sound, crate::proofs::Blocks::one_sound, crate::proofs::Blocks::are_sound))]
fn statements_from(
    alloc: Global,
    running: Running,
    areas: &[Area],
    values: &[Json],
) -> Result<Statements, ModelFault>
    requires areas { length areas.now ≤ 50 }
    requires few { length values.now ≤ 100 }
    ensures statements { Answers (spec.statements_from running areas.now 1 false [] values.now) result }
    ensures sound { IfOk result (λ ss. AreStatements (length areas.now) ss) }
{
    let mut found = Statements::new(alloc);
    let mut item = 1;
    let mut may_go_on = false;
    for value in values {
        let spot = Spot {
            running,
            item,
            may_go_on,
        };
        let statement = statement_of(alloc, areas, spot, value)?;
        may_go_on = goes_on(statement.branch);
        found.push(statement)?;
        item += 1;
    }
    Ok(found)
}

/// A list of at most 100 statements.
#[tactic(auto, unfolding(crate::specs::Statements::list_of))]
fn list_of(
    alloc: Global,
    running: Running,
    areas: &[Area],
    list: &Json,
) -> Result<Statements, ModelFault>
    requires { length areas.now ≤ 50 }
    ensures statements { Answers (spec.list_of running areas.now list.now) result }
    ensures sound { IfOk result (λ ss. AreStatements (length areas.now) ss) }
{
    let Some(values) = array_of(list) else {
        return Err(fault(part_of(running), 0, ModelKind::NotList));
    };
    if values.len() > MOST_STATEMENTS {
        return Err(fault(part_of(running), 0, ModelKind::TooMany));
    }
    statements_from(alloc, running, areas, values)
}

/// A list of a model; none where it has no such part.
pub(crate) fn statements_of(
    alloc: Global,
    running: Running,
    areas: &[Area],
    part: Option<&Json>,
) -> Result<Statements, ModelFault>
    requires { length areas.now ≤ 50 }
    ensures statements { Answers (spec.statements_of running areas.now (option_map (λ x. x.now) part.entry)) result }
    ensures sound { IfOk result (λ ss. AreStatements (length areas.now) ss) }
{
    match part {
        Some(list) => list_of(alloc, running, areas, list),
        None => Ok(Statements::new(alloc)),
    }
}
