//! The texts of actions: a decimal, or a stored number with a factor.
ghost use Rattle.std.specs.Prelude.{◌≡◌, ◌≤◌, length, IfOk};
ghost use Rattle.model_eval.specs.Models.{IsBounded};
ghost use Rattle.model_texts.specs.Tokens as tokens;
ghost use Rattle.model_texts.specs.Actions.{Gives, AnswersAction};
ghost use Rattle.model_texts.specs.Actions as spec;

use crate::amounts::{Verb, decimal, factor_in, most_of, places_of, within};
use crate::fault::BadText;
use crate::tokens::{advance, ahead, begins_word, byte_at, peek, sees};
use crate::words::number_name;
use exact_json::Cursor;
use gh_base::ModelKind;
use model_eval::{Action, NumberName, Running};

/// One, in millionths.
const ONE: u32 = 1_000_000;

/// Why an expression is no longer read: what is wrong where this many bytes are left.
#[derive(Clone, Copy)]
pub(crate) struct Refusal {
    left: usize,
    kind: ModelKind,
}

/// A stored number times a factor in millionths.
#[derive(Clone, Copy)]
pub(crate) struct Multiple {
    name: NumberName,
    by: u32,
}

fn unfit(text: &Cursor<'_>, kind: ModelKind) -> Refusal
    ensures left { result.left ≡ tokens.ahead text.now }
    ensures kind { result.kind ≡ kind }
{
    Refusal {
        left: ahead(text),
        kind,
    }
}

/// What is wrong with a token where a name could stand.
fn kind_of(s: &[u8]) -> ModelKind
    ensures { result ≡ spec.kind_of s.now }
{
    match s {
        [b, ..] if begins_word(*b) => ModelKind::Name,
        _ => ModelKind::Number,
    }
}

#[tactic(auto, unfolding(crate::specs::Actions::name))]
fn name(text: &mut Cursor<'_>) -> Result<NumberName, Refusal>
    ensures { Gives (spec.name text.old) result text.new }
{
    let s = peek(text);
    let Some(name) = number_name(s) else {
        return Err(unfit(text, kind_of(s)));
    };
    advance(text);
    Ok(name)
}

#[tactic(auto, unfolding(crate::specs::Actions::factor))]
fn factor(text: &mut Cursor<'_>) -> Result<u32, Refusal>
    ensures value { Gives (spec.factor text.old) result text.new }
    ensures small { IfOk result (λ n. n ≤ 10000000) }
{
    let Some(by) = factor_in(peek(text)) else {
        return Err(unfit(text, ModelKind::Number));
    };
    advance(text);
    Ok(by)
}

#[tactic(auto, unfolding(crate::specs::Actions::star, crate::specs::Tokens::expect))]
fn star(text: &mut Cursor<'_>) -> Result<(), Refusal>
    ensures { Gives (spec.star text.old) result text.new }
{
    if !sees(text, b"*".as_slice()) {
        return Err(unfit(text, ModelKind::Number));
    }
    advance(text);
    Ok(())
}

/// The factor behind a name; 1 where none is written.
#[tactic(auto, unfolding(crate::specs::Actions::behind_name))]
fn behind_name(text: &mut Cursor<'_>) -> Result<u32, Refusal>
    ensures value { Gives (spec.behind_name text.old) result text.new }
    ensures small { IfOk result (λ n. n ≤ 10000000) }
{
    if ahead(text) == 0 {
        return Ok(ONE);
    }
    star(text)?;
    factor(text)
}

/// Refuses what comes next, if something does.
#[tactic(auto, unfolding(crate::specs::Tokens::finish))]
fn finish(text: &Cursor<'_>) -> Result<(), Refusal>
    ensures { Gives (tokens.finish ModelKind.Number text.now) result text.now }
{
    if ahead(text) == 0 {
        return Ok(());
    }
    Err(unfit(text, ModelKind::Number))
}

/// A name, a name with a factor behind it, or a factor with a name behind it.
#[tactic(auto, unfolding(crate::specs::Actions::scaled))]
fn scaled(text: &mut Cursor<'_>) -> Result<Multiple, Refusal>
    ensures value { Gives (spec.scaled text.old) result text.new }
    ensures small { IfOk result (λ x. x.by ≤ 10000000) }
{
    let s = peek(text);
    if let Some(name) = number_name(s) {
        advance(text);
        let by = behind_name(text)?;
        return Ok(Multiple { name, by });
    }
    if let Some(by) = factor_in(s) {
        advance(text);
        star(text)?;
        let name = name(text)?;
        return Ok(Multiple { name, by });
    }
    Err(unfit(text, kind_of(s)))
}

/// An expression, and the end.
#[tactic(auto, unfolding(crate::specs::Actions::expression))]
fn expression(text: &mut Cursor<'_>) -> Result<Multiple, Refusal>
    ensures value { Gives (spec.expression text.old) result text.new }
    ensures small { IfOk result (λ x. x.by ≤ 10000000) }
{
    let x = scaled(text)?;
    finish(text)?;
    Ok(x)
}

fn is_expression(text: &[u8]) -> bool
    ensures { result ≡ spec.is_expression text.now }
{
    text.iter().any(|b| begins_word(*b) || *b == b'*')
}

/// An action by a stored number.
fn scaled_action(verb: Verb, x: Multiple) -> Action
    requires { x.by ≤ 10000000 }
    ensures value { result ≡ spec.scaled_action verb x }
    ensures bounded { IsBounded result }
{
    let Multiple { name, by } = x;
    match verb {
        Verb::Multiply => Action::MultiplyScaled { name, by },
        Verb::Limit => Action::LimitScaled { name, by },
    }
}

/// An action by a constant, in units of its last place.
pub fn plain_action(verb: Verb, amount: u32) -> Action
    ensures value { result ≡ spec.plain_action verb amount }
    ensures bounded { IsBounded result }
{
    match verb {
        Verb::Multiply => Action::Multiply(amount),
        Verb::Limit => Action::Limit(amount),
    }
}

fn by_expression(verb: Verb, text: &[u8]) -> Result<Action, BadText>
    ensures value { AnswersAction (spec.by_expression verb (tokens.by_byte (length text.now) (spec.expression text.now))) result }
    ensures bounded { IfOk result IsBounded }
{
    let mut left = Cursor::new(text);
    match expression(&mut left) {
        Ok(x) => Ok(scaled_action(verb, x)),
        Err(at) => Err(BadText {
            byte: byte_at(text, at.left),
            kind: at.kind,
        }),
    }
}

/// The action that a text is in such a list, or its first fault. A decimal has at most `places_of` places and is
/// from 0 to `most_of`; a text with a letter, `_` or `*` is an expression: a stored number, and maybe a factor of
/// at most 10.
#[tactic(auto, unfolding(crate::specs::Actions::action_of))]
pub fn action_of(verb: Verb, running: Running, text: &[u8]) -> Result<Action, BadText>
    ensures value { AnswersAction (spec.action_of verb running text.now) result }
    ensures bounded { IfOk result IsBounded }
{
    if is_expression(text) {
        return by_expression(verb, text);
    }
    match decimal(text, places_of(verb, running)) {
        Ok(value) => match within(most_of(verb, running), value) {
            Some(amount) => Ok(plain_action(verb, amount)),
            None => Err(BadText {
                byte: 0,
                kind: ModelKind::Number,
            }),
        },
        Err(bad) => Err(BadText {
            byte: bad.byte,
            kind: ModelKind::Number,
        }),
    }
}
