//! Conditions, read from the left.
ghost use Rattle.std.specs.Prelude.{◌≡◌, ◌<◌, ◌^◌, ◌==◌, ℕ, map, length, codes, IsTrue, IfOk, IfSome};
ghost use Rattle.std.specs.List.{count_by};
ghost use Rattle.exact_json.specs.Parsing.{Reads};
ghost use Rattle.model_eval.specs.Conditions.{names_areas_of, all_true};
ghost use Rattle.model_texts.specs.Conditions.{Answers};
ghost use Rattle.model_texts.specs.Conditions as spec;
ghost use Rattle.model_texts.specs.Words as words_spec;

use crate::amounts::constant;
use crate::fault::{BadText, ConditionFault};
use crate::tokens::{TextStop, advance, begins_word, byte_at, eat, expect, finish, peek, unfit};
use crate::words;
use exact_json::{Cursor, Stop};
use gh_base::ModelKind;
use model_eval::{Area, NumberName, Test, TestList, WordName};
use sqlite_items::Boxed;
use std::alloc::{AllocError, Global};

/// The most bytes of a condition.
const MOST_BYTES: usize = 1000;

/// The most opening parentheses in a condition's text.
const MOST_PARENTHESES: usize = 32;

/// One more than the most parentheses that are open at once.
const MOST_DEPTH: u32 = 33;

/// What is wrong with a token where a name or a word could stand.
fn kind_of(s: &[u8]) -> ModelKind
    ensures { result ≡ spec.kind_of s.now }
{
    match s {
        [b, ..] if begins_word(*b) => ModelKind::Name,
        _ => ModelKind::Condition,
    }
}

/// Behind a number: an operator and a decimal.
#[tactic(auto, unfolding(crate::specs::Conditions::comparison))]
fn comparison(text: &mut Cursor<'_>, name: NumberName) -> Result<Test, TextStop>
    ensures read { Reads (spec.comparison name text.old) result text.new }
    ensures named { (count : ℕ) → IfOk result (λ t. IsTrue (names_areas_of count t)) }
{
    let Some(op) = words::operator(peek(text)) else {
        return Err(unfit(text, ModelKind::Condition));
    };
    advance(text);
    let Some(value) = constant(peek(text)) else {
        return Err(unfit(text, ModelKind::Condition));
    };
    advance(text);
    Ok(Test::Compare { name, op, value })
}

/// Behind an enum: an operator and one of its words.
#[tactic(auto, unfolding(crate::specs::Conditions::is_word))]
fn is_word(text: &mut Cursor<'_>, name: WordName) -> Result<Test, TextStop>
    ensures read { Reads (spec.is_word name text.old) result text.new }
    ensures named { (count : ℕ) → IfOk result (λ t. IsTrue (names_areas_of count t)) }
{
    let Some(equal) = words::equal(peek(text)) else {
        return Err(unfit(text, ModelKind::Condition));
    };
    advance(text);
    let written = peek(text);
    let Some(word) = words::word(name, written) else {
        return Err(unfit(text, kind_of(written)));
    };
    advance(text);
    Ok(Test::Word { name, equal, word })
}

fn flag_or_area(areas: &[Area], s: &[u8]) -> Option<Test>
    requires { length areas.now < 2 ^ 32 }
    ensures value { result ≡ spec.flag_or (words_spec.flag_of s.now) (words_spec.area_of areas.now s.now) }
    ensures named { IfSome result (λ t. IsTrue (names_areas_of (length areas.now) t)) }
{
    if let Some(name) = words::flag(s) {
        return Some(Test::Flag(name));
    }
    match words::area(areas, s) {
        Some(n) => Some(Test::InArea(n)),
        None => None,
    }
}

/// A word that is a condition by itself.
fn alone(areas: &[Area], s: &[u8]) -> Option<Test>
    requires { length areas.now < 2 ^ 32 }
    ensures value { result ≡ spec.alone areas.now s.now }
    ensures named { IfSome result (λ t. IsTrue (names_areas_of (length areas.now) t)) }
{
    if s == b"true".as_slice() {
        return Some(Test::True);
    }
    if s == b"false".as_slice() {
        return Some(Test::False);
    }
    flag_or_area(areas, s)
}

/// A condition without parentheses.
#[tactic(auto, unfolding(crate::specs::Conditions::plain))]
fn plain(text: &mut Cursor<'_>, areas: &[Area]) -> Result<Test, TextStop>
    requires { length areas.now < 2 ^ 32 }
    ensures read { Reads (spec.plain areas.now text.old) result text.new }
    ensures named { IfOk result (λ t. IsTrue (names_areas_of (length areas.now) t)) }
{
    let s = peek(text);
    if let Some(test) = alone(areas, s) {
        advance(text);
        return Ok(test);
    }
    if let Some(name) = words::enum_name(s) {
        advance(text);
        return is_word(text, name);
    }
    if let Some(name) = words::number_name(s) {
        advance(text);
        return comparison(text, name);
    }
    Err(unfit(text, kind_of(s)))
}

/// How many exclamation marks come next.
#[tactic(auto, using(exact_json::proofs::Turns::one_more, exact_json::proofs::Turns::no_more), unfolding(crate::specs::Conditions::bangs))]
fn bangs(text: &mut Cursor<'_>) -> Result<usize, TextStop>
    ensures { Reads (spec.bangs text.old) result text.new }
{
    let mut n = 0;
    for _turn in 0..text.left() {
        if !eat(text, b"!".as_slice()) {
            return Ok(n);
        }
        n += 1;
    }
    Err(text.refuse(ModelKind::Condition))
}

#[tactic(auto, using(crate::proofs::Turns::one_not))]
fn nots(alloc: Global, n: usize, x: Test) -> Result<Test, AllocError>
    ensures { IfOk result (λ t. t ≡ spec.nots n x) }
{
    let mut x = x;
    for _turn in 0..n {
        x = Test::Not(Boxed::new(alloc, x)?);
    }
    Ok(x)
}

fn ands(mut found: TestList) -> Test
    ensures value { result ≡ spec.ands found }
    ensures named { (count : ℕ) → IsTrue (all_true (map (names_areas_of count) found)) → IsTrue (names_areas_of count result) }
{
    if found.len() == 1 {
        return found.remove(0);
    }
    Test::And(found)
}

fn ors(mut found: TestList) -> Test
    ensures value { result ≡ spec.ors found }
    ensures named { (count : ℕ) → IsTrue (all_true (map (names_areas_of count) found)) → IsTrue (names_areas_of count result) }
{
    if found.len() == 1 {
        return found.remove(0);
    }
    Test::Or(found)
}

#[cycle(alternative)]
#[tactic(auto, unfolding(crate::specs::Conditions::atom))]
fn atom(alloc: Global, text: &mut Cursor<'_>, areas: &[Area], depth: u32) -> Result<Test, TextStop>
    requires { length areas.now < 2 ^ 32 }
    ensures read { Reads (spec.atom areas.now (spec.test_at areas.now depth) text.old) result text.new }
    ensures named { IfOk result (λ t. IsTrue (names_areas_of (length areas.now) t)) }
{
    if !eat(text, b"(".as_slice()) {
        return plain(text, areas);
    }
    let x = alternative(alloc, text, areas, depth)?;
    expect(text, ModelKind::Condition, b")".as_slice())?;
    Ok(x)
}

#[cycle(alternative)]
#[tactic(auto, unfolding(crate::specs::Conditions::negation))]
fn negation(
    alloc: Global,
    text: &mut Cursor<'_>,
    areas: &[Area],
    depth: u32,
) -> Result<Test, TextStop>
    requires { length areas.now < 2 ^ 32 }
    ensures read { Reads (spec.negation areas.now (spec.test_at areas.now depth) text.old) result text.new }
    ensures named { IfOk result (λ t. IsTrue (names_areas_of (length areas.now) t)) }
{
    let n = bangs(text)?;
    let x = atom(alloc, text, areas, depth)?;
    Ok(nots(alloc, n, x)?)
}

#[cycle(alternative)]
#[tactic(auto, using(exact_json::proofs::Turns::one_more, exact_json::proofs::Turns::no_more, crate::proofs::Named::one_named), unfolding(crate::specs::Conditions::parts))]
fn negations(
    alloc: Global,
    text: &mut Cursor<'_>,
    areas: &[Area],
    depth: u32,
) -> Result<TestList, TextStop>
    requires { length areas.now < 2 ^ 32 }
    ensures read { Reads (spec.parts (spec.negation areas.now (spec.test_at areas.now depth)) (codes "&&") text.old) result text.new }
    ensures named { IfOk result (λ xs. IsTrue (all_true (map (names_areas_of (length areas.now)) xs))) }
{
    let mut found = TestList::new(alloc);
    for _turn in 0..text.left() {
        found.push(negation(alloc, text, areas, depth)?)?;
        if !eat(text, b"&&".as_slice()) {
            return Ok(found);
        }
    }
    Err(text.refuse(ModelKind::Condition))
}

#[cycle(alternative)]
#[tactic(auto, unfolding(crate::specs::Conditions::conjunction))]
fn conjunction(
    alloc: Global,
    text: &mut Cursor<'_>,
    areas: &[Area],
    depth: u32,
) -> Result<Test, TextStop>
    requires { length areas.now < 2 ^ 32 }
    ensures read { Reads (spec.conjunction areas.now (spec.test_at areas.now depth) text.old) result text.new }
    ensures named { IfOk result (λ t. IsTrue (names_areas_of (length areas.now) t)) }
{
    Ok(ands(negations(alloc, text, areas, depth)?))
}

#[cycle(alternative)]
#[tactic(auto, using(exact_json::proofs::Turns::one_more, exact_json::proofs::Turns::no_more, crate::proofs::Named::one_named), unfolding(crate::specs::Conditions::parts))]
fn conjunctions(
    alloc: Global,
    text: &mut Cursor<'_>,
    areas: &[Area],
    depth: u32,
) -> Result<TestList, TextStop>
    requires { length areas.now < 2 ^ 32 }
    ensures read { Reads (spec.parts (spec.conjunction areas.now (spec.test_at areas.now depth)) (codes "||") text.old) result text.new }
    ensures named { IfOk result (λ xs. IsTrue (all_true (map (names_areas_of (length areas.now)) xs))) }
{
    let mut found = TestList::new(alloc);
    for _turn in 0..text.left() {
        found.push(conjunction(alloc, text, areas, depth)?)?;
        if !eat(text, b"||".as_slice()) {
            return Ok(found);
        }
    }
    Err(text.refuse(ModelKind::Condition))
}

#[cycle(alternative)]
#[tactic(auto, using(crate::proofs::Turns::deeper, crate::proofs::Turns::deepest), unfolding(crate::specs::Conditions::alternative))]
fn alternative(
    alloc: Global,
    text: &mut Cursor<'_>,
    areas: &[Area],
    depth: u32,
) -> Result<Test, TextStop>
    requires { length areas.now < 2 ^ 32 }
    ensures read { Reads (spec.test_at areas.now depth text.old) result text.new }
    ensures named { IfOk result (λ t. IsTrue (names_areas_of (length areas.now) t)) }
{
    if depth == 0 {
        return Err(unfit(text, ModelKind::Condition));
    }
    Ok(ors(conjunctions(alloc, text, areas, depth - 1)?))
}

/// A condition, and the end.
fn whole(alloc: Global, text: &mut Cursor<'_>, areas: &[Area]) -> Result<Test, TextStop>
    requires { length areas.now < 2 ^ 32 }
    ensures read { Reads (spec.whole areas.now text.old) result text.new }
    ensures named { IfOk result (λ t. IsTrue (names_areas_of (length areas.now) t)) }
{
    let x = alternative(alloc, text, areas, MOST_DEPTH)?;
    finish(text, ModelKind::Condition)?;
    Ok(x)
}

fn parentheses(text: &[u8]) -> usize
    ensures { result ≡ count_by (λ b. b == 40) text.now }
{
    text.iter().filter(|b| **b == b'(').count()
}

/// The condition that a text is over these areas, or its first fault when it is read from the left. `TooMany`
/// stands at byte 0 of a text of more than 1000 bytes or 32 opening parentheses, which isn't read. `NoMemory`
/// says that there was none.
#[tactic(auto, unfolding(crate::specs::Conditions::condition_of))]
pub fn read_condition(alloc: Global, areas: &[Area], text: &[u8]) -> Result<Test, ConditionFault>
    requires { length areas.now < 2 ^ 32 }
    ensures condition { Answers (spec.condition_of areas.now text.now) result }
    ensures named { IfOk result (λ t. IsTrue (names_areas_of (length areas.now) t)) }
{
    if text.len() > MOST_BYTES || parentheses(text) > MOST_PARENTHESES {
        return Err(ConditionFault::At(BadText {
            byte: 0,
            kind: ModelKind::TooMany,
        }));
    }
    let mut left = Cursor::new(text);
    match whole(alloc, &mut left, areas) {
        Ok(found) => Ok(found),
        Err(Stop::NoMemory) => Err(ConditionFault::NoMemory),
        Err(Stop::At(left, kind)) => Err(ConditionFault::At(BadText {
            byte: byte_at(text, left),
            kind,
        })),
    }
}
