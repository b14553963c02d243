//! Members of a relation, as they are written.
ghost use Rattle.std.specs.Prelude.{◌≡◌, ℕ, List};
ghost use Rattle.std.specs.Option.{option_map};
ghost use Rattle.gh_base.specs.Parts.{parts_of};
ghost use Rattle.gh_base.specs.Readings.{Gives};
ghost use Rattle.turn_texts.specs.PlainRelations.{sides_of, id_and_role, role_at, member_at, members_of, members_at};

use crate::relation::{Member, MemberKind, MemberList};
use gh_base::{PlainKind, Text, first_part, read_id};
use plain_map::{WordFault, after_letter, unescape};
use std::alloc::Global;

/// A role, with its escapes read.
#[tactic(auto, unfolding(crate::specs::PlainRelations::role_at))]
fn role(alloc: Global, text: &str) -> Result<Text, WordFault>
    ensures { Gives result (role_at text.now) }
{
    if text.as_bytes().contains(&b'=') {
        return Err(WordFault::Is(PlainKind::Tag));
    }
    unescape(alloc, text)
}

/// The two sides of the first `@`.
#[tactic(auto, using(crate::proofs::Sides::sides_more))]
fn sides(text: &str) -> Option<(&str, &str)>
    ensures { option_map (λ c. (c.0.now, c.1.now)) result ≡ sides_of (parts_of 64 text.now) }
{
    let (first, after) = first_part(text, '@');
    match after {
        None => None,
        Some(after) => Some((first, after)),
    }
}

/// An id, `@` and a role.
#[tactic(auto, unfolding(crate::specs::PlainRelations::id_and_role))]
fn with_role(alloc: Global, kind: MemberKind, text: &str) -> Result<Member, WordFault>
    ensures { Gives result (id_and_role kind text.now) }
{
    let Some((digits, after)) = sides(text) else {
        return Err(WordFault::Is(PlainKind::Field));
    };
    let Some(id) = read_id(digits.as_bytes()) else {
        return Err(WordFault::Is(PlainKind::Number));
    };
    let role = role(alloc, after)?;
    Ok(Member { kind, id, role })
}

fn member(alloc: Global, text: &str) -> Result<Member, WordFault>
    ensures { Gives result (member_at text.now) }
{
    if let Some(rest) = after_letter(text, 'n') {
        return with_role(alloc, MemberKind::Node, rest);
    }
    if let Some(rest) = after_letter(text, 'w') {
        return with_role(alloc, MemberKind::Way, rest);
    }
    if let Some(rest) = after_letter(text, 'r') {
        return with_role(alloc, MemberKind::Relation, rest);
    }
    Err(WordFault::Is(PlainKind::Field))
}

#[tactic(auto, using(plain_map::proofs::Loops::front_more, plain_map::proofs::Loops::front_nil))]
fn each_member(alloc: Global, text: &str) -> Result<MemberList, WordFault>
    ensures { Gives result (members_of (parts_of 44 text.now)) }
{
    let mut all = MemberList::new(alloc);
    let mut left = Some(text);
    'parts: while let Some(text) = left {
        let (part, after) = first_part(text, ',');
        all.push(member(alloc, part)?)?;
        left = after;
    }
    Ok(all)
}

/// The members behind an M.
#[tactic(auto, unfolding(crate::specs::PlainRelations::members_at))]
pub(crate) fn members(alloc: Global, text: &str) -> Result<MemberList, WordFault>
    ensures { Gives result (members_at text.now) }
{
    if text.is_empty() {
        return Ok(MemberList::new(alloc));
    }
    each_member(alloc, text)
}
