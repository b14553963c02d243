//! Relations, and which of them are turn restrictions.
ghost use Rattle.std.specs.Prelude.{◌≡◌, find, count_by};
ghost use Rattle.std.specs.Option.{option_map};
ghost use Rattle.tag_rules.specs.Tags.{tag_of};
ghost use Rattle.turn_texts.specs.Restricting.{is_of_kind, has_role, id_of_role, only_by, turn_of};

use gh_base::{Sequence, TagList, Text};
use turn_graph::Turn;

/// What a member of a relation is.
#[derive(Clone, Copy, Debug, PartialEq, Eq)]
pub enum MemberKind {
    Node,
    Way,
    Relation,
}

/// A member of a relation: what it is, its id, and its role.
#[derive(Debug, Drop)]
pub struct Member {
    pub kind: MemberKind,
    pub id: i64,
    pub role: Text,
}

/// Members, in order.
pub type MemberList = Sequence<Member>;

/// A relation: its tags, and its members in order.
#[derive(Debug, Drop)]
pub struct Relation {
    pub tags: TagList,
    pub members: MemberList,
}

/// The value of a key: that of its first tag.
fn tag_value<'a>(tags: &'a TagList, key: &str) -> Option<&'a str>
    ensures { option_map (λ t. t.now) result ≡ tag_of key.now tags.now }
{
    let tag = tags.as_slice().iter().find(|tag| tag.key.as_str() == key)?;
    Some(tag.value.as_str())
}

/// Whether a restriction is `only_`, or else `no_`; None where it is neither.
fn is_only(value: &str) -> Option<bool>
    ensures { result ≡ only_by value.now }
{
    match value.as_bytes() {
        [b'n', b'o', b'_', ..] => Some(false),
        [b'o', b'n', b'l', b'y', b'_', ..] => Some(true),
        _ => None,
    }
}

fn is_of_kind(kind: MemberKind, member: &Member) -> bool
    ensures { result ≡ is_of_kind kind member.now.kind }
{
    match (kind, member.kind) {
        (MemberKind::Node, MemberKind::Node) => true,
        (MemberKind::Way, MemberKind::Way) => true,
        (MemberKind::Relation, MemberKind::Relation) => true,
        _ => false,
    }
}

fn has_role(role: &str, member: &Member) -> bool
    ensures { result ≡ has_role role.now member.now }
{
    member.role.as_str() == role
}

/// The first member of a role.
fn first_of_role<'a>(role: &str, members: &'a [Member]) -> Option<&'a Member>
    ensures { option_map (λ m. m.now) result ≡ find (has_role role.now) members.now }
{
    members.iter().find(|member| has_role(role, member))
}

/// How many members have a role.
fn count_of_role(role: &str, members: &[Member]) -> usize
    ensures { result ≡ count_by (has_role role.now) members.now }
{
    members
        .iter()
        .filter(|member| has_role(role, member))
        .count()
}

/// The id of the one member of a role, where it is of this kind.
fn id_of_role(role: &str, kind: MemberKind, members: &[Member]) -> Option<i64>
    ensures { result ≡ id_of_role role.now kind members.now }
{
    if count_of_role(role, members) != 1 {
        return None;
    }
    let Some(member) = first_of_role(role, members) else {
        return None;
    };
    if is_of_kind(kind, member) {
        Some(member.id)
    } else {
        None
    }
}

/// The restriction that a relation is, or None.
pub fn turn_of(relation: &Relation) -> Option<Turn>
    ensures { result ≡ turn_of relation.now }
{
    if tag_value(&relation.tags, "type") != Some("restriction") {
        return None;
    }
    let only = is_only(tag_value(&relation.tags, "restriction")?)?;
    let members = relation.members.as_slice();
    Some(Turn {
        from: id_of_role("from", MemberKind::Way, members)?,
        via: id_of_role("via", MemberKind::Node, members)?,
        to: id_of_role("to", MemberKind::Way, members)?,
        only,
    })
}
