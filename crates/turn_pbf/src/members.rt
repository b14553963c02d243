//! The members of a relation.
ghost use Rattle.std.specs.Prelude.{◌≡◌, ◌+ℤ◌, pos, IfOk};
ghost use Rattle.pbf_wire.specs.Deltas.{zigzag_of};
ghost use Rattle.turn_pbf.specs.PbfRelations.{kind_by, fitting, members_from};

use gh_base::{NoMemory, Text};
use pbf_reader::{text_of_index, zigzag};
use std::alloc::Global;
use turn_texts::{Member, MemberKind, MemberList};

/// An int32 is the low 32 bits.
const END_OF_INT32: u64 = 1 << 32;

fn kind_by(number: u64) -> MemberKind
    ensures { result ≡ kind_by number }
{
    match number % END_OF_INT32 {
        0 => MemberKind::Node,
        1 => MemberKind::Way,
        _ => MemberKind::Relation,
    }
}

/// A number and the next difference, where their sum has 64 bits.
#[tactic(auto, using(crate::proofs::Sums::sum_fits))]
fn next_id(last: i64, delta: u64) -> Option<i64>
    ensures { result ≡ fitting (last +ℤ zigzag_of delta) }
{
    last.checked_add(zigzag(delta))
}

/// The members of these roles, ids and kinds, or None where a role isn't in the table or a sum is too great.
#[tactic(auto, using(crate::proofs::Sums::some_more, crate::proofs::Sums::some_nil))]
pub(crate) fn members_found(
    alloc: Global,
    texts: &[Text],
    roles: &[u64],
    ids: &[u64],
    kinds: &[u64],
) -> Result<Option<MemberList>, NoMemory>
    ensures { IfOk result (λ m. m ≡ members_from texts.now (pos 0) roles.now ids.now kinds.now) }
{
    let mut all = MemberList::new(alloc);
    let mut last = 0i64;
    let mut roles_left = roles;
    let mut ids_left = ids;
    let mut kinds_left = kinds;
    'members: loop {
        let Some((role, more_roles)) = roles_left.split_first() else {
            return Ok(Some(all));
        };
        let Some((delta, more_ids)) = ids_left.split_first() else {
            return Ok(Some(all));
        };
        let Some((kind, more_kinds)) = kinds_left.split_first() else {
            return Ok(Some(all));
        };
        let Some(role) = text_of_index(alloc, texts, *role)? else {
            return Ok(None);
        };
        let Some(id) = next_id(last, *delta) else {
            return Ok(None);
        };
        let kind = kind_by(*kind);
        all.push(Member { kind, id, role })?;
        last = id;
        roles_left = more_roles;
        ids_left = more_ids;
        kinds_left = more_kinds;
    }
}
