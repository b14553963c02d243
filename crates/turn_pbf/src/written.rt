//! A relation as it is written.
ghost use Rattle.std.specs.Prelude.{◌≡◌, ◌==◌, ◌||◌, not, length, IfOk};
ghost use Rattle.pbf_wire.specs.Runs.{least};
ghost use Rattle.turn_pbf.specs.PbfRelations.{written_of, is_uneven, relation_with};

use crate::found::tags_found;
use crate::members::members_found;
use gh_base::{NoMemory, Sequence, Text};
use pbf_reader::{list_of, read_run, scalar};
use std::alloc::Global;
use turn_texts::Relation;

/// The fields of a relation: its id, the keys and values of its tags, and of its members the roles, the
/// ids as differences, and the kinds. `bad` is the least key where it is no run of fields.
#[derive(Debug, Drop)]
pub struct Written {
    pub id: Option<u64>,
    pub keys: Sequence<u64>,
    pub values: Sequence<u64>,
    pub roles: Sequence<u64>,
    pub ids: Sequence<u64>,
    pub kinds: Sequence<u64>,
    pub bad: Option<u64>,
}

fn lesser(one: Option<u64>, other: Option<u64>) -> Option<u64>
    ensures { result ≡ least one other }
{
    match (one, other) {
        (None, other) => other,
        (one, None) => one,
        (Some(one), Some(other)) => Some(one.min(other)),
    }
}

/// The relation from a place to the end, as it is written.
#[tactic(auto, unfolding(crate::specs::PbfRelations::written_of))]
pub(crate) fn read_written(alloc: Global, bytes: &[u8], at: usize) -> Result<Written, NoMemory>
    ensures { IfOk result (λ w. w ≡ written_of bytes.now at) }
{
    let run = read_run(alloc, bytes, at)?;
    let fields = run.fields.as_slice();
    let id = scalar(1, fields);
    let keys = list_of(alloc, bytes, 2, fields)?;
    let values = list_of(alloc, bytes, 3, fields)?;
    let roles = list_of(alloc, bytes, 8, fields)?;
    let ids = list_of(alloc, bytes, 9, fields)?;
    let kinds = list_of(alloc, bytes, 10, fields)?;
    let bad = lesser(
        lesser(run.bad, lesser(keys.bad, values.bad)),
        lesser(roles.bad, lesser(ids.bad, kinds.bad)),
    );
    Ok(Written {
        id,
        keys: keys.values,
        values: values.values,
        roles: roles.values,
        ids: ids.values,
        kinds: kinds.values,
        bad,
    })
}

/// Whether it isn't a relation: no run of fields, no id, or lists of unequal length.
fn is_uneven(written: &Written) -> bool
    ensures { result ≡ is_uneven written.now }
{
    written.bad.is_some()
        || written.id.is_none()
        || written.keys.len() != written.values.len()
        || written.roles.len() != written.ids.len()
        || written.roles.len() != written.kinds.len()
}

/// The relation that it says, with the strings of its block, or None where it is none.
#[tactic(auto, unfolding(crate::specs::PbfRelations::relation_with))]
pub(crate) fn relation_with(
    alloc: Global,
    texts: &[Text],
    written: &Written,
) -> Result<Option<Relation>, NoMemory>
    ensures { IfOk result (λ relation. relation ≡ relation_with texts.now written.now) }
{
    if is_uneven(written) {
        return Ok(None);
    }
    let keys = written.keys.as_slice();
    let Some(tags) = tags_found(alloc, texts, keys, written.values.as_slice())? else {
        return Ok(None);
    };
    let roles = written.roles.as_slice();
    let ids = written.ids.as_slice();
    let Some(members) = members_found(alloc, texts, roles, ids, written.kinds.as_slice())? else {
        return Ok(None);
    };
    Ok(Some(Relation { tags, members }))
}
