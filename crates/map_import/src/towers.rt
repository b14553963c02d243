//! Which nodes are towers.
ghost use Rattle.std.specs.Ordering.{int_eq};
ghost use Rattle.std.specs.Prelude.{◌≡◌, ◌≤◌, ◌+◌, ◌||◌, ℕ, ℤ, Some, length, count_by, unwrap_or, cond, true, false, OnOk, IfOk};
ghost use Rattle.std.specs.HashMap.{get};
ghost use Rattle.map_import.specs.Roads.{first_of, last_of, is_tower};
ghost use Rattle.map_import.specs.Building.{mark};

use crate::used::Used;
use gh_base::NoMemory;
use std::alloc::Global;
use std::collections::HashMap;

/// Counts nodes: one that stands for the first time is marked false, and one that stood before true.
fn count_refs(marks: &mut HashMap<i64, bool>, refs: &[i64]) -> Result<(), NoMemory>
    ensures { OnOk result ((n : ℤ → ℕ) → ((id : ℤ) → get int_eq marks.old id ≡ mark (n id))
        → (id : ℤ) → get int_eq marks.new id ≡ mark (n id + count_by (int_eq id) refs.now)) }
{
    for id in refs {
        let stood = marks.contains_key(id);
        marks.insert(*id, stood)?;
    }
    Ok(())
}

/// Marks the ends of a way.
fn mark_ends(marks: &mut HashMap<i64, bool>, refs: &[i64]) -> Result<(), NoMemory>
    requires { 2 ≤ length refs.now }
    ensures { OnOk result ((id : ℤ) → get int_eq marks.new id
        ≡ cond (int_eq id (first_of refs.now) || int_eq id (last_of refs.now)) (Some true) (get int_eq marks.old id)) }
{
    marks.insert(refs[0], true)?;
    marks.insert(refs[refs.len() - 1], true)?;
    Ok(())
}

/// A mark for each node of the used ways: true where it is a tower.
pub(crate) fn towers_of(alloc: Global, ways: &[Used]) -> Result<HashMap<i64, bool>, NoMemory>
    ensures { IfOk result (λ marks. (id : ℤ) → unwrap_or (get int_eq marks id) false ≡ is_tower ways.now id) }
{
    let mut marks = HashMap::new(alloc);
    'counts: for way in ways {
        count_refs(&mut marks, &way.refs)?;
    }
    'ends: for way in ways {
        mark_ends(&mut marks, &way.refs)?;
    }
    Ok(marks)
}

/// Whether a node is marked as a tower.
pub(crate) fn is_marked(marks: &HashMap<i64, bool>, id: i64) -> bool
    ensures { result ≡ unwrap_or (get int_eq marks.now id) false }
{
    match marks.get(&id) {
        Some(marked) => *marked,
        None => false,
    }
}
