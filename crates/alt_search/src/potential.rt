//! Two plain potentials: one that knows nothing, and one from a list.
ghost use Rattle.walk_rules.specs.Potentials.{flat};

use gh_base::{NodeId, Potential};

/// 0 everywhere. It is feasible for any roads and any target.
#[derive(Clone, Copy, Debug)]
pub struct FlatPotential;

impl Potential for FlatPotential {
    ghost bound = { λ _. flat };

    fn at(&self, _node: NodeId) -> Option<u64> {
        Some(0)
    }
}

/// A number in ms or none for each node, from a list; none past its end.
#[derive(Clone, Copy, Debug)]
pub struct ListPotential<'a> {
    pub bounds: &'a [Option<u64>],
}

impl<'a> Potential for ListPotential<'a> {
    ghost use Rattle.walk_rules.specs.Distances.{label_at};

    ghost bound = { λ list. label_at list.bounds.now };

    fn at(&self, node: NodeId) -> Option<u64> {
        let bounds = self.bounds;
        if (node.0 as usize) < bounds.len() {
            bounds[node.0 as usize]
        } else {
            None
        }
    }
}
