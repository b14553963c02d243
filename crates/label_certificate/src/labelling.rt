//! Labels that are evidence for a least walk.
ghost use Rattle.std.specs.Prelude.{◌≡◌, ◌+◌, ◌^◌, ◌<◌, ◌≤◌, ℕ, Some, length, IfOk};
ghost use Rattle.walk_rules.specs.Walks.{IsLeastWeight};
ghost use Rattle.walk_rules.specs.Potentials.{IsFeasible};
ghost use Rattle.walk_rules.specs.Distances.{label_at};
ghost use Rattle.walk_rules.specs.Evidence.{IsEvidence, IsEvidenceLabel, label_by};
ghost use Rattle.alt_search.specs.Exploring.{weight_in, nodes_in};

use alt_search::{Explored, explore};
use gh_base::{LabelList, NoMemory, NodeId, Potential, RoadView};
use std::alloc::Global;

/// The labels in ms that show that no walk from `start` to `target` weighs less than `weight` ms, one
/// for each node of the view. What is said of them holds where that is the least weight and the
/// potential is feasible.
pub fn labels_of<V: RoadView, P: Potential>(
    alloc: Global,
    view: &mut V,
    potential: &P,
    start: NodeId,
    target: NodeId,
    weight: u64,
) -> Result<LabelList, NoMemory>
    requires start { start.0 < (V.network view.old).nodes }
    requires target { target.0 < (V.network view.old).nodes }
    requires count { V.starts view.old ≤ 2 ^ 63 }

    // Each label is the lesser of the node's distance and of what the weight is over its bound.
    ensures labels { IsFeasible (V.network view.old) (P.bound potential.now) target.0 →
        IsLeastWeight (V.network view.old) start.0 target.0 weight →
        IfOk result (λ labels. (node : ℕ) → node < (V.network view.old).nodes →
        IsEvidenceLabel (V.network view.old) (P.bound potential.now) start.0 weight node (label_at labels node)) }

    // So they are evidence, which `check_walk` accepts.
    ensures evidence { IsFeasible (V.network view.old) (P.bound potential.now) target.0 →
        IsLeastWeight (V.network view.old) start.0 target.0 weight →
        IfOk result (λ labels. IsEvidence (V.network view.old) (label_at labels) start.0 target.0 weight) }

    ensures nodes { IfOk result (λ labels. length labels ≡ (V.network view.old).nodes) }
    // The view is started no more often than there are nodes.
    ensures starts { V.starts view.new ≤ V.starts view.old + (V.network view.old).nodes }
    ensures network { V.network view.new ≡ V.network view.old }
{
    let explored = explore(alloc, view, potential, start, target)?;
    labels_by(alloc, &explored, view.node_count(), potential, weight)
}

/// The labels of so many nodes, by what an exploration tells.
fn labels_by<P: Potential>(
    alloc: Global,
    explored: &Explored,
    nodes: u32,
    potential: &P,
    weight: u64,
) -> Result<LabelList, NoMemory>
    requires { nodes ≡ nodes_in explored.now }
    ensures nodes { IfOk result (λ labels. length labels ≡ nodes) }
    ensures each { IfOk result (λ labels. (node : ℕ) → node < nodes →
        label_at labels node ≡ Some (label_by (P.bound potential.now node) (weight_in explored.now node) weight)) }
{
    let mut labels = LabelList::new(alloc);
    for node in 0..nodes {
        labels.push(Some(label_for(explored, potential, NodeId(node), weight)))?;
    }
    Ok(labels)
}

/// The label of a node, by what an exploration tells.
fn label_for<P: Potential>(explored: &Explored, potential: &P, node: NodeId, weight: u64) -> u64
    requires { node.0 < nodes_in explored.now }
    ensures { result ≡ label_by (P.bound potential.now node.0) (weight_in explored.now node.0) weight }
{
    let Some(bound) = potential.at(node) else {
        return 0;
    };
    let limit = weight.saturating_sub(bound);
    match explored.weight(node) {
        Some(told) if told < u128::from(limit) => told as u64,
        _ => limit,
    }
}
