//! The labels of a node.
ghost use Rattle.std.specs.Prelude.{◌≡◌, ◌^◌, ◌<◌, ℕ, length, IfOk};
ghost use Rattle.gh_base.specs.Networks.{Network};
ghost use Rattle.walk_rules.specs.Walks.{AreTurned};
ghost use Rattle.walk_rules.specs.Distances.{IsReach, AreLabelsFrom, AreLabelsTo, label_at};
ghost use Rattle.alt_search.specs.Exploring.{weight_in, nodes_in};
ghost use Rattle.label_spread.specs.Cutting.{cut};

use alt_search::{Explored, explore_all};
use gh_base::{FreshView, LabelList, NoMemory, NodeId, RoadView};
use std::alloc::Global;

/// The greatest label in ms. Each label is below it or stands for all that isn't.
const LIMIT_MS: u64 = 1 << 62;

/// For each node the least weight of a walk from `node` there in ms, cut at 2^62; None where no walk leads there.
pub fn labels_from<V: FreshView + Drop>(
    alloc: Global,
    view: &V,
    node: NodeId,
) -> Result<LabelList, NoMemory>
    requires { node.0 < (V.network view.now).nodes }
    ensures count { IfOk result (λ labels. length labels ≡ (V.network view.now).nodes) }
    ensures each { IfOk result (λ labels. AreLabelsFrom (V.network view.now) (2 ^ 62) node.0 (label_at labels)) }
{
    let mut again = view.again();
    let explored = explore_all(alloc, &mut again, node)?;
    cut_weights(alloc, &explored, view.node_count())
}

/// For each node the least weight of a walk from there to `node` in ms, cut at 2^62; None where no walk
/// leads to it. `back` is the roads turned round.
pub fn labels_to<W: FreshView + Drop>(
    alloc: Global,
    back: &W,
    node: NodeId,
) -> Result<LabelList, NoMemory>
    requires { node.0 < (W.network back.now).nodes }
    ensures count { IfOk result (λ labels. length labels ≡ (W.network back.now).nodes) }
    ensures each { IfOk result (λ labels. (out : Network) → AreTurned out (W.network back.now) → AreLabelsTo out (2 ^ 62) node.0 (label_at labels)) }
{
    labels_from(alloc, back, node)
}

/// The weight that is told of each node, cut at 2^62.
fn cut_weights(alloc: Global, explored: &Explored, count: u32) -> Result<LabelList, NoMemory>
    requires { count ≡ nodes_in explored.now }
    ensures count { IfOk result (λ labels. length labels ≡ count) }
    ensures each { (network : Network) (from : ℕ) → ((node : ℕ) → IsReach network from node (weight_in explored.now node)) →
        IfOk result (λ labels. AreLabelsFrom network (2 ^ 62) from (label_at labels)) }
{
    let mut labels = LabelList::new(alloc);
    for node in 0..count {
        labels.push(cut_weight(explored.weight(NodeId(node))))?;
    }
    Ok(labels)
}

fn cut_weight(weight: Option<u128>) -> Option<u64>
    ensures { result ≡ cut (2 ^ 62) weight }
{
    let weight = weight?;
    Some(weight.min(u128::from(LIMIT_MS)) as u64)
}
