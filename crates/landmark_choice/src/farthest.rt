//! Nodes far from one another.
ghost use Rattle.std.specs.Prelude.{◌≡◌, ℕ, ◌<◌, ◌≤◌, ◌^◌, Some, None, List, [], ◌∷◌, ◌++◌, length, map, IfOk, IfNone, IfSome};
ghost use Rattle.gh_base.specs.Networks.{Network};
ghost use Rattle.walk_rules.specs.Distances.{IsReach};
ghost use Rattle.alt_search.specs.Exploring.{weight_in, nodes_in};
ghost use Rattle.landmark_choice.specs.Farthest.{AreNear, IsChoice, IsGreatestDistance, ChoicesAreFronts, IsGreatest, distance_at, lesser};

use alt_search::{Explored, explore_all};
use gh_base::{FreshView, NoMemory, NodeId, RoadView, Sequence};
use std::alloc::Global;

/// The landmarks, in the order of the choice.
pub type Chosen = Sequence<NodeId>;

/// What the farthest rule chooses.
#[derive(Drop)]
pub struct Choice {
    /// The landmarks, in the order of the choice.
    pub landmarks: Chosen,
    /// The greatest distance from the start to a node that it reaches, in ms.
    pub far_ms: u128,
}

/// Landmarks: first the node farthest from `start`, and then each time the one farthest from the nearest
/// landmark so far. A tie goes to the least node. There are `count` (1 to 16) of them, or fewer where
/// no node that can be reached is at a distance above 0 from them.
///
/// In a row of five, from node 0 and with count 2, these are 4 and 0. Nothing is spread from the last.
pub fn choose<V: FreshView + Drop>(
    alloc: Global,
    view: &V,
    start: NodeId,
    count: u32,
) -> Result<Choice, NoMemory>
    requires start { start.0 < (V.network view.now).nodes }
    requires some { 1 ≤ count }
    ensures landmarks { IfOk result (λ choice. IsChoice (V.network view.now) start.0 count (map (λ node. node.0) choice.landmarks)) }
    ensures far { IfOk result (λ choice. IsGreatestDistance (V.network view.now) start.0 choice.far_ms) }
{
    let from_start = distances(alloc, view, start)?;
    let Some((first, far_ms)) = greatest(&from_start) else {
        unreachable!()
    };
    let mut landmarks = Chosen::new(alloc);
    landmarks.push(first)?;
    let mut near = forget(from_start);
    let mut last = first;
    'more: while landmarks.len() < count as usize {
        near = add_source(alloc, view, last, near)?;
        let Some((node, far)) = greatest(&near) else {
            return Ok(Choice { landmarks, far_ms })
        };
        if far == 0 {
            return Ok(Choice { landmarks, far_ms });
        }
        landmarks.push(node)?;
        last = node;
    }
    Ok(Choice { landmarks, far_ms })
}

/// A choice is determined, and one with a lesser count is its front. It does nothing: its contract is the law.
pub fn choices_are_fronts()
    ensures { ChoicesAreFronts }
{}

/// The distance of each node from one, in ms.
fn distances<V: FreshView + Drop>(
    alloc: Global,
    view: &V,
    node: NodeId,
) -> Result<Vec<Option<u128>>, NoMemory>
    requires { node.0 < (V.network view.now).nodes }
    ensures count { IfOk result (λ list. length list.items ≡ (V.network view.now).nodes) }
    ensures few { IfOk result (λ list. length list.items < 2 ^ 32) }
    ensures near { IfOk result (λ list. AreNear (V.network view.now) (node.0 ∷ []) (distance_at list.items)) }
{
    let mut again = view.again();
    let explored = explore_all(alloc, &mut again, node)?;
    weights(alloc, &explored, view.node_count())
}

/// The distances from the nearest of some nodes and one more.
fn add_source<V: FreshView + Drop>(
    alloc: Global,
    view: &V,
    node: NodeId,
    near: Vec<Option<u128>>,
) -> Result<Vec<Option<u128>>, NoMemory>
    requires node { node.0 < (V.network view.now).nodes }
    requires long { length near.items ≡ (V.network view.now).nodes }
    ensures count { IfOk result (λ list. length list.items ≡ (V.network view.now).nodes) }
    ensures few { IfOk result (λ list. length list.items < 2 ^ 32) }
    ensures near { IfOk result (λ list. (sources : List ℕ) → AreNear (V.network view.now) sources (distance_at near.items) →
        AreNear (V.network view.now) (sources ++ node.0 ∷ []) (distance_at list.items)) }
{
    let own = distances(alloc, view, node)?;
    let mut near = near;
    take_nearer(&mut near, &own);
    Ok(near)
}

/// No distance at each node: so far they are from no node.
fn forget(distances: Vec<Option<u128>>) -> Vec<Option<u128>>
    ensures count { length result.items ≡ length distances.items }
    ensures none { (node : ℕ) → distance_at result.items node ≡ None }
{
    let mut distances = distances;
    for i in 0..distances.len() {
        distances[i] = None;
    }
    distances
}

/// The weight that is told of each node.
fn weights(alloc: Global, explored: &Explored, count: u32) -> Result<Vec<Option<u128>>, NoMemory>
    requires { count ≡ nodes_in explored.now }
    ensures count { IfOk result (λ list. length list.items ≡ count) }
    ensures near { (network : Network) (from : ℕ) → ((node : ℕ) → IsReach network from node (weight_in explored.now node)) →
        IfOk result (λ list. AreNear network (from ∷ []) (distance_at list.items)) }
{
    let mut list = Vec::new(alloc);
    for node in 0..count {
        list.push(explored.weight(NodeId(node)))?;
    }
    Ok(list)
}

/// The node with the greatest distance, the first on a tie.
fn greatest(distances: &[Option<u128>]) -> Option<(NodeId, u128)>
    requires { length distances.now < 2 ^ 32 }
    ensures none { IfNone result ((node : ℕ) → distance_at distances.now node ≡ None) }
    ensures some { IfSome result (λ f. IsGreatest distances.now f.0.0 f.1) }
    ensures within { IfSome result (λ f. f.0.0 < length distances.now) }
{
    let mut best: Option<(NodeId, u128)> = None;
    for (i, distance) in distances.iter().enumerate() {
        if let Some(distance) = *distance {
            let is_greater = match best {
                None => true,
                Some((_, far)) => far < distance,
            };
            if is_greater {
                best = Some((NodeId(i as u32), distance));
            }
        }
    }
    best
}

/// The lesser of two distances at each node.
fn take_nearer(near: &mut [Option<u128>], own: &[Option<u128>])
    requires { length own.now ≡ length near.old }
    ensures { (node : ℕ) → distance_at near.new node ≡ lesser (distance_at near.old node) (distance_at own.now node) }
{
    for i in 0..near.len() {
        near[i] = lesser_of(near[i], own[i]);
    }
}

fn lesser_of(first: Option<u128>, second: Option<u128>) -> Option<u128>
    ensures { result ≡ lesser first second }
{
    match (first, second) {
        (Some(x), Some(y)) => Some(x.min(y)),
        (Some(x), None) => Some(x),
        (None, second) => second,
    }
}
