//! Bounds on what is left to a target, from the labels of landmarks.
ghost use Rattle.std.specs.Prelude.{◌≡◌, ◌≢◌, ℕ, ◌<◌, ◌≤◌, ◌↔◌, ⊤, Some, All, Contains, IsTrue, IfSome, IfNone, length, max};
ghost use Rattle.gh_base.specs.Networks.{Network};
ghost use Rattle.walk_rules.specs.Walks.{NoWalk, IsAtMostEachWalk};
ghost use Rattle.landmark_prep.specs.Preparations.{nodes_of};
ghost use Rattle.landmark_prep.specs.Packing.{in_ms};
ghost use Rattle.landmark_prep.specs.Bounds.{AreFit, greater, bound_of, bound_by, labels_at, picked};
ghost use Rattle.landmark_prep.specs.Choosing.{SaysMore, AreActive, IsForemost};

use crate::active::{Active, MOST_ACTIVE};
use crate::labels::grains_over;
use crate::preparation::Prep;
use gh_base::NodeId;

impl Prep {
    /// The landmarks to look at on the way from one node to another: at most four, by what each alone says
    /// of it. That there is no way comes first, then the greatest bound, on a tie the lower number.
    pub fn pick_active(&self, from: NodeId, to: NodeId) -> Active
        requires from { from.0 < nodes_of self.now.labels }
        requires to { to.0 < nodes_of self.now.labels }
        ensures active { AreActive (λ place. bound_of (labels_at self.now.labels place) from.0 to.0) (length self.now.landmarks) result }
        ensures within { All (λ place. place < length self.now.landmarks) result }
    {
        let most = MOST_ACTIVE.min(self.landmark_count() as usize);
        let mut active = Active::new();
        'picks: while active.len() < most {
            let Some(place) = self.foremost(&active, from, to) else {
                unreachable!()
            };
            active.push(place);
        }
        active
    }

    /// The landmark that says most of those that aren't active yet; None where all are.
    fn foremost(&self, active: &Active, from: NodeId, to: NodeId) -> Option<u32>
        requires from { from.0 < nodes_of self.now.labels }
        requires to { to.0 < nodes_of self.now.labels }
        ensures some { IfSome result (λ place.
            IsForemost (λ place. bound_of (labels_at self.now.labels place) from.0 to.0) (length self.now.landmarks) active.now place) }
        ensures none { IfNone result ((place : ℕ) → place < length self.now.landmarks → Contains active.now place) }
    {
        let mut best: Option<(u32, Option<u64>)> = None;
        for place in 0..self.landmark_count() {
            if active.has(place) {
                continue;
            }
            let bound = self.bound_from_one(place, from, to);
            if is_better(best, bound) {
                best = Some((place, bound));
            }
        }
        let (place, _bound) = best?;
        Some(place)
    }

    /// A bound in ms on the way from one node to another, the greatest that these landmarks give. None where
    /// one of them shows that there is no way.
    ///
    /// With roads a --5--> b --7--> c and the landmark c, from a it is 12 to the landmark and from b 7, so the
    /// bound from a to b is 5.
    pub fn bound(&self, active: &Active, v: NodeId, t: NodeId) -> Option<u64>
        requires active { All (λ place. place < length self.now.landmarks) active.now }
        requires v { v.0 < nodes_of self.now.labels }
        requires t { t.0 < nodes_of self.now.labels }
        ensures is { result ≡ bound_by (picked self.now.labels active.now) v.0 t.0 }
        // Where the labels fit a network, it is no more than the weight of each walk there, and none only where there is no walk.
        ensures below { (network : Network) → AreFit network self.now → IfSome result (λ b. IsAtMostEachWalk network v.0 t.0 b) }
        ensures none { (network : Network) → AreFit network self.now → IfNone result (NoWalk network v.0 t.0) }
    {
        self.greatest_bound(active, v, t)
    }

    /// The greatest of what these landmarks say.
    fn greatest_bound(&self, active: &Active, node: NodeId, target: NodeId) -> Option<u64>
        requires active { All (λ place. place < length self.now.landmarks) active.now }
        requires node { node.0 < nodes_of self.now.labels }
        requires target { target.0 < nodes_of self.now.labels }
        ensures { result ≡ bound_by (picked self.now.labels active.now) node.0 target.0 }
    {
        let mut most = 0;
        for place in active.as_slice() {
            let here = self.grains_from_one(*place, node, target)?;
            most = here.max(most);
        }
        self.ms(Some(most))
    }

    /// What one landmark says.
    fn bound_from_one(&self, landmark: u32, node: NodeId, target: NodeId) -> Option<u64>
        requires landmark { landmark < length self.now.landmarks }
        requires node { node.0 < nodes_of self.now.labels }
        requires target { target.0 < nodes_of self.now.labels }
        ensures { result ≡ bound_of (labels_at self.now.labels landmark) node.0 target.0 }
    {
        self.ms(self.grains_from_one(landmark, node, target))
    }

    /// The same, as a number of grains.
    fn grains_from_one(&self, landmark: u32, node: NodeId, target: NodeId) -> Option<u16>
        requires landmark { landmark < length self.now.landmarks }
        requires node { node.0 < nodes_of self.now.labels }
        requires target { target.0 < nodes_of self.now.labels }
        ensures { in_ms self.now.grain result ≡ bound_of (labels_at self.now.labels landmark) node.0 target.0 }
    {
        let from_node = self.grains_from(landmark, node);
        let from_target = self.grains_from(landmark, target);
        let to_node = self.grains_to(landmark, node);
        let to_target = self.grains_to(landmark, target);
        let away = grains_over(from_node, from_target);
        let home = grains_over(to_target, to_node);
        greater_of(away, home)
    }
}

fn greater_of(first: Option<u16>, second: Option<u16>) -> Option<u16>
    ensures { result ≡ greater first second }
{
    match (first, second) {
        (Some(x), Some(y)) => Some(x.max(y)),
        _ => None,
    }
}

/// Whether a bound says more than the best so far.
fn is_better(best: Option<(u32, Option<u64>)>, bound: Option<u64>) -> bool
    ensures first { IfNone best (IsTrue result) }
    ensures more { IfSome best (λ b. IsTrue result ↔ SaysMore bound b.1) }
{
    match (best, bound) {
        (None, _) => true,
        (Some((_, None)), _) => false,
        (Some((_, Some(_))), None) => true,
        (Some((_, Some(most))), Some(here)) => most < here,
    }
}
