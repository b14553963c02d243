//! A view with weights in whole grains.
ghost use Rattle.std.specs.Prelude.{◌≡◌, ◌≤◌, map};
ghost use Rattle.walk_rules.specs.Distances.{rounded, rounded_hop, in_grains};

use gh_base::{FreshView, Hop, NodeId, RoadView, Unwanted};

/// The roads of a view, each weight rounded down to whole grains: `grain * floor(weight / grain)`. A
/// barred hop stays barred.
#[derive(Drop)]
pub struct GrainView<V: RoadView> {
    base: V,
    grain: u64,
    ghost some: { 1 ≤ grain },
}

impl<V: RoadView> GrainView<V> {
    /// The view with this grain, in ms. It takes no memory.
    pub fn new(base: V, grain: u64) -> GrainView<V>
        requires { 1 ≤ grain }
        ensures network { ⟦<GrainView<V> as RoadView>⟧.network result ≡ in_grains grain (V.network base) }
        ensures starts { ⟦<GrainView<V> as RoadView>⟧.starts result ≡ V.starts base }
        ensures left { ⟦<GrainView<V> as RoadView>⟧.left result ≡ map (rounded_hop grain) (V.left base) }
    {
        GrainView { base, grain }
    }
}

impl<V: RoadView> RoadView for GrainView<V> {
    ghost use Rattle.std.specs.Prelude.{map};
    ghost use Rattle.walk_rules.specs.Distances.{rounded_hop, in_grains};
    ghost use Rattle.label_spread.specs.Cutting.{grains_lead};

    ghost network = { λ view. in_grains view.grain (V.network view.base) };

    ghost starts = { λ view. V.starts view.base };

    ghost left = { λ view. map (rounded_hop view.grain) (V.left view.base) };

    ghost leads = { λ view. grains_lead view.grain (V.network view.base) (V.leads view.base) };

    fn node_count(&self) -> u32 {
        self.base.node_count()
    }

    fn start_at(&mut self, node: NodeId) {
        self.base.start_at(node);
    }

    fn next_hop(&mut self) -> Option<Hop> {
        match self.base.next_hop() {
            Some(hop) => Some(in_grains_of(hop, self.grain)),
            None => None,
        }
    }

    fn next_wanted<U: Unwanted>(&mut self, unwanted: &U) -> Option<Hop> {
        match self.base.next_wanted(unwanted) {
            Some(hop) => Some(in_grains_of(hop, self.grain)),
            None => None,
        }
    }
}

impl<V: FreshView> FreshView for GrainView<V> {
    fn again(&self) -> GrainView<V> {
        GrainView {
            base: self.base.again(),
            grain: self.grain,
        }
    }
}

/// The same hop, with its weight rounded down.
fn in_grains_of(hop: Hop, grain: u64) -> Hop
    requires { 1 ≤ grain }
    ensures { result ≡ rounded_hop grain hop }
{
    Hop {
        to: hop.to,
        by: hop.by,
        weight: round_down(hop.weight, grain),
    }
}

fn round_down(weight: Option<u64>, grain: u64) -> Option<u64>
    requires { 1 ≤ grain }
    ensures { result ≡ rounded grain weight }
{
    match weight {
        Some(weight) => Some(grain * (weight / grain)),
        None => None,
    }
}
