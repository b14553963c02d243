//! The first hop of a view at which a test fails.
ghost use Rattle.std.specs.Prelude.{⊤, ◌≡◌, ◌+◌, ◌^◌, ◌<◌, ◌≤◌, ℕ, Bool, true, false, None, Contains, OnOk, IfErr};
ghost use Rattle.gh_base.specs.declared.edges.Hop.{Hop};
ghost use Rattle.walk_rules.specs.Walks.{hops_from};
ghost use Rattle.label_certificate.specs.Refuting.{IsReason};

use crate::refuted::Refuted;
use gh_base::{Hop, NodeId, RoadView};

/// A test of hops between nodes below a number.
pub trait HopTest {
    ghost nodes: { Self → ℕ };

    ghost fails: { Self → ℕ → Hop → Bool };

    /// Whether the test fails at a hop.
    fn fails_at(&self, tail: NodeId, hop: Hop) -> bool
        requires tail { tail.0 < nodes self.now }
        requires head { hop.to.0 < nodes self.now }
        ensures { result ≡ fails self.now tail.0 hop };

    /// It never fails at a hop that is barred.
    ghost barred: { (test : Self) (tail : ℕ) (hop : Hop) → hop.weight ≡ None → fails test tail hop ≡ false };
}

/// Whether the test fails nowhere; else the first hop at which it does.
pub fn test_hops<V: RoadView, T: HopTest>(view: &mut V, test: &T) -> Result<(), Refuted>
    requires nodes { T.nodes test.now ≡ (V.network view.old).nodes }
    requires count { V.starts view.old ≤ 2 ^ 63 }
    ensures network { V.network view.new ≡ V.network view.old }
    ensures starts { V.starts view.new ≤ V.starts view.old + (V.network view.old).nodes }
    ensures none { OnOk result ((node : ℕ) (hop : Hop) → node < (V.network view.old).nodes →
        Contains (hops_from (V.network view.old) node) hop → T.fails test.now node hop ≡ false) }
    ensures first { IfErr result (λ why. IsReason (V.network view.old) (T.fails test.now) ⊤ why) }
{
    for node in 0..view.node_count() {
        let tail = NodeId(node);
        view.start_at(tail);
        while let Some(hop) = view.next_hop() {
            if let Some(weight) = hop.weight {
                if test.fails_at(tail, hop) {
                    return Err(Refuted::Violated {
                        edge: hop.by,
                        tail,
                        head: hop.to,
                        weight,
                    });
                }
            }
        }
    }
    Ok(())
}
