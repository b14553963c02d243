//! The two checks.
ghost use Rattle.std.specs.Prelude.{◌≡◌, ◌+◌, ◌^◌, ◌<◌, ◌≤◌, ◌↔◌, true, false, Some, length, OnOk, IfErr, IsOk, IsTrue};
ghost use Rattle.walk_rules.specs.Walks.{IsAtMostEachWalk, NoWalk};
ghost use Rattle.walk_rules.specs.Distances.{label_at};
ghost use Rattle.walk_rules.specs.Evidence.{is_over, violates, IsEvidence, leads_out, IsClosed};
ghost use Rattle.label_certificate.specs.Refuting.{is_in, IsReason};

use crate::hop_test::{HopTest, test_hops};
use crate::node_set::NodeSet;
use crate::refuted::Refuted;
use gh_base::{Hop, LabelList, NodeId, RoadView};

/// Whether labels show that no walk from `start` to `target` weighs less than `weight` ms.
///
/// A hop is violated where its head's label is over its tail's and its weight. A label that is absent
/// counts as over every number at a head; a hop with none at its tail isn't violated.
pub fn check_walk<V: RoadView>(
    view: &mut V,
    labels: &LabelList,
    start: NodeId,
    target: NodeId,
    weight: u64,
) -> Result<(), Refuted>
    requires labels { length labels.now ≡ (V.network view.old).nodes }
    requires start { start.0 < (V.network view.old).nodes }
    requires target { target.0 < (V.network view.old).nodes }
    requires count { V.starts view.old ≤ 2 ^ 63 }

    // It accepts exactly what is evidence, which shows that no walk weighs less.
    ensures accepts { IsOk result ↔ IsEvidence (V.network view.old) (label_at labels.now) start.0 target.0 weight }
    ensures least { OnOk result (IsAtMostEachWalk (V.network view.old) start.0 target.0 weight) }

    // It refuses with `Ends` where those aren't right, and else with the first hop that is violated.
    ensures reason { IfErr result (λ why. IsReason (V.network view.old) (violates (label_at labels.now))
        ((label_at labels.now start.0 ≡ Some 0) × (label_at labels.now target.0 ≡ Some weight)) why) }
    // The view is started no more often than there are nodes.
    ensures starts { V.starts view.new ≤ V.starts view.old + (V.network view.old).nodes }
    ensures network { V.network view.new ≡ V.network view.old }
{
    if !label_ends(labels, start, target, weight) {
        return Err(Refuted::Ends);
    }
    test_hops(view, &LabelTest { labels })
}

/// Whether a set shows that no walk leads from `start` to `target`: a hop with a weight is violated
/// where it leads out of the set.
pub fn check_none<V: RoadView>(
    view: &mut V,
    closed: &NodeSet,
    start: NodeId,
    target: NodeId,
) -> Result<(), Refuted>
    requires set { length closed.now ≡ (V.network view.old).nodes }
    requires start { start.0 < (V.network view.old).nodes }
    requires target { target.0 < (V.network view.old).nodes }
    requires count { V.starts view.old ≤ 2 ^ 63 }

    // It accepts exactly what is a closed set, which shows that there is no walk.
    ensures accepts { IsOk result ↔ IsClosed (V.network view.old) (is_in closed.now) start.0 target.0 }
    ensures none { OnOk result (NoWalk (V.network view.old) start.0 target.0) }

    // It refuses with `Ends` where those aren't right, and else with the first hop that leads out.
    ensures reason { IfErr result (λ why. IsReason (V.network view.old) (leads_out (is_in closed.now))
        ((is_in closed.now start.0 ≡ true) × (is_in closed.now target.0 ≡ false)) why) }
    // The view is started no more often than there are nodes.
    ensures starts { V.starts view.new ≤ V.starts view.old + (V.network view.old).nodes }
    ensures network { V.network view.new ≡ V.network view.old }
{
    if !set_ends(closed, start, target) {
        return Err(Refuted::Ends);
    }
    test_hops(view, &SetTest { closed })
}

/// Whether the labels are right at the ends.
fn label_ends(labels: &LabelList, start: NodeId, target: NodeId, weight: u64) -> bool
    requires start { start.0 < length labels.now }
    requires target { target.0 < length labels.now }
    ensures { IsTrue result ↔ ((label_at labels.now start.0 ≡ Some 0) × (label_at labels.now target.0 ≡ Some weight)) }
{
    let labels = labels.as_slice();
    is_label(labels[start.0 as usize], 0) && is_label(labels[target.0 as usize], weight)
}

fn is_label(label: Option<u64>, value: u64) -> bool
    ensures { IsTrue result ↔ (label ≡ Some value) }
{
    label == Some(value)
}

/// Whether the set is right at the ends.
fn set_ends(closed: &NodeSet, start: NodeId, target: NodeId) -> bool
    requires start { start.0 < length closed.now }
    requires target { target.0 < length closed.now }
    ensures { IsTrue result ↔ ((is_in closed.now start.0 ≡ true) × (is_in closed.now target.0 ≡ false)) }
{
    closed.has(start) && !closed.has(target)
}

/// Fails at a hop that violates labels.
#[derive(Drop)]
struct LabelTest<'a> {
    labels: &'a LabelList,
}

impl<'a> HopTest for LabelTest<'a> {
    ghost use Rattle.std.specs.Prelude.{length};
    ghost use Rattle.walk_rules.specs.Distances.{label_at};
    ghost use Rattle.walk_rules.specs.Evidence.{violates};
    ghost use Rattle.label_certificate.specs.Testing.{barred_violates};

    ghost nodes = { λ test. length test.labels.now };

    ghost fails = { λ test. violates (label_at test.labels.now) };

    ghost barred = { λ test. barred_violates (label_at test.labels.now) };

    fn fails_at(&self, tail: NodeId, hop: Hop) -> bool {
        let labels = self.labels.as_slice();
        match hop.weight {
            None => false,
            Some(weight) => is_further(labels[tail.0 as usize], weight, labels[hop.to.0 as usize]),
        }
    }
}

/// Whether the head's label is over the tail's and the weight.
fn is_further(tail: Option<u64>, weight: u64, head: Option<u64>) -> bool
    ensures { result ≡ is_over tail weight head }
{
    match (tail, head) {
        (None, _) => false,
        (Some(_), None) => true,
        (Some(from), Some(to)) => u128::from(to) > u128::from(from) + u128::from(weight),
    }
}

/// Fails at a hop that leads out of a set.
#[derive(Drop)]
struct SetTest<'a> {
    closed: &'a NodeSet,
}

impl<'a> HopTest for SetTest<'a> {
    ghost use Rattle.std.specs.Prelude.{length};
    ghost use Rattle.walk_rules.specs.Evidence.{leads_out};
    ghost use Rattle.label_certificate.specs.Refuting.{is_in};
    ghost use Rattle.label_certificate.specs.Testing.{barred_leads};

    ghost nodes = { λ test. length test.closed.now };

    ghost fails = { λ test. leads_out (is_in test.closed.now) };

    ghost barred = { λ test. barred_leads (is_in test.closed.now) };

    fn fails_at(&self, tail: NodeId, hop: Hop) -> bool {
        hop.weight.is_some() && self.closed.has(tail) && !self.closed.has(hop.to)
    }
}
