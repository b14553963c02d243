//! The length of a walk between two spots.
ghost use Rattle.std.specs.Prelude.{◌≡◌, ◌-◌, ◌*◌, ◌<◌, ◌≤◌, ◌^◌, length};
ghost use Rattle.std.specs.List.{sum_by};
ghost use Rattle.weighting.specs.Roads.{AreOver};
ghost use Rattle.traffic_core.specs.Spots.{IsOn};
ghost use Rattle.traffic_core.specs.Trips as spec;

use crate::spot::Spot;
use base_graph::BaseGraph;
use gh_base::Hop;

/// The mm of the edges of hops.
fn whole_mm(graph: &BaseGraph, hops: &[Hop]) -> u64
    requires over { AreOver graph.now.lists hops.now }
    requires few { length hops.now < 2 ^ 32 }
    ensures { result ≡ sum_by (spec.edge_mm graph.now.lists) hops.now }
{
    let mut mm = 0u64;
    for hop in hops {
        mm += u64::from(graph.edge(hop.by.edge).mm);
    }
    mm
}

/// Of the first edge of a walk, the mm that lie before its start.
fn before_start(graph: &BaseGraph, from: Spot, hops: &[Hop]) -> u64
    requires { IsOn graph.now.lists from }
    ensures { result ≡ spec.mm_before_start graph.now.lists from hops.now }
{
    let Spot::Inside { edge, mm } = from else {
        return 0;
    };
    let Some(first) = hops.first() else {
        return 0;
    };
    if first.by.reverse {
        u64::from(graph.edge(edge).mm - mm)
    } else {
        u64::from(mm)
    }
}

/// Of the last edge of a walk, the mm that lie behind its target.
fn behind_target(graph: &BaseGraph, to: Spot, hops: &[Hop]) -> u64
    requires { IsOn graph.now.lists to }
    ensures { result ≡ spec.mm_behind_target graph.now.lists to hops.now }
{
    let Spot::Inside { edge, mm } = to else {
        return 0;
    };
    let Some(last) = hops.last() else {
        return 0;
    };
    if last.by.reverse {
        u64::from(mm)
    } else {
        u64::from(graph.edge(edge).mm - mm)
    }
}

/// The mm of a walk between two spots: those of its edges, but for what lies before its start and behind its
/// target.
pub fn walk_mm(graph: &BaseGraph, from: Spot, to: Spot, hops: &[Hop]) -> u64
    requires from { IsOn graph.now.lists from }
    requires to { IsOn graph.now.lists to }
    requires over { AreOver graph.now.lists hops.now }
    requires few { length hops.now < 2 ^ 32 }
    ensures { result ≡ spec.mm_between graph.now.lists from to hops.now }
{
    whole_mm(graph, hops)
        .saturating_sub(before_start(graph, from, hops))
        .saturating_sub(behind_target(graph, to, hops))
}
