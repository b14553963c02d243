//! What is no evidence: labels and sets over two nodes that an edge of 1 ms joins, and one that stands alone.
ghost use Rattle.std.specs.Prelude.{IsTrue};
ghost use Rattle.gh_base.specs.Networks.{LeadsToNodes};
ghost use Rattle.alt_search.specs.Rows.{network_in};

use alt_search::{Adjacency, lead_to_rows};
use gh_base::{DirEdge, EdgeId, Hop, Hops, LabelList, NoMemory, NodeId};
use label_certificate::{NodeSet, Refuted, check_none, check_walk};
use std::alloc::Global;
use std::test::Fail;

const ALONG: DirEdge = DirEdge {
    edge: EdgeId(0),
    reverse: false,
};

/// The hop over the edge, from node 0 to node 1.
const REFUTES: Refuted = Refuted::Violated {
    edge: ALONG,
    tail: NodeId(0),
    head: NodeId(1),
    weight: 1,
};

/// The hops of each node.
fn roads(alloc: Global) -> Result<Vec<Hops>, NoMemory> {
    let mut first = Hops::new(alloc);
    first.push(Hop {
        to: NodeId(1),
        by: ALONG,
        weight: Some(1),
    })?;
    let mut rows = Vec::new(alloc);
    rows.push(first)?;
    rows.push(Hops::new(alloc))?;
    rows.push(Hops::new(alloc))?;
    Ok(rows)
}

/// Whether each hop leads to one of the rows, as far as a view of them asks for it.
fn are_roads(rows: &[Hops]) -> bool
    ensures { IsTrue result → LeadsToNodes (network_in rows.now) }
{
    lead_to_rows(rows)
}

/// The verdict on a label of node 1, as evidence that no walk there from node 0 weighs less. None where it wasn't asked for.
fn verdict(
    alloc: Global,
    rows: &[Hops],
    label: u64,
    weight: u64,
) -> Result<Option<Result<(), Refuted>>, NoMemory> {
    let mut labels = LabelList::new(alloc);
    labels.push(Some(0))?;
    labels.push(Some(label))?;
    labels.push(None)?;
    if rows.len() != 3 || labels.len() != 3 || !are_roads(rows) {
        return Ok(None);
    }
    let mut view = Adjacency::new(rows);
    Ok(Some(check_walk(&mut view, &labels, NodeId(0), NodeId(1), weight)))
}

#[test]
fn labels_are_refused_by_their_ends_and_by_a_hop(rt: HostRuntime) -> Result<(), Fail> {
    let alloc = rt.alloc();
    let rows = roads(alloc)?;
    assert_eq!(rt; verdict(alloc, &rows, 1, 1)?, Some(Ok(())));
    assert_eq!(rt; verdict(alloc, &rows, 2, 1)?, Some(Err(Refuted::Ends)));
    assert_eq!(rt; verdict(alloc, &rows, 2, 2)?, Some(Err(REFUTES)));
    Ok(())
}

#[test]
fn a_set_is_refused_by_a_hop_that_leads_out(rt: HostRuntime) -> Result<(), Fail> {
    let rows = roads(rt.alloc())?;
    let rows = rows.as_slice();
    assert_eq!(rt; rows.len(), 3);
    let leads = are_roads(rows);
    assert!(rt; leads);
    let mut closed = NodeSet::new(rt.alloc(), 3)?;
    closed.add(NodeId(0));
    let mut view = Adjacency::new(rows);
    let open = check_none(&mut view, &closed, NodeId(0), NodeId(2));
    assert_eq!(rt; open, Err(REFUTES));
    closed.add(NodeId(1));
    let mut view = Adjacency::new(rows);
    let shut = check_none(&mut view, &closed, NodeId(0), NodeId(2));
    assert_eq!(rt; shut, Ok(()));
    Ok(())
}
