//! A graph in segments: what leaves a tower, and what is read of an edge.
ghost use Rattle.std.specs.Prelude.{All};
ghost use Rattle.gh_base.specs.Places.{IsOnEarth};

use crate::value_plan_calls::street;
use gh_base::{EdgeId, NodeId, Point};
use segment_graph::SegmentGraph;
use std::alloc::Global;
use std::test::Fail;

/// Adds an edge where both its towers are.
fn join(graph: &mut SegmentGraph, base: u32, adjacent: u32, between: &[Point]) -> Result<(), Fail>
    requires { All IsOnEarth between.now }
{
    if base < graph.node_count() && adjacent < graph.node_count() {
        let mm = 10 + graph.edge_count() % 10;
        graph.add_edge(NodeId(base), NodeId(adjacent), mm, between, &street())?;
    }
    Ok(())
}

/// The half-edges that leave a tower, in order.
fn leaving(alloc: Global, graph: &SegmentGraph, node: u32) -> Result<Vec<u64>, Fail> {
    let mut halves = Vec::new(alloc);
    if node < graph.node_count() {
        let mut around = graph.explore(NodeId(node));
        while let Some(by) = around.next() {
            halves.push(2 * u64::from(by.edge.0) + u64::from(by.reverse))?;
        }
    }
    halves.sort()?;
    Ok(halves)
}

/// The ends and the length of an edge, and how many points it has.
fn read(graph: &SegmentGraph, edge: u32) -> Option<(u32, u32, u32, usize)> {
    if edge >= graph.edge_count() {
        return None;
    }
    let ends = graph.edge(EdgeId(edge));
    let points = graph.geometry(EdgeId(edge)).len();
    Some((ends.base.0, ends.adjacent.0, ends.mm, points))
}

/// The speed of cars along an edge.
fn car_speed(graph: &SegmentGraph, edge: u32, reverse: bool) -> Option<u8> {
    if edge >= graph.edge_count() {
        return None;
    }
    Some(graph.values(EdgeId(edge), reverse).car_speed)
}

const NORTH: Point = Point { lat: 2, lon: 3 };

/// Three towers: two edges between 0 and 1, one from 1 to 2 and a loop at 2.
fn small_graph(alloc: Global) -> Result<SegmentGraph, Fail> {
    let mut graph = SegmentGraph::new(alloc)?;
    graph.add_node(Point { lat: 0, lon: 5 })?;
    graph.add_node(Point { lat: 1, lon: 5 })?;
    graph.add_node(Point { lat: 2, lon: 5 })?;
    join(&mut graph, 0, 1, &[])?;
    join(&mut graph, 1, 0, &[NORTH])?;
    join(&mut graph, 1, 2, &[])?;
    join(&mut graph, 2, 2, &[NORTH, NORTH])?;
    Ok(graph)
}

#[test]
fn a_loop_edge_leaves_its_tower_twice(rt: HostRuntime) -> Result<(), Fail> {
    let graph = small_graph(rt.alloc())?;
    assert_eq!(rt;
        leaving(rt.alloc(), &graph, 0)?.as_slice(),
        [0, 3].as_slice()
    );
    assert_eq!(rt;
        leaving(rt.alloc(), &graph, 1)?.as_slice(),
        [1, 2, 4].as_slice()
    );
    assert_eq!(rt;
        leaving(rt.alloc(), &graph, 2)?.as_slice(),
        [5, 6, 7].as_slice()
    );
    Ok(())
}

#[test]
fn an_edge_is_read_as_it_was_added(rt: HostRuntime) -> Result<(), Fail> {
    let graph = small_graph(rt.alloc())?;
    assert_eq!(rt; read(&graph, 0), Some((0, 1, 10, 2)));
    assert_eq!(rt; read(&graph, 1), Some((1, 0, 11, 3)));
    assert_eq!(rt; read(&graph, 3), Some((2, 2, 13, 4)));
    assert_eq!(rt; read(&graph, 4), None);
    assert_eq!(rt; car_speed(&graph, 2, false), Some(50));
    assert_eq!(rt; car_speed(&graph, 2, true), Some(0));
    Ok(())
}
