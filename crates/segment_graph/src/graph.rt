//! The graph: its lists, with the facts that hold of them.
ghost use Rattle.std.specs.Prelude.{◌≡◌, ◌≢◌, ◌<◌, ◌↔◌, [], ◌∷◌, ◌++◌, length, All, IfOk, OnOk, OnErr, Err};
ghost use Rattle.gh_base.specs.Places.{IsOnEarth};
ghost use Rattle.base_graph.specs.Graphs.{IsGraph, edge_at, values_along, around_of, place_of, points_of};
ghost use Rattle.base_graph.specs.Facts.{IsGraph-prop};

use crate::around::Around;
use crate::lists::Lists;
use base_graph::{EdgeEnds, GraphFault};
use encoded_values::{DirValues, EdgeValues, both_are_in_range};
use gh_base::{EdgeId, NoMemory, NodeId, Point, Shape, Shapes};
use std::alloc::Global;

/// The greatest number of towers.
const MOST_NODES: usize = 2_000_000;

/// The greatest number of edges.
const MOST_EDGES: usize = 4_000_000;

/// Towers and edges by number, kept in segments. Contracts see its `lists`, and know its `facts` of
/// each graph.
///
/// A way over the towers 0, 1 and back again, with another from 1 to 2:
///
///     0 ==0,1== 1 --2-- 2      around 1: 0-, 1+, 2+
///
/// Edges 0 and 1 are parallel: 0 leads from 0 to 1, and 1 from 1 to 0.
#[derive(Drop)]
pub struct SegmentGraph {
    lists: Lists,
    pub ghost facts: { IsGraph lists } by { IsGraph-prop lists },
}

impl SegmentGraph {
    /// A graph without towers.
    pub fn new(alloc: Global) -> Result<SegmentGraph, NoMemory>
        ensures places { IfOk result (λ graph. graph.lists.places ≡ []) }
        ensures edges { IfOk result (λ graph. graph.lists.edges ≡ []) }
    {
        Ok(SegmentGraph {
            lists: Lists::new(alloc),
        })
    }

    /// Adds a tower, numbered from 0 on.
    pub fn add_node(&mut self, place: Point) -> Result<NodeId, GraphFault>
        requires { IsOnEarth place }
        ensures node { IfOk result (λ node. node.0 ≡ length self.old.lists.places) }
        ensures places { OnOk result (self.new.lists.places
            ≡ self.old.lists.places ++ place ∷ []) }
        ensures edges { self.new.lists.edges ≡ self.old.lists.edges }
        ensures full { (result ≡ Err GraphFault.TooManyNodes)
            ↔ (length self.old.lists.places ≡ 2000000) }
        ensures only { result ≢ Err GraphFault.TooManyEdges }
        ensures err { OnErr result (self.new.lists ≡ self.old.lists) }
    {
        let count = self.lists.place_count();
        if count == MOST_NODES {
            return Err(GraphFault::TooManyNodes);
        }
        self.lists.add_place(place)?;
        Ok(NodeId(count as u32))
    }

    /// Adds an edge of `mm` mm, numbered from 0 on, from `base` over the points `between` to
    /// `adjacent`.
    pub fn add_edge(
        &mut self,
        base: NodeId,
        adjacent: NodeId,
        mm: u32,
        between: &[Point],
        values: &EdgeValues,
    ) -> Result<EdgeId, GraphFault>
        requires base { base.0 < length self.old.lists.places }
        requires adjacent { adjacent.0 < length self.old.lists.places }
        requires between { All IsOnEarth between.now }
        ensures edge { IfOk result (λ edge. edge.0 ≡ length self.old.lists.edges) }
        ensures edges { OnOk result (self.new.lists.edges ≡ self.old.lists.edges
            ++ (record {
              base = base;
              adjacent = adjacent;
              mm = mm;
              between = between.now;
              values = values.now;
            }) ∷ []) }
        ensures places { self.new.lists.places ≡ self.old.lists.places }
        ensures full { (result ≡ Err GraphFault.TooManyEdges)
            ↔ (length self.old.lists.edges ≡ 4000000) }
        ensures only { result ≢ Err GraphFault.TooManyNodes }
        ensures err { OnErr result (self.new.lists ≡ self.old.lists) }
    {
        let count = self.lists.edge_count();
        if count == MOST_EDGES {
            return Err(GraphFault::TooManyEdges);
        }
        // The type knows that the values are in their ranges; from here on the graph knows it too.
        both_are_in_range(values);
        let ends = EdgeEnds { base, adjacent, mm };
        self.lists.add_edge(ends, between, values)?;
        Ok(EdgeId(count as u32))
    }

    pub fn node_count(&self) -> u32
        ensures { result ≡ length self.now.lists.places }
    {
        self.lists.place_count() as u32
    }

    pub fn edge_count(&self) -> u32
        ensures { result ≡ length self.now.lists.edges }
    {
        self.lists.edge_count() as u32
    }

    pub fn edge(&self, edge: EdgeId) -> EdgeEnds
        requires { edge.0 < length self.now.lists.edges }
        ensures base { result.base ≡ (edge_at self.now.lists.edges edge.0).base }
        ensures adjacent { result.adjacent ≡ (edge_at self.now.lists.edges edge.0).adjacent }
        ensures mm { result.mm ≡ (edge_at self.now.lists.edges edge.0).mm }
    {
        self.lists.ends(edge)
    }

    /// The values of an edge in one direction.
    pub fn values(&self, edge: EdgeId, reverse: bool) -> DirValues
        requires { edge.0 < length self.now.lists.edges }
        ensures { result ≡ values_along (edge_at self.now.lists.edges edge.0) reverse }
    {
        self.lists.values(edge, reverse)
    }

    /// The place of a tower.
    pub fn place(&self, node: NodeId) -> Point
        requires { node.0 < length self.now.lists.places }
        ensures place { result ≡ place_of self.now.lists node.0 }
        ensures on_earth { IsOnEarth result }
    {
        self.lists.place(node)
    }

    /// The directed edges that start at a tower, each once, in no promised order.
    pub fn explore(&self, node: NodeId) -> Around<'_>
        requires { node.0 < length self.now.lists.places }
        ensures { result ≡ around_of self.now.lists node.0 }
    {
        self.lists.around(node)
    }

    /// The points of an edge in order, both towers among them.
    pub fn geometry(&self, edge: EdgeId) -> Shape<'_>
        requires { edge.0 < length self.now.lists.edges }
        ensures { result ≡ points_of self.now.lists edge.0 }
    {
        let ends = self.lists.ends(edge);
        Shape::new(
            self.place(ends.base),
            self.lists.between(edge),
            self.place(ends.adjacent),
        )
    }
}

impl Shapes for SegmentGraph {
    ghost use Rattle.std.specs.Prelude.{length};
    ghost use Rattle.base_graph.specs.Graphs.{points_of};
    ghost use Rattle.base_graph.specs.Facts.{points_on_earth};

    ghost edges = { λ graph. length graph.lists.edges };

    ghost points_of = { λ graph edge. points_of graph.lists edge };

    ghost on_earth = { λ graph edge there. points_on_earth graph.lists edge graph.facts there };

    fn shape(&self, edge: EdgeId) -> Shape<'_> {
        self.geometry(edge)
    }
}
