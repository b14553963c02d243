//! The lists of a graph as they are kept, before any fact on them.
ghost use Rattle.std.specs.Prelude.{◌≡◌, ◌<◌, ◌≤◌, [], ◌∷◌, ◌++◌, length, slice_range, OnOk, OnErr};
ghost use Rattle.encoded_values.specs.Values.{AreInRange};
ghost use Rattle.base_graph.specs.Graphs.{edge_at, values_along, around_of, place_of};
ghost use Rattle.segment_graph.specs.Halves.{graph_of};
ghost use Rattle.segment_graph.specs.Rows.{linked_row};

use crate::around::Around;
use crate::links::Links;
use crate::roads::Roads;
use base_graph::EdgeEnds;
use encoded_values::{DirValues, EdgeValues};
use gh_base::{EdgeId, NoMemory, NodeId, Point};
use std::alloc::Global;
use std::marker::Model;

/// The greatest number of points between towers, since a row numbers them in a word. They are
/// 32 GB, so that more are a want of memory.
const MOST_POINTS: usize = u32::MAX as usize;

/// Places by number, and edges in tables.
#[derive(Drop)]
pub(crate) struct Lists {
    places: Vec<Point>,
    links: Links,
    roads: Roads,
    points: Vec<Point>,
}

impl Model for Lists {
    ghost use Rattle.base_graph.specs.Graphs.{Graph};

    ghost Value = { Graph };

    ghost use Rattle.segment_graph.specs.Halves.{graph_of};
    ghost use Rattle.segment_graph.specs.Kept.{edges_of, AreKept};

    ghost view = { λ a. graph_of a.places.items (edges_of a.links.rows a.roads a.points.items) };

    ghost invariant = { λ a.
        AreKept a.places.items a.links.heads a.links.rows a.roads a.points.items };
}

/// Adds an edge to both tables. After `NoMemory` they are as before.
fn add_row(
    links: &mut Links,
    roads: &mut Roads,
    ends: EdgeEnds,
    first_point: usize,
    end_point: usize,
    values: &EdgeValues,
) -> Result<(), NoMemory>
    requires few { length links.old.rows < 4000000 }
    requires roads { length roads.old ≡ length links.old.rows }
    requires base { ends.base.0 < length links.old.heads }
    requires adjacent { ends.adjacent.0 < length links.old.heads }
    requires order { first_point ≤ end_point }
    ensures rows { OnOk result (links.new.rows ≡ links.old.rows
        ++ linked_row links.old.heads (length links.old.rows) ends first_point end_point ∷ []) }
    ensures roads { OnOk result (roads.new ≡ roads.old ++ values.now ∷ []) }
    ensures same_rows { OnErr result (links.new.rows ≡ links.old.rows) }
    ensures same_roads { OnErr result (roads.new ≡ roads.old) }
    ensures towers { length links.new.heads ≡ length links.old.heads }
{
    if end_point > MOST_POINTS {
        return Err(NoMemory);
    }
    roads.push(values)?;
    match links.add_edge(ends, first_point as u32, end_point as u32) {
        Ok(()) => Ok(()),
        Err(NoMemory) => {
            roads.truncate(links.rows.len());
            Err(NoMemory)
        }
    }
}

impl Lists {
    pub(crate) fn new(alloc: Global) -> Lists
        ensures { result ≡ graph_of [] [] }
    {
        Lists {
            places: Vec::new(alloc),
            links: Links::new(alloc),
            roads: Roads::new(alloc),
            points: Vec::new(alloc),
        }
    }

    pub(crate) fn place_count(&self) -> usize
        ensures { result ≡ length self.now.places }
    {
        self.places.len()
    }

    pub(crate) fn edge_count(&self) -> usize
        ensures { result ≡ length self.now.edges }
    {
        self.links.rows.len() as usize
    }

    /// Adds a tower. After `NoMemory` all is as before.
    pub(crate) fn add_place(&mut self, place: Point) -> Result<(), NoMemory>
        requires { length self.old.places < 2000000 }
        ensures ok { OnOk result (self.new
            ≡ graph_of (self.old.places ++ place ∷ []) self.old.edges) }
        ensures err { OnErr result (self.new ≡ self.old) }
    {
        self.places.push(place)?;
        match self.links.add_tower() {
            Ok(()) => Ok(()),
            Err(NoMemory) => {
                self.places.pop();
                Err(NoMemory)
            }
        }
    }

    /// Adds an edge. After `NoMemory` all is as before.
    pub(crate) fn add_edge(
        &mut self,
        ends: EdgeEnds,
        between: &[Point],
        values: &EdgeValues,
    ) -> Result<(), NoMemory>
        requires few { length self.old.edges < 4000000 }
        requires base { ends.base.0 < length self.old.places }
        requires adjacent { ends.adjacent.0 < length self.old.places }
        ensures ok { OnOk result (self.new ≡ graph_of self.old.places (self.old.edges
            ++ (record {
              base = ends.base;
              adjacent = ends.adjacent;
              mm = ends.mm;
              between = between.now;
              values = values.now;
            }) ∷ [])) }
        ensures err { OnErr result (self.new ≡ self.old) }
    {
        let first = self.points.len();
        self.points.extend_from_slice(between)?;
        let end = self.points.len();
        match add_row(&mut self.links, &mut self.roads, ends, first, end, values) {
            Ok(()) => Ok(()),
            Err(NoMemory) => {
                self.points.truncate(first);
                Err(NoMemory)
            }
        }
    }

    pub(crate) fn ends(&self, edge: EdgeId) -> EdgeEnds
        requires { edge.0 < length self.now.edges }
        ensures base { result.base ≡ (edge_at self.now.edges edge.0).base }
        ensures adjacent { result.adjacent ≡ (edge_at self.now.edges edge.0).adjacent }
        ensures mm { result.mm ≡ (edge_at self.now.edges edge.0).mm }
    {
        self.links.rows.ends(edge)
    }

    /// The values of an edge in one direction.
    pub(crate) fn values(&self, edge: EdgeId, reverse: bool) -> DirValues
        requires edge { edge.0 < length self.now.edges }
        requires in_range { AreInRange (values_along (edge_at self.now.edges edge.0) reverse) }
        ensures { result ≡ values_along (edge_at self.now.edges edge.0) reverse }
    {
        self.roads.get(edge, reverse)
    }

    pub(crate) fn place(&self, node: NodeId) -> Point
        requires { node.0 < length self.now.places }
        ensures { result ≡ place_of self.now node.0 }
    {
        self.places[node.0 as usize]
    }

    /// The points of an edge between its towers.
    pub(crate) fn between(&self, edge: EdgeId) -> &[Point]
        requires { edge.0 < length self.now.edges }
        ensures { result.now ≡ (edge_at self.now.edges edge.0).between }
    {
        let line = self.links.rows.line(edge);
        &self.points[line.0 as usize..line.1 as usize]
    }

    /// What leaves a tower.
    pub(crate) fn around(&self, node: NodeId) -> Around<'_>
        requires { node.0 < length self.now.places }
        ensures { result ≡ around_of self.now node.0 }
    {
        Around::new(&self.links, self.links.head(node))
    }
}
