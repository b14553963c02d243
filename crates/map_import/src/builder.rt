//! Towers and edges, one after another.
ghost use Rattle.std.specs.Ordering.{int_eq};
ghost use Rattle.std.specs.Prelude.{◌≡◌, ◌≢◌, ◌≤◌, ◌<◌, ℤ, [], length, Ok, map, OnOk, IfOk, IfErr, Option};
ghost use Rattle.std.specs.HashMap.{get};
ghost use Rattle.gh_base.specs.declared.map.Point.{Point};
ghost use Rattle.gh_base.specs.Places.{IsOnEarth};
ghost use Rattle.map_import.specs.Roads.{place_at, number, with_tower, piece_of, pieces_of_way, pieces_of};
ghost use Rattle.map_import.specs.Refusals.{lay, lay_all, Refuses};
ghost use Rattle.map_import.specs.Building.{IsBuilt, laid_as, tower_by};

use crate::faults::ImportFault;
use crate::lines::{line_mm, points_of};
use crate::places::point_at;
use crate::roads::Roads;
use crate::towers::is_marked;
use crate::used::Used;
use base_graph::BaseGraph;
use gh_base::{IdList, NoMemory, NodeId, Point};
use std::alloc::Global;
use std::collections::HashMap;

/// The greatest length of an edge, in mm.
const LONGEST_EDGE_MM: u64 = 4_294_967_295;

/// The greatest number of edges.
const MOST_EDGES: u32 = 4_000_000;

/// The graph as it grows, the ids of its towers, and the number of each.
#[derive(Drop)]
pub(crate) struct Builder {
    pub(crate) graph: BaseGraph,
    pub(crate) ids: IdList,
    numbers: HashMap<i64, u32>,
}

impl Builder {
    pub(crate) fn new(alloc: Global) -> Result<Builder, NoMemory>
        ensures ids { IfOk result (λ made. made.ids ≡ []) }
        ensures edges { IfOk result (λ made. made.graph.lists.edges ≡ []) }
        ensures built { IfOk result (λ made. (place : ℤ → Option Point) → IsBuilt place made.graph.lists made.ids (get int_eq made.numbers)) }
    {
        Ok(Builder {
            graph: BaseGraph::new(alloc)?,
            ids: IdList::new(alloc),
            numbers: HashMap::new(alloc),
        })
    }

    pub(crate) fn into_roads(self) -> Roads
        ensures graph { result.graph.lists ≡ self.graph.lists }
        ensures ids { result.ids ≡ self.ids }
    {
        let Builder {
            graph,
            ids,
            numbers: _,
        } = self;
        Roads { graph, ids }
    }

    /// The tower of a node, which is numbered where it isn't yet.
    pub(crate) fn tower(
        &mut self,
        places: &HashMap<i64, Point>,
        id: i64,
    ) -> Result<NodeId, ImportFault>
        requires earth { (id : ℤ) → IsOnEarth (place_at (get int_eq places.now) id) }
        requires built { IsBuilt (get int_eq places.now) self.old.graph.lists self.old.ids (get int_eq self.old.numbers) }
        ensures built { OnOk result (IsBuilt (get int_eq places.now) self.new.graph.lists self.new.ids (get int_eq self.new.numbers)) }
        ensures ids { OnOk result (self.new.ids ≡ with_tower self.old.ids id) }
        ensures edges { OnOk result (self.new.graph.lists.edges ≡ self.old.graph.lists.edges) }
        ensures node { IfOk result (λ node. node.0 ≡ number self.new.ids id) }
        ensures there { IfOk result (λ node. node.0 < length self.new.graph.lists.places) }
        ensures grows { OnOk result (length self.old.graph.lists.places ≤ length self.new.graph.lists.places) }
        ensures which { IfErr result (λ e. e ≢ ImportFault.NoMemory → e ≡ ImportFault.TooManyNodes) }
        ensures full { IfErr result (λ e. e ≢ ImportFault.NoMemory → 2000000 < length (with_tower self.old.ids id)) }
    {
        if let Some(number) = self.numbers.get(&id) {
            return Ok(NodeId(*number));
        }
        let node = self.graph.add_node(point_at(places, id))?;
        self.numbers.insert(id, node.0)?;
        self.ids.push(id)?;
        Ok(node)
    }

    /// Lays the edge of a piece of a way.
    fn lay(
        &mut self,
        alloc: Global,
        places: &HashMap<i64, Point>,
        way: &Used,
        piece: &[i64],
    ) -> Result<(), ImportFault>
        requires earth { (id : ℤ) → IsOnEarth (place_at (get int_eq places.now) id) }
        requires built { IsBuilt (get int_eq places.now) self.old.graph.lists self.old.ids (get int_eq self.old.numbers) }
        requires two { 2 ≤ length piece.now }
        ensures built { OnOk result (IsBuilt (get int_eq places.now) self.new.graph.lists self.new.ids (get int_eq self.new.numbers)) }
        ensures laid { OnOk result (lay (get int_eq places.now) (laid_as self.old.ids self.old.graph.lists) (piece_of way.now piece.now) ≡ Ok (laid_as self.new.ids self.new.graph.lists)) }
        ensures refused { IfErr result (Refuses (lay (get int_eq places.now) (laid_as self.old.ids self.old.graph.lists) (piece_of way.now piece.now))) }
    {
        let points = points_of(alloc, places, piece)?;
        let mm = line_mm(&points);
        if mm > LONGEST_EDGE_MM {
            return Err(ImportFault::TooLong { way: way.id });
        }
        if self.graph.edge_count() >= MOST_EDGES {
            return Err(ImportFault::TooManyEdges);
        }
        let base = self.tower(places, piece[0])?;
        let adjacent = self.tower(places, piece[piece.len() - 1])?;
        let between = &points[1..points.len() - 1];
        self.graph
            .add_edge(base, adjacent, mm as u32, between, &way.values)?;
        Ok(())
    }

    /// Lays the edges of a way.
    fn lay_way(
        &mut self,
        alloc: Global,
        places: &HashMap<i64, Point>,
        towers: &HashMap<i64, bool>,
        way: &Used,
    ) -> Result<(), ImportFault>
        requires earth { (id : ℤ) → IsOnEarth (place_at (get int_eq places.now) id) }
        requires built { IsBuilt (get int_eq places.now) self.old.graph.lists self.old.ids (get int_eq self.old.numbers) }
        ensures built { OnOk result (IsBuilt (get int_eq places.now) self.new.graph.lists self.new.ids (get int_eq self.new.numbers)) }
        ensures laid { OnOk result (lay_all (get int_eq places.now) (laid_as self.old.ids self.old.graph.lists) (pieces_of_way (tower_by (get int_eq towers.now)) way.now) ≡ Ok (laid_as self.new.ids self.new.graph.lists)) }
        ensures refused { IfErr result (Refuses (lay_all (get int_eq places.now) (laid_as self.old.ids self.old.graph.lists) (pieces_of_way (tower_by (get int_eq towers.now)) way.now))) }
    {
        let [first, rest @ ..] = way.refs.as_slice() else {
            return Ok(());
        };
        let mut piece = Vec::new(alloc);
        piece.push(*first)?;
        for id in rest {
            piece.push(*id)?;
            if !is_marked(towers, *id) {
                continue;
            }
            self.lay(alloc, places, way, &piece)?;
            piece.clear();
            piece.push(*id)?;
        }
        Ok(())
    }

    /// Lays the edges of all used ways, in order.
    pub(crate) fn lay_ways(
        &mut self,
        alloc: Global,
        places: &HashMap<i64, Point>,
        towers: &HashMap<i64, bool>,
        ways: &[Used],
    ) -> Result<(), ImportFault>
        requires earth { (id : ℤ) → IsOnEarth (place_at (get int_eq places.now) id) }
        requires built { IsBuilt (get int_eq places.now) self.old.graph.lists self.old.ids (get int_eq self.old.numbers) }
        ensures built { OnOk result (IsBuilt (get int_eq places.now) self.new.graph.lists self.new.ids (get int_eq self.new.numbers)) }
        ensures laid { OnOk result (lay_all (get int_eq places.now) (laid_as self.old.ids self.old.graph.lists) (pieces_of (tower_by (get int_eq towers.now)) ways.now) ≡ Ok (laid_as self.new.ids self.new.graph.lists)) }
        ensures refused { IfErr result (Refuses (lay_all (get int_eq places.now) (laid_as self.old.ids self.old.graph.lists) (pieces_of (tower_by (get int_eq towers.now)) ways.now))) }
    {
        for way in ways {
            self.lay_way(alloc, places, towers, way)?;
        }
        Ok(())
    }
}
