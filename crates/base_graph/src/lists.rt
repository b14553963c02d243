//! The lists of a graph as they are kept, before any fact on them.
ghost use Rattle.std.specs.Prelude.{◌≡◌, ◌<◌, ◌^◌, [], ◌∷◌, ◌++◌, length, true, false, List, OnOk, OnErr};
ghost use Rattle.gh_base.specs.declared.edges.DirEdge.{DirEdge};
ghost use Rattle.base_graph.specs.Graphs.{put_at, directed, with_edge, with_place};

use encoded_values::EdgeValues;
use gh_base::{DirEdge, EdgeId, NoMemory, NodeId, Point};
use std::alloc::Global;
use std::marker::Model;

/// An edge as it is kept. What a search reads of it stands together, within one line of a cache.
#[derive(Drop)]
pub(crate) struct Stored {
    pub(crate) base: NodeId,
    pub(crate) adjacent: NodeId,
    pub(crate) mm: u32,
    pub(crate) values: EdgeValues,
    pub(crate) between: Vec<Point>,
}

impl Model for Stored {
    ghost use Rattle.base_graph.specs.Graphs.{Edge};

    ghost Value = { Edge };

    ghost view = { λ e. record { base = e.base; adjacent = e.adjacent; mm = e.mm; between = e.between.items; values = e.values } };
}

/// The directed edges that start at a tower.
#[derive(Drop)]
pub(crate) struct Leaving {
    pub(crate) edges: Vec<DirEdge>,
}

impl Model for Leaving {
    ghost use Rattle.std.specs.Prelude.{List};
    ghost use Rattle.gh_base.specs.declared.edges.DirEdge.{DirEdge};

    ghost Value = { List DirEdge };

    ghost view = { λ a. a.edges.items };
}

/// Places, edges and what starts at each place, by number.
#[derive(Drop)]
pub(crate) struct Lists {
    alloc: Global,
    pub(crate) places: Vec<Point>,
    pub(crate) edges: Vec<Stored>,
    pub(crate) around: Vec<Leaving>,
}

impl Model for Lists {
    ghost use Rattle.base_graph.specs.Graphs.{Graph};

    ghost Value = { Graph };

    ghost view = { λ a. record { places = a.places.items; edges = a.edges.items; around = a.around.items } };
}

/// Puts a directed edge behind a tower's others. After `NoMemory` all is as before.
fn put_at(around: &mut Vec<Leaving>, node: NodeId, by: DirEdge) -> Result<(), NoMemory>
    requires { node.0 < length around.old.items }
    ensures ok { OnOk result (around.new.items ≡ put_at around.old.items node.0 by) }
    ensures err { OnErr result (around.new.items ≡ around.old.items) }
{
    let list = &mut around[node.0 as usize];
    list.edges.push(by)?;
    Ok(())
}

/// Undoes `put_at`.
fn take_back(around: &mut Vec<Leaving>, node: NodeId)
    requires { node.0 < length around.old.items }
    ensures { (before : List (List DirEdge)) (by : DirEdge) → node.0 < length before
        → around.old.items ≡ put_at before node.0 by → around.new.items ≡ before }
{
    let list = &mut around[node.0 as usize];
    list.edges.pop();
}

/// Puts both directions of an edge where they start. After `NoMemory` all is as before.
fn put_both(
    around: &mut Vec<Leaving>,
    base: NodeId,
    adjacent: NodeId,
    edge: EdgeId,
) -> Result<(), NoMemory>
    requires base { base.0 < length around.old.items }
    requires adjacent { adjacent.0 < length around.old.items }
    ensures ok { OnOk result (around.new.items ≡ put_at (put_at around.old.items base.0 (directed edge.0 false)) adjacent.0 (directed edge.0 true)) }
    ensures err { OnErr result (around.new.items ≡ around.old.items) }
{
    let forward = DirEdge {
        edge,
        reverse: false,
    };
    let backward = DirEdge {
        edge,
        reverse: true,
    };
    put_at(around, base, forward)?;
    if put_at(around, adjacent, backward).is_err() {
        take_back(around, base);
        return Err(NoMemory);
    }
    Ok(())
}

impl Lists {
    pub(crate) fn new(alloc: Global) -> Lists
        ensures places { result.places ≡ [] }
        ensures edges { result.edges ≡ [] }
        ensures around { result.around ≡ [] }
    {
        Lists {
            alloc,
            places: Vec::new(alloc),
            edges: Vec::new(alloc),
            around: Vec::new(alloc),
        }
    }

    pub(crate) fn place_count(&self) -> usize
        ensures { result ≡ length self.now.places }
    {
        self.places.len()
    }

    pub(crate) fn edge_count(&self) -> usize
        ensures { result ≡ length self.now.edges }
    {
        self.edges.len()
    }

    /// Adds a tower. After `NoMemory` all is as before.
    #[tactic(auto, unfolding(crate::specs::Graphs::with_place))]
    pub(crate) fn add_place(&mut self, place: Point) -> Result<(), NoMemory>
        ensures ok { OnOk result (self.new ≡ with_place self.old place) }
        ensures err { OnErr result (self.new ≡ self.old) }
    {
        let nothing = Leaving {
            edges: Vec::new(self.alloc),
        };
        self.around.push(nothing)?;
        if self.places.push(place).is_err() {
            self.around.pop();
            return Err(NoMemory);
        }
        Ok(())
    }

    /// Adds an edge. After `NoMemory` all is as before.
    #[tactic(auto, unfolding(crate::specs::Graphs::with_edge))]
    pub(crate) fn add_edge(
        &mut self,
        base: NodeId,
        adjacent: NodeId,
        mm: u32,
        between: &[Point],
        values: &EdgeValues,
    ) -> Result<(), NoMemory>
        requires few { length self.old.edges < 2 ^ 32 }
        requires base { base.0 < length self.old.around }
        requires adjacent { adjacent.0 < length self.old.around }
        ensures ok { OnOk result (self.new ≡ with_edge self.old (record { base = base; adjacent = adjacent; mm = mm; between = between.now; values = values.now })) }
        ensures err { OnErr result (self.new ≡ self.old) }
    {
        let id = EdgeId(self.edges.len() as u32);
        let edge = Stored {
            base,
            adjacent,
            mm,
            between: Vec::from_slice(self.alloc, between)?,
            values: *values,
        };
        self.edges.push(edge)?;
        if put_both(&mut self.around, base, adjacent, id).is_err() {
            self.edges.pop();
            return Err(NoMemory);
        }
        Ok(())
    }
}
