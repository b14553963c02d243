//! Which restrictions count, by tower.
ghost use Rattle.std.specs.Prelude.{◌≡◌, ◌<◌, length, IfOk};
ghost use Rattle.std.specs.List.{list_any};
ghost use Rattle.turn_graph.specs.Restrictions.{Streets, way_of};
ghost use Rattle.turn_graph.specs.Tables.{IsTableOf, IsFor, row_at, bans, bans_into, are_opposite};

use crate::counting::{Row, by_node, row_of};
use crate::turn::{Turn, TurnList};
use gh_base::{DirEdge, IdList, NoMemory, NodeId};
use map_import::Roads;
use std::alloc::Global;
use std::marker::Model;

/// At each tower the restrictions that count there. Contracts see them, and the way of each edge.
#[derive(Drop)]
pub struct TurnTable<'a> {
    ways: &'a IdList,
    rows: Vec<Row>,
}

impl<'a> Model for TurnTable<'a> {
    ghost use Rattle.turn_graph.specs.Tables.{Table};

    ghost Value = { Table };

    ghost view = { λ a. record { ways = a.ways.now; rows = a.rows.items } };
}

impl<'a> TurnTable<'a> {
    /// Keeps of the restrictions of a map those that count on its roads. `ways` has the id of
    /// the way of each edge.
    pub fn new(
        alloc: Global,
        turns: &TurnList,
        ways: &'a IdList,
        roads: &Roads,
    ) -> Result<TurnTable<'a>, NoMemory>
        requires { length ways.now ≡ length roads.now.graph.lists.edges }
        ensures kept { IfOk result (λ table. IsTableOf
            (record { graph = roads.now.graph.lists; ids = roads.now.ids; ways = ways.now })
            turns.now table) }
        ensures suits { IfOk result (λ table. IsFor roads.now.graph.lists table) }
    {
        let standing = by_node(alloc, turns.as_slice())?;
        let mut rows = Vec::new(alloc);
        for node in 0..roads.graph.node_count() {
            rows.push(row_of(alloc, &standing, ways, roads, NodeId(node))?)?;
        }
        Ok(TurnTable { ways, rows })
    }

    /// Whether a restriction of the tower bans the turn there from one directed edge to another.
    pub(crate) fn bans(&self, tower: NodeId, from: DirEdge, to: DirEdge) -> bool
        requires tower { tower.0 < length self.now.rows }
        requires from { from.edge.0 < length self.now.ways }
        requires to { to.edge.0 < length self.now.ways }
        ensures { result ≡ list_any (bans self.now.ways from to) (row_at self.now tower.0) }
    {
        let row = &self.rows[tower.0 as usize];
        is_banned_by_any(self.ways, &row.turns, from, to)
    }
}

/// The id of the way that a directed edge is of.
pub(crate) fn way_of(ways: &IdList, by: DirEdge) -> i64
    requires { by.edge.0 < length ways.now }
    ensures { result ≡ way_of ways.now by }
{
    ways.as_slice()[by.edge.0 as usize]
}

/// Whether one of these restrictions of the tower between them bans the turn.
fn is_banned_by_any(ways: &IdList, turns: &[Turn], from: DirEdge, to: DirEdge) -> bool
    requires from { from.edge.0 < length ways.now }
    requires to { to.edge.0 < length ways.now }
    ensures { result ≡ list_any (bans ways.now from to) turns.now }
{
    turns.iter().any(|turn| is_banned_by(ways, turn, from, to))
}

/// Whether a restriction of the tower between them bans the turn from one directed edge to another.
fn is_banned_by(ways: &IdList, turn: &Turn, from: DirEdge, to: DirEdge) -> bool
    requires from { from.edge.0 < length ways.now }
    requires to { to.edge.0 < length ways.now }
    ensures { result ≡ bans ways.now from to turn.now }
{
    if way_of(ways, from) != turn.from {
        return false;
    }
    let is_into = way_of(ways, to) == turn.to;
    if turn.only {
        return !is_into;
    }
    is_into && (turn.from != turn.to || are_opposite(from, to))
}

/// Whether these are the two directions of one edge.
fn are_opposite(a: DirEdge, b: DirEdge) -> bool
    ensures { result ≡ are_opposite a b }
{
    a.edge.0 == b.edge.0 && a.reverse != b.reverse
}
