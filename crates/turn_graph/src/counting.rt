//! Which restrictions count at a tower.
ghost use Rattle.std.specs.Ordering.{int_eq};
ghost use Rattle.std.specs.Prelude.{◌≡◌, ◌<◌, ◌++◌, ℤ, length, slice_get, filter, OnOk, IfOk};
ghost use Rattle.std.specs.List.{list_any};
ghost use Rattle.std.specs.HashMap.{get};
ghost use Rattle.base_graph.specs.Graphs.{around_of};
ghost use Rattle.turn_graph.specs.declared.turn.Turn.{Turn};
ghost use Rattle.turn_graph.specs.Restrictions.{Streets, way_of, CountsAt};
ghost use Rattle.turn_graph.specs.Counting.{turns_in, those_at, standing_at, has_way, counts_by};

use crate::table::way_of;
use crate::turn::Turn;
use base_graph::BaseGraph;
use gh_base::{IdList, NoMemory, NodeId};
use map_import::Roads;
use std::alloc::Global;
use std::collections::HashMap;
use std::marker::Model;

/// Restrictions, in order.
#[derive(Drop)]
pub(crate) struct Row {
    pub(crate) turns: Vec<Turn>,
}

impl Model for Row {
    ghost use Rattle.std.specs.Prelude.{List};
    ghost use Rattle.turn_graph.specs.declared.turn.Turn.{Turn};

    ghost Value = { List Turn };

    ghost view = { λ a. a.turns.items };
}

/// Puts a restriction behind those over the same node. After `NoMemory` some may be lost.
fn put(alloc: Global, rows: &mut HashMap<i64, Row>, turn: Turn) -> Result<(), NoMemory>
    ensures { OnOk result ((id : ℤ) → turns_in (get int_eq rows.new id)
        ≡ turns_in (get int_eq rows.old id) ++ those_at id turn) }
{
    let mut row = match rows.remove(&turn.via) {
        Some(row) => row,
        None => Row {
            turns: Vec::new(alloc),
        },
    };
    row.turns.push(turn)?;
    rows.insert(turn.via, row)?;
    Ok(())
}

/// The restrictions by the node that they are over, for each node in their order.
pub(crate) fn by_node(alloc: Global, turns: &[Turn]) -> Result<HashMap<i64, Row>, NoMemory>
    ensures { IfOk result (λ rows. (id : ℤ) → turns_in (get int_eq rows id)
        ≡ filter (λ turn. int_eq id turn.via) turns.now) }
{
    let mut rows = HashMap::new(alloc);
    for turn in turns {
        put(alloc, &mut rows, *turn)?;
    }
    Ok(rows)
}

/// Whether a directed edge of a way starts at a tower; its other direction ends there.
fn has_way(graph: &BaseGraph, ways: &IdList, tower: NodeId, way: i64) -> bool
    requires tower { tower.0 < length graph.now.lists.places }
    requires ways { length ways.now ≡ length graph.now.lists.edges }
    ensures { result ≡ has_way ways.now way (around_of graph.now.lists tower.0) }
{
    let mut around = graph.explore(tower);
    while let Some(by) = around.next() {
        if way_of(ways, by) == way {
            return true;
        }
    }
    false
}

/// Whether both ways of a restriction have an edge at a tower.
fn counts(graph: &BaseGraph, ways: &IdList, tower: NodeId, turn: &Turn) -> bool
    requires tower { tower.0 < length graph.now.lists.places }
    requires ways { length ways.now ≡ length graph.now.lists.edges }
    ensures { result ≡ counts_by ways.now (around_of graph.now.lists tower.0) turn.now }
{
    has_way(graph, ways, tower, turn.from) && has_way(graph, ways, tower, turn.to)
}

/// Those restrictions whose ways have an edge at a tower.
fn counting(
    alloc: Global,
    graph: &BaseGraph,
    ways: &IdList,
    tower: NodeId,
    turns: &[Turn],
) -> Result<Row, NoMemory>
    requires tower { tower.0 < length graph.now.lists.places }
    requires ways { length ways.now ≡ length graph.now.lists.edges }
    ensures { IfOk result (λ row. row
        ≡ filter (counts_by ways.now (around_of graph.now.lists tower.0)) turns.now) }
{
    let mut kept = Vec::new(alloc);
    for turn in turns {
        if counts(graph, ways, tower, turn) {
            kept.push(*turn)?;
        }
    }
    Ok(Row { turns: kept })
}

/// The restrictions over the node of a tower.
fn standing_at<'a>(standing: &'a HashMap<i64, Row>, ids: &[i64], tower: NodeId) -> &'a [Turn]
    ensures { result.now ≡ standing_at (get int_eq standing.now) (slice_get ids.now tower.0) }
{
    let Some(id) = ids.get(tower.0 as usize) else {
        return &[];
    };
    match standing.get(id) {
        Some(row) => &row.turns,
        None => &[],
    }
}

/// Of the restrictions by node, those that count at a tower.
pub(crate) fn row_of(
    alloc: Global,
    standing: &HashMap<i64, Row>,
    ways: &IdList,
    roads: &Roads,
    tower: NodeId,
) -> Result<Row, NoMemory>
    requires tower { tower.0 < length roads.now.graph.lists.places }
    requires ways { length ways.now ≡ length roads.now.graph.lists.edges }
    ensures { IfOk result (λ row. row
        ≡ filter (counts_by ways.now (around_of roads.now.graph.lists tower.0))
        (standing_at (get int_eq standing.now) (slice_get roads.now.ids tower.0))) }
{
    let turns = standing_at(standing, roads.ids.as_slice(), tower);
    counting(alloc, &roads.graph, ways, tower, turns)
}
