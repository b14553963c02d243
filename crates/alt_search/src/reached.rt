//! What a search knows of all nodes, kept small.
ghost use Rattle.std.specs.Prelude.{◌≡◌, ◌<◌, ◌^◌, ◌+◌, ◌*◌, Some, None, length, replicate, slice_set, IfOk, IsSome};
ghost use Rattle.alt_search.specs.Progress.{reach_at};
ghost use Rattle.alt_search.specs.Kept.{reach_of, weight_if};

use crate::reach::{Reach, Step};
use gh_base::{DirEdge, EdgeId, Hop, NoMemory, NodeId};
use search_queue::NodeTable;
use std::alloc::Global;
use std::marker::Model;

/// What is kept of a node that was reached: the lower and upper bits of its walk's weight in ms, how
/// many hops the walk has, and of the last of them the tail, the edge and the weight.
#[derive(Clone, Copy)]
pub struct Kept {
    low: u64,
    over: u64,
    high: u32,
    depth: u32,
    tail: u32,
    edge: u32,
    node: u32,
    reverse: bool,
    is_start: bool,
}

/// What is known of each node. Contracts see the list of that by node. What is kept stands in the order in
/// which nodes were reached, so room is touched for those alone.
#[derive(Drop)]
pub struct Reached {
    kept: Vec<Kept>,
    slots: NodeTable,
}

impl Model for Reached {
    ghost use Rattle.std.specs.Prelude.{List, Option, vec_capacity};
    ghost use Rattle.alt_search.specs.declared.reach.Reach.{Reach};
    ghost use Rattle.alt_search.specs.Kept.{reaches_in, AreKept};

    ghost Value = { List (Option Reach) };

    ghost view = { λ r. reaches_in r.kept.items r.slots };

    ghost invariant = { λ r. AreKept r.kept.items r.slots (vec_capacity r.kept) };
}

impl Reached {
    /// Nothing is known of any of so many nodes. It takes all room.
    pub fn new(alloc: Global, nodes: u32) -> Result<Reached, NoMemory>
        ensures { IfOk result (λ reached. reached ≡ replicate nodes None) }
    {
        Ok(Reached {
            kept: Vec::with_capacity(alloc, nodes as usize)?,
            slots: NodeTable::new(alloc, nodes)?,
        })
    }

    /// What is known of a node.
    pub fn reach(&self, node: NodeId) -> Option<Reach>
        requires { node.0 < length self.now }
        ensures { result ≡ reach_at self.now node.0 }
    {
        let slot = self.slots.get(node.0);
        if slot == 0 {
            return None;
        }
        Some(self.kept[slot as usize - 1].reach())
    }

    /// The weight of a node's walk, in ms.
    pub fn weight(&self, node: NodeId) -> Option<u128>
        requires { node.0 < length self.now }
        ensures { result ≡ weight_if (reach_at self.now node.0) }
    {
        let slot = self.slots.get(node.0);
        if slot == 0 {
            return None;
        }
        Some(self.kept[slot as usize - 1].weight())
    }

    /// The start is reached by the walk with no hops.
    pub fn begin(&mut self, start: NodeId)
        requires { start.0 < length self.old }
        ensures { self.new ≡ slice_set self.old start.0 (Some (record { weight = 0; depth = 0; last = None })) }
    {
        self.write(Kept {
            low: 0,
            over: 0,
            high: 0,
            depth: 0,
            tail: start.0,
            edge: 0,
            node: start.0,
            reverse: false,
            is_start: true,
        });
    }

    /// The head of a hop is reached by a walk of that weight and so many hops, of which this is the last.
    pub fn extend(&mut self, weight: u128, depth: u32, tail: NodeId, hop: Hop)
        requires head { hop.to.0 < length self.old }
        requires weight { weight < 2 ^ 96 }
        requires has_weight { IsSome hop.weight }
        ensures { self.new ≡ slice_set self.old hop.to.0 (Some (record { weight = weight; depth = depth; last = Some (record { tail = tail; hop = hop }) })) }
    {
        self.write(Kept {
            low: (weight % 18446744073709551616) as u64,
            over: hop.weight.unwrap_or(0),
            high: (weight / 18446744073709551616) as u32,
            depth,
            tail: tail.0,
            edge: hop.by.edge.0,
            node: hop.to.0,
            reverse: hop.by.reverse,
            is_start: false,
        });
    }

    /// Keeps what is known of a node, in place of what was.
    fn write(&mut self, kept: Kept)
        requires { kept.node < length self.old }
        ensures { self.new ≡ slice_set self.old kept.node (Some (reach_of kept)) }
    {
        let slot = self.slots.get(kept.node);
        if slot != 0 {
            self.kept[slot as usize - 1] = kept;
            return;
        }
        self.kept.push_reserved(kept);
        self.slots.set(kept.node, self.kept.len() as u32);
    }
}

impl Kept {
    fn weight(&self) -> u128
        ensures { result ≡ (reach_of self.now).weight }
    {
        u128::from(self.high) * 18446744073709551616 + u128::from(self.low)
    }

    fn reach(&self) -> Reach
        ensures { result ≡ reach_of self.now }
    {
        Reach {
            weight: self.weight(),
            depth: self.depth,
            last: self.last(),
        }
    }

    fn last(&self) -> Option<Step>
        ensures { result ≡ (reach_of self.now).last }
    {
        if self.is_start {
            return None;
        }
        Some(Step {
            tail: NodeId(self.tail),
            hop: Hop {
                to: NodeId(self.node),
                by: DirEdge {
                    edge: EdgeId(self.edge),
                    reverse: self.reverse,
                },
                weight: Some(self.over),
            },
        })
    }
}
