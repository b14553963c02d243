//! The queue.
ghost use Rattle.std.specs.Prelude.{◌≡◌, ◌<◌, ◌≤◌, ℕ, Some, None, length, replicate, slice_set, IfSome, IfNone, IfOk, IsSomeAnd};
ghost use Rattle.search_queue.specs.Keys.{key_at};

use crate::heap::{Heap, Item};
use gh_base::{NoMemory, NodeId};
use std::alloc::Global;
use std::marker::Model;

/// Nodes with keys, of which one with a least key can be taken. Contracts see the keys by node.
#[derive(Drop)]
pub struct Queue {
    heap: Heap,
}

impl Model for Queue {
    ghost use Rattle.std.specs.Prelude.{ℕ, Option, List};
    ghost use Rattle.search_queue.specs.Heaps.{keys_of, IsHeap};

    ghost Value = { List (Option ℕ) };

    ghost view = { λ q. keys_of q.heap };

    ghost invariant = { λ q. IsHeap q.heap };
}

impl Queue {
    /// An empty queue for nodes below `nodes`. It takes all room that the queue ever needs.
    pub fn new(alloc: Global, nodes: u32) -> Result<Queue, NoMemory>
        ensures { IfOk result (λ q. q ≡ replicate nodes None) }
    {
        Ok(Queue {
            heap: Heap::new(alloc, nodes)?,
        })
    }

    /// Puts a node that is not in the queue into it.
    pub fn put(&mut self, node: NodeId, key: u128)
        requires node { node.0 < length self.old }
        requires absent { key_at self.old node.0 ≡ None }
        ensures { self.new ≡ slice_set self.old node.0 (Some key) }
    {
        self.heap.enter(Item { key, node: node.0 });
    }

    /// Gives a node of the queue a key that is no greater than its own.
    pub fn lower(&mut self, node: NodeId, key: u128)
        requires node { node.0 < length self.old }
        requires present { IsSomeAnd (key_at self.old node.0) (λ k. key ≤ k) }
        ensures { self.new ≡ slice_set self.old node.0 (Some key) }
    {
        self.heap.lower(Item { key, node: node.0 });
    }

    /// The key of a node, or None where the node is not in the queue.
    pub fn key_of(&self, node: NodeId) -> Option<u128>
        requires { node.0 < length self.now }
        ensures { result ≡ key_at self.now node.0 }
    {
        self.heap.key(node.0)
    }

    /// Takes a node with a least key out of the queue, with its key. None if no node is in it.
    pub fn pop_least(&mut self) -> Option<(NodeId, u128)>
        ensures none { IfNone result ((node : ℕ) → key_at self.old node ≡ None) }
        ensures stays { IfNone result (self.new ≡ self.old) }
        ensures found { IfSome result (λ f. key_at self.old f.0.0 ≡ Some f.1) }
        ensures least { IfSome result (λ f. (node key : ℕ) → key_at self.old node ≡ Some key → f.1 ≤ key) }
        ensures taken { IfSome result (λ f. self.new ≡ slice_set self.old f.0.0 None) }
    {
        let item = self.heap.leave()?;
        Some((NodeId(item.node), item.key))
    }
}
