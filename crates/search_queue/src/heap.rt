//! The heap: nodes with their keys in an order, and for each node its place there.
ghost use Rattle.std.specs.Prelude.{◌≡◌, ◌≢◌, ◌<◌, ◌≤◌, ◌^◌, ◌+◌, ◌*◌, ◌⊎◌, ℕ, Some, None, List, [], length, replicate, slice_set, slice_index, vec_capacity, IfOk, IfSome, IfNone, IsSomeAnd};
ghost use Rattle.search_queue.specs.Keys.{key_at};
ghost use Rattle.search_queue.specs.Heaps.{item_at, rank, place_of, keys_of, IsBelow, IsHoled, MayRise, MaySink, IsHeap};

use crate::node_table::NodeTable;
use gh_base::NoMemory;
use std::alloc::Global;

/// A node in the heap, with its key.
#[derive(Clone, Copy)]
pub struct Item {
    pub key: u128,
    pub node: u32,
}

/// The places right below `at` are `4 * at + 1` to `4 * at + 4`. A node's place is kept plus 1, and 0 for
/// a node that isn't in the heap.
#[derive(Drop)]
pub struct Heap {
    items: Vec<Item>,
    places: NodeTable,
}

impl Heap {
    /// An empty heap for so many nodes.
    pub fn new(alloc: Global, nodes: u32) -> Result<Heap, NoMemory>
        ensures heap { IfOk result (λ heap. IsHeap heap) }
        ensures empty { IfOk result (λ heap. keys_of heap ≡ replicate nodes None) }
    {
        Ok(Heap {
            items: Vec::with_capacity(alloc, nodes as usize)?,
            places: NodeTable::new(alloc, nodes)?,
        })
    }

    /// The key of a node, or None for one that isn't in the heap.
    pub fn key(&self, node: u32) -> Option<u128>
        requires heap { IsHeap self.now }
        requires node { node < length self.now.places }
        ensures { result ≡ key_at (keys_of self.now) node }
    {
        let place = self.places.get(node);
        if place == 0 {
            return None;
        }
        Some(self.items[place as usize - 1].key)
    }

    /// Takes in a node that isn't in the heap.
    pub fn enter(&mut self, item: Item)
        requires heap { IsHeap self.old }
        requires node { item.node < length self.old.places }
        requires absent { key_at (keys_of self.old) item.node ≡ None }
        ensures heap { IsHeap self.new }
        ensures keys { keys_of self.new ≡ slice_set (keys_of self.old) item.node (Some item.key) }
    {
        let last = self.items.len();
        self.items.push_reserved(item);
        self.rise(last, item);
    }

    /// Gives a node of the heap a key that is no greater than its own.
    pub fn lower(&mut self, item: Item)
        requires heap { IsHeap self.old }
        requires node { item.node < length self.old.places }
        requires present { IsSomeAnd (key_at (keys_of self.old) item.node) (λ k. item.key ≤ k) }
        ensures heap { IsHeap self.new }
        ensures keys { keys_of self.new ≡ slice_set (keys_of self.old) item.node (Some item.key) }
    {
        let place = self.places.get(item.node);
        self.rise(place as usize - 1, item);
    }

    /// Takes out an item with a least key.
    pub fn leave(&mut self) -> Option<Item>
        requires heap { IsHeap self.old }
        ensures heap { IsHeap self.new }
        ensures none { IfNone result ((node : ℕ) → key_at (keys_of self.old) node ≡ None) }
        ensures stays { IfNone result (keys_of self.new ≡ keys_of self.old) }
        ensures found { IfSome result (λ item. key_at (keys_of self.old) item.node ≡ Some item.key) }
        ensures least { IfSome result (λ item. (node key : ℕ) → key_at (keys_of self.old) node ≡ Some key → item.key ≤ key) }
        ensures taken { IfSome result (λ item. keys_of self.new ≡ slice_set (keys_of self.old) item.node None) }
    {
        let last = self.items.pop()?;
        if self.items.len() == 0 {
            self.places.set(last.node, 0);
            return Some(last);
        }
        let first = self.items[0];
        self.places.set(first.node, 0);
        self.sink(last);
        Some(first)
    }

    /// Lets an item rise from a place that is free until none above it is greater, and puts it there.
    fn rise(&mut self, start: usize, item: Item)
        requires holed { IsHoled self.old.items.items self.old.places start item.node }
        requires room { length self.old.places ≤ vec_capacity self.old.items }
        requires order { MayRise (length self.old.items.items) (rank self.old.items.items) start item.key }
        ensures heap { IsHeap self.new }
        ensures keys { keys_of self.new ≡ slice_set (keys_of self.old) item.node (Some item.key) }
    {
        let mut at = start;
        while at > 0 {
            let parent = (at - 1) / 4;
            let above = self.items[parent];
            if above.key <= item.key {
                self.put(at, item);
                return;
            }
            self.put(at, above);
            at = parent;
        }
        self.put(at, item);
    }

    /// Lets an item sink from the first place, which is free, until none below it is less, and puts it there.
    fn sink(&mut self, item: Item)
        requires holed { IsHoled self.old.items.items self.old.places 0 item.node }
        requires room { length self.old.places ≤ vec_capacity self.old.items }
        requires order { MaySink (length self.old.items.items) (rank self.old.items.items) 0 item.key }
        ensures heap { IsHeap self.new }
        ensures keys { keys_of self.new ≡ slice_set (keys_of self.old) item.node (Some item.key) }
    {
        let mut at = 0;
        while let Some(child) = self.least_child(at) {
            let below = self.items[child];
            if item.key <= below.key {
                self.put(at, item);
                return;
            }
            self.put(at, below);
            at = child;
        }
        self.put(at, item);
    }

    /// The place with the least key of those right below.
    fn least_child(&self, at: usize) -> Option<usize>
        requires at { at < length self.now.items.items }
        requires few { length self.now.items.items < 2 ^ 32 }
        ensures none { IfNone result (length self.now.items.items ≤ 4 * at + 1) }
        ensures below { IfSome result (λ child. IsBelow at child) }
        ensures within { IfSome result (λ child. child < length self.now.items.items) }
        ensures least { IfSome result (λ child. (other : ℕ) → IsBelow at other → other < length self.now.items.items → rank self.now.items.items child ≤ rank self.now.items.items other) }
    {
        let first = 4 * at + 1;
        let count = self.items.len();
        if first >= count {
            return None;
        }
        if first + 3 < count {
            let lower = self.lesser(first, first + 1);
            let upper = self.lesser(first + 2, first + 3);
            return Some(self.lesser(lower, upper));
        }
        let mut least = first;
        for child in first + 1..count {
            least = self.lesser(least, child);
        }
        Some(least)
    }

    /// The place of the lesser of two items.
    fn lesser(&self, one: usize, other: usize) -> usize
        requires one { one < length self.now.items.items }
        requires other { other < length self.now.items.items }
        ensures either { (result ≡ one) ⊎ (result ≡ other) }
        ensures first { rank self.now.items.items result ≤ rank self.now.items.items one }
        ensures second { rank self.now.items.items result ≤ rank self.now.items.items other }
    {
        if self.items[other].key < self.items[one].key {
            return other;
        }
        one
    }

    /// Puts an item at a place.
    fn put(&mut self, at: usize, item: Item)
        requires at { at < length self.old.items.items }
        requires few { length self.old.items.items < 2 ^ 32 }
        requires node { item.node < length self.old.places }
        ensures items { self.new.items.items ≡ slice_set self.old.items.items at item }
        ensures places { self.new.places ≡ slice_set self.old.places item.node (at + 1) }
        ensures capacity { vec_capacity self.new.items ≡ vec_capacity self.old.items }
    {
        self.items[at] = item;
        self.places.set(item.node, at as u32 + 1);
    }
}
