//! A list of items as it grows, with the label of each node at hand.
ghost use Rattle.std.specs.Prelude.{◌≡◌, ◌↔◌, IsTrue, ◌<◌, ◌++◌, ◌∷◌, [], None, ℕ, All, length, slice_index, IfOk, OnOk};
ghost use Rattle.prep_store.specs.Evidence.{label_in};
ghost use Rattle.prep_store.specs.Steps.{IsItem, number_in};

use crate::item::Item;
use gh_base::{NoMemory, NodeId};
use std::alloc::Global;
use std::marker::Model;

/// The number that stands for no label.
const NO_LABEL: u16 = 65535;

/// Items of distinct nodes, and a number for each node. Contracts see the number of nodes and the items.
#[derive(Drop)]
pub(crate) struct Listing {
    items: Vec<Item>,
    row: Vec<u16>,
}

impl Model for Listing {
    ghost use Rattle.std.specs.Prelude.{length};
    ghost use Rattle.prep_store.specs.Steps.{Listed, IsRow};

    ghost Value = { Listed };

    ghost view = { λ a. record { nodes = length a.row.items; items = a.items.items } };

    ghost invariant = { λ a. IsRow a.row.items a.items.items };
}

impl Listing {
    /// The empty list over so many nodes. It takes the room for a number for each.
    pub(crate) fn new(alloc: Global, nodes: u32) -> Result<Listing, NoMemory>
        ensures { IfOk result (λ listing. listing ≡ record { nodes = nodes; items = [] }) }
    {
        let row = vec![in alloc; NO_LABEL; nodes as usize]?;
        Ok(Listing {
            items: Vec::new(alloc),
            row,
        })
    }

    /// The items, in order.
    pub(crate) fn items(&self) -> &[Item]
        ensures items { result.now ≡ self.now.items }
        ensures each { All (IsItem self.now.nodes) self.now.items }
    {
        self.items.as_slice()
    }

    /// Whether nothing is listed.
    pub(crate) fn is_empty(&self) -> bool
        ensures { IsTrue result ↔ (self.now.items ≡ []) }
    {
        self.items.is_empty()
    }

    /// How many nodes there are.
    pub(crate) fn node_count(&self) -> usize
        ensures { result ≡ self.now.nodes }
    {
        self.row.len()
    }

    /// The label of a node, in grains; None where it isn't listed.
    pub(crate) fn label(&self, node: NodeId) -> Option<u16>
        requires { node.0 < self.now.nodes }
        ensures { result ≡ label_in self.now.items node.0 }
    {
        let number = self.row[node.0 as usize];
        if number == NO_LABEL {
            None
        } else {
            Some(number)
        }
    }

    /// Lists a node that isn't listed yet.
    pub(crate) fn push(&mut self, item: Item) -> Result<(), NoMemory>
        requires node { item.node.0 < self.old.nodes }
        requires label { item.label < 65535 }
        requires new { label_in self.old.items item.node.0 ≡ None }
        ensures { OnOk result (self.new ≡ record { nodes = self.old.nodes; items = self.old.items ++ item ∷ [] }) }
    {
        self.items.push(item)?;
        self.row[item.node.0 as usize] = item.label;
        Ok(())
    }

    /// The number of each node. It takes no memory.
    pub(crate) fn into_row(self) -> Vec<u16>
        ensures long { length result.items ≡ self.nodes }
        ensures each { (node : ℕ) → node < self.nodes → slice_index result.items node ≡ number_in self.items node }
        ensures are_items { All (IsItem self.nodes) self.items }
    {
        let Listing { items: _, row } = self;
        row
    }
}
