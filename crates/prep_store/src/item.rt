//! Lists, and their items.
use gh_base::NodeId;

/// A node with its label in grains, as a list has it.
#[derive(Clone, Copy)]
pub struct Item {
    pub node: NodeId,
    pub label: u16,
}

/// Which list: that of this landmark, by number, and whether the one to it.
#[derive(Clone, Copy)]
pub struct Which {
    pub landmark: u32,
    pub back: bool,
}
