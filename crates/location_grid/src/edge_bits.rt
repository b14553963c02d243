//! A set of edges in memory, a bit an edge.
ghost use Rattle.std.specs.Prelude.{◌≡◌, ◌≢◌, ◌<◌, ◌≤◌, ◌/◌, ◌+◌, ◌*◌, ◌^◌, ℕ, true, false, length, IfOk};

use crate::edge_set::EdgeSet;
use gh_base::{EdgeId, NoMemory};
use std::alloc::Global;

/// A set of edges of a graph, a bit an edge.
#[derive(Drop)]
pub struct EdgeBits {
    edges: u32,
    words: Vec<u64>,
    ghost long: { edges < 64 * length words.items },
}

impl EdgeBits {
    ghost use Rattle.location_grid.specs.Bits.{has_bit};

    /// The set of none of so many edges.
    pub fn new(alloc: Global, edges: u32) -> Result<EdgeBits, NoMemory>
        ensures edges { IfOk result (λ bits. ⟦<EdgeBits as EdgeSet>⟧.edges bits ≡ edges) }
        ensures none { IfOk result (λ bits. (edge : ℕ) → ⟦<EdgeBits as EdgeSet>⟧.has_edge bits edge ≡ false) }
    {
        let count = (edges / u64::BITS) as usize + 1;
        Ok(EdgeBits {
            edges,
            words: vec![in alloc; 0; count]?,
        })
    }

    /// Adds an edge. The others stay as they are.
    #[tactic(auto, using(crate::proofs::Bits::added, crate::proofs::Bits::others))]
    pub fn add(&mut self, edge: EdgeId)
        requires { edge.0 < ⟦<EdgeBits as EdgeSet>⟧.edges self.old }
        ensures added { ⟦<EdgeBits as EdgeSet>⟧.has_edge self.new edge.0 ≡ true }
        ensures others { (other : ℕ) → other ≢ edge.0 → ⟦<EdgeBits as EdgeSet>⟧.has_edge self.new other ≡ ⟦<EdgeBits as EdgeSet>⟧.has_edge self.old other }
        ensures edges { ⟦<EdgeBits as EdgeSet>⟧.edges self.new ≡ ⟦<EdgeBits as EdgeSet>⟧.edges self.old }
    {
        self.words[(edge.0 / u64::BITS) as usize] |= 1 << (edge.0 % u64::BITS);
    }
}

impl EdgeSet for EdgeBits {
    ghost use Rattle.location_grid.specs.Bits.{has_bit};

    ghost edges = { λ bits. bits.edges };

    ghost has_edge = { λ bits edge. has_bit bits.words.items edge };

    fn has(&self, edge: EdgeId) -> bool {
        self.words[(edge.0 / u64::BITS) as usize] >> (edge.0 % u64::BITS) & 1 == 1
    }
}
