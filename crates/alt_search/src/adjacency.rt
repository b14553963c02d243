//! Roads that are kept as a list of hops for each node.
ghost use Rattle.std.specs.Prelude.{◌≡◌, ◌<◌, ◌^◌, [], length, ◌↔◌, All, IsTrue};
ghost use Rattle.gh_base.specs.Networks.{LeadsToNodes};
ghost use Rattle.alt_search.specs.Rows.{network_in};

use gh_base::{FreshView, Hop, Hops, NodeId, RoadView};

/// A view of the hops of each node, in a list by node.
#[derive(Drop)]
pub struct Adjacency<'a> {
    rows: &'a [Hops],
    node: usize,
    next: usize,
    starts: u64,
    ghost few: { length rows.now < 2 ^ 32 },
    ghost leads: { LeadsToNodes (network_in rows.now) },
}

impl<'a> Adjacency<'a> {
    /// A view that was started nowhere. Each hop must lead to one of the rows, as `lead_to_rows` tests.
    pub fn new(rows: &'a [Hops]) -> Adjacency<'a>
        requires few { length rows.now < 2 ^ 32 }
        requires leads { LeadsToNodes (network_in rows.now) }
        ensures network { ⟦<Adjacency<'a> as RoadView>⟧.network result ≡ network_in rows.now }
        ensures starts { ⟦<Adjacency<'a> as RoadView>⟧.starts result ≡ 0 }
        ensures left { ⟦<Adjacency<'a> as RoadView>⟧.left result ≡ [] }
    {
        Adjacency {
            rows,
            node: rows.len(),
            next: 0,
            starts: 0,
        }
    }
}

impl<'a> RoadView for Adjacency<'a> {
    ghost use Rattle.alt_search.specs.Rows.{network_in, left_in};

    ghost network = { λ view. network_in view.rows.now };

    ghost starts = { λ view. view.starts };

    ghost left = { λ view. left_in view.rows.now view.node view.next };

    ghost leads = { λ view. view.leads };

    fn node_count(&self) -> u32 {
        self.rows.len() as u32
    }

    fn start_at(&mut self, node: NodeId) {
        self.node = node.0 as usize;
        self.next = 0;
        self.starts += 1;
    }

    fn next_hop(&mut self) -> Option<Hop> {
        if self.node >= self.rows.len() {
            return None;
        }
        let row = self.rows[self.node].as_slice();
        if self.next >= row.len() {
            return None;
        }
        let hop = row[self.next];
        self.next += 1;
        Some(hop)
    }
}

impl<'a> FreshView for Adjacency<'a> {
    fn again(&self) -> Self {
        Adjacency::new(self.rows)
    }
}

/// Whether each hop leads to one of the rows.
pub fn lead_to_rows(rows: &[Hops]) -> bool
    ensures { IsTrue result ↔ LeadsToNodes (network_in rows.now) }
{
    let count = rows.len();
    for row in rows {
        if !lead_below(row.as_slice(), count) {
            return false;
        }
    }
    true
}

fn lead_below(row: &[Hop], count: usize) -> bool
    ensures { IsTrue result ↔ All (λ hop. hop.to.0 < count) row.now }
{
    row.iter().all(|hop| (hop.to.0 as usize) < count)
}
