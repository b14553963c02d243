//! What a query is answered.
use gh_base::Hops;

/// The answer to a query from tower to tower. Weights are in ms, lengths in mm; `forward` and
/// `backward` are at how many towers each side of the search was started.
#[derive(Debug, Drop)]
pub enum BothAnswer {
    /// No tower has this id.
    NoNode {
        id: i64,
    },
    /// No walk leads there.
    NoRoute {
        forward: u32,
        backward: u32,
    },
    /// The least weight is over 9007199254740991.
    Overflow {
        weight: u128,
    },
    /// A least walk.
    Walk {
        weight: u128,
        mm: u128,
        forward: u32,
        backward: u32,
        hops: Hops,
    },
}
