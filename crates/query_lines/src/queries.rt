//! Queries from tower to tower.
use gh_base::Sequence;

/// A question for a way from the tower of an OpenStreetMap id to that of another.
#[derive(Clone, Copy, Debug, PartialEq, Eq)]
pub struct TowerQuery {
    pub from: i64,
    pub to: i64,
}

/// Queries, in order.
pub type QueryList = Sequence<TowerQuery>;
