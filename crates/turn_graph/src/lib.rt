//! Turn restrictions of a map, and its roads seen by who obeys them: a view whose nodes are the
//! directed edges that were passed.
//!
//! Promises: a table keeps at each tower the restrictions that count there; the walks of a
//! `TurnView` from its start to its target are the walks between the two towers with no banned
//! turn, with their weights; a potential that is feasible for the base is feasible for it too. What
//! counts and what is banned is said in `specs/Restrictions.antt`. Stands on the roads of
//! `map_import` and the walks of `walk_rules`.
#![tactic(auto)]

mod bound;
mod counting;
mod laws;
mod state;
mod table;
mod turn;
mod view;

pub use bound::TurnPotential;
pub use laws::walks_by_states_weigh_the_same;
pub use table::TurnTable;
pub use turn::{Turn, TurnList};
pub use view::TurnView;
