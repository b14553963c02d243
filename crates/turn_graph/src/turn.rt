//! Restrictions of turns, as a map has them.
use gh_base::Sequence;

/// Who comes by the way `from` over the node `via` must not go on by the way `to`; or, with `only`,
/// must go on by no other. All three are ids.
#[derive(Clone, Copy, Debug, PartialEq, Eq)]
pub struct Turn {
    pub from: i64,
    pub via: i64,
    pub to: i64,
    pub only: bool,
}

/// Restrictions, in order.
pub type TurnList = Sequence<Turn>;
