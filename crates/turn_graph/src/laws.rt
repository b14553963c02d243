//! The laws. Each function does nothing: what it ensures is the law.
ghost use Rattle.std.specs.Prelude.{◌≡◌, ℕ, List};
ghost use Rattle.gh_base.specs.declared.edges.Hop.{Hop};
ghost use Rattle.walk_rules.specs.Walks.{weight_of};
ghost use Rattle.turn_graph.specs.States.{walk_by_states};

/// A walk weighs by states what it weighs from tower to tower.
#[tactic(auto, using(crate::proofs::Passing::same_weight))]
pub fn walks_by_states_weigh_the_same()
    ensures { (edges : ℕ) (walk : List Hop) →
        weight_of (walk_by_states edges walk) ≡ weight_of walk }
{}
