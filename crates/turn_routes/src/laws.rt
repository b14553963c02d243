//! The laws. Each function does nothing: what it ensures is the law.
ghost use Rattle.std.specs.Prelude.{ℕ};
ghost use Rattle.gh_base.specs.declared.edges.DirEdge.{DirEdge};
ghost use Rattle.base_graph.specs.Graphs.{Graph, IsGraph};
ghost use Rattle.weighting.specs.Rules.{Rule};
ghost use Rattle.weighting.specs.Roads.{network_by};
ghost use Rattle.turn_graph.specs.States.{IsOver};

/// Roads as a rule weighs them are over the directed edges of their graph, so that turns can be
/// told.
pub fn weighed_roads_are_over()
    ensures { (rule : Rule) (limits : DirEdge → ℕ) (graph : Graph) → IsGraph graph →
        IsOver graph (network_by rule limits graph) }
{}
