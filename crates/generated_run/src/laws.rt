//! The laws. The function does nothing that shows: what it ensures is the law.
ghost use Rattle.generated_run.specs.Laws.{EdgesOfSize, OneGround};

/// A size has one ground, of so many edges: so the lines `nodes` and `edges` of its summary are the same for every run.
pub fn sizes_have_one_ground()
    ensures ground { OneGround }
    ensures edges { EdgesOfSize }
{}
