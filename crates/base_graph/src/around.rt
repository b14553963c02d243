//! What starts at a tower.
ghost use Rattle.std.specs.Prelude.{◌≡◌, [], ◌∷◌, IfSome, IfNone};

use gh_base::DirEdge;
use std::marker::Model;

/// The directed edges that start at a tower, one after another. Contracts see the list of those not given yet.
#[derive(Drop)]
pub struct Around<'a> {
    left: &'a [DirEdge],
}

impl<'a> Model for Around<'a> {
    ghost use Rattle.std.specs.Prelude.{List};
    ghost use Rattle.gh_base.specs.declared.edges.DirEdge.{DirEdge};

    ghost Value = { List DirEdge };

    ghost view = { λ a. a.left.now };
}

impl<'a> Around<'a> {
    pub(crate) fn new(left: &'a [DirEdge]) -> Around<'a>
        ensures { result ≡ left.now }
    {
        Around { left }
    }

    /// The next directed edge, or None after the last.
    pub fn next(&mut self) -> Option<DirEdge>
        ensures some { IfSome result (λ by. self.old ≡ by ∷ self.new) }
        ensures none { IfNone result (self.old ≡ []) }
        ensures ended { IfNone result (self.new ≡ []) }
    {
        let [first, rest @ ..] = self.left else {
            return None;
        };
        self.left = rest;
        Some(*first)
    }
}
