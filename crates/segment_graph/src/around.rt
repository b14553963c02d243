//! What starts at a tower.
ghost use Rattle.std.specs.Prelude.{◌≡◌, ◌≤◌, ◌*◌, [], ◌∷◌, length, IfSome, IfNone};
ghost use Rattle.segment_graph.specs.Halves.{list_from};
ghost use Rattle.segment_graph.specs.Rows.{tower_by};

use crate::links::Links;
use gh_base::{DirEdge, EdgeId};
use std::marker::Model;

/// The directed edges that start at a tower, one after another. Contracts see the list of those not
/// given yet.
#[derive(Drop)]
pub struct Around<'a> {
    links: &'a Links,
    link: u32,
}

impl<'a> Model for Around<'a> {
    ghost use Rattle.std.specs.Prelude.{◌≤◌, ◌*◌, List, length};
    ghost use Rattle.gh_base.specs.declared.edges.DirEdge.{DirEdge};

    ghost Value = { List DirEdge };

    ghost use Rattle.segment_graph.specs.Halves.{list_from};
    ghost use Rattle.segment_graph.specs.Rows.{tower_by};

    ghost view = { λ a. list_from (tower_by a.links.now.rows) a.link };

    ghost invariant = { λ a. a.link ≤ 2 * length a.links.now.rows };
}

impl<'a> Around<'a> {
    pub(crate) fn new(links: &'a Links, link: u32) -> Around<'a>
        requires { link ≤ 2 * length links.now.rows }
        ensures { result ≡ list_from (tower_by links.now.rows) link }
    {
        Around { links, link }
    }

    /// The next directed edge, or None after the last.
    pub fn next(&mut self) -> Option<DirEdge>
        ensures some { IfSome result (λ by. self.old ≡ by ∷ self.new) }
        ensures none { IfNone result (self.old ≡ []) }
        ensures ended { IfNone result (self.new ≡ []) }
    {
        if self.link == 0 {
            return None;
        }
        let half = self.link - 1;
        self.link = self.links.behind(half);
        Some(DirEdge {
            edge: EdgeId(half / 2),
            reverse: half % 2 == 1,
        })
    }
}
