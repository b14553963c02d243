//! What a seat is asked, and what it answers after its list.
ghost use Rattle.std.specs.Prelude.{◌≡◌, length, IfOk};

use super::Seat;
use crate::sealed::Naming;
use gh_base::NoMemory;
use traffic_core::Query;

/// An answer that is right after the first so many entries of the log.
#[derive(Debug, Clone, Copy, PartialEq, Eq, Drop)]
pub struct Asked<A> {
    pub at: u32,
    pub answer: A,
}

impl<'l, 'g, J: Naming> Seat<'l, 'g, J> {
    /// The answer to a query after the list, by the preparation in the slot of its profile, or by none.
    pub fn ask<Q: Query>(&self, query: &Q) -> Result<Asked<Q::Answer>, NoMemory>
        requires { Q.asks query.now J.land }
        ensures at { IfOk result (λ asked. asked.at ≡ length self.now.entries) }
        ensures right { IfOk result (λ asked. Q.right query.now J.land self.now.entries asked.answer) }
    {
        let prep = self.replay.preparation(query.profile());
        let answer = query.ask(self.alloc, self.replay.state(), prep)?;
        Ok(Asked {
            at: self.len(),
            answer,
        })
    }
}
