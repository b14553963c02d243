//! The laws. Each function does nothing that shows: what it ensures is the law.
ghost use Rattle.script_service.specs.Laws.{OneJournal, OneText};

use landmark_prep::preparations_are_one;

/// Replies tell the journal: each entry is that of an accepted reply, and what is published is what its actor held.
pub fn replies_tell_the_journal()
    ensures journal { OneJournal }
    ensures text { OneText }
{
    preparations_are_one();
}
