//! The laws. Each function does nothing: what it ensures is the law.
ghost use Rattle.script_laws.specs.Samples.{RepliesAreSo, EntriesAreSo};
ghost use Rattle.script_laws.specs.Telling.{LinesTellReplies};
ghost use Rattle.script_laws.specs.Laws.{CommandsAreRead, ProfilesAreRead, JournalIsRead, ActorsAreRead, SyncIsRead, ScriptsAreRead};

/// The words of a command behind an actor's name say this command of this actor.
pub fn commands_are_read()
    ensures { CommandsAreRead }
{}

/// `profile`, a new name and a vehicle declare this profile.
pub fn profiles_are_read()
    ensures { ProfilesAreRead }
{}

/// `journal` and a number say how many entries it may have.
pub fn journal_is_read()
    ensures { JournalIsRead }
{}

/// `actor` and a new name declare this actor.
pub fn actors_are_read()
    ensures { ActorsAreRead }
{}

/// `sync` ends a phase.
pub fn sync_is_read()
    ensures { SyncIsRead }
{}

/// A script that is written is read as that script: its profiles, its capacity, its actors, and phase by phase
/// their commands.
pub fn scripts_are_read()
    ensures { ScriptsAreRead }
{}

/// Each reply has its words, behind its actor, its number and the number of entries.
pub fn replies_are_so()
    ensures { RepliesAreSo }
{}

/// The line of a reply tells the actor, the command's number, the number of entries and the reply: two of which one
/// differs have different lines.
pub fn lines_tell_replies()
    ensures { LinesTellReplies }
{}

/// Each entry has its words, behind its place, its actor and its number.
pub fn entries_are_so()
    ensures { EntriesAreSo }
{}
