//! What is printed of answers and of replies of the layers below.
ghost use Rattle.std.specs.Prelude.{◌≡◌};
ghost use Rattle.script_service.specs.Replying as spec;
ghost use Rattle.script_service.specs.SeatReplies as seat;

use crate::told::Told;
use gh_base::RouteAnswer;
use route_sessions::ModelReply;
use script_text::Reply;
use traffic_share::{LowerReply, PublishReply, RestoreReply};

/// What is printed of an answer.
pub fn reply_of(answer: RouteAnswer) -> Reply
    ensures { result ≡ spec.reply_of answer }
{
    match answer {
        RouteAnswer::NoNode { id } => Reply::NoNode { id },
        RouteAnswer::NoSnap { point } => Reply::NoSnap { point },
        RouteAnswer::NoRoute { settled } => Reply::NoRoute { settled },
        RouteAnswer::WeightOverflow { weight } => Reply::Overflow { weight },
        RouteAnswer::Walk {
            weight,
            mm,
            settled,
            hops,
        } => Reply::Route {
            weight,
            mm,
            settled,
            hops,
        },
        RouteAnswer::Labelled { weight, labels } => Reply::Labels { weight, labels },
    }
}

/// What is printed where a model is taken, or refused.
pub fn reply_of_model(reply: ModelReply) -> Reply
    ensures { result ≡ spec.reply_of_model reply }
{
    match reply {
        ModelReply::Taken => Reply::Taken,
        ModelReply::BadJson { byte, kind } => Reply::BadJson { byte, kind },
        ModelReply::BadModel { place, kind } => Reply::BadModel { place, kind },
        ModelReply::Speeds(offender) => Reply::Speeds(offender),
    }
}

/// What is told of a reply to a lowering, where the list has `len` entries.
pub fn told_of_lower(len: u32, reply: LowerReply) -> Told
    ensures { result ≡ seat.told_of_lower len reply }
{
    let (at, reply) = match reply {
        LowerReply::NoSuchEdge { .. } => (len, Reply::NoSuchEdge),
        LowerReply::NotLower { at, now } => (at, Reply::NotLower { now }),
        LowerReply::JournalFull { at } => (at, Reply::JournalFull),
        LowerReply::Lowered { at } => (at, Reply::Lowered),
    };
    Told { at, reply }
}

/// What is told of a reply to a restoring, where the list has `len` entries.
pub fn told_of_restore(len: u32, reply: RestoreReply) -> Told
    ensures { result ≡ seat.told_of_restore len reply }
{
    let (at, reply) = match reply {
        RestoreReply::NoSuchEdge { .. } => (len, Reply::NoSuchEdge),
        RestoreReply::NotHigher { at, now } => (at, Reply::NotHigher { now }),
        RestoreReply::OverBase { at, base } => (at, Reply::OverBase { base }),
        RestoreReply::JournalFull { at } => (at, Reply::JournalFull),
        RestoreReply::Restored { at } => (at, Reply::Restored),
    };
    Told { at, reply }
}

/// What is told of a reply to a publication.
pub fn told_of_publish(reply: PublishReply) -> Told
    ensures { result ≡ seat.told_of_publish reply }
{
    let (at, reply) = match reply {
        PublishReply::NotInForce {
            at,
            edge,
            then,
            now,
        } => (at, Reply::NotInForce { edge, then, now }),
        PublishReply::JournalFull { at } => (at, Reply::JournalFull),
        PublishReply::Published { at } => (at, Reply::Published),
    };
    Told { at, reply }
}
