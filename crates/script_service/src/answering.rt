//! The answer to one command of an actor.
ghost use Rattle.std.specs.Prelude.{◌≡◌, ◌<◌, length, IfOk};
ghost use Rattle.script_text.specs.Scripts.{IsCommand};
ghost use Rattle.gh_base.specs.Places.{IsPlace};
ghost use Rattle.route_sessions.specs.Sessions.{IsInForce};
ghost use Rattle.script_service.specs.Replying.{IsRightQuery, asks_under};
ghost use Rattle.script_service.specs.SeatReplies.{Answers, IsSeatAfter};

use crate::memory::Memory;
use crate::replying::{reply_of, reply_of_model, told_of_lower, told_of_publish, told_of_restore};
use crate::told::Told;
use gh_base::{NoMemory, Place};
use route_sessions::Session;
use script_text::{Command, Line, Reply};
use std::alloc::Global;
use std::thread::Threads;
use traffic_core::RouteQuery;
use traffic_share::{Asked, Naming, Seat};

/// A model as the rule, or why it is none.
fn take_model<J: Naming>(
    alloc: Global,
    seat: &Seat<'_, '_, J>,
    memory: &mut Memory<J>,
    line: &Line,
    profile: u32,
    text: &[u8],
) -> Result<Told, NoMemory>
    requires is { line.now.command ≡ Command.Model profile text.now }
    requires command { IsCommand (length J.land.profiles) line.now.command }
    ensures { IfOk result (Answers J.land seat.now seat.now memory.old memory.new line.now) }
{
    let reply = memory.take_model(alloc, seat.ground(), profile, text)?;
    Ok(Told {
        at: seat.len(),
        reply: reply_of_model(reply),
    })
}

/// A least walk under the rule in force after the entries of the seat's list, or why there is none to print.
fn ask_route<J: Naming>(
    seat: &Seat<'_, '_, J>,
    session: &Session,
    from: Place,
    to: Place,
    labels: bool,
) -> Result<Told, NoMemory>
    requires in_force { IsInForce J.land.profiles session.now }
    requires from { IsPlace from }
    requires to { IsPlace to }
    ensures at { IfOk result (λ told. told.at ≡ length seat.now.entries) }
    ensures right { IfOk result (λ told.
        IsRightQuery J.land seat.now.entries (asks_under session.now from to labels) told.reply) }
{
    let query = RouteQuery {
        profile: session.profile(),
        model: session.model(),
        from,
        to,
        labels,
    };
    let Asked { at, answer } = seat.ask(&query)?;
    Ok(Told {
        at,
        reply: reply_of(answer),
    })
}

/// A preparation of a profile, which the actor holds then, or that no road can be used under the profile.
fn prepare<J: Naming, R: Threads + Sync>(
    rt: &R,
    seat: &Seat<'_, '_, J>,
    memory: &mut Memory<J>,
    line: &Line,
    profile: u32,
    count: u32,
) -> Result<Told, NoMemory>
    requires is { line.now.command ≡ Command.Prepare profile count }
    requires command { IsCommand (length J.land.profiles) line.now.command }
    ensures { IfOk result (Answers J.land seat.now seat.now memory.old memory.new line.now) }
{
    let at = seat.len();
    match seat.prepare(rt, profile, count)? {
        Some(prep) => {
            let landmarks = prep.shared().prep().landmark_count();
            memory.hold(profile, prep);
            let reply = Reply::Prepared { landmarks };
            Ok(Told { at, reply })
        }
        None => {
            let reply = Reply::NoLandmark;
            Ok(Told { at, reply })
        }
    }
}

/// The preparation of a profile that the actor holds, for all, or why not.
fn publish<J: Naming>(
    seat: &mut Seat<'_, '_, J>,
    memory: &mut Memory<J>,
    line: &Line,
    profile: u32,
) -> Result<Told, NoMemory>
    requires own { line.now.actor ≡ seat.old.actor }
    requires more { seat.old.last < line.now.number }
    requires is { line.now.command ≡ Command.Publish profile }
    requires command { IsCommand (length J.land.profiles) line.now.command }
    ensures after { IsSeatAfter line.now.number seat.old seat.new }
    ensures follows { IfOk result (Answers J.land seat.old seat.new memory.old memory.new line.now) }
{
    let Some(prep) = memory.held(profile) else {
        let reply = Reply::Nothing;
        return Ok(Told {
            at: seat.len(),
            reply,
        });
    };
    let reply = seat.publish(line.number, prep)?;
    memory.leave(profile, &reply);
    Ok(told_of_publish(reply))
}

/// Answers one command of the seat's actor: the reply is right after the entries of the list as it is then, and speaks
/// of all of them. After `NoMemory` there is no reply.
pub fn answer<J: Naming, R: Threads + Sync>(
    rt: &R,
    alloc: Global,
    seat: &mut Seat<'_, '_, J>,
    memory: &mut Memory<J>,
    line: &Line,
) -> Result<Told, NoMemory>
    requires own { line.now.actor ≡ seat.old.actor }
    requires more { seat.old.last < line.now.number }
    requires command { IsCommand (length J.land.profiles) line.now.command }
    ensures after { IsSeatAfter line.now.number seat.old seat.new }
    ensures follows { IfOk result (Answers J.land seat.old seat.new memory.old memory.new line.now) }
{
    match &line.command {
        Command::Model { profile, text } => {
            take_model(alloc, seat, memory, line, *profile, text.as_bytes())
        }
        Command::Route { from, to, labels } => {
            ask_route(seat, memory.session(), *from, *to, *labels)
        }
        Command::Lower {
            edge,
            reverse,
            speed,
        } => {
            let reply = seat.lower(line.number, *edge, *reverse, *speed)?;
            Ok(told_of_lower(seat.len(), reply))
        }
        Command::Restore {
            edge,
            reverse,
            speed,
        } => {
            let reply = seat.restore(line.number, *edge, *reverse, *speed)?;
            Ok(told_of_restore(seat.len(), reply))
        }
        Command::Prepare { profile, count } => prepare(rt, seat, memory, line, *profile, *count),
        Command::Publish { profile } => publish(seat, memory, line, *profile),
    }
}
