//! What threads share and what crosses them, as facts: the search for `Send` of an actor would not find these inside it.
ghost use denote.Param.Send.{IsSend, IsSync};
ghost use Rattle.route_sessions.specs.contracts.session.Session.{the_row as session};
ghost use Rattle.traffic_core.specs.contracts.ground.Ground.{the_row as ground};

use route_sessions::Session;
use traffic_core::Ground;

fn is_shared<T: Sync>()
    ensures { IsSync T.row }
{}

fn is_sent<T: Send>()
    ensures { IsSend T.row }
{}

/// Threads share the roads.
pub(crate) fn ground_is_shared()
    ensures { IsSync ground }
{
    is_shared::<Ground>();
}

/// A session crosses threads.
pub(crate) fn session_is_sent()
    ensures { IsSend session }
{
    is_sent::<Session>();
}
