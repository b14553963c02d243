//! Where both sides meet.
ghost use Rattle.std.specs.Prelude.{◌≡◌, ◌+◌, ◌*◌, ◌^◌, ◌<◌, ◌≤◌, ◌↔◌, ◌⊎◌, ℕ, Some, length, IsTrue, IsSome, IfSome};
ghost use Rattle.alt_search.specs.declared.reach.Reach.{Reach};
ghost use Rattle.alt_search.specs.Progress.{reach_at};
ghost use Rattle.two_way_search.specs.Meetings.{IsNoHeavier, IsFound, MayGoOn};

use crate::side::Side;
use alt_search::Reached;
use gh_base::NodeId;

/// Over both keys: each is over 2^64.
const TWICE_ROOM: u128 = 1 << 65;

/// The node over which the best walk so far leads, and that walk's weight in ms.
#[derive(Clone, Copy, Debug)]
pub struct Meeting {
    pub node: NodeId,
    pub weight: u128,
}

/// The best walk, or a lighter one over a node that both sides know.
pub fn best_over(
    met: Option<Meeting>,
    node: NodeId,
    reached: &Reached,
    other: &Reached,
) -> Option<Meeting>
    requires reached { node.0 < length reached.now }
    requires other { node.0 < length other.now }
    requires here { (reach : Reach) →
        reach_at reached.now node.0 ≡ Some reach → reach.weight ≤ 2 ^ 96 }
    requires there { (reach : Reach) →
        reach_at other.now node.0 ≡ Some reach → reach.weight ≤ 2 ^ 96 }
    ensures node { IsNoHeavier reached.now other.now result node.0 }
    ensures others { IfSome met (λ m.
        IsSome result × IfSome result (λ best. best.weight ≤ m.weight)) }
    ensures found { IsFound reached.now other.now met → IsFound reached.now other.now result }
{
    let Some(there) = other.weight(node) else {
        return met
    };
    let Some(here) = reached.weight(node) else {
        return met
    };
    let weight = here + there;
    match met {
        Some(best) if best.weight <= weight => met,
        _ => Some(Meeting { node, weight }),
    }
}

/// Whether a walk that isn't known may be lighter than the best.
pub fn may_go_on(forward: &Side, backward: &Side, met: Option<Meeting>) -> bool
    requires first { IfSome forward.now.next (λ next. next.1 < 2 ^ 126) }
    requires second { IfSome backward.now.next (λ next. next.1 < 2 ^ 126) }
    requires met { IfSome met (λ m. m.weight < 2 ^ 126) }
    ensures { IsTrue result ↔ MayGoOn forward.now.next backward.now.next met }
{
    let Some((_, first)) = forward.next else {
        return false
    };
    let Some((_, second)) = backward.next else {
        return false
    };
    match met {
        Some(best) => first + second < 2 * best.weight + TWICE_ROOM,
        None => true,
    }
}
