//! A seat.
ghost use Rattle.std.specs.Prelude.{◌≡◌, ◌↔◌, IsTrue, Some, false};
ghost use Rattle.std.specs.Option.{unwrap_or};
ghost use Rattle.lsys_reads.specs.Neighbours.{neighbours_in, IsOnLevel};
ghost use Rattle.lsys_reads.specs.Seats.{seat_told, TellTheSame};

use lsys_forest::{Forest, Kept, NodeId};

/// Who is beside a node, and its mate. Its own number stands for nobody.
#[derive(Clone, Copy, Drop)]
pub(crate) struct Seat {
    pub(crate) left: NodeId,
    pub(crate) right: NodeId,
    pub(crate) mate: NodeId,
    pub(crate) marked: bool,
}

/// The seat of a node that has nobody beside it, not marked.
pub(crate) fn lone_seat(node: NodeId) -> Seat
    ensures left { result.left ≡ node }
    ensures right { result.right ≡ node }
    ensures mate { result.mate ≡ node }
    ensures marked { result.marked ≡ false }
{
    Seat {
        left: node,
        right: node,
        mate: node,
        marked: false,
    }
}

/// The seat of a node of a complete level, with this mark.
pub(crate) fn seat_in<A: Kept>(forest: &Forest<A>, node: NodeId, marked: bool) -> Seat
    requires { IsOnLevel forest.now node }
    ensures told { seat_told node (Some result) ≡ neighbours_in forest.now node }
    ensures marked { result.marked ≡ marked }
{
    let around = forest.around(node);
    Seat {
        left: or_own(around.left, node),
        right: or_own(around.right, node),
        mate: or_own(around.mate, node),
        marked,
    }
}

/// The other node, if there is one, and else the node itself.
#[inline]
fn or_own(other: Option<NodeId>, node: NodeId) -> NodeId
    ensures { result ≡ unwrap_or other node }
{
    match other {
        Some(found) => found,
        None => node,
    }
}

/// Whether two seats of one node tell the same.
pub(crate) fn tell_same(one: Seat, two: Seat) -> bool
    ensures { IsTrue result ↔ TellTheSame one two }
{
    one.left == two.left && one.right == two.right && one.mate == two.mate
}
