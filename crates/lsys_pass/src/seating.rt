//! Seats of many nodes.
ghost use Rattle.std.specs.Prelude.{◌≡◌, ℕ, OnOk};
ghost use Rattle.lsys_spec.specs.Rows.{In};
ghost use Rattle.lsys_forest.specs.Groves.{IsLive};
ghost use Rattle.lsys_reads.specs.Neighbours.{neighbours_in, IsOnLevel};
ghost use Rattle.lsys_reads.specs.Seats.{neighbours_at, HasSeat, SameSeats, SameMarks, KeepsSeats};
ghost use Rattle.lsys_pass.specs.SeatedAnew.{KeepsOtherSeats};

use lsys_forest::{Forest, Kept, NodeId};
use lsys_reads::Seats;
use std::alloc::AllocError;

/// Sets the seats of these nodes: each tells who is beside its node now. It takes no memory.
pub(crate) fn seat_all<A: Kept>(seats: &mut Seats, forest: &Forest<A>, nodes: &[NodeId])
    requires levels { (k : ℕ) → In k nodes.now → IsOnLevel forest.now k }
    requires room { (k : ℕ) → In k nodes.now → HasSeat seats.old k }
    ensures seated { (k : ℕ) → In k nodes.now
        → neighbours_at seats.new k ≡ neighbours_in forest.now k }
    ensures others { KeepsOtherSeats seats.old seats.new nodes.now }
    ensures marks { SameMarks seats.old seats.new }
    ensures keeps { KeepsSeats seats.old seats.new }
{
    for node in nodes {
        seats.seat(forest, *node);
    }
}

/// Makes a seat for each node of a forest that has none: one that tells of nobody, not marked. All else stays. There are
/// then seats for all nodes that the forest has room for.
///
/// # Errors
///
/// Out of memory. What the seats tell, and the marks, stay then too.
pub(crate) fn make_seats<A: Kept>(seats: &mut Seats, forest: &Forest<A>) -> Result<(), AllocError>
    ensures seats { SameSeats seats.old seats.new }
    ensures marks { SameMarks seats.old seats.new }
    ensures keeps { KeepsSeats seats.old seats.new }
    ensures room { OnOk result ((k : ℕ) → IsLive forest.now k → HasSeat seats.new k) }
{
    match u32::try_from(forest.numbers().saturating_sub(1)) {
        Ok(last) => seats.make_room(NodeId(last)),
        Err(_) => Err(AllocError),
    }
}
