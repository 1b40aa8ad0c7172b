//! Nodes of a level that are found, each once.
ghost use Rattle.std.specs.Prelude.{◌≡◌, ◌∷◌, [], ℕ, OnOk};
ghost use Rattle.lsys_spec.specs.Rows.{In};
ghost use Rattle.lsys_reads.specs.Neighbours.{IsOnLevel, neighbours_in};
ghost use Rattle.lsys_reads.specs.Seats.{HasSeat, SameSeats, KeepsSeats};
ghost use Rattle.lsys_front.specs.Finds.{AllMarked, IsTurned, IsBeside, IsReader, IsAtOrBeside};
ghost use Rattle.lsys_front.specs.Gatherings.{MarksThese, GathersTurned, GathersBeside, GathersNear, GathersReaders};

use crate::gather::{gather, gather_any, gather_tags};
use lsys_forest::{Forest, Kept, NodeId};
use lsys_level::{LevelView, Tag};
use lsys_reads::{Reads, Seats};
use std::alloc::AllocError;

/// Marks these nodes. It takes no memory.
pub(crate) fn mark_all(seats: &mut Seats, nodes: &[NodeId])
    requires room { (k : ℕ) → In k nodes.now → HasSeat seats.old k }
    ensures marks { MarksThese nodes.now seats.old seats.new }
    ensures seats { SameSeats seats.old seats.new }
    ensures keeps { KeepsSeats seats.old seats.new }
{
    for node in nodes {
        let _ = seats.mark(*node);
    }
}

/// Marks and adds the nodes among these, of a complete level, that have other neighbours, or another mate, than their seats
/// tell. One that is marked stays out: so a node that came, which is marked, isn't compared with a seat that it never had.
///
/// # Errors
///
/// Out of memory. Those that were added then are marked, and no others.
pub(crate) fn find_turned<A: Kept>(
    forest: &Forest<A>,
    seats: &mut Seats,
    looked: &[NodeId],
    turned: &mut Vec<NodeId>,
) -> Result<(), AllocError>
    requires levels { (k : ℕ) → In k looked.now → IsOnLevel forest.now k }
    requires room { (k : ℕ) → In k looked.now → HasSeat seats.old k }
    ensures gathers { GathersTurned forest.now looked.now seats.old seats.new turned.old turned.new }
    ensures all { OnOk result (AllMarked (IsTurned forest.now seats.old looked.now) seats.new) }
{
    for node in looked {
        gather_turned(forest, seats, *node, turned)?;
    }
    Ok(())
}

/// Marks and adds a node that has other neighbours, or another mate, than its seat tells.
fn gather_turned<A: Kept>(
    forest: &Forest<A>,
    seats: &mut Seats,
    node: NodeId,
    turned: &mut Vec<NodeId>,
) -> Result<(), AllocError>
    requires level { IsOnLevel forest.now node }
    requires room { HasSeat seats.old node }
    ensures gathers { GathersTurned forest.now (node ∷ []) seats.old seats.new turned.old turned.new }
    ensures all { OnOk result (AllMarked (IsTurned forest.now seats.old (node ∷ [])) seats.new) }
{
    if seats.is_marked(node) || seats.is_seated(forest, node) {
        return Ok(());
    }
    gather(seats, node, turned)
}

/// Marks and adds these nodes of a complete level, whose symbols changed, and those beside them. One that is marked stays
/// out.
///
/// # Errors
///
/// Out of memory. Those that were added then are marked, and no others.
pub(crate) fn find_beside<A: Kept>(
    forest: &Forest<A>,
    seats: &mut Seats,
    changed: &[NodeId],
    beside: &mut Vec<NodeId>,
) -> Result<(), AllocError>
    requires levels { (k : ℕ) → In k changed.now → IsOnLevel forest.now k }
    requires room { (k : ℕ) → IsBeside forest.now changed.now k → HasSeat seats.old k }
    ensures gathers { GathersBeside forest.now changed.now seats.old seats.new beside.old beside.new }
    ensures all { OnOk result (AllMarked (IsBeside forest.now changed.now) seats.new) }
{
    for node in changed {
        gather_near(forest, seats, *node, beside)?;
    }
    Ok(())
}

/// Marks and adds a node and those beside it, from left to right.
fn gather_near<A: Kept>(
    forest: &Forest<A>,
    seats: &mut Seats,
    node: NodeId,
    beside: &mut Vec<NodeId>,
) -> Result<(), AllocError>
    requires level { IsOnLevel forest.now node }
    requires room { (k : ℕ) → IsAtOrBeside forest.now node k → HasSeat seats.old k }
    ensures gathers { GathersNear forest.now node seats.old seats.new beside.old beside.new }
    ensures all { OnOk result (AllMarked (IsAtOrBeside forest.now node) seats.new) }
{
    gather_any(seats, left_of(forest, node), beside)?;
    gather(seats, node, beside)?;
    gather_any(seats, right_of(forest, node), beside)?;
    Ok(())
}

/// The left neighbour of a node.
fn left_of<A: Kept>(forest: &Forest<A>, node: NodeId) -> Option<NodeId>
    requires { IsOnLevel forest.now node }
    ensures { result ≡ (neighbours_in forest.now node).left }
{
    forest.left(node)
}

/// The right neighbour of a node.
fn right_of<A: Kept>(forest: &Forest<A>, node: NodeId) -> Option<NodeId>
    requires { IsOnLevel forest.now node }
    ensures { result ≡ (neighbours_in forest.now node).right }
{
    forest.right(node)
}

/// Marks and adds the settled readers of these nodes. One that is marked stays out: so one that is gone, which is marked,
/// isn't asked.
///
/// # Errors
///
/// Out of memory. Those that were added then are marked, and no others.
pub(crate) fn find_readers(
    reads: &Reads,
    seats: &mut Seats,
    seen: &[NodeId],
    readers: &mut Vec<NodeId>,
) -> Result<(), AllocError>
    requires room { (k : ℕ) → IsReader reads.now seen.now k → HasSeat seats.old k }
    ensures gathers { GathersReaders reads.now seen.now seats.old seats.new readers.old readers.new }
    ensures all { OnOk result (AllMarked (IsReader reads.now seen.now) seats.new) }
{
    for node in seen {
        gather_tags(seats, reads.readers_of(Tag(node.0)), readers)?;
    }
    Ok(())
}
