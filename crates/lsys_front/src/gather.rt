//! Nodes, each once.
ghost use Rattle.std.specs.Prelude.{◌≡◌, ℕ, OnOk, true, Some};
ghost use Rattle.lsys_spec.specs.Rows.{In};
ghost use Rattle.lsys_reads.specs.Seats.{is_marked, HasSeat};
ghost use Rattle.lsys_front.specs.Finds.{AllMarked};
ghost use Rattle.lsys_front.specs.Gatherings.{GathersInto};

use lsys_forest::NodeId;
use lsys_level::Tag;
use lsys_reads::Seats;
use std::alloc::AllocError;

/// Marks a node, and adds it if it had no mark.
pub(crate) fn gather(
    seats: &mut Seats,
    node: NodeId,
    nodes: &mut Vec<NodeId>,
) -> Result<(), AllocError>
    requires { HasSeat seats.old node }
    ensures gathers { GathersInto (λ k. k ≡ node) seats.old seats.new nodes.old nodes.new }
    ensures marked { OnOk result (is_marked seats.new node ≡ true) }
{
    nodes.reserve(1)?;
    if seats.mark(node) {
        match nodes.push(node) {
            Ok(()) => {}
            Err(_) => unreachable!(),
        }
    }
    Ok(())
}

/// The same, if there is one.
pub(crate) fn gather_any(
    seats: &mut Seats,
    node: Option<NodeId>,
    nodes: &mut Vec<NodeId>,
) -> Result<(), AllocError>
    requires { (k : ℕ) → node ≡ Some k → HasSeat seats.old k }
    ensures gathers { GathersInto (λ k. node ≡ Some k) seats.old seats.new nodes.old nodes.new }
    ensures marked { OnOk result ((k : ℕ) → node ≡ Some k → is_marked seats.new k ≡ true) }
{
    match node {
        Some(found) => gather(seats, found, nodes),
        None => Ok(()),
    }
}

/// Marks and adds these nodes. One that is marked stays out, so none is added twice.
///
/// It costs steps by the number of these.
///
/// # Errors
///
/// Out of memory. Those that were added then are marked, and no others.
pub(crate) fn gather_nodes(
    seats: &mut Seats,
    these: &[NodeId],
    nodes: &mut Vec<NodeId>,
) -> Result<(), AllocError>
    requires room { (k : ℕ) → In k these.now → HasSeat seats.old k }
    ensures gathers { GathersInto (λ k. In k these.now) seats.old seats.new nodes.old nodes.new }
    ensures all { OnOk result (AllMarked (λ k. In k these.now) seats.new) }
{
    for node in these {
        gather(seats, *node, nodes)?;
    }
    Ok(())
}

/// The same of the nodes with these tags.
///
/// # Errors
///
/// Out of memory. Those that were added then are marked, and no others.
pub(crate) fn gather_tags(
    seats: &mut Seats,
    tags: &[Tag],
    nodes: &mut Vec<NodeId>,
) -> Result<(), AllocError>
    requires room { (k : ℕ) → In k tags.now → HasSeat seats.old k }
    ensures gathers { GathersInto (λ k. In k tags.now) seats.old seats.new nodes.old nodes.new }
    ensures all { OnOk result (AllMarked (λ k. In k tags.now) seats.new) }
{
    for tag in tags {
        gather(seats, NodeId(tag.0), nodes)?;
    }
    Ok(())
}
