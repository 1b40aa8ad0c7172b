//! The last level of a system.
ghost use Rattle.std.specs.Prelude.{◌≡◌, ◌≤◌, ◌<◌, ◌+◌, ◌^◌, ◌++◌, ◌∷◌, ℕ, [], OnOk};
ghost use Rattle.lsys_spec.specs.Rows.{In, AreApart};
ghost use Rattle.lsys_forest.specs.Groves.{now_of, live_nodes, IsLive};
ghost use Rattle.lsys_reads.specs.Looks.{kids_of};
ghost use Rattle.lsys_front.specs.Losses.{LosesOnly};
ghost use Rattle.lsys_front.specs.Ends.{AreEnded, is_answered};
ghost use Rattle.lsys_front.specs.Dropped.{AddsKids, DropsOf, LosesAnswer, LosesChildren, DropsRows, KidsLive};

use lsys_forest::{Forest, Kept, NodeId};
use lsys_level::Tag;
use std::alloc::{AllocError, Global};

/// Takes the answers and the children of the nodes of a last level. Those that were their children come after `below`, and
/// those that had an answer after `dropped`. No other node changes.
///
/// # Errors
///
/// Out of memory, which may come between two nodes. The last rest stays then too, and no answer is new.
pub fn end_level<A: Kept>(
    forest: &mut Forest<A>,
    nodes: &[NodeId],
    below: &mut Vec<NodeId>,
    dropped: &mut Vec<Tag>,
) -> Result<(), AllocError>
    requires few { live_nodes forest.old < 2 ^ 32 }
    requires lives { (k : ℕ) → In k nodes.now → IsLive forest.old k }
    requires apart { AreApart nodes.now }
    ensures ended { OnOk result (AreEnded (now_of forest.old) (now_of forest.new) nodes.now) }
    ensures below { OnOk result (AddsKids forest.old nodes.now below.old below.new) }
    ensures dropped { OnOk result (DropsOf forest.old nodes.now dropped.old dropped.new) }
    ensures loses { LosesOnly forest.old forest.new }
{
    forest.reserve(0, 0, 0, nodes.len() * 2)?;
    for node in nodes {
        end_node(forest, *node, below, dropped)?;
    }
    Ok(())
}

/// The same for one node.
fn end_node<A: Kept>(
    forest: &mut Forest<A>,
    node: NodeId,
    below: &mut Vec<NodeId>,
    dropped: &mut Vec<Tag>,
) -> Result<(), AllocError>
    requires lives { IsLive forest.old node }
    requires notes { 2 ≤ forest.old.spare_notes }
    ensures ended { OnOk result (AreEnded (now_of forest.old) (now_of forest.new) (node ∷ [])) }
    ensures below { OnOk result (below.new.items ≡ below.old.items ++ kids_of forest.old node) }
    ensures dropped { OnOk result (DropsOf forest.old (node ∷ []) dropped.old dropped.new) }
    ensures loses { LosesOnly forest.old forest.new }
    ensures notes { forest.old.spare_notes ≤ forest.new.spare_notes + 2 }
{
    take_answer(forest, node, dropped)?;
    take_children(forest, node, below)
}

/// Takes the answer of a node that keeps one.
fn take_answer<A: Kept>(
    forest: &mut Forest<A>,
    node: NodeId,
    dropped: &mut Vec<Tag>,
) -> Result<(), AllocError>
    requires lives { IsLive forest.old node }
    requires notes { 0 < forest.old.spare_notes }
    ensures taken { OnOk result (LosesAnswer forest.old forest.new node) }
    ensures dropped { OnOk result (DropsOf forest.old (node ∷ []) dropped.old dropped.new) }
    ensures loses { LosesOnly forest.old forest.new }
    ensures notes { forest.old.spare_notes ≤ forest.new.spare_notes + 1 }
{
    if keeps_answer(forest, node) {
        dropped.push(Tag(node.0))?;
        forest.set_answer(node, None);
    }
    Ok(())
}

/// Takes the children of a node that has any.
fn take_children<A: Kept>(
    forest: &mut Forest<A>,
    node: NodeId,
    below: &mut Vec<NodeId>,
) -> Result<(), AllocError>
    requires lives { IsLive forest.old node }
    requires notes { 0 < forest.old.spare_notes }
    ensures taken { OnOk result (LosesChildren forest.old forest.new node) }
    ensures below { OnOk result (below.new.items ≡ below.old.items ++ kids_of forest.old node) }
    ensures loses { LosesOnly forest.old forest.new }
    ensures notes { forest.old.spare_notes ≤ forest.new.spare_notes + 1 }
{
    let kids = forest.children(node);
    if !kids.is_empty() {
        below.extend_from_slice(kids)?;
        forest.set_children(node, &[]);
    }
    Ok(())
}

/// Whether a node keeps an answer.
fn keeps_answer<A: Kept>(forest: &Forest<A>, node: NodeId) -> bool
    requires { IsLive forest.now node }
    ensures { result ≡ is_answered (now_of forest.now) node }
{
    forest.answer(node).is_some()
}

/// Those of these nodes that keep an answer come after `dropped`, and then those of the nodes below them, level by level: of so
/// many levels, that of these nodes among them. It stops at a level that has no nodes. The forest is only read.
///
/// # Errors
///
/// Out of memory.
pub fn drop_below<A: Kept>(
    alloc: Global,
    forest: &Forest<A>,
    nodes: Vec<NodeId>,
    levels: u32,
    dropped: &mut Vec<Tag>,
) -> Result<(), AllocError>
    requires lives { (k : ℕ) → In k nodes.items → IsLive forest.now k }
    ensures dropped { OnOk result (DropsRows forest.now levels nodes.items dropped.old dropped.new) }
{
    let mut row = nodes;
    for _ in 0..levels {
        if row.is_empty() {
            break;
        }
        add_answered(forest, &row, dropped)?;
        let mut next = Vec::new(alloc);
        add_children(forest, &row, &mut next)?;
        row = next;
    }
    Ok(())
}

/// Those of these nodes that keep an answer come after `dropped`. It costs steps by the number of the nodes.
///
/// # Errors
///
/// Out of memory.
pub fn add_answered<A: Kept>(
    forest: &Forest<A>,
    nodes: &[NodeId],
    dropped: &mut Vec<Tag>,
) -> Result<(), AllocError>
    requires lives { (k : ℕ) → In k nodes.now → IsLive forest.now k }
    ensures dropped { OnOk result (DropsOf forest.now nodes.now dropped.old dropped.new) }
{
    for node in nodes {
        if keeps_answer(forest, *node) {
            dropped.push(Tag(node.0))?;
        }
    }
    Ok(())
}

/// The children of these nodes come after `below`, in order.
///
/// # Errors
///
/// Out of memory.
pub fn add_children<A: Kept>(
    forest: &Forest<A>,
    nodes: &[NodeId],
    below: &mut Vec<NodeId>,
) -> Result<(), AllocError>
    requires lives { (k : ℕ) → In k nodes.now → IsLive forest.now k }
    ensures below { OnOk result (AddsKids forest.now nodes.now below.old below.new) }
    ensures lives { OnOk result (KidsLive forest.now nodes.now) }
{
    for node in nodes {
        below.extend_from_slice(forest.children(*node))?;
    }
    Ok(())
}
