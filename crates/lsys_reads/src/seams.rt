//! Nodes at a seam.
ghost use Rattle.std.specs.Prelude.{◌≡◌, ℕ, OnOk, Some};
ghost use Rattle.lsys_spec.specs.Rows.{In};
ghost use Rattle.lsys_forest.specs.Groves.{IsLive};
ghost use Rattle.lsys_forest.specs.Rows.{IsAtSpot};
ghost use Rattle.lsys_reads.specs.Looks.{LooksAround, LooksBeyond};
ghost use Rattle.lsys_reads.specs.LooksOfAll.{IsLastBefore, IsFirstAfter, LooksAroundAll, AddsUnder, LooksBeyondAll, AddsUnderNode, AddsAtMost};

use lsys_forest::{Forest, Kept, NodeId};
use lsys_level::LevelView;
use std::alloc::AllocError;

/// The last child of the nodes before this one of a complete level, in which no node stands twice; none where they have no
/// children.
fn last_before<A: Kept>(forest: &Forest<A>, node: NodeId) -> Option<NodeId>
    requires { IsAtSpot forest.now node }
    ensures { IsLastBefore forest.now node result }
{
    match forest.left(node) {
        Some(left) => forest.last_below(left),
        None => None,
    }
}

/// The first child of the nodes after this one of a complete level, in which no node stands twice; none where they have no
/// children.
fn first_after<A: Kept>(forest: &Forest<A>, node: NodeId) -> Option<NodeId>
    requires { IsAtSpot forest.now node }
    ensures { IsFirstAfter forest.now node result }
{
    match forest.right(node) {
        Some(right) => forest.first_below(right),
        None => None,
    }
}

/// Adds the nodes to look at where these nodes of a complete level are new or have other children: their children, and
/// before each and after it the next child of the others.
///
/// # Errors
///
/// Out of memory. No node is taken away, and only nodes of the next level are added.
pub fn look_around<A: Kept>(
    forest: &Forest<A>,
    touched: &[NodeId],
    looked: &mut Vec<NodeId>,
) -> Result<(), AllocError>
    requires spots { (q : ℕ) → In q touched.now → IsAtSpot forest.now q }
    requires lives { (q : ℕ) → In q touched.now → IsLive forest.now q }
    ensures looks { OnOk result (LooksAroundAll forest.now touched.now looked.new.items) }
    ensures keeps { OnOk result ((k : ℕ) → In k looked.old.items → In k looked.new.items) }
    ensures below { OnOk result (AddsUnder forest.now touched.now looked.old.items looked.new.items) }
{
    for node in touched {
        around(forest, *node, looked)?;
    }
    Ok(())
}

/// Adds the nodes to look at where these nodes of a complete level have other neighbours: the last child up to each, and the
/// first one from it on.
///
/// # Errors
///
/// Out of memory. No node is taken away, and only nodes of the next level are added.
pub fn look_beyond<A: Kept>(
    forest: &Forest<A>,
    turned: &[NodeId],
    looked: &mut Vec<NodeId>,
) -> Result<(), AllocError>
    requires { (q : ℕ) → In q turned.now → IsAtSpot forest.now q }
    ensures looks { OnOk result (LooksBeyondAll forest.now turned.now looked.new.items) }
    ensures keeps { OnOk result ((k : ℕ) → In k looked.old.items → In k looked.new.items) }
    ensures below { OnOk result (AddsUnder forest.now turned.now looked.old.items looked.new.items) }
{
    for node in turned {
        beyond(forest, *node, looked)?;
    }
    Ok(())
}

/// Adds the children of a node, the last child before it, and the first one after it.
fn around<A: Kept>(
    forest: &Forest<A>,
    node: NodeId,
    looked: &mut Vec<NodeId>,
) -> Result<(), AllocError>
    requires spot { IsAtSpot forest.now node }
    requires lives { IsLive forest.now node }
    ensures looks { OnOk result (LooksAround forest.now node looked.new.items) }
    ensures keeps { OnOk result ((k : ℕ) → In k looked.old.items → In k looked.new.items) }
    ensures below { OnOk result (AddsUnderNode forest.now node looked.old.items looked.new.items) }
{
    looked.extend_from_slice(forest.children(node))?;
    add(looked, last_before(forest, node))?;
    add(looked, first_after(forest, node))?;
    Ok(())
}

/// Adds the last child up to a node, and the first one from it on.
fn beyond<A: Kept>(
    forest: &Forest<A>,
    node: NodeId,
    looked: &mut Vec<NodeId>,
) -> Result<(), AllocError>
    requires { IsAtSpot forest.now node }
    ensures looks { OnOk result (LooksBeyond forest.now node looked.new.items) }
    ensures keeps { OnOk result ((k : ℕ) → In k looked.old.items → In k looked.new.items) }
    ensures below { OnOk result (AddsUnderNode forest.now node looked.old.items looked.new.items) }
{
    add(looked, forest.last_below(node))?;
    add(looked, forest.first_below(node))?;
    Ok(())
}

/// Adds a node, if there is one.
fn add(nodes: &mut Vec<NodeId>, node: Option<NodeId>) -> Result<(), AllocError>
    ensures added { OnOk result ((k : ℕ) → node ≡ Some k → In k nodes.new.items) }
    ensures keeps { OnOk result ((k : ℕ) → In k nodes.old.items → In k nodes.new.items) }
    ensures only { OnOk result (AddsAtMost node nodes.old.items nodes.new.items) }
{
    if let Some(found) = node {
        nodes.push(found)?;
    }
    Ok(())
}
