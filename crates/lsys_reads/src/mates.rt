//! Brackets whose mates may be others.
ghost use Rattle.std.specs.Prelude.{ℕ, OnOk};
ghost use Rattle.lsys_spec.specs.Rows.{In};
ghost use Rattle.lsys_forest.specs.Groves.{IsLive, IsRooted, changes_in, now_of};
ghost use Rattle.lsys_reads.specs.Neighbours.{IsOnLevel};
ghost use Rattle.lsys_reads.specs.Looks.{LooksAtMate, LooksInto, kids_of};
ghost use Rattle.lsys_reads.specs.LooksOfAll.{LooksAtMates, AddsUnder, LooksIntoBranches, AddsUnderNode};

use lsys_forest::{Forest, Kept, NodeId};
use lsys_level::{LevelView, Sight};
use std::alloc::AllocError;

/// Adds the nodes to look at where these nodes of a complete level are new or have other children: the children of their mates.
///
/// # Errors
///
/// Out of memory. No node is taken away, and only nodes of the next level are added.
pub fn look_at_mates<A: Kept>(
    forest: &Forest<A>,
    touched: &[NodeId],
    looked: &mut Vec<NodeId>,
) -> Result<(), AllocError>
    requires levels { (q : ℕ) → In q touched.now → IsOnLevel forest.now q }
    requires sound { IsRooted forest.now.root (changes_in forest.now) (now_of forest.now) }
    ensures looks { OnOk result (LooksAtMates forest.now touched.now looked.new.items) }
    ensures keeps { OnOk result ((k : ℕ) → In k looked.old.items → In k looked.new.items) }
    ensures below { OnOk result (AddsUnder forest.now touched.now looked.old.items looked.new.items) }
{
    for node in touched {
        at_mate(forest, *node, looked)?;
    }
    Ok(())
}

/// Adds the nodes to look at where these nodes of a complete level are new or have another mate: the children of the brackets
/// among them.
///
/// # Errors
///
/// Out of memory. No node is taken away, and only nodes of the next level are added.
pub fn look_into_branches<A: Kept>(
    forest: &Forest<A>,
    turned: &[NodeId],
    looked: &mut Vec<NodeId>,
) -> Result<(), AllocError>
    requires { (q : ℕ) → In q turned.now → IsLive forest.now q }
    ensures looks { OnOk result (LooksIntoBranches forest.now turned.now looked.new.items) }
    ensures keeps { OnOk result ((k : ℕ) → In k looked.old.items → In k looked.new.items) }
    ensures below { OnOk result (AddsUnder forest.now turned.now looked.old.items looked.new.items) }
{
    for node in turned {
        into_branch(forest, *node, looked)?;
    }
    Ok(())
}

/// Adds the children of a node's mate, if it has one.
fn at_mate<A: Kept>(
    forest: &Forest<A>,
    node: NodeId,
    looked: &mut Vec<NodeId>,
) -> Result<(), AllocError>
    requires level { IsOnLevel forest.now node }
    requires sound { IsRooted forest.now.root (changes_in forest.now) (now_of forest.now) }
    ensures looks { OnOk result (LooksAtMate forest.now node looked.new.items) }
    ensures keeps { OnOk result ((k : ℕ) → In k looked.old.items → In k looked.new.items) }
    ensures below { OnOk result (AddsUnderNode forest.now node looked.old.items looked.new.items) }
{
    match forest.sight(node) {
        Sight::Push | Sight::Pop => add_children(forest, forest.mate(node), looked),
        Sight::Module { .. } => Ok(()),
    }
}

/// Adds the children of a bracket.
fn into_branch<A: Kept>(
    forest: &Forest<A>,
    node: NodeId,
    looked: &mut Vec<NodeId>,
) -> Result<(), AllocError>
    requires { IsLive forest.now node }
    ensures looks { OnOk result (LooksInto forest.now node looked.new.items) }
    ensures keeps { OnOk result ((k : ℕ) → In k looked.old.items → In k looked.new.items) }
    ensures below { OnOk result (AddsUnderNode forest.now node looked.old.items looked.new.items) }
{
    match forest.symbol(node) {
        Sight::Push | Sight::Pop => add_children(forest, node, looked),
        Sight::Module { .. } => Ok(()),
    }
}

/// Adds the children of a node.
fn add_children<A: Kept>(
    forest: &Forest<A>,
    node: NodeId,
    looked: &mut Vec<NodeId>,
) -> Result<(), AllocError>
    requires { IsLive forest.now node }
    ensures added { OnOk result ((k : ℕ) → In k (kids_of forest.now node) → In k looked.new.items) }
    ensures keeps { OnOk result ((k : ℕ) → In k looked.old.items → In k looked.new.items) }
    ensures below { OnOk result (AddsUnderNode forest.now node looked.old.items looked.new.items) }
{
    looked.extend_from_slice(forest.children(node))?;
    Ok(())
}
