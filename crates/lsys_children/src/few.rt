//! A few children and the old ones, matched one with another: no map is filled for them.
ghost use Rattle.std.specs.Prelude.{◌≡◌, ◌≢◌, ◌++◌, ℕ, cond, Some, OnOk};
ghost use Rattle.lsys_spec.specs.Rows.{In};
ghost use Rattle.lsys_forest.specs.Groves.{now_of, IsLive};
ghost use Rattle.lsys_children.specs.Matches.{has_number, node_numbered};
ghost use Rattle.lsys_children.specs.Children.{numbers_of, found_each, unwanted_of};
ghost use Rattle.lsys_children.specs.Numbered.{node_if_unwanted};

use crate::brood::number;
use crate::child::Child;
use crate::number::Number;
use lsys_forest::{Forest, Kept, NodeId};
use std::alloc::AllocError;

/// Of each of these children, the node that has its number, if there is one. It costs a step for each of both.
pub(crate) fn find_each<A: Kept>(
    forest: &Forest<A>,
    kids: &[NodeId],
    wanted: &[Child],
    found: &mut Vec<Option<NodeId>>,
) -> Result<(), AllocError>
    requires kids { (k : ℕ) → In k kids.now → IsLive forest.now k × (k ≢ forest.now.root) }
    ensures { OnOk result (found.new.items ≡ found_each (now_of forest.now) kids.now wanted.now) }
{
    found.clear();
    for child in wanted {
        found.push(node_with(forest, kids, child.number))?;
    }
    Ok(())
}

/// Those of these nodes that have none of these children's numbers. It costs a step for each of both.
pub(crate) fn leave_each<A: Kept>(
    forest: &Forest<A>,
    kids: &[NodeId],
    wanted: &[Child],
    gone: &mut Vec<NodeId>,
) -> Result<(), AllocError>
    requires kids { (k : ℕ) → In k kids.now → IsLive forest.now k × (k ≢ forest.now.root) }
    ensures { OnOk result (gone.new.items ≡ unwanted_of (now_of forest.now) kids.now wanted.now) }
{
    gone.clear();
    for kid in kids {
        put_unwanted(wanted, number(forest, *kid), *kid, gone)?;
    }
    Ok(())
}

/// Of these nodes the one that has this number, if there is one.
fn node_with<A: Kept>(forest: &Forest<A>, kids: &[NodeId], wanted: Number) -> Option<NodeId>
    requires kids { (k : ℕ) → In k kids.now → IsLive forest.now k × (k ≢ forest.now.root) }
    ensures { result ≡ node_numbered (now_of forest.now) kids.now wanted }
{
    let mut found = None;
    for kid in kids {
        found = node_or(number(forest, *kid) == wanted, *kid, found);
    }
    found
}

/// This node, if it has the number, and else the other one.
fn node_or(has_number: bool, node: NodeId, other: Option<NodeId>) -> Option<NodeId>
    ensures { result ≡ cond has_number (Some node) other }
{
    match has_number {
        true => Some(node),
        false => other,
    }
}

/// Whether one of these children has this number.
fn is_wanted(wanted: &[Child], number: Number) -> bool
    ensures { result ≡ has_number (numbers_of wanted.now) number }
{
    for child in wanted {
        if child.number == number {
            return true;
        }
    }
    false
}

/// Puts a node after the others if no child has its number.
fn put_unwanted(
    wanted: &[Child],
    number: Number,
    node: NodeId,
    gone: &mut Vec<NodeId>,
) -> Result<(), AllocError>
    ensures { OnOk result (gone.new.items ≡ gone.old.items ++ node_if_unwanted wanted.now number node) }
{
    if !is_wanted(wanted, number) {
        gone.push(node)?;
    }
    Ok(())
}
