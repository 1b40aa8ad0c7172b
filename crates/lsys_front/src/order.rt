//! Nodes of a level in order.
ghost use Rattle.std.specs.Prelude.{◌≡◌, ◌<◌, ◌↔◌, ◌⊎◌, ℕ, IsTrue, IfOk, OnOk, [], false, length};
ghost use Rattle.lsys_spec.specs.Rows.{In, AreApart};
ghost use Rattle.lsys_front.specs.Questioned.{AreOnOneLevel, AreInOrder};
ghost use Rattle.lsys_front.specs.Merges.{AreMergeable, AreMergedIn, IsBeforeNext};

use lsys_forest::{Forest, Kept, NodeId};
use std::alloc::{AllocError, Global};

/// These nodes of one complete level, none of them twice, in the order in which they come on it. Each half that stands in order
/// already costs a comparison for each of its nodes, and where both do, so do they together; at the worst it costs comparisons by
/// the number of nodes and its logarithm.
///
/// # Errors
///
/// Out of memory.
pub(crate) fn in_order<A: Kept>(
    alloc: Global,
    forest: &Forest<A>,
    nodes: &[NodeId],
) -> Result<Vec<NodeId>, AllocError>
    requires level { AreOnOneLevel forest.now nodes.now }
    requires apart { AreApart nodes.now }
    ensures same { IfOk result (λ found. (k : ℕ) → In k found.items ↔ In k nodes.now) }
    ensures order { IfOk result (λ found. AreInOrder forest.now found.items) }
{
    if is_in_order(forest, nodes) {
        return copied(alloc, nodes);
    }
    let half = nodes.len() / 2;
    let left = in_order(alloc, forest, &nodes[..half])?;
    let right = in_order(alloc, forest, &nodes[half..])?;
    let mut found = Vec::new(alloc);
    merge(forest, &left, &right, &mut found)?;
    Ok(found)
}

/// Whether these nodes of one complete level stand in order already. Two at least don't, if any.
fn is_in_order<A: Kept>(forest: &Forest<A>, nodes: &[NodeId]) -> bool
    requires level { AreOnOneLevel forest.now nodes.now }
    ensures order { IsTrue result → AreInOrder forest.now nodes.now }
    ensures some { result ≡ false → 1 < length nodes.now }
{
    let mut next = 1;
    while next < nodes.len() {
        let before = next - 1;
        if !forest.is_before(nodes[before], nodes[next]) {
            return false;
        }
        next += 1;
    }
    true
}

/// The same nodes once more.
fn copied(alloc: Global, nodes: &[NodeId]) -> Result<Vec<NodeId>, AllocError>
    ensures { IfOk result (λ found. found.items ≡ nodes.now) }
{
    let mut found = Vec::new(alloc);
    found.extend_from_slice(nodes)?;
    Ok(found)
}

/// Adds the nodes of two lists that are in order, in order.
fn merge<A: Kept>(
    forest: &Forest<A>,
    left: &[NodeId],
    right: &[NodeId],
    merged: &mut Vec<NodeId>,
) -> Result<(), AllocError>
    requires both { AreMergeable forest.now left.now right.now }
    requires empty { merged.old.items ≡ [] }
    ensures same { OnOk result ((k : ℕ) → In k merged.new.items
        ↔ (In k left.now ⊎ In k right.now)) }
    ensures order { OnOk result (AreInOrder forest.now merged.new.items) }
{
    let mut i = 0;
    let mut j = 0;
    while i < left.len() {
        j = add_before(forest, left, i, right, j, merged)?;
        merged.push(left[i])?;
        i += 1;
    }
    merged.extend_from_slice(&right[j..])?;
    Ok(())
}

/// Adds those of the right list, from place `start` on, that come before place `i` of the left one. Answers how many of the
/// right one are merged then.
fn add_before<A: Kept>(
    forest: &Forest<A>,
    left: &[NodeId],
    i: usize,
    right: &[NodeId],
    start: usize,
    merged: &mut Vec<NodeId>,
) -> Result<usize, AllocError>
    requires both { AreMergeable forest.now left.now right.now }
    requires within { i < length left.now }
    requires merged { AreMergedIn forest.now left.now right.now i start merged.old.items }
    ensures merged { IfOk result (λ j. AreMergedIn forest.now left.now right.now i j merged.new.items) }
    ensures next { IfOk result (λ j. IsBeforeNext forest.now left.now right.now i j) }
{
    let node = left[i];
    let mut j = start;
    while j < right.len() {
        let next = right[j];
        if !forest.is_before(next, node) {
            return Ok(j);
        }
        merged.push(next)?;
        j += 1;
    }
    Ok(j)
}
