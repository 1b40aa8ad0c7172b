//! Walks along a level.
ghost use Rattle.std.specs.Prelude.{◌≡◌, ◌↔◌, IsTrue, ◌+◌, ◌-◌, ◌<◌, ◌^◌, length, Some, None, IfSome, slice_get};
ghost use Rattle.lsys_spec.specs.Rows.{In, AreApart, first_in};
ghost use Rattle.lsys_forest.specs.Stocks.{nodes_of, changes_of};
ghost use Rattle.lsys_forest.specs.Groves.{IsRooted};
ghost use Rattle.lsys_forest.specs.Slots.{link_at, live_slots};
ghost use Rattle.lsys_forest.specs.declared.walk.Way.TheVariants.{Right};
ghost use Rattle.lsys_forest.specs.Ranks.{AreRanked, AreLinked, parent_in};
ghost use Rattle.lsys_forest.specs.Mates.{nested, IsBracketThat, IsMateThat};
ghost use Rattle.lsys_forest.specs.Pairs.{AreMated};
ghost use Rattle.lsys_forest.specs.Rows.{oriented, level_nodes};
ghost use Rattle.lsys_forest.specs.Neighbours.{IsNextIn, IsNextToPlace, ComesBefore, nodes_at_depth, IsBalancedLevel, IsFirstKidFrom};

use crate::kept::Kept;
use crate::node::{NodeId, NodeKind};
use crate::stock::Parts;

/// Which way to go along a level.
#[derive(Clone, Copy, Drop, PartialEq, Eq)]
pub(crate) enum Way {
    Left,
    Right,
}

/// The node that comes next to the one at a place among these, that way.
fn next_to(kids: &[NodeId], place: usize, way: Way) -> Option<NodeId>
    requires within { place < length kids.now }
    requires apart { AreApart kids.now }
    ensures { IsNextToPlace way kids.now place result }
{
    match way {
        Way::Left => {
            if place == 0 {
                return None;
            }
            kid_at(kids, place - 1)
        }
        Way::Right => kid_at(kids, place + 1),
    }
}

/// The node at a place among these.
pub(crate) fn kid_at(kids: &[NodeId], place: usize) -> Option<NodeId>
    ensures { result ≡ slice_get kids.now place }
{
    kids.get(place).copied()
}

/// The first of these nodes, that way.
fn first_of(kids: &[NodeId], way: Way) -> Option<NodeId>
    ensures { result ≡ first_in (oriented way kids.now) }
{
    match way {
        Way::Left => kids.last().copied(),
        Way::Right => kids.first().copied(),
    }
}

/// The node that comes next to a node of the level this many steps below the root, that way; none at the end. Where the level
/// is linked one look tells it; else the next node of the same parent, or what comes next below the level above.
pub(crate) fn beside<A: Kept>(
    parts: &Parts<A>,
    root: NodeId,
    node: NodeId,
    depth: u32,
    linked: u32,
    way: Way,
) -> Option<NodeId>
    requires sound { IsRooted root (changes_of parts.now) (nodes_of parts.now) }
    requires ranked { AreRanked (nodes_of parts.now) parts.now.footings }
    requires linked { AreLinked (nodes_of parts.now) root parts.now.footings linked }
    requires below { 0 < depth }
    requires among { In node (level_nodes (nodes_of parts.now) root (depth - 1)) }
    ensures { IsNextIn (oriented way (nodes_at_depth parts.now root depth)) node result }
{
    if depth <= linked {
        return parts.link(node, way);
    }
    let Some(found) = parts.get(node) else {
        unreachable!()
    };
    let parent = found.parent;
    if let Some(next) = next_to(parts.kids(parent), parts.rank(node), way) {
        return Some(next);
    }
    if depth == 1 {
        return None;
    }
    let mut at = beside(parts, root, parent, depth - 1, linked, way);
    while let Some(above) = at {
        if let Some(kid) = first_of(parts.kids(above), way) {
            return Some(kid);
        }
        at = beside(parts, root, above, depth - 1, linked, way);
    }
    None
}

/// The same, without a call where the level is linked.
#[inline]
pub(crate) fn next_beside<A: Kept>(
    parts: &Parts<A>,
    root: NodeId,
    node: NodeId,
    depth: u32,
    linked: u32,
    way: Way,
) -> Option<NodeId>
    requires sound { IsRooted root (changes_of parts.now) (nodes_of parts.now) }
    requires ranked { AreRanked (nodes_of parts.now) parts.now.footings }
    requires linked { AreLinked (nodes_of parts.now) root parts.now.footings linked }
    requires below { 0 < depth }
    requires among { In node (level_nodes (nodes_of parts.now) root (depth - 1)) }
    ensures { IsNextIn (oriented way (nodes_at_depth parts.now root depth)) node result }
{
    if depth <= linked {
        return parts.link(node, way);
    }
    beside(parts, root, node, depth, linked, way)
}

/// The first child of the nodes of a level from one of them on, that way; none where they have no children.
pub(crate) fn first_child<A: Kept>(
    parts: &Parts<A>,
    root: NodeId,
    start: Option<NodeId>,
    depth: u32,
    linked: u32,
    way: Way,
) -> Option<NodeId>
    requires sound { IsRooted root (changes_of parts.now) (nodes_of parts.now) }
    requires ranked { AreRanked (nodes_of parts.now) parts.now.footings }
    requires linked { AreLinked (nodes_of parts.now) root parts.now.footings linked }
    requires below { 0 < depth }
    requires among { IfSome start (λ node. In node (nodes_at_depth parts.now root depth)) }
    ensures { IsFirstKidFrom way parts.now (nodes_at_depth parts.now root depth) start result }
{
    let mut at = start;
    while let Some(above) = at {
        if let Some(kid) = first_of(parts.kids(above), way) {
            return Some(kid);
        }
        at = beside(parts, root, above, depth, linked, way);
    }
    None
}

/// The leftmost node of a level.
pub(crate) fn first_at<A: Kept>(
    parts: &Parts<A>,
    root: NodeId,
    level: u32,
    linked: u32,
) -> Option<NodeId>
    requires sound { IsRooted root (changes_of parts.now) (nodes_of parts.now) }
    requires ranked { AreRanked (nodes_of parts.now) parts.now.footings }
    requires linked { AreLinked (nodes_of parts.now) root parts.now.footings linked }
    ensures { result ≡ first_in (level_nodes (nodes_of parts.now) root level) }
{
    let mut at = first_of(parts.kids(root), Way::Right);
    for depth in 0..level {
        at = first_child(parts, root, at, depth + 1, linked, Way::Right);
    }
    at
}

/// How many branches are open inside the one that is walked along, after a symbol; none where the symbol ends it.
fn nest(way: Way, kind: NodeKind, inside: u32) -> Option<u32>
    requires { inside + 1 < 2 ^ 32 }
    ensures { result ≡ nested way kind inside }
{
    match (way, kind) {
        (Way::Right, NodeKind::Push) | (Way::Left, NodeKind::Pop) => Some(inside + 1),
        (Way::Right, NodeKind::Pop) | (Way::Left, NodeKind::Push) => inside.checked_sub(1),
        (_, NodeKind::Module(_)) => Some(inside),
    }
}

/// The mate of a bracket, that way. Where mates were found on the level one look tells it; else a walk along the level.
pub(crate) fn mate_of<A: Kept>(
    parts: &Parts<A>,
    root: NodeId,
    node: NodeId,
    depth: u32,
    linked: u32,
    mated: u32,
    way: Way,
) -> NodeId
    requires sound { IsRooted root (changes_of parts.now) (nodes_of parts.now) }
    requires ranked { AreRanked (nodes_of parts.now) parts.now.footings }
    requires linked { AreLinked (nodes_of parts.now) root parts.now.footings linked }
    requires mated { AreMated (nodes_of parts.now) root parts.now.footings mated }
    requires numbers { live_slots parts.now.slots < 2 ^ 32 }
    requires below { 0 < depth }
    requires among { In node (level_nodes (nodes_of parts.now) root (depth - 1)) }
    requires balanced { IsBalancedLevel (nodes_of parts.now) root (depth - 1) }
    requires bracket { IsBracketThat way (nodes_of parts.now node) }
    ensures { IsMateThat way (nodes_of parts.now) (nodes_at_depth parts.now root depth) node result }
{
    if depth <= mated {
        let Some(mate) = parts.mate(node) else {
            unreachable!()
        };
        return mate;
    }
    let mut inside = 0;
    let mut at = beside(parts, root, node, depth, linked, way);
    while let Some(found) = at {
        let Some(branches) = nest(way, parts.kind(found), inside) else {
            return found;
        };
        inside = branches;
        at = beside(parts, root, found, depth, linked, way);
    }
    unreachable!()
}

/// The parent of a node; 0 where it does not live.
fn parent_of<A: Kept>(parts: &Parts<A>, node: NodeId) -> NodeId
    ensures { result ≡ parent_in (nodes_of parts.now node) }
{
    match parts.get(node) {
        Some(found) => found.parent,
        None => NodeId(0),
    }
}

/// Whether the first of two nodes of the level this many steps below the root comes first.
pub(crate) fn is_before<A: Kept>(
    parts: &Parts<A>,
    root: NodeId,
    one: NodeId,
    two: NodeId,
    depth: u32,
) -> bool
    requires sound { IsRooted root (changes_of parts.now) (nodes_of parts.now) }
    requires ranked { AreRanked (nodes_of parts.now) parts.now.footings }
    requires below { 0 < depth }
    requires one { In one (level_nodes (nodes_of parts.now) root (depth - 1)) }
    requires two { In two (level_nodes (nodes_of parts.now) root (depth - 1)) }
    ensures { IsTrue result ↔ ComesBefore (nodes_at_depth parts.now root depth) one two }
{
    let parent = parent_of(parts, one);
    let other = parent_of(parts, two);
    if parent == other {
        return parts.rank(one) < parts.rank(two);
    }
    is_before(parts, root, parent, other, depth - 1)
}

/// The same, in one look where the second node stands right after the first one on a linked level.
pub(crate) fn comes_before<A: Kept>(
    parts: &Parts<A>,
    root: NodeId,
    one: NodeId,
    two: NodeId,
    depth: u32,
    linked: u32,
) -> bool
    requires sound { IsRooted root (changes_of parts.now) (nodes_of parts.now) }
    requires ranked { AreRanked (nodes_of parts.now) parts.now.footings }
    requires linked { AreLinked (nodes_of parts.now) root parts.now.footings linked }
    requires below { 0 < depth }
    requires one { In one (level_nodes (nodes_of parts.now) root (depth - 1)) }
    requires two { In two (level_nodes (nodes_of parts.now) root (depth - 1)) }
    ensures { IsTrue result ↔ ComesBefore (nodes_at_depth parts.now root depth) one two }
{
    if depth <= linked && is_linked_to(parts, one, two) {
        return true;
    }
    is_before(parts, root, one, two, depth)
}

/// Whether the links tell that a node stands right after another one.
fn is_linked_to<A: Kept>(parts: &Parts<A>, one: NodeId, two: NodeId) -> bool
    ensures { IsTrue result → link_at Right parts.now.footings one ≡ Some two }
{
    match parts.link(one, Way::Right) {
        Some(next) => next == two,
        None => false,
    }
}
