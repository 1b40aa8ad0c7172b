//! Mates of the brackets of linked levels.
ghost use Rattle.std.specs.Prelude.{◌≡◌, ◌⊎◌, ◌+◌, ◌-◌, ◌≤◌, ◌<◌, ◌∷◌, [], Some, IsSome, false};
ghost use Rattle.lsys_spec.specs.Rows.{first_in};
ghost use Rattle.lsys_level.specs.Spots.{Pop, IsBracket};
ghost use Rattle.lsys_level.specs.Places.{seen_in};
ghost use Rattle.lsys_forest.specs.Nodes.{seen_as};
ghost use Rattle.lsys_forest.specs.Mates.{mate_way};
ghost use Rattle.lsys_forest.specs.Stocks.{nodes_of, changes_of};
ghost use Rattle.lsys_forest.specs.Groves.{IsRooted};
ghost use Rattle.lsys_forest.specs.Ranks.{AreRanked, AreLinked, IsApartFrom};
ghost use Rattle.lsys_forest.specs.Pairs.{AreMated, AreModules, AreSameSort, PairsIn, seen_at};
ghost use Rattle.lsys_forest.specs.Rows.{level_nodes};

use crate::kept::Kept;
use crate::node::{NodeId, NodeKind};
use crate::stock::Parts;
use crate::walk::{Way, first_at, first_child};
use lsys_module::Symbol;

/// Finds the mates on the levels that are linked, where those on some from the first one on are found already, and answers on
/// how many they are found then: on all of them that have nodes.
fn mate_levels<A: Kept>(parts: &mut Parts<A>, root: NodeId, mated: u32, linked: u32) -> u32
    requires sound { IsRooted root (changes_of parts.old) (nodes_of parts.old) }
    requires ranked { AreRanked (nodes_of parts.old) parts.old.footings }
    requires linked { AreLinked (nodes_of parts.old) root parts.old.footings linked }
    requires mated { AreMated (nodes_of parts.old) root parts.old.footings mated }
    ensures same { parts.new ≡ record parts.old { footings = parts.new.footings } }
    ensures ranked { AreRanked (nodes_of parts.new) parts.new.footings }
    ensures linked { AreLinked (nodes_of parts.new) root parts.new.footings linked }
    ensures mated { AreMated (nodes_of parts.new) root parts.new.footings result }
{
    if mated >= linked {
        return mated;
    }
    let mut level = mated;
    let mut at = first_at(parts, root, level, linked);
    while let Some(first) = at {
        mate_level(parts, root, first, level, linked);
        level += 1;
        if level >= linked {
            return level;
        }
        at = first_child(parts, root, Some(first), level, linked, Way::Right);
    }
    level
}

/// The same, in no step where there are no branches.
pub(crate) fn find_mates<A: Kept>(
    parts: &mut Parts<A>,
    root: NodeId,
    branches: bool,
    mated: u32,
    linked: u32,
) -> u32
    requires sound { IsRooted root (changes_of parts.old) (nodes_of parts.old) }
    requires ranked { AreRanked (nodes_of parts.old) parts.old.footings }
    requires linked { AreLinked (nodes_of parts.old) root parts.old.footings linked }
    requires mated { AreMated (nodes_of parts.old) root parts.old.footings mated }
    requires branches { branches ≡ false → AreModules (nodes_of parts.old) root }
    ensures same { parts.new ≡ record parts.old { footings = parts.new.footings } }
    ensures ranked { AreRanked (nodes_of parts.new) parts.new.footings }
    ensures linked { AreLinked (nodes_of parts.new) root parts.new.footings linked }
    ensures mated { AreMated (nodes_of parts.new) root parts.new.footings result }
{
    if !branches {
        return linked;
    }
    mate_levels(parts, root, mated, linked)
}

/// Whether there are branches once there is this symbol too.
pub(crate) fn branches_with(branches: bool, symbol: &Symbol) -> bool
    ensures { result ≡ false → (branches ≡ false) × (IsBracket (seen_in symbol.now) → ⊥) }
{
    branches || matches!(symbol, Symbol::Push | Symbol::Pop)
}

/// Finds the mates on the level with this number, which is linked. They are found on all levels before it, and `first` is its
/// first node.
fn mate_level<A: Kept>(parts: &mut Parts<A>, root: NodeId, first: NodeId, level: u32, linked: u32)
    requires sound { IsRooted root (changes_of parts.old) (nodes_of parts.old) }
    requires ranked { AreRanked (nodes_of parts.old) parts.old.footings }
    requires linked { AreLinked (nodes_of parts.old) root parts.old.footings linked }
    requires mated { AreMated (nodes_of parts.old) root parts.old.footings level }
    requires within { level < linked }
    requires first { first_in (level_nodes (nodes_of parts.old) root level) ≡ Some first }
    ensures same { parts.new ≡ record parts.old { footings = parts.new.footings } }
    ensures ranked { AreRanked (nodes_of parts.new) parts.new.footings }
    ensures linked { AreLinked (nodes_of parts.new) root parts.new.footings linked }
    ensures mated { AreMated (nodes_of parts.new) root parts.new.footings (level + 1) }
{
    let mut opener = None;
    let mut at = Some(first);
    while let Some(node) = at {
        opener = pair(parts, node, opener);
        at = parts.link(node, Way::Right);
    }
}

/// Passes a node from the left to the right, where `opener` is the innermost bracket that is open before it, and answers the one
/// that is open after it. A bracket that begins a branch gets the open one around it in place of its mate, until its branch
/// ends.
fn pair<A: Kept>(parts: &mut Parts<A>, node: NodeId, opener: Option<NodeId>) -> Option<NodeId>
    requires lives { IsSome (nodes_of parts.old node) }
    requires opener { IsApartFrom (nodes_of parts.old) (node ∷ []) opener }
    ensures same { parts.new ≡ record parts.old { footings = parts.new.footings } }
    ensures paired { PairsIn parts.old parts.new opener node result }
{
    let kind = parts.kind(node);
    match kind {
        NodeKind::Push => {
            parts.set_mate(node, opener);
            Some(node)
        }
        NodeKind::Pop => end_branch(parts, node, opener),
        NodeKind::Module(_) => opener,
    }
}

/// Passes a bracket that ends a branch: it and the one that began the branch get each other as mates.
fn end_branch<A: Kept>(parts: &mut Parts<A>, node: NodeId, opener: Option<NodeId>) -> Option<NodeId>
    requires lives { IsSome (nodes_of parts.old node) }
    requires ends { seen_at (nodes_of parts.old) node ≡ Pop }
    requires opener { IsApartFrom (nodes_of parts.old) (node ∷ []) opener }
    ensures same { parts.new ≡ record parts.old { footings = parts.new.footings } }
    ensures paired { PairsIn parts.old parts.new opener node result }
{
    match opener {
        Some(begin) => {
            let around = parts.mate(begin);
            parts.set_mate(begin, Some(node));
            parts.set_mate(node, Some(begin));
            around
        }
        None => {
            parts.set_mate(node, None);
            None
        }
    }
}

/// Which way the mate of a bracket is; of a module, which has none, to the right.
pub(crate) fn way_to_mate(kind: NodeKind) -> Way
    ensures { result ≡ mate_way kind }
{
    match kind {
        NodeKind::Pop => Way::Left,
        _ => Way::Right,
    }
}

/// On how many levels mates stay, where they stood on so many, and a node so many steps below the root got this symbol in
/// place of one of this kind: on all of them, where both are the same bracket or modules.
pub(crate) fn mated_still(mated: u32, depth: u32, kind: NodeKind, symbol: &Symbol) -> u32
    ensures fewer { result ≤ mated }
    ensures sort { AreSameSort (seen_as kind []) (seen_in symbol.now) ⊎ (result ≤ depth - 1) }
{
    match (kind, symbol) {
        (NodeKind::Push, Symbol::Push) => mated,
        (NodeKind::Pop, Symbol::Pop) => mated,
        (NodeKind::Module(_), Symbol::Module(_)) => mated,
        _ => mated.min(depth.saturating_sub(1)),
    }
}
