//! Links of the nodes of a level.
ghost use Rattle.std.specs.Prelude.{◌≡◌, ◌+◌, ◌-◌, ◌<◌, Some};
ghost use Rattle.lsys_spec.specs.Rows.{first_in};
ghost use Rattle.lsys_forest.specs.Stocks.{nodes_of, changes_of};
ghost use Rattle.lsys_forest.specs.Groves.{IsRooted};
ghost use Rattle.lsys_forest.specs.Ranks.{AreRanked, AreLinked, KeepsMates};
ghost use Rattle.lsys_forest.specs.Rows.{level_nodes};

use crate::kept::Kept;
use crate::node::NodeId;
use crate::stock::Parts;
use crate::walk::{Way, first_at, first_child};

/// Links so many levels, where some from the first one on are linked already, and answers how many are linked then: all of
/// them that have nodes.
pub(crate) fn link_levels<A: Kept>(
    parts: &mut Parts<A>,
    root: NodeId,
    linked: u32,
    levels: u32,
) -> u32
    requires sound { IsRooted root (changes_of parts.old) (nodes_of parts.old) }
    requires ranked { AreRanked (nodes_of parts.old) parts.old.footings }
    requires linked { AreLinked (nodes_of parts.old) root parts.old.footings linked }
    ensures same { parts.new ≡ record parts.old { footings = parts.new.footings } }
    ensures ranked { AreRanked (nodes_of parts.new) parts.new.footings }
    ensures mates { KeepsMates parts.old.footings parts.new.footings }
    ensures linked { AreLinked (nodes_of parts.new) root parts.new.footings result }
{
    let mut depth = link_first(parts, root, linked);
    let mut at = first_at(parts, root, depth - 1, depth);
    while let Some(first) = at {
        if depth >= levels {
            break;
        }
        at = link_level(parts, root, first, depth);
        depth += 1;
    }
    depth
}

/// Links the first level, where none is linked yet, and answers how many are linked then.
fn link_first<A: Kept>(parts: &mut Parts<A>, root: NodeId, linked: u32) -> u32
    requires sound { IsRooted root (changes_of parts.old) (nodes_of parts.old) }
    requires ranked { AreRanked (nodes_of parts.old) parts.old.footings }
    requires linked { AreLinked (nodes_of parts.old) root parts.old.footings linked }
    ensures same { parts.new ≡ record parts.old { footings = parts.new.footings } }
    ensures ranked { AreRanked (nodes_of parts.new) parts.new.footings }
    ensures mates { KeepsMates parts.old.footings parts.new.footings }
    ensures linked { AreLinked (nodes_of parts.new) root parts.new.footings result }
    ensures some { 0 < result }
{
    if linked > 0 {
        return linked;
    }
    parts.link_kids(root, None);
    1
}

/// Links the nodes of the level with this number, and answers the first of them. All levels before it are linked, and `first`
/// is the first node of the last of those.
fn link_level<A: Kept>(
    parts: &mut Parts<A>,
    root: NodeId,
    first: NodeId,
    level: u32,
) -> Option<NodeId>
    requires sound { IsRooted root (changes_of parts.old) (nodes_of parts.old) }
    requires ranked { AreRanked (nodes_of parts.old) parts.old.footings }
    requires linked { AreLinked (nodes_of parts.old) root parts.old.footings level }
    requires below { 0 < level }
    requires first { first_in (level_nodes (nodes_of parts.old) root (level - 1)) ≡ Some first }
    ensures same { parts.new ≡ record parts.old { footings = parts.new.footings } }
    ensures ranked { AreRanked (nodes_of parts.new) parts.new.footings }
    ensures mates { KeepsMates parts.old.footings parts.new.footings }
    ensures linked { AreLinked (nodes_of parts.new) root parts.new.footings (level + 1) }
    ensures first { result ≡ first_in (level_nodes (nodes_of parts.old) root level) }
{
    let below = first_child(parts, root, Some(first), level, level, Way::Right);
    let mut before = None;
    let mut at = Some(first);
    while let Some(above) = at {
        before = parts.link_kids(above, before);
        at = parts.link(above, Way::Right);
    }
    below
}
