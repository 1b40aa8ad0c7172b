//! Who is around a node.
ghost use Rattle.std.specs.Prelude.{◌≡◌};
ghost use Rattle.lsys_forest.specs.Slots.{link_at};
ghost use Rattle.lsys_forest.specs.declared.walk.Way.TheVariants.{Left, Right};

use crate::kept::Kept;
use crate::node::NodeId;
use crate::stock::Parts;

/// Who is around a node of a complete level.
#[derive(Clone, Copy, Debug, Drop)]
pub struct Around {
    /// The left neighbour; none at the left end.
    pub left: Option<NodeId>,
    /// The right neighbour; none at the right end.
    pub right: Option<NodeId>,
    /// The mate of a bracket; none of a module.
    pub mate: Option<NodeId>,
}

/// Who is around a node, as its links tell, and this mate.
#[inline]
pub(crate) fn linked_around<A: Kept>(parts: &Parts<A>, node: NodeId, mate: Option<NodeId>) -> Around
    ensures left { result.left ≡ link_at Left parts.now.footings node }
    ensures right { result.right ≡ link_at Right parts.now.footings node }
    ensures mate { result.mate ≡ mate }
{
    let footing = parts.footing(node);
    Around {
        left: footing.left,
        right: footing.right,
        mate,
    }
}
