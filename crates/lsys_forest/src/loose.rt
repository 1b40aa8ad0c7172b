//! How many nodes may be among no children.
ghost use Rattle.std.specs.Prelude.{◌≡◌, IsSome, IsTrue, Some};
ghost use Rattle.lsys_forest.specs.Stocks.{nodes_of};
ghost use Rattle.lsys_forest.specs.Loosened.{StaysWithOne, StaysWithKids};

use crate::kept::Kept;
use crate::node::NodeId;
use crate::stock::Parts;

/// At most how many nodes may be loose, once one more was added; none where it isn't known.
pub(crate) fn loose_with_one(loose: Option<usize>) -> Option<usize>
    ensures { StaysWithOne loose result }
{
    loose?.checked_add(1)
}

/// The same, once these are the children of a node: where it had none before, and there are as many of them, no others were loose.
pub(crate) fn loose_beside<A: Kept>(
    loose: Option<usize>,
    parts: &Parts<A>,
    node: NodeId,
    kids: &[NodeId],
) -> Option<usize>
    requires { IsSome (nodes_of parts.now node) }
    ensures { StaysWithKids loose result (nodes_of parts.now) node kids.now }
{
    if are_all(loose, parts, node, kids) {
        Some(0)
    } else {
        None
    }
}

/// Whether it is known that none is loose.
pub(crate) fn is_none(loose: Option<usize>) -> bool
    ensures { IsTrue result → loose ≡ Some 0 }
{
    matches!(loose, Some(0))
}

/// Whether these children of a node are known to be all that were loose.
fn are_all<A: Kept>(loose: Option<usize>, parts: &Parts<A>, node: NodeId, kids: &[NodeId]) -> bool
    requires { IsSome (nodes_of parts.now node) }
    ensures { IsTrue result → StaysWithKids loose (Some 0) (nodes_of parts.now) node kids.now }
{
    match loose {
        Some(count) => count <= kids.len() && parts.kids(node).is_empty(),
        None => false,
    }
}
