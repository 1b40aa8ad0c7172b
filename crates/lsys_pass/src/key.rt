//! Keys of nodes by a seed.
ghost use Rattle.std.specs.Prelude.{◌≡◌};
ghost use Rattle.lsys_spec.specs.Draws.{key_of};
ghost use Rattle.lsys_laws.specs.Nodes.{AreOnce};
ghost use Rattle.lsys_forest.specs.Groves.{now_of, IsLive};
ghost use Rattle.lsys_reads.specs.Lineages.{kins, names};
ghost use Rattle.lsys_pass.specs.Rests.{AreCountedLow};

use lsys_draw::child_key;
use lsys_forest::{Forest, NodeId};
use lsys_reads::KeptAnswer;
use std::sync::ledger::Ledger;

/// The key of a node's lineage by a seed, whatever key the node has; of the root, whose lineage is empty, the seed. It costs a step
/// for each level down to the node.
pub(crate) fn key_by_seed<L: Ledger>(forest: &Forest<KeptAnswer<L>>, node: NodeId, seed: u64) -> u64
    requires lives { IsLive forest.now node }
    requires counts { AreCountedLow (now_of forest.now) }
    requires once { AreOnce (kins (now_of forest.now)) forest.now.root }
    ensures { result ≡ key_of seed (names (now_of forest.now) node) }
{
    let Some(parent) = forest.parent(node) else {
        return seed;
    };
    let (code, count) = forest.number(node);
    child_key(key_by_seed(forest, parent, seed), code, count)
}
