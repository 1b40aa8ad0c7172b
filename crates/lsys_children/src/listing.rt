//! The nodes of a level, one after another.
ghost use Rattle.std.specs.Prelude.{◌≡◌, ◌<◌, OnOk, length};
ghost use Rattle.lsys_forest.specs.Groves.{now_of};
ghost use Rattle.lsys_forest.specs.Rows.{complete_levels, level_nodes};

use lsys_forest::{Forest, Kept, NodeId};
use lsys_level::LevelView;
use std::alloc::AllocError;

/// Lists the nodes of a complete level, from the left.
///
/// # Errors
///
/// Out of memory.
pub fn list_level<A: Kept>(
    forest: &Forest<A>,
    level: u32,
    nodes: &mut Vec<NodeId>,
) -> Result<(), AllocError>
    requires { level < length (complete_levels forest.now) }
    ensures { OnOk result (nodes.new.items
        ≡ level_nodes (now_of forest.now) forest.now.root level) }
{
    nodes.clear();
    let mut at = forest.first(level);
    while let Some(node) = at {
        nodes.push(node)?;
        at = forest.right(node);
    }
    Ok(())
}
