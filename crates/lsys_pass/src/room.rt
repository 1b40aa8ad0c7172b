//! Room for the steps from one level to the next.
ghost use Rattle.std.specs.Prelude.{◌≡◌, ◌+◌, ◌<◌, ◌^◌, OnOk};
ghost use Rattle.lsys_forest.specs.Groves.{live_nodes};
ghost use Rattle.lsys_children.specs.Children.{HasRoomFor};
ghost use Rattle.lsys_pass.specs.Beginnings.{KeepsNodes};

use lsys_children::{Changes, Need};
use lsys_forest::{Forest, Kept};
use std::alloc::AllocError;

/// There are fewer nodes than this.
const MOST_NODES: usize = 1 << 32;

/// Makes room for what steps take, in a forest and in what is told of them. The nodes stay, and what was told.
///
/// # Errors
///
/// Out of memory, also of numbers below 2^32.
pub(crate) fn reserve_for<A: Kept>(
    forest: &mut Forest<A>,
    told: &mut Changes,
    need: &Need,
) -> Result<(), AllocError>
    ensures nodes { KeepsNodes forest.old forest.new }
    ensures told { told.new ≡ record told.old { room = told.new.room } }
    ensures room { OnOk result (HasRoomFor forest.new told.new need.now) }
    ensures few { OnOk result (live_nodes forest.new + need.now.nodes < 2 ^ 32) }
{
    if forest.live().saturating_add(need.nodes) >= MOST_NODES {
        return Err(AllocError);
    }
    forest.reserve(need.nodes, need.params, need.kids, need.notes)?;
    told.reserve(need.told)
}
