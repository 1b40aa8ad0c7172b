//! Parents, and what is wanted of them.
ghost use Rattle.std.specs.Prelude.{◌≤◌, length, OnOk};
ghost use Rattle.lsys_spec.specs.Draws.{number_base};
ghost use Rattle.lsys_forest.specs.Groves.{now_of, IsLive};
ghost use Rattle.lsys_children.specs.Answers.{kept_successors};
ghost use Rattle.lsys_children.specs.WantedOf.{WantsOf, WantsWhole, WantsItself};

use crate::wanted::{Wanted, symbol_seen};
use lsys_forest::{Forest, NodeId};
use lsys_level::Sight;
use lsys_reading::Lineage;
use lsys_reads::KeptAnswer;
use std::alloc::AllocError;
use std::sync::ledger::Ledger;

/// A node whose children are made, and whether a cut before it cuts them off.
#[derive(Clone, Copy, Debug, Drop)]
pub struct Parent {
    pub node: NodeId,
    pub is_cut: bool,
}

/// Finds the children that are wanted of a parent: what the answer that it keeps puts in its place, else the node itself, and
/// nothing where they are cut off.
///
/// # Errors
///
/// Out of memory. What was found is of no use then.
pub(crate) fn fill_for<L: Ledger>(
    wanted: &mut Wanted,
    forest: &Forest<KeptAnswer<L>>,
    numbering: Lineage,
    parent: Parent,
) -> Result<(), AllocError>
    requires lives { IsLive forest.now parent.node }
    requires short { length (kept_successors (now_of forest.now) parent.node) ≤ number_base }
    ensures wanted { OnOk result (WantsOf numbering forest.now parent wanted.new) }
{
    if parent.is_cut {
        return wanted.fill(numbering, forest.key_of(parent.node), &[]);
    }
    fill_whole(wanted, forest, numbering, parent.node)
}

/// The same where no cut cuts them off.
fn fill_whole<L: Ledger>(
    wanted: &mut Wanted,
    forest: &Forest<KeptAnswer<L>>,
    numbering: Lineage,
    node: NodeId,
) -> Result<(), AllocError>
    requires lives { IsLive forest.now node }
    requires short { length (kept_successors (now_of forest.now) node) ≤ number_base }
    ensures wanted { OnOk result (WantsWhole numbering forest.now node wanted.new) }
{
    match forest.symbol(node) {
        Sight::Push | Sight::Pop => fill_itself(wanted, forest, numbering, node),
        Sight::Module { .. } => match forest.answer(node) {
            Some(kept) => wanted.fill(
                numbering,
                forest.key_of(node),
                kept.answer.successor().symbols(),
            ),
            None => fill_itself(wanted, forest, numbering, node),
        },
    }
}

/// The one child of a node that nothing replaces: itself.
fn fill_itself<L: Ledger>(
    wanted: &mut Wanted,
    forest: &Forest<KeptAnswer<L>>,
    numbering: Lineage,
    node: NodeId,
) -> Result<(), AllocError>
    requires lives { IsLive forest.now node }
    ensures wanted { OnOk result (WantsItself numbering forest.now node wanted.new) }
{
    let symbol = symbol_seen(forest.symbol(node));
    wanted.fill_itself(numbering, forest.key_of(node), &symbol)
}
