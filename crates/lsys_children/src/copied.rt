//! What is wanted of a parent, copied, so that the forest may change while its children are made.
ghost use Rattle.std.specs.Prelude.{◌≡◌, [], OnOk};
ghost use Rattle.lsys_module.specs.Views.{string_of};
ghost use Rattle.lsys_forest.specs.Groves.{now_of, IsLive};
ghost use Rattle.lsys_children.specs.Parents.{wants};
ghost use Rattle.lsys_children.specs.Answers.{kept_successors};

use crate::parent::Parent;
use crate::wanted::symbol_seen;
use lsys_forest::{Forest, NodeId};
use lsys_level::Sight;
use lsys_module::Symbol;
use lsys_reads::KeptAnswer;
use std::alloc::AllocError;
use std::sync::ledger::Ledger;

/// Copies what is wanted of a parent into a list, in the place of what was there: what the answer that it keeps puts in its
/// place, else the node itself, and nothing where its children are cut off.
///
/// # Errors
///
/// Out of memory. What is in the list is of no use then.
pub(crate) fn copy_wanted<L: Ledger>(
    forest: &Forest<KeptAnswer<L>>,
    parent: Parent,
    symbols: &mut Vec<Symbol>,
) -> Result<(), AllocError>
    requires lives { IsLive forest.now parent.node }
    ensures wanted { OnOk result (wants (now_of forest.now) parent ≡ string_of symbols.new.items) }
{
    symbols.clear();
    if parent.is_cut {
        return Ok(());
    }
    copy_whole(forest, parent.node, symbols)
}

/// The same where no cut cuts them off, into an empty list. A bracket is replaced by itself.
fn copy_whole<L: Ledger>(
    forest: &Forest<KeptAnswer<L>>,
    node: NodeId,
    symbols: &mut Vec<Symbol>,
) -> Result<(), AllocError>
    requires lives { IsLive forest.now node }
    requires empty { symbols.old.items ≡ [] }
    ensures all { OnOk result (kept_successors (now_of forest.now) node
        ≡ string_of symbols.new.items) }
{
    if let Sight::Module { .. } = forest.symbol(node) {
        if let Some(kept) = forest.answer(node) {
            return symbols.extend_from_slice(kept.answer.successor().symbols());
        }
    }
    symbols.push(symbol_seen(forest.symbol(node)))?;
    Ok(())
}
