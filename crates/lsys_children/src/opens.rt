//! Cuts among what replaces a node.
ghost use Rattle.std.specs.Prelude.{◌≡◌, ◌≤◌, length};
ghost use Rattle.lsys_spec.specs.Draws.{number_base};
ghost use Rattle.lsys_laws.specs.Children.{is_open};
ghost use Rattle.lsys_module.specs.Views.{string_of};
ghost use Rattle.lsys_forest.specs.Groves.{now_of, IsLive};
ghost use Rattle.lsys_children.specs.Answers.{kept_successors};

use lsys_forest::{Forest, NodeId};
use lsys_level::Sight;
use lsys_module::Symbol;
use lsys_reads::KeptAnswer;
use lsys_rewrite::next_cutting;
use std::sync::ledger::Ledger;

/// Whether a cut among what replaces a node, by the answer that it keeps, reaches what stands after it. It costs steps by the
/// length of that.
pub fn is_open<L: Ledger>(forest: &Forest<KeptAnswer<L>>, node: NodeId) -> bool
    requires lives { IsLive forest.now node }
    requires short { length (kept_successors (now_of forest.now) node) ≤ number_base }
    ensures { result ≡ is_open (kept_successors (now_of forest.now) node) }
{
    match forest.symbol(node) {
        Sight::Push | Sight::Pop => false,
        Sight::Module { .. } => match forest.answer(node) {
            Some(kept) => reaches_end(kept.answer.successor().symbols()),
            None => false,
        },
    }
}

/// Whether a cut among these symbols reaches what stands after them.
fn reaches_end(symbols: &[Symbol]) -> bool
    requires short { length symbols.now ≤ number_base }
    ensures { result ≡ is_open (string_of symbols.now) }
{
    let mut cutting = None;
    for symbol in symbols {
        cutting = next_cutting(cutting, symbol);
    }
    cutting.is_some()
}
