//! Where what is wanted of a parent stands.
ghost use Rattle.lsys_forest.specs.Groves.{IsLive};
ghost use Rattle.lsys_children.specs.Sources.{TellsSource};

use crate::parent::Parent;
use lsys_bodies::SharedBody;
use lsys_forest::Forest;
use lsys_level::Sight;
use lsys_reads::KeptAnswer;
use std::sync::ledger::Ledger;

/// Where the symbols stand that are wanted of a parent.
#[derive(Drop)]
pub(crate) enum SymbolSource {
    /// The parent itself is wanted.
    Itself,
    /// They are those of a body's successor, which has no parameters.
    Body(SharedBody),
    /// Elsewhere, or there are none.
    Other,
}

/// Finds where the symbols stand that are wanted of a parent; a body that is shared as often as it can be is told as another place. The
/// forest is only read, and it takes no memory.
pub(crate) fn source_of<L: Ledger>(forest: &Forest<KeptAnswer<L>>, parent: &Parent) -> SymbolSource
    requires lives { IsLive forest.now parent.now.node }
    ensures source { TellsSource forest.now parent.now result }
{
    if parent.is_cut {
        return SymbolSource::Other;
    }
    let Some(kept) = forest.answer(parent.node) else {
        return SymbolSource::Itself;
    };
    let Ok(Some(body)) = kept.answer.shared_constant() else {
        return SymbolSource::Other;
    };
    match forest.symbol(parent.node) {
        Sight::Push | Sight::Pop => SymbolSource::Itself,
        Sight::Module { .. } => SymbolSource::Body(body),
    }
}
