//! What is kept when a node was asked.
ghost use Rattle.std.specs.Prelude.{◌<◌, ◌≤◌, length, OnOk, OnErr};
ghost use Rattle.lsys_forest.specs.Groves.{IsLive};
ghost use Rattle.lsys_pass.specs.Works.{HasRoom, OtherListsStay};
ghost use Rattle.lsys_pass.specs.Steps.{IsLiveIfNew, KeepsOutcomeIn, KeepsNothingIn};

use crate::keep::keep;
use crate::read::Readers;
use crate::work::Work;
use lsys_forest::{Forest, NodeId};
use lsys_match::{AnswerStore, AskRefusal, Asked};
use lsys_reads::KeptAnswer;
use std::alloc::AllocError;
use std::sync::ledger::Ledger;

/// Keeps a new answer at its node, which had none at the last rest or had one; or the node's fault.
///
/// # Errors
///
/// Out of memory, here or in asking. A new answer is released then, and nothing is kept.
pub(crate) fn keep_outcome<L: Ledger>(
    forest: &mut Forest<KeptAnswer<L>>,
    store: &mut AnswerStore,
    readers: &mut Readers,
    work: &mut Work,
    node: NodeId,
    is_born: bool,
    outcome: Result<Asked<L>, AskRefusal>,
) -> Result<(), AllocError>
    requires lives { IsLive forest.old node }
    requires notes { 0 < forest.old.spare_notes }
    requires live { IsLiveIfNew store.old outcome }
    requires room { HasRoom work.old }
    requires few { work.old.born ≤ length work.old.renewed.items }
    ensures kept { OnOk result (KeepsOutcomeIn node is_born forest store readers work outcome) }
    ensures refused { OnErr result (KeepsNothingIn forest store readers work outcome) }
    ensures others { OtherListsStay work.old work.new }
{
    match outcome {
        Ok(Asked::Same) => Ok(()),
        Ok(Asked::New(answer)) => {
            keep(forest, store, readers, node, answer)?;
            work.renew(node, is_born);
            Ok(())
        }
        Err(AskRefusal::Fault { kind }) => {
            work.note(node, kind);
            Ok(())
        }
        Err(AskRefusal::Memory) => Err(AllocError),
    }
}
