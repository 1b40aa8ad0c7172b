//! What is kept of a question.
ghost use Rattle.std.specs.Prelude.{◌≡◌, ◌<◌, None, Some, OnOk, OnErr, option_map};
ghost use Rattle.std.specs.Option.{unwrap_or};
ghost use Rattle.lsys_walks.specs.Stores.{AreGone, AreLive, OtherTracesStay};
ghost use Rattle.lsys_match.specs.Stored.{runs_of};
ghost use Rattle.lsys_reads.specs.Relations.{SettledStay};
ghost use Rattle.lsys_forest.specs.Groves.{now_of, IsLive};
ghost use Rattle.lsys_reads.specs.Levels.{answer_at, tags_read};
ghost use Rattle.lsys_pass.specs.Read.{NotesRead};
ghost use Rattle.lsys_pass.specs.Steps.{TakesAnswerAt};

use crate::read::{Readers, note_reads};
use lsys_forest::{Forest, NodeId};
use lsys_level::Tag;
use lsys_match::{Answer, AnswerStore};
use lsys_reads::KeptAnswer;
use lsys_rules::System;
use std::alloc::AllocError;
use std::sync::ledger::Ledger;

/// The system that is being made; at rest, the one that is there.
pub(crate) fn target<'a>(next: &'a Option<System>, system: &'a System) -> &'a System
    ensures { result.now ≡ unwrap_or next.now system.now }
{
    match next {
        Some(next) => next,
        None => system,
    }
}

/// The system that was being made, if there is one, takes the place of the one that is there.
pub(crate) fn take_over(next: &mut Option<System>, system: &mut System)
    ensures system { system.new ≡ unwrap_or next.old system.old }
    ensures none { next.new ≡ None }
{
    if let Some(made) = next.take() {
        *system = made;
    }
}

/// The system that was being made, if there is one, is dropped.
pub(crate) fn drop_next(next: &mut Option<System>)
    ensures { next.new ≡ None }
{
    *next = None;
}

/// The answer that a node keeps, if it keeps one.
pub(crate) fn answer_of<L: Ledger>(
    forest: &Forest<KeptAnswer<L>>,
    node: NodeId,
) -> Option<&Answer<L>>
    requires { IsLive forest.now node }
    ensures { option_map (λ a. a.now) result ≡ answer_at (now_of forest.now) node }
{
    match forest.answer(node) {
        Some(kept) => Some(&kept.answer),
        None => None,
    }
}

/// Keeps a new answer at its node. What it read is pending, where it is listed who read what.
///
/// # Errors
///
/// Out of memory. The answer is released then, and nothing else changes.
pub(crate) fn keep<L: Ledger>(
    forest: &mut Forest<KeptAnswer<L>>,
    store: &mut AnswerStore,
    readers: &mut Readers,
    node: NodeId,
    answer: Answer<L>,
) -> Result<(), AllocError>
    requires lives { IsLive forest.old node }
    requires notes { 0 < forest.old.spare_notes }
    requires live { AreLive store.old (runs_of answer) }
    ensures kept { OnOk result (TakesAnswerAt forest.old forest.new node answer) }
    ensures store { OnOk result (store.new ≡ store.old) }
    ensures read { OnOk result (NotesRead readers.old readers.new node (tags_read store.old answer)) }
    ensures settled { SettledStay readers.old.reads readers.new.reads }
    ensures listed { readers.new.is_listed ≡ readers.old.is_listed }
    ensures stays { OnErr result (forest.new ≡ forest.old) }
    ensures released { OnErr result (AreGone store.new (runs_of answer)) }
    ensures others { OnErr result (OtherTracesStay store.old store.new (runs_of answer)) }
    ensures unread { OnErr result (readers.new.reads.pending ≡ readers.old.reads.pending) }
{
    match note_reads(readers, Tag(node.0), answer.trace(store)) {
        Ok(()) => {
            forest.set_answer(node, Some(KeptAnswer { answer }));
            Ok(())
        }
        Err(error) => {
            answer.release(store);
            Err(error)
        }
    }
}
