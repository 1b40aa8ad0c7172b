//! Who read what is listed, where it isn't yet.
ghost use Rattle.std.specs.Prelude.{◌≡◌, ◌<◌, [], length, IfOk, OnOk, OnErr};
ghost use Rattle.lsys_forest.specs.Groves.{IsLive, now_of};
ghost use Rattle.lsys_forest.specs.Rows.{complete_levels, level_nodes};
ghost use Rattle.lsys_reads.specs.Relations.{SettledStay};
ghost use Rattle.lsys_pass.specs.declared.state.PassState.TheVariants.{Rest};
ghost use Rattle.lsys_pass.specs.Stages.{Rests};
ghost use Rattle.lsys_pass.specs.Passes.{stage_of, HasOwnRuns};
ghost use Rattle.lsys_pass.specs.Moves.{IsBack};
ghost use Rattle.lsys_pass.specs.Others.{AllLive};
ghost use Rattle.lsys_pass.specs.Readers.{AreReaders};
ghost use Rattle.lsys_pass.specs.Listings.{HaveAnswersTo, AreAnswersLive, ListsOne, ListsOn};

use crate::keep::answer_of;
use crate::pass::Pass;
use crate::read::{Readers, add_reads};
use lsys_forest::{Forest, NodeId};
use lsys_level::{LevelView, Tag};
use lsys_match::AnswerStore;
use lsys_reads::{KeptAnswer, Reads};
use lsys_rules::System;
use std::alloc::{AllocError, Global};
use std::sync::ledger::Ledger;

impl<L: Ledger> Pass<L> {
    /// Lists who read what, at rest, if that isn't listed yet, so that an edit to this system may begin. Where nothing is answered
    /// nobody read anything, and the edit asks nobody who did: so it needn't list what is read. But where no rule of the system has a
    /// context, nothing is, and to list that costs nothing.
    ///
    /// It costs a step for each node of the levels that have answers, and by what these read; where it is listed, none.
    ///
    /// # Errors
    ///
    /// Out of memory. The pass stays as it was.
    pub(crate) fn list_readers(&mut self, alloc: Global, system: &System) -> Result<(), AllocError>
        requires { self.old.state ≡ Rest }
        ensures lists { self.new ≡ record self.old { reads = self.new.reads; listed = self.new.listed } }
        ensures rests { OnOk result (Rests (stage_of self.new)) }
        ensures back { OnErr result (IsBack self.old self.new) }
        ensures runs { OnErr result (HasOwnRuns self.new) }
    {
        let depth = self.system.depth();
        if depth == 0 {
            self.readers = Readers::new(alloc, !has_contexts(system));
        } else if !self.readers.is_listed {
            let reads = list_all(alloc, &self.forest, &self.store, depth)?;
            self.readers = Readers {
                reads,
                is_listed: true,
            };
        }
        Ok(())
    }
}

/// Whether a rule of a system has a context.
fn has_contexts(system: &System) -> bool {
    system.rules().iter().any(|rule| {
        let body = rule.body.get();
        !body.left.is_empty() || !body.right.is_empty()
    })
}

/// Who read what, by the answers that the nodes of so many levels keep.
///
/// # Errors
///
/// Out of memory.
fn list_all<L: Ledger>(
    alloc: Global,
    forest: &Forest<KeptAnswer<L>>,
    store: &AnswerStore,
    depth: u32,
) -> Result<Reads, AllocError>
    requires { HaveAnswersTo forest.now store.now depth }
    ensures readers { IfOk result (AreReaders (now_of forest.now) store.now) }
    ensures pending { IfOk result (λ reads. reads.pending ≡ []) }
{
    let mut reads = Reads::new(alloc);
    let mut level = 0;
    while level < depth {
        list_on(forest, store, level, &mut reads)?;
        level += 1;
    }
    reads.settle(&[]);
    Ok(reads)
}

/// Adds to the pending pairs what the answers of the nodes of a level read, from the left.
///
/// # Errors
///
/// Out of memory.
fn list_on<L: Ledger>(
    forest: &Forest<KeptAnswer<L>>,
    store: &AnswerStore,
    level: u32,
    reads: &mut Reads,
) -> Result<(), AllocError>
    requires level { level < length (complete_levels forest.now) }
    requires live { AllLive forest.now (level_nodes (now_of forest.now) forest.now.root level) }
    requires answers { AreAnswersLive (now_of forest.now) store.now }
    ensures settled { SettledStay reads.old reads.new }
    ensures ok { OnOk result (ListsOn forest.now store.now level reads.old reads.new) }
{
    let mut at = forest.first(level);
    while let Some(node) = at {
        list_one(forest, store, node, reads)?;
        at = forest.right(node);
    }
    Ok(())
}

/// Adds to the pending pairs what the answer of a node read, if it keeps one.
///
/// # Errors
///
/// Out of memory.
fn list_one<L: Ledger>(
    forest: &Forest<KeptAnswer<L>>,
    store: &AnswerStore,
    node: NodeId,
    reads: &mut Reads,
) -> Result<(), AllocError>
    requires lives { IsLive forest.now node }
    requires answers { AreAnswersLive (now_of forest.now) store.now }
    ensures settled { SettledStay reads.old reads.new }
    ensures ok { OnOk result (ListsOne forest.now store.now node reads.old reads.new) }
{
    match answer_of(forest, node) {
        Some(answer) => add_reads(reads, Tag(node.0), answer.trace(store)),
        None => Ok(()),
    }
}
