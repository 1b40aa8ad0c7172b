//! All levels of a changed system, planned beside the old ones.
ghost use Rattle.std.specs.Prelude.{◌≡◌, ◌+◌, ◌*◌, IfErr, IfOk, OnErr};
ghost use Rattle.lsys_match.specs.Derivations.{Rises, most_read, IsLevelRefusal};
ghost use Rattle.lsys_flat.specs.Answers.{lists_of};
ghost use Rattle.lsys_flat.specs.Rounds.{StayMade};
ghost use Rattle.lsys_flat.specs.Drafts.{AreAllNew};
ghost use Rattle.lsys_flat.specs.Plans.{CanPlan, PlansLevels};

use crate::draft::Draft;
use crate::{Ancestry, release_all};
use lsys_level::FlatLevels;
use lsys_match::{Answer, AnswerStore, Steps};
use lsys_rewrite::{DeriveRefusal, EditCount};
use lsys_rules::System;
use std::alloc::Global;
use std::sync::ledger::Ledger;

/// What is kept of the old levels.
#[derive(Drop)]
pub(crate) struct Olds<'a, L: Ledger> {
    pub(crate) ancestries: &'a [Ancestry],
    pub(crate) answers: &'a [Vec<Option<Answer<L>>>],
}

/// The levels of a changed system, planned beside the old ones.
#[derive(Drop)]
pub(crate) struct Plan<L: Ledger> {
    pub(crate) view: FlatLevels,
    pub(crate) ancestries: Vec<Ancestry>,
    pub(crate) fresh: Vec<Vec<Option<Answer<L>>>>,
    pub(crate) taken: Vec<Vec<Option<u32>>>,
    pub(crate) count: EditCount,
}

/// Plans all levels of a system beside the old levels, under a limit. `asked` rises by the new answers, and `visited` by the
/// entries of all questions.
///
/// # Errors
///
/// `Fault` and `Limit` are the refusal of the system, exactly where it has no levels under the limit, and `Memory` is want of
/// memory. All new answers are let go then.
pub(crate) fn planned<L: Ledger, V: Ledger>(
    alloc: Global,
    olds: &Olds<'_, L>,
    limit: u32,
    system: &System,
    store: &mut AnswerStore,
    asked: &mut Steps<L>,
    visited: &mut Steps<V>,
) -> Result<Plan<L>, DeriveRefusal>
    requires { CanPlan olds.now limit store.old }
    ensures planned { PlansLevels olds.now limit system.now store visited result }
    ensures new { IfOk result (λ p. AreAllNew store.old store.new (lists_of p.fresh.items)) }
    ensures asked { IfOk result (λ p. asked.new ≡ asked.old + p.count.asked) }
    ensures stay { OnErr result (StayMade store.old store.new) }
    ensures refused { IfErr result (IsLevelRefusal system.now limit) }
    ensures few_asked { OnErr result (Rises 0 limit asked.old asked.new) }
    ensures few_read { OnErr result (Rises 0 (most_read * limit) visited.old visited.new) }
{
    let mut draft = Draft::new(alloc, olds.ancestries, limit)?;
    match draft.complete(olds, system, store, asked, visited) {
        Ok(()) => Ok(draft.finish()),
        Err(refusal) => {
            draft.release(store);
            Err(refusal)
        }
    }
}
