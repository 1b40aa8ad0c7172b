//! Answers with their runs in a store.

use lsys_forest::Kept;
use lsys_match::{Answer, AnswerStore};
use std::marker::Model;
use std::sync::ledger::Ledger;

/// An answer that a node keeps. It holds a run of entries and one of parameters in the store with which it was made.
#[derive(Drop)]
pub struct KeptAnswer<L: Ledger> {
    pub answer: Answer<L>,
}

impl<L: Ledger> Model for KeptAnswer<L> {
    ghost use Rattle.std.specs.Coded.{codes};
    ghost use Rattle.lsys_expr.specs.Codes.{expression_code};
    ghost use Rattle.lsys_match.specs.Kept.{Kept};

    ghost Value = { Kept };

    ghost coded = { Prim.hlevel (codes, expression_code) };

    ghost view = { λ a. a.answer };
}

impl<L: Ledger> Kept for KeptAnswer<L> {
    type Store = AnswerStore;

    ghost use Rattle.lsys_reads.specs.Names.{RunName, RunList, run_in, holds};

    ghost Name = { RunName };

    ghost Run = { RunList };

    ghost run_at = { run_in };

    ghost Holds = { holds };

    #[inline(never)]
    fn release(self, store: &mut AnswerStore) {
        self.answer.release(store);
    }
}
