//! Answers that are let go.
ghost use Rattle.std.specs.Prelude.{[], ◌∷◌};
ghost use Rattle.lsys_flat.specs.Answers.{lists_of, AreMadeWith, AllHoldOwnRuns, AreReleased, OthersStayMade};

use lsys_match::{Answer, AnswerStore};
use std::sync::ledger::Ledger;

/// Lets the answers of all levels go: their traces and their parameters are kept no more. Takes no memory.
pub fn release_all<L: Ledger>(store: &mut AnswerStore, levels: Vec<Vec<Option<Answer<L>>>>)
    requires made { AreMadeWith store.old (lists_of levels.items) }
    requires own { AllHoldOwnRuns (lists_of levels.items) }
    ensures released { AreReleased store.old store.new (lists_of levels.items) }
    ensures others { OthersStayMade store.old store.new (lists_of levels.items) }
{
    for answers in levels {
        release_level(store, answers);
    }
}

// Lets those of one level go.
fn release_level<L: Ledger>(store: &mut AnswerStore, answers: Vec<Option<Answer<L>>>)
    requires made { AreMadeWith store.old (answers.items ∷ []) }
    requires own { AllHoldOwnRuns (answers.items ∷ []) }
    ensures { AreReleased store.old store.new (answers.items ∷ []) }
{
    for answer in answers {
        if let Some(answer) = answer {
            answer.release(store);
        }
    }
}
