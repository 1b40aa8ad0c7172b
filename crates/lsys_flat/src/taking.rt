//! Answers that are taken over to new levels.
ghost use Rattle.std.specs.Prelude.{◌≡◌, length};
ghost use Rattle.lsys_flat.specs.Answers.{lists_of, AllStayMade, AreAllLeft, AreAllMoved, AllHoldOwnRuns, CanAllMove, CanTakeOver, OthersAreGone};

use crate::move_kept;
use crate::release::release_all;
use lsys_match::{Answer, AnswerStore};
use std::cmp::min;
use std::sync::ledger::Ledger;

/// Takes the old answers that are kept over to the new levels, from the places in the old ones that `taken` tells, and
/// lets all other old answers go, also those of levels that are gone. Takes no memory.
pub fn take_over<L: Ledger>(
    store: &mut AnswerStore,
    mut olds: Vec<Vec<Option<Answer<L>>>>,
    mut fresh: Vec<Vec<Option<Answer<L>>>>,
    taken: &[Vec<Option<u32>>],
) -> Vec<Vec<Option<Answer<L>>>>
    requires { CanTakeOver store.old (lists_of olds.items) (lists_of fresh.items) (lists_of taken.now) }
    ensures moved { AreAllMoved olds.items fresh.items taken.now result.items }
    ensures made { AllStayMade store.old store.new (lists_of result.items) }
    ensures own { AllHoldOwnRuns (lists_of result.items) }
    ensures gone { OthersAreGone store.new (lists_of olds.items) (lists_of taken.now) }
{
    move_all(olds.as_mut_slice(), fresh.as_mut_slice(), taken);
    release_all(store, olds);
    fresh
}

// On each level that both have, the old answers that are kept come to their new places.
fn move_all<L: Ledger>(
    olds: &mut [Vec<Option<Answer<L>>>],
    fresh: &mut [Vec<Option<Answer<L>>>],
    taken: &[Vec<Option<u32>>],
)
    requires levels { length (lists_of fresh.old) ≡ length (lists_of taken.now) }
    requires places { CanAllMove (lists_of olds.old) (lists_of fresh.old) (lists_of taken.now) }
    ensures moved { AreAllMoved olds.old fresh.old taken.now fresh.new }
    ensures left { AreAllLeft (lists_of olds.old) (lists_of taken.now) (lists_of olds.new) }
{
    for level in 0..min(olds.len(), fresh.len()) {
        move_kept(&mut olds[level], &mut fresh[level], &taken[level]);
    }
}
