//! What replaces one symbol of a level.
ghost use Rattle.std.specs.Prelude.{◌≡◌, ◌+◌, ◌<◌, length};
ghost use Rattle.lsys_match.specs.Asking.{asked_level};
ghost use Rattle.lsys_match.specs.Asks.{IsMadeIfAny, kept_lent};
ghost use Rattle.lsys_flat.specs.Replaced.{KeepsFound, found_news, found_of};
ghost use Rattle.lsys_flat.specs.Besides.{row_beside, IsReadBeside, IsRecalledBeside, IsReplacedBeside};

use crate::beside::Beside;
use crate::found::SymbolAnswer;
use lsys_level::FlatSpot;
use lsys_match::{Answer, AnswerStore, AskRefusal, Asked, Asker, Steps};
use std::alloc::Global;
use std::sync::ledger::Ledger;

// Asks what replaces the symbol at a place of a level, where it has a question: the old answer is handed to it, which was
// made with this store, and whose tags are named as the view names them.
//
// By every naming of the tags that makes a level of what is seen, what replaces the symbol is what the definitions say:
// the symbol itself, the successor of the old answer or of the new one, or a fault. `asked` rises by 1 for a new answer
// alone, and `visited` by the entries of the question's trace, whatever is answered.
pub(crate) fn ask_at<'a, L: Ledger, V: Ledger>(
    alloc: Global,
    store: &mut AnswerStore,
    beside: &Beside<'a, L>,
    place: usize,
    asker: &mut Asker<'a>,
    old: Option<&Answer<L>>,
    asked: &mut Steps<L>,
    visited: &mut Steps<V>,
) -> Result<SymbolAnswer<L>, AskRefusal>
    requires asker { asker.old ≡ asked_level beside.now.system.now beside.now.level }
    requires place { place < length (row_beside beside.now) }
    requires made { IsMadeIfAny store.old (kept_lent old) }
    ensures same { asker.new ≡ asker.old }
    ensures replaced { IsReplacedBeside beside.now place old.entry result }
    ensures answered { IsRecalledBeside beside.now place old.entry store.new result }
    ensures visited { IsReadBeside beside.now place visited result }
    ensures asked { asked.new ≡ asked.old + found_news result }
    ensures store { KeepsFound store.old store.new (kept_lent old.entry) result }
{
    let spot = FlatSpot {
        level: beside.level,
        place,
    };
    found(asker.ask(alloc, store, beside.view, spot, old, asked, visited))
}

// What is found out by asking.
fn found<L: Ledger>(
    answer: Result<Option<Asked<L>>, AskRefusal>,
) -> Result<SymbolAnswer<L>, AskRefusal>
    ensures { result ≡ found_of answer }
{
    match answer {
        Ok(None) => Ok(SymbolAnswer::Stays),
        Ok(Some(Asked::Same)) => Ok(SymbolAnswer::Same),
        Ok(Some(Asked::New(answer))) => Ok(SymbolAnswer::New(answer)),
        Err(refusal) => Err(refusal),
    }
}
