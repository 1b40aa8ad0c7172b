//! What is read and chosen for a question.
ghost use Rattle.std.specs.Prelude.{◌≡◌, ◌↔◌, ◌≤◌, [], length, IsTrue, Some, true};
ghost use Rattle.lsys_level.specs.Spots.{IsSpot};
ghost use Rattle.lsys_match.specs.Asking.{is_plain, posed_by};
ghost use Rattle.lsys_match.specs.Telling.{HasFittingParams, IsOldTrace, IsChosenPlace, old_trace, CountsTold, IsReplyOf, IsTellingAnywhere, IsTellingOf};
ghost use Rattle.lsys_match.specs.AskedSpots.{IsTellingAt, ReadsAt};

use crate::asker::Asker;
use crate::choice::Choice;
use crate::posed::Posed;
use crate::refusal::AskRefusal;
use crate::site::Site;
use lsys_level::LevelView;
use lsys_module::SymbolList;
use lsys_rewrite::FaultKind;
use lsys_walks::{Counter, Entry, Reading, Trace};
use std::alloc::Global;
use std::sync::ledger::Ledger;

/// The trace of an old answer, with the parameters of its modules.
#[derive(Clone, Copy)]
pub(crate) struct OldTrace<'a> {
    pub(crate) entries: &'a [Entry],
    pub(crate) values: &'a [i64],
}

/// What is read and chosen for a question.
#[derive(Drop)]
pub(crate) enum Told {
    /// The old trace was read.
    Same,
    /// Another one was read, or there is no old one.
    Other(Reply),
}

/// A trace, the rule that is chosen, by its place, and what replaces the module, where it doesn't stand in the rule's body.
#[derive(Drop)]
pub(crate) struct Reply {
    pub(crate) trace: Trace,
    pub(crate) chosen: Option<u8>,
    pub(crate) symbols: SymbolList,
}

impl<'a> Posed<'a> {
    /// Reads and chooses at a spot of the level that is asked about. The old trace is that of an answer to a question that is
    /// the same but for the trace.
    pub(crate) fn tell_at<W: LevelView, V: Ledger>(
        &self,
        alloc: Global,
        view: &'a W,
        spot: W::Spot,
        by: &mut Asker<'a>,
        old: Option<OldTrace<'_>>,
        visited: &mut Counter<V>,
    ) -> Result<Told, AskRefusal>
        requires spot { IsSpot (W.levels view.now) (W.level_of view.now spot) (W.place_of view.now spot) }
        requires few { length self.now.params.now ≤ 8 }
        requires old { HasFittingParams old }
        ensures same { by.new ≡ by.old }
        ensures told { IsTellingAt self.now by.old W.LevelView view.now spot old.entry result }
        ensures visited { ReadsAt self.now by.old W.LevelView view.now spot visited.old visited.new result }
    {
        if self.is_plain() {
            return self.tell_plain(alloc, old);
        }
        let site = Site::new(view, spot, self.name, self.params, by.filter());
        self.tell(alloc, &site, old, &mut by.bound, visited)
    }

    /// Chooses the first rule of a group that is plain: nothing is read.
    fn tell_plain(&self, alloc: Global, old: Option<OldTrace<'_>>) -> Result<Told, AskRefusal>
        requires plain { is_plain (posed_by self.now) ≡ true }
        requires few { length self.now.params.now ≤ 8 }
        ensures { IsTellingAnywhere self.now old.entry result }
    {
        if is_unread(old) {
            return Ok(Told::Same);
        }
        let kept = self.kept_symbols(alloc, Some(0), self.params)?;
        Ok(Told::Other(Reply {
            trace: Trace::new(alloc),
            chosen: Some(0),
            symbols: kept,
        }))
    }

    /// Reads and chooses.
    fn tell<W: LevelView, V: Ledger>(
        &self,
        alloc: Global,
        site: &Site<'a, W>,
        old: Option<OldTrace<'_>>,
        bound: &mut Vec<i64>,
        visited: &mut Counter<V>,
    ) -> Result<Told, AskRefusal>
        requires site { site.now.own ≡ (posed_by self.now).own }
        requires few { length self.now.params.now ≤ 8 }
        requires old { HasFittingParams old }
        ensures told { IsTellingOf self.now site.now old.entry result }
        ensures visited { CountsTold self.now site.now visited.old visited.new result }
    {
        let mut trace = beside(old, alloc);
        let choice = site.choose(alloc, &self.group, self.key, &mut trace, bound, visited)?;
        let chosen = place_of(choice)?;
        if is_read(old, &trace) {
            return Ok(Told::Same);
        }
        match self.reply(alloc, trace, chosen, bound) {
            Ok(reply) => Ok(Told::Other(reply)),
            Err(refusal) => Err(refusal),
        }
    }

    /// The reply, where this was read and chosen, by the values of the chosen rule's formals.
    fn reply(
        &self,
        alloc: Global,
        trace: Reading<'_>,
        chosen: Option<u8>,
        bound: &[i64],
    ) -> Result<Reply, AskRefusal>
        requires { length self.now.params.now ≤ 8 }
        ensures { IsReplyOf self.now trace.entry.read chosen bound.now result }
    {
        let symbols = self.kept_symbols(alloc, chosen, bound)?;
        Ok(Reply {
            trace: trace.finish()?,
            chosen,
            symbols,
        })
    }
}

// Nothing was read as yet beside the old trace.
fn beside<'a>(old: Option<OldTrace<'a>>, alloc: Global) -> Reading<'a>
    requires { HasFittingParams old }
    ensures old { IsOldTrace (old_trace old.entry) result.old }
    ensures none { result.read ≡ [] }
{
    match old {
        Some(kept) => Reading::beside_parts(kept.entries, kept.values, alloc),
        None => Reading::beside_parts(&[], &[], alloc),
    }
}

// The old trace is there and has no entries.
fn is_unread(old: Option<OldTrace<'_>>) -> bool
    ensures { IsTrue result ↔ (old_trace old.entry ≡ Some []) }
{
    match old {
        Some(kept) => kept.entries.is_empty(),
        None => false,
    }
}

// The old trace is there and was read.
fn is_read(old: Option<OldTrace<'_>>, trace: &Reading<'_>) -> bool
    requires { IsOldTrace (old_trace old) trace.now.old }
    ensures { IsTrue result ↔ (old_trace old.entry ≡ Some trace.now.read) }
{
    old.is_some() && trace.is_same()
}

// The place of the rule that is chosen.
fn place_of(choice: Choice) -> Result<Option<u8>, FaultKind>
    ensures { IsChosenPlace choice result }
{
    match choice {
        Choice::NoRule => Ok(None),
        Choice::Chosen(place) => Ok(Some(place)),
        Choice::Failed(kind) => Err(kind),
    }
}
