//! Questions.
ghost use Rattle.std.specs.Prelude.{◌≡◌, ◌+◌, ◌++◌, ◌≤◌, [], length, option_map, IfNone, IfOk, IfSome, OnErr, OnOk};
ghost use Rattle.lsys_laws.specs.Sessions.{IsWell};
ghost use Rattle.lsys_spec.specs.Meaning.{most_entries};
ghost use Rattle.lsys_level.specs.Spots.{IsSpot};
ghost use Rattle.lsys_match.specs.Asking.{asked_level, posed_by};
ghost use Rattle.lsys_match.specs.Asks.{IsKept, IsMadeIfAny, IsTraceFor, IsTracePlaced, KeepsStore, StaysAsKept, asked_if_any, news, KeepsTrace, kept_lent};
ghost use Rattle.lsys_match.specs.Telling.{HasFittingParams, reply_answer, old_trace};
ghost use Rattle.lsys_match.specs.AskedSpots.{AnswersAt, Scans, AnswersTo, CountsNews, IsAskedAt, IsPosedOf, KeepsStoreIfAny, MayAnswer, MayScan, ScansFor};

use crate::answer::Answer;
use crate::asked::Asked;
use crate::asker::Asker;
use crate::posed::Posed;
use crate::refusal::AskRefusal;
use crate::steps::Steps;
use crate::told::{OldTrace, Reply, Told};
use lsys_level::LevelView;
use lsys_region::room;
use lsys_rules::System;
use lsys_walks::{AnswerStore, Entry, TraceRuns};
use std::alloc::{AllocError, Global};
use std::marker::PhantomData;
use std::sync::ledger::Ledger;

/// Asks what replaces the module at a spot of a level: which rule of its group is chosen, and its successor.
///
/// What stands around the module is read as the rules ask for it, entry by entry, beside the trace of the old answer where
/// its other parts (module, tag, bodies and key) are the same, and else beside an empty one. Each entry is counted by
/// `visited`, whatever is answered. The answer is [`Asked::Same`] exactly where there is an old answer and its question is
/// the same; all that the old answer says holds here then. Else it is a new answer, which `asked` counts, and which holds
/// runs of `store` that were not live before. Tags in `old` are named as the view names them; it was made with `store`.
///
/// By every naming of the tags under which the module has the key of its lineage, question, choice, successor and fault are
/// those of the definitions.
///
/// # Errors
///
/// `Fault` has the module's first fault, and `Memory` is lack of memory; what is kept in the store then stays, and at most
/// the entries of the trace were read.
pub fn ask<'a, W: LevelView, L: Ledger, V: Ledger>(
    alloc: Global,
    store: &mut AnswerStore,
    view: &'a W,
    spot: W::Spot,
    system: &'a System,
    level: u32,
    old: Option<&'a Answer<L>>,
    asked: &mut Steps<L>,
    visited: &mut Steps<V>,
) -> Result<Asked<L>, AskRefusal>
    requires spot { IsSpot (W.levels view.now) (W.level_of view.now spot) (W.place_of view.now spot) }
    requires level { W.level_of view.now spot ≡ level }
    requires module { IsAskedAt (asked_level system.now level) W.LevelView view.now spot }
    requires made { IsMadeIfAny store.old (option_map (λ a. a.now) old) }
    ensures answered { AnswersAt system.now level W.LevelView view.now spot store.new old.entry result }
    ensures visited { Scans system.now level W.LevelView view.now spot visited.old visited.new result }
    ensures asked { asked.new ≡ asked.old + news result }
    ensures store { KeepsStore store.old store.new (option_map (λ a. a.now) old.entry) result }
{
    let mut asker = Asker::new(alloc, system, level);
    match asker.ask(alloc, store, view, spot, old, asked, visited) {
        Ok(Some(answer)) => Ok(answer),
        Ok(None) => unreachable!(),
        Err(refusal) => Err(refusal),
    }
}

impl<'a> Asker<'a> {
    /// Asks what replaces the symbol at a spot of the level, as [`ask`] does: the group is found by one look, and where
    /// there is none, or the symbol is a bracket, there is no question, and nothing is answered.
    ///
    /// # Errors
    ///
    /// As `ask`.
    pub fn ask<W: LevelView, L: Ledger, V: Ledger>(
        &mut self,
        alloc: Global,
        store: &mut AnswerStore,
        view: &'a W,
        spot: W::Spot,
        old: Option<&Answer<L>>,
        asked: &mut Steps<L>,
        visited: &mut Steps<V>,
    ) -> Result<Option<Asked<L>>, AskRefusal>
        requires spot { IsSpot (W.levels view.now) (W.level_of view.now spot)
            (W.place_of view.now spot) }
        requires level { W.level_of view.now spot ≡ self.old.level }
        requires made { IsMadeIfAny store.old (option_map (λ a. a.now) old) }
        ensures same { self.new ≡ self.old }
        ensures none { IfNone (asked_if_any result) (IsAskedAt self.old W.LevelView view.now spot → ⊥) }
        ensures some { IfSome (asked_if_any result) (λ _. IsAskedAt self.old W.LevelView view.now spot) }
        ensures answered { MayAnswer self.old W.LevelView view.now spot store.new old.entry result }
        ensures visited { MayScan self.old W.LevelView view.now spot visited.old visited.new result }
        ensures unread { IfNone (asked_if_any result) (visited.new ≡ visited.old) }
        ensures asked { CountsNews asked.old asked.new result }
        ensures store { KeepsStoreIfAny store.old store.new old.entry result }
    {
        let Some(posed) = Posed::at(view, spot, self) else {
            return Ok(None);
        };
        self.exchange_for(&posed, store);
        let answered = self.answer(alloc, store, view, spot, &posed, old, asked, visited);
        self.exchange_for(&posed, store);
        match answered {
            Ok(answer) => Ok(Some(answer)),
            Err(refusal) => Err(refusal),
        }
    }

    // Takes the store's list for the values of formals, or gives it back: but where none is needed.
    fn exchange_for(&mut self, posed: &Posed<'a>, store: &mut AnswerStore)
        ensures same { self.new ≡ self.old }
        ensures store { store.new ≡ store.old }
    {
        if !posed.is_plain() {
            store.exchange(&mut self.bound);
        }
    }

    // Answers what is posed of the module at a spot of the level.
    fn answer<W: LevelView, L: Ledger, V: Ledger>(
        &mut self,
        alloc: Global,
        store: &mut AnswerStore,
        view: &'a W,
        spot: W::Spot,
        posed: &Posed<'a>,
        old: Option<&Answer<L>>,
        asked: &mut Steps<L>,
        visited: &mut Steps<V>,
    ) -> Result<Asked<L>, AskRefusal>
        requires spot { IsSpot (W.levels view.now) (W.level_of view.now spot)
            (W.place_of view.now spot) }
        requires level { W.level_of view.now spot ≡ self.old.level }
        requires made { IsMadeIfAny store.old (option_map (λ a. a.now) old) }
        requires posed { IsPosedOf self.old W.LevelView view.now spot (posed_by posed.now) }
        requires well { IsWell self.old.system }
        requires few { length posed.now.params.now ≤ 8 }
        ensures same { self.new ≡ self.old }
        ensures answered { AnswersTo self.old W.LevelView view.now spot store.new old.entry result }
        ensures visited { ScansFor self.old W.LevelView view.now spot visited.old visited.new result }
        ensures asked { asked.new ≡ asked.old + news result }
        ensures store { KeepsStore store.old store.new (option_map (λ a. a.now) old.entry) result }
    {
        let kept = trace_for(old, store, posed);
        let visited = &mut visited.count;
        let Told::Other(reply) = posed.tell_at(alloc, view, spot, self, kept, visited)? else {
            return Ok(Asked::Same);
        };
        let answer = keep(alloc, store, posed, reply)?;
        asked.count.tick();
        Ok(Asked::New(answer))
    }
}

// The trace of the old answer, where its question is this one but for the trace.
fn trace_for<'s, L: Ledger>(
    old: Option<&Answer<L>>,
    store: &'s AnswerStore,
    posed: &Posed<'_>,
) -> Option<OldTrace<'s>>
    requires { IsMadeIfAny store.now (option_map (λ a. a.now) old) }
    ensures trace { IsTraceFor store.now (kept_lent old.entry) (posed_by posed.now) (old_trace result) }
    ensures fitting { HasFittingParams result }
{
    match old {
        Some(answer) => answer.trace_for(store, posed),
        None => None,
    }
}

// Keeps what was told of a module that is asked about.
fn keep<L: Ledger>(
    alloc: Global,
    store: &mut AnswerStore,
    posed: &Posed<'_>,
    reply: Reply,
) -> Result<Answer<L>, AllocError>
    requires few { length posed.now.params.now ≤ 8 }
    requires entries { length reply.trace ≤ most_entries + 1 }
    ensures kept { IfOk result (IsKept store.old store.new (reply_answer posed.now reply)) }
    ensures refused { OnErr result (StaysAsKept store.old store.new) }
{
    let group = posed.group.share()?;
    let (entries, read) = reply.trace.parts();
    let runs = place(alloc, store, entries, posed.params, read)?;
    Ok(Answer {
        name: posed.name,
        key: posed.key,
        runs,
        group,
        symbols: reply.symbols,
        tag: posed.tag,
        arity: posed.params.len() as u8,
        chosen: reply.chosen,
        ledger: PhantomData,
    })
}

// Keeps a trace, with the parameters of a module and after them those that were read. They are joined first only where
// there are some of both.
fn place(
    alloc: Global,
    store: &mut AnswerStore,
    entries: &[Entry],
    own: &[i64],
    read: &[i64],
) -> Result<TraceRuns, AllocError>
    ensures placed { KeepsTrace store.old store.new entries.now (own.now ++ read.now) result }
    ensures refused { OnErr result (StaysAsKept store.old store.new) }
{
    if entries.is_empty() && own.is_empty() && read.is_empty() {
        return Ok(place_nothing(store));
    }
    if read.is_empty() {
        return place_list(store, entries, own);
    }
    if own.is_empty() {
        return place_list(store, entries, read);
    }
    let mut values = Vec::with_capacity(alloc, own.len() + read.len())?;
    values.extend_from_slice(own)?;
    values.extend_from_slice(read)?;
    place_list(store, entries, &values)
}

// Keeps a trace without entries, without parameters. It takes no memory and no step.
fn place_nothing(store: &mut AnswerStore) -> TraceRuns
    ensures { IsTracePlaced store.old store.new result [] [] }
{
    store.place(&[], &[])
}

// Keeps a trace with these parameters.
fn place_list(
    store: &mut AnswerStore,
    entries: &[Entry],
    values: &[i64],
) -> Result<TraceRuns, AllocError>
    ensures placed { KeepsTrace store.old store.new entries.now values.now result }
    ensures refused { OnErr result (StaysAsKept store.old store.new) }
{
    make_room(store, room(entries.len()), room(values.len()))?;
    Ok(store.place(entries, values))
}

// Makes so much room for a trace and its parameters, where it needs any.
fn make_room(store: &mut AnswerStore, entries: usize, values: usize) -> Result<(), AllocError>
    ensures entries { OnOk result (entries ≤ store.new.traces.spare) }
    ensures params { OnOk result (values ≤ store.new.values.spare) }
    ensures stays { StaysAsKept store.old store.new }
{
    if entries == 0 && values == 0 {
        return Ok(());
    }
    store.reserve(entries, values)
}
