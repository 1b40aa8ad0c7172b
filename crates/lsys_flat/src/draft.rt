//! New levels, planned beside old ones.
ghost use Rattle.std.specs.Prelude.{◌≡◌, ◌+◌, [], ◌<◌, ◌≤◌, ◌^◌, List, IfOk, OnErr, OnOk, length, map, sum_by};
ghost use Rattle.lsys_syntax.specs.Limits.{greatest_module_limit};
ghost use Rattle.lsys_laws.specs.Sessions.{IsWell};
ghost use Rattle.lsys_level.specs.Spots.{spots_at};
ghost use Rattle.lsys_flat.specs.Lines.{Descent, line_of};
ghost use Rattle.lsys_flat.specs.Slots.{filled_slots};
ghost use Rattle.lsys_flat.specs.Answers.{at_level, lists_of, AreMadeWith, AllHoldOwnRuns, OthersStayMade};
ghost use Rattle.lsys_flat.specs.Rounds.{AreMadeAt, CanAsk, StayMade};
ghost use Rattle.lsys_flat.specs.Drafts.{with_level_open, AreAllNew, CanAddNext, CanBegin, CanComplete, HasAskedLevels, IsLevelAdded, IsEmpty};
ghost use Rattle.lsys_flat.specs.Plans.{lines_kept, answers_kept, AllStayNew, AsksFew, AsksFewBeside, AsksLevel, BeginsDraft, CanAskLevel, CompletesDraft, CountsNew, DraftsNext, EndsDraft, ReadsFewBeside, RefusesLevels};

use crate::plan::{Olds, Plan};
use crate::{Ancestry, Beside, Level, NextLevel, Revision, Round, release_all};
use lsys_match::{Answer, AnswerStore, Steps};
use lsys_rewrite::{DeriveRefusal, EditCount};
use lsys_rules::System;
use std::alloc::{AllocError, Global};
use std::marker::Model;
use std::sync::ledger::Ledger;

/// The levels of a changed system as far as they were planned, beside the old ones.
#[derive(Drop)]
pub(crate) struct Draft<'a, L: Ledger> {
    revision: Revision<'a>,
    fresh: Vec<Vec<Option<Answer<L>>>>,
    taken: Vec<Vec<Option<u32>>>,
    room: usize,
    asked: u64,
    all: u64,
    alloc: Global,
}

impl<'a, L: Ledger> Model for Draft<'a, L> {
    ghost use Rattle.std.specs.Coded.{codes};
    ghost use Rattle.lsys_expr.specs.Codes.{expression_code};
    ghost use Rattle.lsys_flat.specs.Answers.{lists_of};
    ghost use Rattle.lsys_flat.specs.Drafts.{Drafted};

    ghost Value = { Drafted };

    ghost coded = { Prim.hlevel (codes, expression_code) };

    ghost view = { λ a. record {
      revised = a.revision;
      fresh = lists_of a.fresh.items;
      taken = lists_of a.taken.items;
      room = a.room;
      asked = a.asked;
      all = a.all;
    } };
}

impl<'a, L: Ledger> Draft<'a, L> {
    /// No level yet.
    pub(crate) fn new(
        alloc: Global,
        ancestries: &'a [Ancestry],
        limit: u32,
    ) -> Result<Draft<'a, L>, AllocError>
        ensures { IfOk result (IsEmpty limit (map line_of ancestries.now)) }
    {
        Ok(Draft {
            revision: Revision::new(alloc, ancestries)?,
            fresh: Vec::new(alloc),
            taken: Vec::new(alloc),
            room: limit as usize,
            asked: 0,
            all: 0,
            alloc,
        })
    }

    /// Plans all levels of the system.
    pub(crate) fn complete<V: Ledger>(
        &mut self,
        olds: &Olds<'_, L>,
        system: &System,
        store: &mut AnswerStore,
        asked: &mut Steps<L>,
        visited: &mut Steps<V>,
    ) -> Result<(), DeriveRefusal>
        requires { CanComplete (lines_kept olds.now) (answers_kept olds.now) store.old self.old }
        ensures completed { CompletesDraft olds.now system.now self store visited result }
        ensures found { OnOk result (HasAskedLevels system.now.depth self.new) }
        ensures well { OnOk result (IsWell system.now) }
        ensures new { AreAllNew store.old store.new self.new.fresh }
        ensures asked { asked.new ≡ asked.old + sum_by filled_slots self.new.fresh }
        ensures refused { RefusesLevels (lines_kept olds.now) system.now self.old result }
        ensures few_asked { AsksFewBeside (lines_kept olds.now) self }
        ensures few_read { ReadsFewBeside (lines_kept olds.now) self.old visited result }
    {
        self.begin(system)?;
        for level in 0..system.depth() {
            self.ask_level(olds, system, level, store, asked, visited)?;
        }
        Ok(())
    }

    // Level 0 is what the cut leaves of the axiom.
    fn begin(&mut self, system: &System) -> Result<(), DeriveRefusal>
        requires { CanBegin self.old }
        ensures begun { BeginsDraft system.now self result }
        ensures found { OnOk result (HasAskedLevels 0 self.new) }
        ensures fresh { self.new.fresh ≡ self.old.fresh }
        ensures refused { (old_lines : List Descent) → RefusesLevels old_lines system.now self.old result }
        ensures well { IsWell system.now }
    {
        let mut axiom = NextLevel::new(self.alloc, system.lineage(), self.room);
        axiom.add_children(system.seed(), system.axiom().symbols())?;
        self.add_level(0, axiom.finish())
    }

    // Asks about a level, and plans the next one.
    fn ask_level<V: Ledger>(
        &mut self,
        olds: &Olds<'_, L>,
        system: &System,
        level: u32,
        store: &mut AnswerStore,
        asked: &mut Steps<L>,
        visited: &mut Steps<V>,
    ) -> Result<(), DeriveRefusal>
        requires { CanAskLevel olds.now system.now store.old visited.old level self.old }
        ensures going { DraftsNext olds.now system.now level self store visited result }
        ensures refused { EndsDraft olds.now system.now level self store visited result }
        ensures found { OnOk result (HasAskedLevels (level + 1) self.new) }
        ensures stay { StayMade store.old store.new }
        ensures new { AllStayNew store self }
        ensures asked { CountsNew asked self }
        ensures few { AsksFew olds.now system.now level self store visited }
    {
        self.open()?;
        let (done, next) = self.ask(olds, system, level, store, asked, visited);
        done?;
        self.add_level(level + 1, next)
    }

    // Makes room for what is found out about the next level.
    fn open(&mut self) -> Result<(), AllocError>
        ensures opened { OnOk result (self.new ≡ with_level_open self.old) }
        ensures refused { OnErr result (self.new.fresh ≡ self.old.fresh) }
    {
        self.taken.push(Vec::new(self.alloc))?;
        self.fresh.push(Vec::new(self.alloc))?;
        Ok(())
    }

    // Asks about a level, and keeps what was found out.
    fn ask<V: Ledger>(
        &mut self,
        olds: &Olds<'_, L>,
        system: &System,
        level: u32,
        store: &mut AnswerStore,
        asked: &mut Steps<L>,
        visited: &mut Steps<V>,
    ) -> (Result<(), DeriveRefusal>, Option<Level>)
        requires level { CanAsk system.now (spots_at self.old.revised.view level) self.old.revised.mates }
        requires made { AreMadeAt store.old (at_level (answers_kept olds.now) level) }
        requires fresh { level < length self.old.fresh }
        requires taken { level < length self.old.taken }
        requires asked { self.old.asked ≤ greatest_module_limit }
        requires all { self.old.all ≤ greatest_module_limit }
        ensures { AsksLevel olds.now system.now level self store asked visited result.0 result.1 }
    {
        let none = Vec::new(self.alloc);
        let beside = Beside {
            view: self.revision.view(),
            level,
            system,
            mates: self.revision.mates(),
            olds: answers_at(olds.answers, level as usize, &none),
        };
        let mut round = Round::new(self.alloc, system.lineage(), self.room);
        let done = round.ask_level(self.alloc, store, &beside, asked, visited);
        let found = round.finish();
        self.asked += count_filled(found.fresh.as_slice());
        self.all += u64::from(found.questions);
        self.fresh[level as usize] = found.fresh;
        self.taken[level as usize] = found.taken;
        (done, found.next)
    }

    // Adds the next level, where there is room for it.
    fn add_level(&mut self, level: u32, next: Option<Level>) -> Result<(), DeriveRefusal>
        requires { CanAddNext self.old next }
        ensures added { IsLevelAdded level next self.old self.new result }
        ensures fresh { self.new.fresh ≡ self.old.fresh }
    {
        let Some(next) = next else {
            return Err(DeriveRefusal::Limit { level });
        };
        self.room -= next.symbols.len();
        self.revision.add_level(next)?;
        Ok(())
    }

    /// What was planned.
    pub(crate) fn finish(self) -> Plan<L>
        ensures view { result.view ≡ self.entry.revised.view }
        ensures lines { map line_of result.ancestries.items ≡ self.entry.revised.lines }
        ensures fresh { lists_of result.fresh.items ≡ self.entry.fresh }
        ensures taken { lists_of result.taken.items ≡ self.entry.taken }
        ensures asked { result.count.asked ≡ self.entry.asked }
        ensures all { result.count.questions ≡ self.entry.all }
    {
        let (view, ancestries) = self.revision.finish();
        Plan {
            view,
            ancestries,
            fresh: self.fresh,
            taken: self.taken,
            count: EditCount {
                asked: self.asked,
                questions: self.all,
            },
        }
    }

    /// Lets all new answers go.
    pub(crate) fn release(self, store: &mut AnswerStore)
        requires made { AreMadeWith store.old self.fresh }
        requires own { AllHoldOwnRuns self.fresh }
        ensures { OthersStayMade store.old store.new self.entry.fresh }
    {
        release_all(store, self.fresh);
    }
}

// The old level's answers; none where there is no such level.
fn answers_at<'b, L: Ledger>(
    answers: &'b [Vec<Option<Answer<L>>>],
    level: usize,
    none: &'b Vec<Option<Answer<L>>>,
) -> &'b [Option<Answer<L>>]
    requires { none.now.items ≡ [] }
    ensures { result.now ≡ at_level (lists_of answers.now) level }
{
    match answers.get(level) {
        Some(level) => level.as_slice(),
        None => none.as_slice(),
    }
}

// How many answers there are.
fn count_filled<L: Ledger>(slots: &[Option<Answer<L>>]) -> u64
    requires { length slots.now < 2 ^ 32 }
    ensures { result ≡ filled_slots slots.now }
{
    let mut count = 0;
    for slot in slots {
        if slot.is_some() {
            count += 1;
        }
    }
    count
}
