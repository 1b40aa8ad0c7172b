//! All symbols of a level, asked about and replaced.
ghost use Rattle.std.specs.Prelude.{◌≡◌, ◌+◌, ◌<◌, ◌≤◌, ◌^◌, Some, OnOk, OnErr, length, set};
ghost use Rattle.lsys_spec.specs.Draws.{number_base};
ghost use Rattle.lsys_level.specs.Views.{seen_of, HasFewParams};
ghost use Rattle.lsys_module.specs.Views.{string_of};
ghost use Rattle.lsys_reading.specs.Commands.{numbering_of};
ghost use Rattle.lsys_match.specs.Asking.{asked_level};
ghost use Rattle.lsys_match.specs.Asks.{kept_lent};
ghost use Rattle.lsys_flat.specs.Grown.{IsFinished};
ghost use Rattle.lsys_flat.specs.Slots.{filled_slots};
ghost use Rattle.lsys_flat.specs.Rounds.{seen_alone, fresh_found, nothing_asked, derive_refusal_at, with_next_open, with_stayed, with_taken, with_put, AreMadeAt, AreNew, HasOld, IsAt, AwaitsAnswer, StayMade};
ghost use Rattle.lsys_flat.specs.Besides.{row_beside, AsksAll, AsksNext, CanAskBeside, EndsRound, IsShortBeside, ReplacesBeside, ReplacesNext, SettlesBeside, StayNew};

use crate::asking::ask_at;
use crate::beside::Beside;
use crate::found::SymbolAnswer;
use crate::{Level, NextLevel};
use lsys_level::{FlatSpot, LevelView, Sight};
use lsys_match::{Answer, AnswerStore, AskRefusal, Asker, Steps};
use lsys_module::{Module, Params, Symbol};
use lsys_reading::Lineage;
use lsys_rewrite::DeriveRefusal;
use std::alloc::{AllocError, Global};
use std::marker::Model;
use std::sync::ledger::Ledger;

/// A round of questions about a level, as far as its symbols were asked about: what replaces them, and for each of them its
/// new answer or the old place from which an answer is taken over.
#[derive(Drop)]
pub struct Round<L: Ledger> {
    next: NextLevel,
    fresh: Vec<Option<Answer<L>>>,
    taken: Vec<Option<u32>>,
    modules: u32,
    questions: u32,
}

/// What was found out about a level: the next level, where there was room for it; for each symbol its new answer, or the old
/// place from which an answer is taken over; and how many questions there are.
#[derive(Drop)]
pub struct LevelAnswers<L: Ledger> {
    pub next: Option<Level>,
    pub fresh: Vec<Option<Answer<L>>>,
    pub taken: Vec<Option<u32>>,
    pub questions: u32,
}

impl<L: Ledger> Model for Round<L> {
    ghost use Rattle.std.specs.Coded.{codes};
    ghost use Rattle.lsys_expr.specs.Codes.{expression_code};
    ghost use Rattle.lsys_flat.specs.Rounds.{Rounded};

    ghost Value = { Rounded };

    ghost coded = { Prim.hlevel (codes, expression_code) };

    ghost view = { λ a. record {
      next = a.next;
      fresh = a.fresh.items;
      taken = a.taken.items;
      modules = a.modules;
      questions = a.questions;
    } };
}

impl<L: Ledger> Round<L> {
    /// No symbol was asked about yet. The next level may have `room` symbols. Takes no memory.
    pub fn new(alloc: Global, numbering: Lineage, room: usize) -> Round<L>
        ensures { result ≡ nothing_asked (numbering_of numbering) room }
    {
        Round {
            next: NextLevel::new(alloc, numbering, room),
            fresh: Vec::new(alloc),
            taken: Vec::new(alloc),
            modules: 0,
            questions: 0,
        }
    }

    /// Asks about all symbols of a level, from left to right.
    ///
    /// `asked` rises by the new answers, and `visited` by the entries of all questions of the level.
    ///
    /// # Errors
    ///
    /// The leftmost module with a fault, or lack of memory. The new answers so far are still to be released.
    pub fn ask_level<V: Ledger>(
        &mut self,
        alloc: Global,
        store: &mut AnswerStore,
        beside: &Beside<'_, L>,
        asked: &mut Steps<L>,
        visited: &mut Steps<V>,
    ) -> Result<(), DeriveRefusal>
        requires new { self.old ≡ nothing_asked beside.now.system.now.numbering self.old.next.grown.room }
        requires level { CanAskBeside beside.now }
        requires made { AreMadeAt store.old beside.now.olds.now }
        ensures round { AsksAll beside.now store self visited result }
        ensures whole { OnOk result (IsAt (length (row_beside beside.now)) self.new) }
        ensures new { AreNew store.old store.new self.new.fresh }
        ensures each { length self.new.fresh ≤ length (row_beside beside.now) }
        ensures asked { asked.new ≡ asked.old + filled_slots self.new.fresh }
        ensures room { OnOk result (self.new.next.grown.room ≡ self.old.next.grown.room) }
    {
        self.reserve(beside.mates.len())?;
        let mut asker = Asker::new(alloc, beside.system, beside.level);
        for place in 0..beside.mates.len() {
            self.ask_next(alloc, store, beside, place, &mut asker, asked, visited)?;
        }
        Ok(())
    }

    /// What was found out, with the next level where there was room for it.
    pub fn finish(self) -> LevelAnswers<L>
        ensures next { IsFinished self.next.grown result.next }
        ensures fresh { result.fresh.items ≡ self.fresh }
        ensures taken { result.taken.items ≡ self.taken }
        ensures questions { result.questions ≡ self.questions }
    {
        LevelAnswers {
            next: self.next.finish(),
            fresh: self.fresh,
            taken: self.taken,
            questions: self.questions,
        }
    }

    // Makes room for what is found out about so many symbols.
    fn reserve(&mut self, len: usize) -> Result<(), AllocError>
        ensures { self.new ≡ self.old }
    {
        self.taken.reserve(len)?;
        self.fresh.reserve(len)
    }

    // Asks about the symbol at the next place.
    fn ask_next<'a, V: Ledger>(
        &mut self,
        alloc: Global,
        store: &mut AnswerStore,
        beside: &Beside<'a, L>,
        place: usize,
        asker: &mut Asker<'a>,
        asked: &mut Steps<L>,
        visited: &mut Steps<V>,
    ) -> Result<(), DeriveRefusal>
        requires asker { asker.old ≡ asked_level beside.now.system.now beside.now.level }
        requires next { IsAt place self.old }
        requires place { place < length (row_beside beside.now) }
        requires level { CanAskBeside beside.now }
        requires made { AreMadeAt store.old beside.now.olds.now }
        ensures same { asker.new ≡ asker.old }
        ensures next { OnOk result (IsAt (place + 1) self.new) }
        ensures stay { StayMade store.old store.new }
        ensures new { StayNew store self }
        ensures each { length self.new.fresh ≤ place + 1 }
        ensures asked { asked.new + filled_slots self.old.fresh ≡ asked.old + filled_slots self.new.fresh }
        ensures room { OnOk result (self.new.next.grown.room ≡ self.old.next.grown.room) }
        ensures going { AsksNext beside.now place store self visited result }
        ensures refused { EndsRound beside.now place store self visited result }
    {
        self.open()?;
        let old = beside.old(place);
        let found = match ask_at(alloc, store, beside, place, asker, old, asked, visited) {
            Ok(found) => found,
            Err(refusal) => return Err(self.refusal(beside.level, refusal)),
        };
        self.settle(beside, place, old, found)?;
        Ok(())
    }

    // Keeps what was found out about the symbol at a place, and replaces it.
    fn settle(
        &mut self,
        beside: &Beside<'_, L>,
        place: usize,
        old: Option<&Answer<L>>,
        found: SymbolAnswer<L>,
    ) -> Result<(), AllocError>
        requires opened { AwaitsAnswer place self.old }
        requires place { place < length (row_beside beside.now) }
        requires mate { place < length beside.now.mates.now }
        requires old { HasOld (kept_lent old) found }
        requires short { IsShortBeside beside.now place old found }
        ensures replaced { ReplacesBeside beside.now place old.entry found self result }
        ensures settled { SettlesBeside beside.now place found self result }
        ensures fresh { self.new.fresh ≡ set self.old.fresh place (fresh_found found) }
    {
        let spot = FlatSpot {
            level: beside.level,
            place,
        };
        let key = beside.view.key(spot);
        match found {
            SymbolAnswer::Stays => self.stay(key, beside.view.sight(spot)),
            SymbolAnswer::Same => match old {
                Some(old) => self.take(place, key, beside.mates[place], old),
                None => unreachable!(),
            },
            SymbolAnswer::New(answer) => self.put(place, key, answer),
        }
    }

    // Nothing is found out about the next symbol yet.
    fn open(&mut self) -> Result<(), AllocError>
        ensures opened { OnOk result (self.new ≡ with_next_open self.old) }
        ensures refused { OnErr result (self.new.fresh ≡ self.old.fresh) }
    {
        self.taken.push(None)?;
        self.fresh.push(None)?;
        Ok(())
    }

    // Why the system has no levels, where the next symbol is a module that can't be replaced, or memory is wanting.
    fn refusal(&self, level: u32, refusal: AskRefusal) -> DeriveRefusal
        requires { self.now.modules + 1 < 2 ^ 32 }
        ensures { result ≡ derive_refusal_at level self.now.modules refusal }
    {
        match refusal {
            AskRefusal::Fault { kind } => DeriveRefusal::Fault {
                kind,
                level,
                module: self.modules + 1,
            },
            AskRefusal::Memory => DeriveRefusal::Memory,
        }
    }

    // A symbol without a question stays.
    fn stay(&mut self, key: u64, sight: Sight<'_>) -> Result<(), AllocError>
        requires parents { self.old.next.grown.parents + 1 < 2 ^ 32 }
        requires modules { self.old.modules + 1 < 2 ^ 32 }
        requires few { HasFewParams sight }
        ensures replaced { OnOk result (ReplacesNext key (seen_alone (seen_of sight.entry)) self) }
        ensures rest { OnOk result (self.new ≡ with_stayed (seen_of sight.entry) self.new.next self.old) }
        ensures fresh { self.new.fresh ≡ self.old.fresh }
    {
        match sight {
            Sight::Push => self.next.add_children(key, &[Symbol::Push]),
            Sight::Pop => self.next.add_children(key, &[Symbol::Pop]),
            Sight::Module { name, params } => {
                self.modules += 1;
                let params = Params::of(params);
                self.next
                    .add_children(key, &[Symbol::Module(Module { name, params })])
            }
        }
    }

    // The old answer is taken over from its place.
    fn take(
        &mut self,
        place: usize,
        key: u64,
        from: Option<u32>,
        old: &Answer<L>,
    ) -> Result<(), AllocError>
        requires parents { self.old.next.grown.parents + 1 < 2 ^ 32 }
        requires modules { self.old.modules + 1 < 2 ^ 32 }
        requires questions { self.old.questions + 1 < 2 ^ 32 }
        requires place { place < length self.old.taken }
        requires short { length old.now.successor ≤ number_base }
        ensures replaced { OnOk result (ReplacesNext key (string_of old.now.successor) self) }
        ensures rest { OnOk result (self.new ≡ with_taken place from self.new.next self.old) }
        ensures fresh { self.new.fresh ≡ self.old.fresh }
    {
        self.modules += 1;
        self.questions += 1;
        self.taken[place] = from;
        self.next.add_children(key, old.successor().symbols())
    }

    // The new answer is kept.
    fn put(&mut self, place: usize, key: u64, answer: Answer<L>) -> Result<(), AllocError>
        requires parents { self.old.next.grown.parents + 1 < 2 ^ 32 }
        requires modules { self.old.modules + 1 < 2 ^ 32 }
        requires questions { self.old.questions + 1 < 2 ^ 32 }
        requires place { place < length self.old.fresh }
        requires short { length answer.successor ≤ number_base }
        ensures replaced { OnOk result (ReplacesNext key (string_of answer.successor) self) }
        ensures rest { OnOk result (self.new ≡ with_put place answer self.new.next self.old) }
        ensures fresh { self.new.fresh ≡ set self.old.fresh place (Some answer) }
    {
        self.modules += 1;
        self.questions += 1;
        let added = self.next.add_children(key, answer.successor().symbols());
        self.fresh[place] = Some(answer);
        added
    }
}
