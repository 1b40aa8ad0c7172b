//! The derivation.
ghost use Rattle.std.specs.Prelude.{◌≡◌, ◌≤◌, length, map, sum_by};
ghost use Rattle.lsys_syntax.specs.Limits.{greatest_module_limit};
ghost use Rattle.lsys_flat.specs.Lines.{line_of};
ghost use Rattle.lsys_flat.specs.Revised.{tags_of};

use crate::plan::{Olds, planned};
use crate::{Ancestry, take_over};
use lsys_level::{FlatLevels, FlatSpot, LevelView, Sight, Tag};
use lsys_match::{Answer, AnswerStore, Derivation, Steps};
use lsys_module::SymbolList;
use lsys_rewrite::{DeriveRefusal, EditCount};
use lsys_rules::System;
use std::alloc::{AllocError, Global};
use std::marker::Model;
use std::mem::replace;
use std::sync::ledger::Ledger;

/// A system with its levels, one set of vectors a level, and the answers to all questions of the levels below the last.
#[derive(Drop)]
pub struct Levels<L: Ledger> {
    system: System,
    limit: u32,
    view: FlatLevels,
    ancestries: Vec<Ancestry>,
    answers: Vec<Vec<Option<Answer<L>>>>,
    store: AnswerStore,
    alloc: Global,
}

impl<L: Ledger> Model for Levels<L> {
    ghost use Rattle.std.specs.Prelude.{map};
    ghost use Rattle.std.specs.Coded.{codes};
    ghost use Rattle.lsys_rules.specs.Codes.{expr_code};
    ghost use Rattle.lsys_flat.specs.Lines.{line_of};
    ghost use Rattle.lsys_flat.specs.Answers.{lists_of};
    ghost use Rattle.lsys_flat.specs.Counted.{all_slots_in};
    ghost use Rattle.lsys_flat.specs.Codes.{right_code, tree_code};
    ghost use Rattle.lsys_flat.specs.Derived.{Derived, IsDerivation};

    ghost Value = { Derived };

    ghost coded = { Prim.hlevel (codes, expr_code, tree_code, right_code) };

    ghost view = { λ a. record {
      system = a.system;
      limit = a.limit;
      levels = a.view;
      lines = map line_of a.ancestries.items;
      answers = all_slots_in a.store (lists_of a.answers.items);
    } };

    ghost invariant = { λ a. IsDerivation a.system a.limit a.view (map line_of a.ancestries.items) (lists_of a.answers.items) a.store };
}

impl<L: Ledger> LevelView for Levels<L> {
    type Spot = FlatSpot;

    ghost levels = { λ v. v.levels };

    ghost level_of = { λ v s. s.level };

    ghost place_of = { λ v s. s.place };

    fn first(&self, level: u32) -> Option<FlatSpot> {
        self.view.first(level)
    }

    fn left(&self, spot: FlatSpot) -> Option<FlatSpot> {
        self.view.left(spot)
    }

    fn right(&self, spot: FlatSpot) -> Option<FlatSpot> {
        self.view.right(spot)
    }

    fn mate(&self, spot: FlatSpot) -> FlatSpot {
        self.view.mate(spot)
    }

    fn sight(&self, spot: FlatSpot) -> Sight<'_> {
        self.view.sight(spot)
    }

    fn tag(&self, spot: FlatSpot) -> Tag {
        self.view.tag(spot)
    }

    fn key(&self, spot: FlatSpot) -> u64 {
        self.view.key(spot)
    }
}

impl<L: Ledger> Derivation<L> for Levels<L> {
    ghost use Rattle.lsys_flat.specs.Derived.{all_visits};

    ghost system_of = { λ d. d.system };

    ghost limit_of = { λ d. d.limit };

    ghost visits = { all_visits };

    fn start(alloc: Global, limit: u32) -> Result<Levels<L>, AllocError> {
        let mut view = FlatLevels::new(alloc);
        view.push_level(SymbolList::new(alloc), Vec::new(alloc), Vec::new(alloc))?;
        let mut ancestries = Vec::new(alloc);
        ancestries.push(Ancestry {
            origins: Vec::new(alloc),
            tags: Vec::new(alloc),
        })?;
        Ok(Levels {
            system: System::opening(alloc)?,
            limit,
            view,
            ancestries,
            answers: Vec::new(alloc),
            store: AnswerStore::new(alloc),
            alloc,
        })
    }

    fn system(&self) -> &System {
        &self.system
    }

    fn total(&self) -> u64 {
        total_of(self.ancestries.as_slice())
    }

    fn edit<V: Ledger>(
        &mut self,
        alloc: Global,
        system: System,
        asked: &mut Steps<L>,
        visited: &mut Steps<V>,
    ) -> Result<EditCount, DeriveRefusal> {
        let olds = Olds {
            ancestries: self.ancestries.as_slice(),
            answers: self.answers.as_slice(),
        };
        let plan = planned(
            alloc,
            &olds,
            self.limit,
            &system,
            &mut self.store,
            asked,
            visited,
        )?;
        let olds = replace(&mut self.answers, Vec::new(self.alloc));
        self.answers = take_over(&mut self.store, olds, plan.fresh, plan.taken.as_slice());
        self.view = plan.view;
        self.ancestries = plan.ancestries;
        self.system = system;
        Ok(plan.count)
    }
}

// How many tags there are: one for each symbol.
fn total_of(ancestries: &[Ancestry]) -> u64
    requires { sum_by length (tags_of (map line_of ancestries.now)) ≤ greatest_module_limit }
    ensures { result ≡ sum_by length (tags_of (map line_of ancestries.now)) }
{
    let mut total = 0;
    for ancestry in ancestries {
        total += ancestry.tags.len() as u64;
    }
    total
}
