//! A module, with what stands around it.
ghost use Rattle.std.specs.Prelude.{◌≡◌, ◌+◌, ◌≤◌, [], length, Some, None, Ok, IfOk, OnErr};
ghost use Rattle.lsys_bodies.specs.Filters.{filter_of};
ghost use Rattle.lsys_level.specs.Spots.{IsSpot, spots_at};
ghost use Rattle.lsys_walks.specs.Views.{module_named};
ghost use Rattle.lsys_spec.specs.Meaning.{most_entries};
ghost use Rattle.lsys_bodies.specs.Views.{body_value};
ghost use Rattle.lsys_match.specs.Groups.{meant};
ghost use Rattle.lsys_match.specs.Choices.{ChoosesByKey, ChoosesFirst, ChoosesFirstFront, ChoosesFrontByKey, FindsAll, FindsAllFront};
ghost use Rattle.lsys_match.specs.Tries.{TriesFront, decided_by, outcome_by, TriesRule};

use crate::choice::Choice;
use crate::found::ApplyingRules;
use crate::group::Group;
use crate::outcome::{RuleOutcome, judge};
use lsys_bodies::{Body, Filter, SharedBody};
use lsys_level::LevelView;
use lsys_rewrite::FaultKind;
use lsys_text::Name;
use lsys_walks::{Counter, Reading, Walked, context_reads};
use std::alloc::{AllocError, Global};
use std::marker::Model;
use std::sync::ledger::Ledger;

/// A module of a level, and the filter by which contexts pass over modules.
#[derive(Drop)]
pub struct Site<'a, W: LevelView> {
    view: &'a W,
    spot: W::Spot,
    name: Name,
    params: &'a [i64],
    filter: Filter<'a>,
}

impl<'a, W: LevelView> Model for Site<'a, W> {
    ghost use Rattle.lsys_level.specs.Spots.{IsSpot, spots_at};
    ghost use Rattle.lsys_bodies.specs.Filters.{filter_of};
    ghost use Rattle.lsys_walks.specs.Views.{module_named};
    ghost use Rattle.lsys_match.specs.Sites.{Site};

    ghost Value = { Site };

    ghost view = { λ a. record {
      row = spots_at (W.levels a.view.now) (W.level_of a.view.now a.spot);
      place = W.place_of a.view.now a.spot;
      own = module_named a.name a.params.now;
      filter = filter_of a.filter;
    } };

    ghost invariant = { λ a. IsSpot (W.levels a.view.now) (W.level_of a.view.now a.spot) (W.place_of a.view.now a.spot) };
}

impl<'a, W: LevelView> Site<'a, W> {
    /// A module with this name and these parameters at a spot of the view, and the filter of its level.
    pub fn new(
        view: &'a W,
        spot: W::Spot,
        name: Name,
        params: &'a [i64],
        filter: Filter<'a>,
    ) -> Site<'a, W>
        requires { IsSpot (W.levels view.now) (W.level_of view.now spot) (W.place_of view.now spot) }
        ensures row { result.row ≡ spots_at (W.levels view.now) (W.level_of view.now spot) }
        ensures place { result.place ≡ W.place_of view.now spot }
        ensures own { result.own ≡ module_named name params.now }
        ensures filter { result.filter ≡ filter_of filter.entry }
    {
        Site {
            view,
            spot,
            name,
            params,
            filter,
        }
    }

    /// Tries the rule at a place of its group: reads its contexts, and where they match decides by its condition.
    pub(crate) fn try_rule<'t, V: Ledger>(
        &self,
        place: u8,
        body: &SharedBody,
        trace: &mut Reading<'t>,
        bound: &mut Vec<i64>,
        visited: &mut Counter<V>,
    ) -> Result<RuleOutcome, AllocError>
        requires room { length trace.old.read ≤ most_entries }
        ensures tried { TriesRule self.now place body.now trace.old trace.new bound.new.items result }
        ensures refused { TriesFront self.now place (meant body.now) trace.old.read trace.new.read result }
        ensures few { OnErr result (length trace.new.read ≤ most_entries) }
        ensures same { trace.new.old ≡ trace.old.old }
        ensures counted { visited.new + length trace.old.read ≡ visited.old + length trace.new.read }
    {
        let body = body.get();
        let walked = context_reads(
            self.view,
            self.spot,
            self.params,
            self.filter,
            body,
            place,
            trace,
            bound,
            visited,
        )?;
        Ok(decide(walked, body, bound))
    }

    /// The first rule of a group without weights that applies, or the first fault. `bound` has the values of its formals.
    pub(crate) fn first_that_applies<'t, V: Ledger>(
        &self,
        group: &Group<'a>,
        trace: &mut Reading<'t>,
        bound: &mut Vec<i64>,
        visited: &mut Counter<V>,
    ) -> Result<Choice, AllocError>
        requires unread { trace.old.read ≡ [] }
        ensures chosen { ChoosesFirst self.now group.now trace.new.read bound.new.items result }
        ensures refused { ChoosesFirstFront self.now group.now trace.new.read result }
        ensures few { OnErr result (length trace.new.read ≤ most_entries) }
        ensures same { trace.new.old ≡ trace.old.old }
        ensures counted { visited.new ≡ visited.old + length trace.new.read }
    {
        let mut place = 0;
        while let Some(body) = group.get(place) {
            let rule = place as u8;
            match self.try_rule(rule, body, trace, bound, visited)? {
                RuleOutcome::No => place += 1,
                RuleOutcome::Yes => return Ok(Choice::Chosen(rule)),
                RuleOutcome::Fails(kind) => return Ok(Choice::Failed(kind)),
            }
        }
        Ok(Choice::NoRule)
    }

    /// Finds all rules of a group with weights that apply, and tells the first fault, if there is one.
    pub(crate) fn find_all<'t, V: Ledger>(
        &self,
        group: &Group<'a>,
        found: &mut ApplyingRules,
        trace: &mut Reading<'t>,
        bound: &mut Vec<i64>,
        visited: &mut Counter<V>,
    ) -> Result<Option<FaultKind>, AllocError>
        requires unread { trace.old.read ≡ [] }
        requires none { found.old ≡ [] }
        ensures found { FindsAll self.now group.now trace.new.read found.new result }
        ensures refused { FindsAllFront self.now group.now trace.new.read result }
        ensures few { OnErr result (length trace.new.read ≤ most_entries) }
        ensures whole { IfOk result (λ k. k ≡ None → length trace.new.read ≤ most_entries) }
        ensures same { trace.new.old ≡ trace.old.old }
        ensures counted { visited.new ≡ visited.old + length trace.new.read }
    {
        let mut place = 0;
        while let Some(body) = group.get(place) {
            let rule = place as u8;
            let outcome = self.try_rule(rule, body, trace, bound, visited)?;
            if let Some(kind) = found.consider(rule, body, outcome, bound)? {
                return Ok(Some(kind));
            }
            place += 1;
        }
        Ok(None)
    }

    /// The rule of a group with weights that the draw of this key picks among those that apply, or the first fault.
    /// `bound` has the values of its formals.
    pub(crate) fn pick_weighted<'t, V: Ledger>(
        &self,
        alloc: Global,
        group: &Group<'a>,
        key: u64,
        trace: &mut Reading<'t>,
        bound: &mut Vec<i64>,
        visited: &mut Counter<V>,
    ) -> Result<Choice, AllocError>
        requires unread { trace.old.read ≡ [] }
        ensures chosen { ChoosesByKey self.now (Some key) group.now trace.new.read bound.new.items result }
        ensures refused { ChoosesFrontByKey self.now (Some key) group.now trace.new.read result }
        ensures few { OnErr result (length trace.new.read ≤ most_entries) }
        ensures same { trace.new.old ≡ trace.old.old }
        ensures counted { visited.new ≡ visited.old + length trace.new.read }
    {
        let mut found = ApplyingRules::new(alloc);
        if let Some(kind) = self.find_all(group, &mut found, trace, bound, visited)? {
            return Ok(Choice::Failed(kind));
        }
        found.pick(key, bound)
    }

    /// The choice among the rules of a group, where one with weights has this key. `bound` has the values of the chosen
    /// rule's formals.
    pub fn choose<'t, V: Ledger>(
        &self,
        alloc: Global,
        group: &Group<'a>,
        key: Option<u64>,
        trace: &mut Reading<'t>,
        bound: &mut Vec<i64>,
        visited: &mut Counter<V>,
    ) -> Result<Choice, AllocError>
        requires unread { trace.old.read ≡ [] }
        ensures chosen { ChoosesByKey self.now key group.now trace.new.read bound.new.items result }
        ensures refused { ChoosesFrontByKey self.now key group.now trace.new.read result }
        ensures few { OnErr result (length trace.new.read ≤ most_entries) }
        ensures same { trace.new.old ≡ trace.old.old }
        ensures counted { visited.new ≡ visited.old + length trace.new.read }
    {
        match key {
            Some(key) => self.pick_weighted(alloc, group, key, trace, bound, visited),
            None => self.first_that_applies(group, trace, bound, visited),
        }
    }
}

// The outcome of a rule whose contexts were read so.
fn decide(walked: Walked, body: &Body, bound: &[i64]) -> RuleOutcome
    ensures { outcome_by result bound.now ≡ decided_by walked (body_value body.now) bound.now }
{
    match walked {
        Walked::Found => judge(body, bound),
        Walked::Missed => RuleOutcome::No,
        Walked::TooFar => RuleOutcome::Fails(FaultKind::TooFar),
    }
}
