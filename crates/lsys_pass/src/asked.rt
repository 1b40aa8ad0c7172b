//! Who is asked on a level that was made.
ghost use Rattle.std.specs.Prelude.{◌≡◌, ◌<◌, ◌≤◌, ◌^◌, ℕ, List, length, IsTrue, IfOk, OnOk};
ghost use Rattle.lsys_front.specs.Others.{AreAllAlike};
ghost use Rattle.lsys_spec.specs.Rows.{In};
ghost use Rattle.lsys_forest.specs.Groves.{IsLive, now_of};
ghost use Rattle.lsys_forest.specs.Rows.{complete_levels, level_nodes};
ghost use Rattle.lsys_pass.specs.declared.state.PassState.TheVariants.{Failed};
ghost use Rattle.lsys_pass.specs.Passes.{stage_of};
ghost use Rattle.lsys_pass.specs.Moves.{SameRun};
ghost use Rattle.lsys_pass.specs.Fresh.{row_of, HasFound, Goes, IsReadyToAsk};
ghost use Rattle.lsys_pass.specs.Others.{AllLive, AreUnlike, IsOthers, ListsOthers};
ghost use Rattle.lsys_pass.specs.AskedLevels.{ListsAsked, AddsIfAsked};

use crate::keep::target;
use crate::next_level::is_asked;
use crate::pass::Pass;
use lsys_children::list_level;
use lsys_forest::{Forest, Kept, NodeId};
use lsys_front::{Found, LevelRules, add_others, has_question};
use lsys_level::LevelView;
use lsys_rules::System;
use std::alloc::{AllocError, Global};
use std::sync::ledger::Ledger;

impl<L: Ledger> Pass<L> {
    /// Tells which nodes of a level are to be asked: those whose question may be another one than at the last rest. Nodes that
    /// have no question any more lose their answers, and are dropped.
    ///
    /// It costs steps by the number of rules and by the nodes that differ or were found; and by all nodes of the level, where it
    /// has other rules than at the last rest, or had no questions then.
    ///
    /// # Errors
    ///
    /// Out of memory. The last rest stays.
    pub(crate) fn ask_level(
        &mut self,
        alloc: Global,
        level: u32,
        found: &Found,
    ) -> Result<(), AllocError>
        requires failed { self.old.state ≡ Failed }
        requires found { HasFound self.old level found.now.beside.items found.now.readers.items }
        requires below { level < self.old.next.depth }
        requires few { level < 2 ^ 32 }
        ensures asked { OnOk result (IsReadyToAsk self.new level) }
        ensures goes { OnOk result (Goes (stage_of self.old) (stage_of self.new) level) }
        ensures rows { OnOk result
            ((u : ℕ) → u ≤ level → row_of self.new u ≡ row_of self.old u) }
        ensures made { self.new.made ≡ self.old.made }
        ensures run { SameRun self.old self.new }
        ensures state { self.new.state ≡ Failed }
    {
        if !is_asked(level, self.system.depth()) {
            return self.ask_all(alloc, level);
        }
        self.ask_found(alloc, level, found)
    }

    /// The same, where the level had no questions at the last rest: all of its nodes that have one now are asked. None keeps an
    /// answer.
    ///
    /// # Errors
    ///
    /// Out of memory. The last rest stays.
    fn ask_all(&mut self, alloc: Global, level: u32) -> Result<(), AllocError>
        requires failed { self.old.state ≡ Failed }
        requires found { (beside : List ℕ) × (readers : List ℕ)
            × HasFound self.old level beside readers }
        requires above { self.old.system.depth ≤ level }
        requires below { level < self.old.next.depth }
        requires few { level < 2 ^ 32 }
        ensures asked { OnOk result (IsReadyToAsk self.new level) }
        ensures goes { OnOk result (Goes (stage_of self.old) (stage_of self.new) level) }
        ensures rows { OnOk result
            ((u : ℕ) → u ≤ level → row_of self.new u ≡ row_of self.old u) }
        ensures made { self.new.made ≡ self.old.made }
        ensures run { SameRun self.old self.new }
        ensures state { self.new.state ≡ Failed }
    {
        let system = target(&self.next, &self.system);
        let pending = asked_on(alloc, system, &self.forest, level)?;
        self.work.pending.set(pending)?;
        Ok(())
    }

    /// The same, where the level had questions at the last rest.
    ///
    /// # Errors
    ///
    /// Out of memory. The last rest stays.
    fn ask_found(&mut self, alloc: Global, level: u32, found: &Found) -> Result<(), AllocError>
        requires failed { self.old.state ≡ Failed }
        requires found { HasFound self.old level found.now.beside.items found.now.readers.items }
        requires was { level < self.old.system.depth }
        requires below { level < self.old.next.depth }
        requires few { level < 2 ^ 32 }
        ensures asked { OnOk result (IsReadyToAsk self.new level) }
        ensures goes { OnOk result (Goes (stage_of self.old) (stage_of self.new) level) }
        ensures rows { OnOk result
            ((u : ℕ) → u ≤ level → row_of self.new u ≡ row_of self.old u) }
        ensures made { self.new.made ≡ self.old.made }
        ensures run { SameRun self.old self.new }
        ensures state { self.new.state ≡ Failed }
    {
        let others = self.find_unlike(alloc, level)?;
        let system = target(&self.next, &self.system);
        self.work.front.lose(
            &mut self.forest,
            system,
            level,
            &others,
            &mut self.work.dropped,
        )?;
        let pending = self.work.front.asked(
            alloc,
            system,
            level,
            &self.forest,
            &mut self.seats,
            found,
            &others,
        )?;
        self.work.pending.set(pending)?;
        Ok(())
    }

    /// The nodes of a level that are modules with other rules than at the last rest, where there were questions on it then.
    ///
    /// # Errors
    ///
    /// Out of memory.
    fn find_unlike(&self, alloc: Global, level: u32) -> Result<Vec<NodeId>, AllocError>
        requires complete { level < length (complete_levels self.now.forest) }
        requires below { level < self.now.system.depth }
        ensures others { IfOk result (λ others. IsOthers self.now level others.items) }
    {
        let system = target(&self.next, &self.system);
        let mut rules = LevelRules::new(alloc, &self.system, system, level)?;
        let is_short = self.sizes.symbols_made(level as usize) < system.rules().len();
        unlike_on(alloc, &mut rules, &self.forest, level, is_short)
    }
}

/// The nodes of a level that have a question, from the left. It costs steps by all nodes of the level.
///
/// # Errors
///
/// Out of memory.
fn asked_on<A: Kept>(
    alloc: Global,
    system: &System,
    forest: &Forest<A>,
    level: u32,
) -> Result<Vec<NodeId>, AllocError>
    requires level { level < length (complete_levels forest.now) }
    requires live { AllLive forest.now (level_nodes (now_of forest.now) forest.now.root level) }
    ensures { IfOk result (λ asked. ListsAsked system.now level forest.now asked.items) }
{
    let mut asked = Vec::new(alloc);
    let mut at = forest.first(level);
    while let Some(node) = at {
        add_if_asked(system, level, forest, node, &mut asked)?;
        at = forest.right(node);
    }
    Ok(asked)
}

/// Adds a node if it has a question.
///
/// # Errors
///
/// Out of memory.
fn add_if_asked<A: Kept>(
    system: &System,
    level: u32,
    forest: &Forest<A>,
    node: NodeId,
    asked: &mut Vec<NodeId>,
) -> Result<(), AllocError>
    requires { IsLive forest.now node }
    ensures { OnOk result (AddsIfAsked system.now level forest.now node asked.old asked.new) }
{
    if has_question(system, level, forest, node) {
        asked.push(node)?;
    }
    Ok(())
}

/// The nodes of a level.
///
/// # Errors
///
/// Out of memory.
fn nodes_on<A: Kept>(
    alloc: Global,
    forest: &Forest<A>,
    level: u32,
) -> Result<Vec<NodeId>, AllocError>
    requires { level < length (complete_levels forest.now) }
    ensures { IfOk result (λ row. row.items ≡ level_nodes (now_of forest.now) forest.now.root level) }
{
    let mut nodes = Vec::new(alloc);
    list_level(forest, level, &mut nodes)?;
    Ok(nodes)
}

/// The nodes of a level that are modules with other rules. Where the level is a short one it costs a look at each of its nodes, else
/// steps by the number of rules alone, if all rules of the level are the same.
///
/// # Errors
///
/// Out of memory.
fn unlike_on<A: Kept>(
    alloc: Global,
    rules: &mut LevelRules<'_>,
    forest: &Forest<A>,
    level: u32,
    is_short: bool,
) -> Result<Vec<NodeId>, AllocError>
    requires level { level < length (complete_levels forest.now) }
    requires live { AllLive forest.now (level_nodes (now_of forest.now) forest.now.root level) }
    ensures { IfOk result (λ others. AreUnlike rules.old forest.now level others.items) }
{
    if are_known_alike(rules, is_short)? {
        return Ok(Vec::new(alloc));
    }
    others_on(alloc, rules, forest, level)
}

/// Whether it is known that no modules have other rules than they had: it isn't asked for a short level, where it costs more than to
/// look at all nodes.
///
/// # Errors
///
/// Out of memory.
fn are_known_alike(rules: &mut LevelRules<'_>, is_short: bool) -> Result<bool, AllocError>
    ensures alike { IfOk result (λ all. IsTrue all → AreAllAlike rules.old) }
    ensures same { rules.new ≡ rules.old }
{
    if is_short {
        return Ok(false);
    }
    rules.are_all_alike()
}

/// The nodes of a level that are modules with other rules, by a look at all of its nodes.
///
/// # Errors
///
/// Out of memory.
fn others_on<A: Kept>(
    alloc: Global,
    rules: &mut LevelRules<'_>,
    forest: &Forest<A>,
    level: u32,
) -> Result<Vec<NodeId>, AllocError>
    requires level { level < length (complete_levels forest.now) }
    requires live { AllLive forest.now (level_nodes (now_of forest.now) forest.now.root level) }
    ensures { IfOk result (λ others. ListsOthers rules.old forest.now level others.items) }
{
    let nodes = nodes_on(alloc, forest, level)?;
    let mut others = Vec::new(alloc);
    add_others(rules, forest, &nodes, &mut others)?;
    Ok(others)
}
