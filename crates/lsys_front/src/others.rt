//! Whether a level has other rules than before.
ghost use Rattle.std.specs.Prelude.{◌≡◌, ◌↔◌, ◌∷◌, [], ℕ, false, IsTrue, IfOk, OnOk};
ghost use Rattle.lsys_spec.specs.Rows.{In};
ghost use Rattle.lsys_spec.specs.Bodies.{group, table_at};
ghost use Rattle.lsys_spec.specs.Meaning.{any_weight};
ghost use Rattle.lsys_module.specs.Views.{module_name};
ghost use Rattle.lsys_bodies.specs.Views.{as_production};
ghost use Rattle.lsys_front.specs.Others.{IsOtherwise, AreAllAlike, HasOther, alike_named, all_alike_in, productions, meant_bodies, is_alike_for, all_alike_for};
ghost use Rattle.lsys_forest.specs.Groves.{IsLive, now_of};
ghost use Rattle.lsys_front.specs.AddedNodes.{AddsOthers};

use crate::filters::have_same_names;
use crate::module_key::ModuleKey;
use lsys_bodies::Rule;
use lsys_forest::{Forest, Kept, NodeId};
use lsys_level::Sight;
use lsys_match::Asker;
use lsys_rules::System;
use lsys_text::{Name, Word};
use std::alloc::{AllocError, Global};
use std::collections::HashMap;
use std::marker::Model;

/// The rules of one level, by an old system and by a new one. What is told of the whole level is found once, and what is
/// told of a name with so many parameters is kept.
#[derive(Drop)]
pub struct LevelRules<'a> {
    old_system: &'a System,
    new_system: &'a System,
    level: u32,
    was: Asker<'a>,
    are: Asker<'a>,
    is_same_seed: bool,
    is_same_filter: bool,
    known: HashMap<ModuleKey, bool>,
}

impl<'a> Model for LevelRules<'a> {
    ghost use Rattle.std.specs.Prelude.{◌≡◌, ◌==◌};
    ghost use Rattle.std.specs.Coded.{codes};
    ghost use Rattle.lsys_rules.specs.Codes.{expr_code};
    ghost use Rattle.lsys_spec.specs.Bodies as bodies;
    ghost use Rattle.lsys_spec.specs.Standings.{same_filter};
    ghost use Rattle.lsys_match.specs.Asking.{asked_level};
    ghost use Rattle.lsys_front.specs.Others.{RulesOf};
    ghost use Rattle.lsys_front.specs.Known.{KnowsAlike};

    ghost Value = { RulesOf };

    ghost coded = { Prim.hlevel (codes, expr_code) };

    ghost view = { λ a. record {
      old = a.old_system.now;
      new = a.new_system.now;
      level = a.level;
    } };

    ghost invariant = { λ a. (a.was ≡ asked_level a.old_system.now a.level)
        × (a.are ≡ asked_level a.new_system.now a.level)
        × (a.is_same_seed ≡ (a.old_system.now.seed == a.new_system.now.seed))
        × (a.is_same_filter ≡ same_filter (bodies.filter a.old_system.now a.level)
        (bodies.filter a.new_system.now a.level))
        × KnowsAlike a.known a.old_system.now a.new_system.now a.level };
}

impl<'a> LevelRules<'a> {
    /// Of this level. It costs steps by the number of names that contexts pass over.
    ///
    /// # Errors
    ///
    /// Out of memory.
    pub fn new(
        alloc: Global,
        old: &'a System,
        new: &'a System,
        level: u32,
    ) -> Result<LevelRules<'a>, AllocError>
        ensures { IfOk result (λ rules. rules
            ≡ record { old = old.now; new = new.now; level = level }) }
    {
        Ok(LevelRules {
            old_system: old,
            new_system: new,
            level,
            was: Asker::new(alloc, old, level),
            are: Asker::new(alloc, new, level),
            is_same_seed: old.seed() == new.seed(),
            is_same_filter: have_same_names(alloc, old.filter(level), new.filter(level))?,
            known: HashMap::new(alloc),
        })
    }

    /// Whether modules with this name and so many parameters have the rules that they had: the same bodies, with the same seed
    /// if one has a weight, and with the same modules passed over if one has a context. The rules are compared once; later
    /// it costs one look.
    ///
    /// # Errors
    ///
    /// Out of memory.
    pub fn are_alike(&mut self, name: Name, arity: usize) -> Result<bool, AllocError>
        ensures alike { IfOk result (λ alike. alike ≡ alike_named self.old name arity) }
        ensures same { self.new ≡ self.old }
    {
        let key = ModuleKey { name, arity };
        if let Some(known) = self.known.get(&key) {
            return Ok(*known);
        }
        let alike = self.compare(name, arity);
        self.known.insert(key, alike)?;
        Ok(alike)
    }

    /// Whether no modules have other rules than they had, whatever their name and however many parameters they have. It
    /// costs steps by the number of rules of both systems.
    ///
    /// # Errors
    ///
    /// Out of memory.
    pub fn are_all_alike(&mut self) -> Result<bool, AllocError>
        ensures alike { IfOk result (λ all. IsTrue all → AreAllAlike self.old) }
        ensures other { IfOk result (λ all. all ≡ false → HasOther self.old) }
        ensures same { self.new ≡ self.old }
    {
        let old = self.old_system;
        let new = self.new_system;
        Ok(self.are_alike_in(old)? && self.are_alike_in(new)?)
    }

    /// Whether the modules that a system has rules for, in the table of the level, have the rules that they had.
    fn are_alike_in(&mut self, system: &System) -> Result<bool, AllocError>
        ensures alike { IfOk result (λ all. all ≡ all_alike_in self.old system.now) }
        ensures same { self.new ≡ self.old }
    {
        let table = table_of(system, self.level);
        all_alike_for(self, table, system.rules())
    }

    /// Whether such modules have the rules that they had, by a look at the rules.
    fn compare(&self, name: Name, arity: usize) -> bool
        ensures { result ≡ alike_named self.now name arity }
    {
        self.are.has_group_of(&self.was, name, arity)
            && (!is_weighted(self.new_system, self.level, name, arity) || self.is_same_seed)
            && (self.are.is_free(name, arity) || self.is_same_filter)
    }
}

/// Whether the modules that these rules are for have the rules that they had; of the rules of this table alone.
fn all_alike_for(
    rules: &mut LevelRules<'_>,
    table: Word,
    these: &[Rule],
) -> Result<bool, AllocError>
    ensures alike { IfOk result (λ all. all ≡ all_alike_for rules.old table (productions these.now)) }
    ensures same { rules.new ≡ rules.old }
{
    for rule in these {
        if !is_alike_for(rules, table, rule)? {
            return Ok(false);
        }
    }
    Ok(true)
}

/// The same of one rule.
fn is_alike_for(rules: &mut LevelRules<'_>, table: Word, rule: &Rule) -> Result<bool, AllocError>
    ensures alike { IfOk result (λ same. same ≡ is_alike_for rules.old table (as_production rule.now)) }
    ensures same { rules.new ≡ rules.old }
{
    if rule.table != table {
        return Ok(true);
    }
    let predecessor = &rule.body.get().predecessor;
    rules.are_alike(predecessor.name, predecessor.formals.len())
}

/// The table of a level.
fn table_of(system: &System, level: u32) -> Word
    ensures { result ≡ table_at system.now.schedule level }
{
    let schedule = system.schedule();
    schedule[level as usize % schedule.len()]
}

/// Adds those of these nodes that are modules with other rules than they had. It costs a look for each, and the comparison
/// of the rules of each name.
///
/// # Errors
///
/// Out of memory.
pub fn add_others<A: Kept>(
    rules: &mut LevelRules<'_>,
    forest: &Forest<A>,
    nodes: &[NodeId],
    others: &mut Vec<NodeId>,
) -> Result<(), AllocError>
    requires { (k : ℕ) → In k nodes.now → IsLive forest.now k }
    ensures adds { OnOk result (AddsOthers rules.old forest.now nodes.now others.old others.new) }
    ensures same { rules.new ≡ rules.old }
{
    for node in nodes {
        add_if_other(rules, forest, *node, others)?;
    }
    Ok(())
}

/// Adds a node if it is a module with other rules.
fn add_if_other<A: Kept>(
    rules: &mut LevelRules<'_>,
    forest: &Forest<A>,
    node: NodeId,
    others: &mut Vec<NodeId>,
) -> Result<(), AllocError>
    requires { IsLive forest.now node }
    ensures adds { OnOk result (AddsOthers rules.old forest.now (node ∷ []) others.old others.new) }
    ensures same { rules.new ≡ rules.old }
{
    if !is_otherwise(rules, forest, node)? {
        return Ok(());
    }
    others.push(node)?;
    Ok(())
}

/// Whether a node is a module with other rules.
fn is_otherwise<A: Kept>(
    rules: &mut LevelRules<'_>,
    forest: &Forest<A>,
    node: NodeId,
) -> Result<bool, AllocError>
    requires { IsLive forest.now node }
    ensures other { IfOk result (λ is. IsTrue is ↔ IsOtherwise rules.old (now_of forest.now) node) }
    ensures same { rules.new ≡ rules.old }
{
    match forest.symbol(node) {
        Sight::Push | Sight::Pop => Ok(false),
        Sight::Module { name, params } => Ok(!rules.are_alike(name, params.len())?),
    }
}

/// Whether a rule of a level for such modules has a weight.
fn is_weighted(system: &System, level: u32, name: Name, arity: usize) -> bool
    ensures { result ≡ any_weight (group system.now level (module_name name) arity) }
{
    match system.group(level, name, arity) {
        Some(group) => have_weights(group.rules()),
        None => false,
    }
}

/// Whether one of these rules has a weight.
fn have_weights(rules: &[Rule]) -> bool
    ensures { result ≡ any_weight (meant_bodies rules.now) }
{
    rules.iter().any(|rule| rule.body.weight().is_some())
}
