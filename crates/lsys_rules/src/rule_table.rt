//! The productions of a system, in the order in which they are tried.
ghost use Rattle.std.specs.Prelude.{◌≡◌, [], IfOk, OnOk, map};
ghost use Rattle.indexmap.specs.IndexMap.{values};
ghost use Rattle.lsys_spec.specs.Systems.{is_table, tables};
ghost use Rattle.lsys_spec.specs.Edits.{put, without_rule};
ghost use Rattle.lsys_bodies.specs.Views.{as_production};
ghost use Rattle.lsys_rules.specs.Groups.{AreGroups, found_rules};
ghost use Rattle.lsys_rules.specs.InsideRules.{HaveOwnLabels, productions_in};
ghost use Rattle.lsys_rules.specs.RuleRefusals.{with_table_once};
ghost use Rattle.lsys_rules.specs.LevelGroups.{table_rules};

use crate::groups::{GroupKey, Groups, groups_with, groups_without, rules_at};
use crate::shared_group::SharedGroup;
use indexmap::IndexMap;
use lsys_bodies::Rule;
use lsys_text::{Name, Word};
use std::alloc::{AllocError, Global};
use std::collections::HashMap;
use std::marker::Model;
use std::rc::Rc;

/// Productions by label, in order, with what finds a group and a table quickly.
#[derive(Drop)]
pub(crate) struct Rules {
    pub by_label: IndexMap<Word, Rule>,
    pub groups: Groups,
    /// `main`, and the tables that have a rule, each once.
    pub tables: Vec<Word>,
}

/// Productions under their labels, in order, shared by the copies of a system. Contracts see them as those of the definitions.
#[derive(Drop)]
pub struct RuleTable {
    rules: Rc<Rules>,
}

impl Model for RuleTable {
    ghost use Rattle.std.specs.Prelude.{List};
    ghost use Rattle.std.specs.Coded.{codes};
    ghost use Rattle.lsys_syntax.specs.Rules.{Production};
    ghost use Rattle.lsys_rules.specs.Codes.{expr_code};

    ghost Value = { List Production };

    ghost coded = { Prim.hlevel (codes, expr_code) };

    ghost use Rattle.lsys_rules.specs.InsideRules.{productions_in, AreByLabel};

    ghost view = { λ a. productions_in a.rules.value.by_label };

    ghost invariant = { λ a. AreByLabel a.rules.value };
}

impl RuleTable {
    /// No rules.
    ///
    /// # Errors
    ///
    /// Out of memory.
    pub fn new(alloc: Global) -> Result<RuleTable, AllocError>
        ensures { IfOk result (λ t. t ≡ []) }
    {
        RuleTable::of(alloc, IndexMap::new(alloc), HashMap::new(alloc))
    }

    // These rules, each of which stands under its own label, in these groups.
    fn of(
        alloc: Global,
        by_label: IndexMap<Word, Rule>,
        groups: Groups,
    ) -> Result<RuleTable, AllocError>
        requires labels { HaveOwnLabels (λ r. r.label) by_label.entries }
        requires groups { AreGroups groups (values by_label) }
        ensures { IfOk result (λ t. t ≡ productions_in by_label) }
    {
        let tables = tables_of(alloc, by_label.values().as_slice())?;
        let rules = Rules {
            by_label,
            groups,
            tables,
        };
        Ok(RuleTable {
            rules: Rc::new(alloc, rules)?,
        })
    }

    /// The rules with one more: a label that stands keeps its place, and a new one goes last. Of the groups only those of
    /// this rule and of the one whose place it takes are built anew, with a look at each rule; the others stay shared.
    ///
    /// # Errors
    ///
    /// Out of memory.
    pub fn with(&self, alloc: Global, rule: Rule) -> Result<RuleTable, AllocError>
        ensures { IfOk result (λ t. t ≡ put (as_production rule) self.now) }
    {
        let mut by_label = copy_of(&self.rules)?;
        let gone = by_label.insert(rule.label, rule.clone()?)?;
        let rules = by_label.values().as_slice();
        let groups = groups_with(alloc, &self.rules.groups, rules, &rule, &gone)?;
        RuleTable::of(alloc, by_label, groups)
    }

    /// The rules without the one under a label. Of the groups only that of the rule is built anew, with a look at each
    /// rule; the others stay shared.
    ///
    /// # Errors
    ///
    /// Out of memory.
    pub fn without(&self, alloc: Global, label: Word) -> Result<RuleTable, AllocError>
        ensures { IfOk result (λ t. t ≡ without_rule label self.now) }
    {
        let mut by_label = copy_of(&self.rules)?;
        let gone = by_label.shift_remove(&label);
        let rules = by_label.values().as_slice();
        let groups = groups_without(alloc, &self.rules.groups, rules, &gone)?;
        RuleTable::of(alloc, by_label, groups)
    }

    /// The rules, in the order in which they are tried.
    pub fn rules(&self) -> &[Rule]
        ensures { map as_production result.now ≡ self.now }
    {
        self.rules.by_label.values().as_slice()
    }

    /// The tables: `main`, and those that have a rule.
    pub fn tables(&self) -> &[Word]
        ensures { result.now ≡ tables self.now }
    {
        &self.rules.tables
    }

    /// The group of a table for modules of this name and number of parameters; none where the table has no rule for them.
    /// A look-up costs the same however many rules there are.
    pub fn group(&self, table: Word, name: Name, arity: usize) -> Option<&SharedGroup>
        ensures { map as_production (found_rules result) ≡ table_rules self.now table name arity }
    {
        rules_at(&self.rules.groups, GroupKey::new(table, name, arity))
    }
}

impl Clone for RuleTable {
    ghost is_clone = { λ a b. b ≡ a };

    fn clone(&self) -> Result<RuleTable, AllocError> {
        Ok(RuleTable {
            rules: self.rules.clone()?,
        })
    }
}

// A copy of the rules by label.
fn copy_of(rules: &Rules) -> Result<IndexMap<Word, Rule>, AllocError>
    ensures { IfOk result (λ m. m.entries ≡ rules.now.by_label.entries) }
{
    rules.by_label.clone()
}

// The tables of some rules, in order: `main`, and each where it first stands.
fn tables_of(alloc: Global, rules: &[Rule]) -> Result<Vec<Word>, AllocError>
    ensures { IfOk result (λ ts. ts.items ≡ tables (map as_production rules.now)) }
{
    let mut tables = Vec::new(alloc);
    tables.push(Word::from_text(b"main"))?;
    for rule in rules {
        add_table(&mut tables, rule.table)?;
    }
    Ok(tables)
}

// Adds a table, unless it stands there.
fn add_table(tables: &mut Vec<Word>, table: Word) -> Result<(), AllocError>
    ensures { OnOk result (tables.new.items ≡ with_table_once tables.old.items table) }
{
    if !is_table(tables, table) {
        tables.push(table)?;
    }
    Ok(())
}

// Whether a word is among these tables.
pub(crate) fn is_table(tables: &[Word], word: Word) -> bool
    ensures { result ≡ is_table tables.now word }
{
    tables.iter().any(|table| *table == word)
}
