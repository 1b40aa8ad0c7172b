//! The groups of rules: which rules of a table are for a letter with a number of parameters.
ghost use Rattle.std.specs.Prelude.{◌≡◌, IfOk, IsTrue, OnOk, length};
ghost use Rattle.lsys_text.specs.Packed.{packed};
ghost use Rattle.lsys_text.specs.Texts.{IsNameBytes};
ghost use Rattle.lsys_rules.specs.Groups.{AreOfOne, AreRegrouped, HasGroup, IsGroup, found_rules, is_of, is_of_either, is_some_of, rules_at, rules_or_none, same_key};

use crate::shared_group::SharedGroup;
use lsys_bodies::Rule;
use lsys_text::{Name, Word};
use std::alloc::{AllocError, Global};
use std::collections::HashMap;

/// What the rules of a group have in common: the table, the number of the letter's name, and the number of parameters.
#[derive(Clone, Copy, PartialEq, Eq, Hash)]
pub(crate) struct GroupKey {
    pub table: Word,
    pub name: u64,
    pub arity: usize,
}

/// The most groups that are looked through one by one.
const FEW_GROUPS: usize = 16;

/// The rules of each group, in order.
pub(crate) type Groups = HashMap<GroupKey, SharedGroup>;

impl GroupKey {
    // That of the rules of a table for a letter with so many parameters.
    pub(crate) fn new(table: Word, name: Name, arity: usize) -> GroupKey
        ensures table { result.table ≡ table }
        ensures name { result.name ≡ packed name }
        ensures arity { result.arity ≡ arity }
        ensures form { IsNameBytes name }
    {
        GroupKey {
            table,
            name: name.number(),
            arity,
        }
    }

    // That of a rule.
    pub(crate) fn of(rule: &Rule) -> GroupKey
        ensures table { result.table ≡ rule.now.table }
        ensures name { result.name ≡ packed rule.now.body.predecessor.name }
        ensures arity { result.arity ≡ length rule.now.body.predecessor.formals.items }
        ensures form { IsNameBytes rule.now.body.predecessor.name }
    {
        let predecessor = &rule.body.get().predecessor;
        GroupKey::new(rule.table, predecessor.name, predecessor.formals.len())
    }
}

// The groups before, which keep their blocks, but for that of a rule that is gone, where there is one: it is built anew
// from these rules.
pub(crate) fn groups_without(
    alloc: Global,
    old: &Groups,
    rules: &[Rule],
    gone: &Option<Rule>,
) -> Result<Groups, AllocError>
    ensures { IfOk result (λ g. AreRegrouped old.now g rules.now (is_some_of gone.now)) }
{
    let mut groups = copy_of(old)?;
    if let Some(rule) = gone {
        regroup(alloc, &mut groups, rules, rule)?;
    }
    Ok(groups)
}

// The groups before, which keep their blocks, but for that of a rule that came and that of the one whose place it took,
// where there is one: they are built anew from these rules, once where they are one group.
pub(crate) fn groups_with(
    alloc: Global,
    old: &Groups,
    rules: &[Rule],
    rule: &Rule,
    gone: &Option<Rule>,
) -> Result<Groups, AllocError>
    ensures { IfOk result (λ g. AreRegrouped old.now g rules.now (is_of_either rule.now gone.now)) }
{
    let mut groups = if has_same_group(gone, rule) {
        copy_of(old)?
    } else {
        groups_without(alloc, old, rules, gone)?
    };
    regroup(alloc, &mut groups, rules, rule)?;
    Ok(groups)
}

// Whether a rule is gone, and it was of the group of this one.
fn has_same_group(gone: &Option<Rule>, rule: &Rule) -> bool
    ensures { IsTrue result → AreOfOne gone.now rule.now }
{
    match gone {
        Some(gone) => GroupKey::of(gone) == GroupKey::of(rule),
        None => false,
    }
}

// A copy of these groups, which shares their blocks.
fn copy_of(groups: &Groups) -> Result<Groups, AllocError>
    ensures { IfOk result (λ copy. copy.entries ≡ groups.now.entries) }
{
    groups.clone()
}

// Builds the group of a rule anew from these rules, with a look at the key of each.
fn regroup(
    alloc: Global,
    groups: &mut Groups,
    rules: &[Rule],
    rule: &Rule,
) -> Result<(), AllocError>
    ensures { OnOk result (AreRegrouped groups.old groups.new rules.now (is_of rule.now)) }
{
    let key = GroupKey::of(rule);
    let group = SharedGroup::of(alloc, rules_of(alloc, rules, key)?)?;
    set_group(groups, key, group)
}

// The rules of a group among these, in order.
fn rules_of(alloc: Global, rules: &[Rule], key: GroupKey) -> Result<Vec<Rule>, AllocError>
    ensures { IfOk result (λ found. IsGroup rules.now key found.items) }
{
    let mut found = Vec::new(alloc);
    for rule in rules {
        if GroupKey::of(rule) == key {
            found.push(rule.clone()?)?;
        }
    }
    Ok(found)
}

// Puts a group under its key, or takes away what stands there where it has no rule.
fn set_group(
    groups: &mut Groups,
    key: GroupKey,
    group: Option<SharedGroup>,
) -> Result<(), AllocError>
    ensures { OnOk result (HasGroup groups.old groups.new key (rules_or_none group)) }
{
    match group {
        Some(group) => {
            groups.insert(key, group)?;
        }
        None => {
            groups.remove(&key);
        }
    }
    Ok(())
}

// The rules of a group; none where there is no rule for it. Few groups are looked through: to hash a key takes longer than
// to compare it with so many.
pub(crate) fn rules_at(groups: &Groups, key: GroupKey) -> Option<&SharedGroup>
    ensures { found_rules result ≡ rules_at groups.now key }
{
    if groups.len() > FEW_GROUPS {
        return rules_by_hash(groups, &key);
    }
    for (other, group) in groups.iter() {
        if is_same(key, other) {
            return Some(group);
        }
    }
    None
}

// The same by the key's hash. It stands apart, since what it holds meanwhile would be saved at each look through a few.
#[inline(never)]
fn rules_by_hash<'a>(groups: &'a Groups, key: &GroupKey) -> Option<&'a SharedGroup>
    ensures { found_rules result ≡ rules_at groups.now key.now }
{
    groups.get(key)
}

// Whether two keys are equal. Most that aren't differ in their names.
fn is_same(key: GroupKey, other: &GroupKey) -> bool
    ensures { result ≡ same_key key other.now }
{
    key.name == other.name && key.arity == other.arity && key.table == other.table
}
