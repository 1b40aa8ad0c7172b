//! What refuses the edits and queries that are no rules.
ghost use Rattle.std.specs.Prelude.{◌≡◌, not, length, map, nat_lt, bytes_eq};
ghost use Rattle.lsys_spec.specs.Edits.{common_refusal, drop_refusal, first_place, later_refusal, level_refusal, loses_table, many, own_refusal, refused_if, schedule_refusal, version_refusal, without_rule, wrong_table, wrong_version};
ghost use Rattle.lsys_spec.specs.Systems.{Apart, any, depth_bound, is_table};
ghost use Rattle.lsys_module.specs.Views.{module_name};
ghost use Rattle.lsys_bodies.specs.Views.{as_production};
ghost use Rattle.lsys_rules.specs.Faults.{Tells, labelled_else, is_lost_without};
ghost use Rattle.lsys_rules.specs.RuleRefusals.{ignored_refusal};

use crate::faults::{Cause, Fault};
use crate::labelled::{has_hom_rule, has_rule};
use crate::limits::{
    GREATEST_VERSION, MOST_DEPTH, MOST_DEPTH_OF_TWO, MOST_IGNORED, MOST_SCHEDULE_WORDS,
};
use crate::rule_table::is_table;
use crate::system::System;
use lsys_bodies::Rule;
use lsys_text::{Name, Word};

/// What refuses these names, after a line's first token.
pub(crate) fn ignore_fault(names: &[Name]) -> Option<Fault>
    ensures { Tells result (ignored_refusal (length names.now)) }
{
    too_many_if(names.len() > MOST_IGNORED, MOST_IGNORED + 1)
}

/// What refuses a depth: it is greater than the system's version allows.
pub(crate) fn depth_fault(system: &System, depth: u64) -> Option<Fault>
    ensures { Tells result (refused_if (nat_lt (depth_bound system.now.version) depth) many 1) }
{
    too_many_if(depth > most_depth(system.version()), 1)
}

// The greatest depth of systems of a version.
fn most_depth(version: u32) -> u64
    ensures { result ≡ depth_bound version }
{
    if version == 1 {
        MOST_DEPTH
    } else {
        MOST_DEPTH_OF_TWO
    }
}

/// What refuses a number as the version: there is no such version, or it is less than the system's.
pub(crate) fn version_fault(system: &System, version: u64) -> Option<Fault>
    ensures { Tells result (version_refusal system.now version) }
{
    let is_wrong = version == 0
        || version > GREATEST_VERSION
        || version < u64::from(system.version());
    version_if(is_wrong, 1)
}

/// What refuses a command that version 1 doesn't know.
pub(crate) fn later_fault(system: &System) -> Option<Fault>
    ensures { Tells result (later_refusal system.now) }
{
    version_if(system.version() == 1, 0)
}

fn version_if(is_wrong: bool, place: usize) -> Option<Fault>
    ensures { Tells result (refused_if is_wrong wrong_version place) }
{
    is_wrong.then_some(Fault {
        cause: Cause::Version,
        place,
    })
}

/// What refuses these names as a table's own list: the version, the table, or their number.
pub(crate) fn list_fault(system: &System, table: Word, names: &[Name]) -> Option<Fault>
    ensures { Tells result (own_refusal system.now table (map module_name names.now)) }
{
    if let Some(fault) = common_fault(system, table) {
        return Some(fault);
    }
    too_many_if(names.len() > MOST_IGNORED, MOST_IGNORED + 3)
}

/// What refuses that a table is to have no list of its own: the version, or that it is no table.
pub(crate) fn common_fault(system: &System, table: Word) -> Option<Fault>
    ensures { Tells result (common_refusal system.now table) }
{
    if let Some(fault) = later_fault(system) {
        return Some(fault);
    }
    table_fault(system.tables(), table)
}

// What refuses the word after a line's first one as a table.
fn table_fault(tables: &[Word], word: Word) -> Option<Fault>
    ensures { Tells result (refused_if (not (is_table tables.now word)) wrong_table 1) }
{
    if is_table(tables, word) {
        return None;
    }
    Some(Fault {
        cause: Cause::Table,
        place: 1,
    })
}

fn too_many_if(passed: bool, place: usize) -> Option<Fault>
    ensures { Tells result (refused_if passed many place) }
{
    passed.then_some(Fault {
        cause: Cause::TooMany,
        place,
    })
}

/// What refuses a query for a level; the last one without a number.
pub(crate) fn level_fault(system: &System, level: Option<u64>) -> Option<Fault>
    ensures { Tells result (level_refusal system.now level) }
{
    if level? <= u64::from(system.depth()) {
        return None;
    }
    Some(Fault {
        cause: Cause::Level,
        place: 1,
    })
}

/// What refuses these words as the schedule: one that names no table, or their number.
pub(crate) fn schedule_fault(system: &System, words: &[Word]) -> Option<Fault>
    ensures { Tells result (schedule_refusal system.now words.now) }
{
    if let Some(place) = untabled(system.tables(), words) {
        return Some(Fault {
            cause: Cause::Table,
            place,
        });
    }
    too_many_if(words.len() > MOST_SCHEDULE_WORDS, MOST_SCHEDULE_WORDS + 1)
}

// The place, from 1 on, of the first word that is none of the tables.
fn untabled(tables: &[Word], words: &[Word]) -> Option<usize>
    ensures { result ≡ first_place (λ w. not (is_table tables.now w)) 1 words.now }
{
    let place = words.iter().position(|word| !is_table(tables, *word))?;
    Some(place + 1)
}

/// What refuses that the rule under a label is dropped: there is none, or its table has no other rule, and is scheduled or
/// has a list of its own.
pub(crate) fn drop_fault(system: &System, label: Word) -> Option<Fault>
    ensures { Tells result (drop_refusal system.now label) }
{
    let rules = system.rules();
    if !has_rule(rules, label) && !has_hom_rule(system.hom_rules(), label) {
        return Some(Fault {
            cause: Cause::Label,
            place: 1,
        });
    }
    if loses_table(rules, label, system.schedule())
        || loses_table(rules, label, system.own_tables())
    {
        return Some(Fault {
            cause: Cause::Table,
            place: 1,
        });
    }
    None
}

// Whether some word names no table without the rule under this label.
fn loses_table(rules: &[Rule], label: Word, words: &[Word]) -> bool
    requires { Apart bytes_eq (map (λ p. p.label) (map as_production rules.now)) }
    ensures { result ≡ loses_table (without_rule label (map as_production rules.now)) words.now }
{
    for word in words {
        if is_lost(rules, label, *word) {
            return true;
        }
    }
    false
}

// Whether a word is neither `main` nor the table of a rule under another label.
fn is_lost(rules: &[Rule], label: Word, word: Word) -> bool
    ensures { result ≡ is_lost_without label (map as_production rules.now) word }
{
    !(word == Word::from_text(b"main") || has_other(rules, label, word))
}

// Whether a table has a rule under another label.
fn has_other(rules: &[Rule], label: Word, table: Word) -> bool
    ensures { result ≡ any (labelled_else label table) (map as_production rules.now) }
{
    rules
        .iter()
        .any(|rule| rule.label != label && rule.table == table)
}
