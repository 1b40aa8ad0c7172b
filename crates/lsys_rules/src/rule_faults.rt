//! What refuses a rule.
ghost use Rattle.std.specs.Prelude.{◌≡◌, ◌≤◌, ◌+◌, List, length, map, nat_lt};
ghost use Rattle.lsys_syntax.specs.Limits.{most_tables};
ghost use Rattle.lsys_syntax.specs.Tokens.{Kind};
ghost use Rattle.lsys_syntax.specs.Rules.{Production};
ghost use Rattle.lsys_spec.specs.Systems.{Homomorphism, any, tables};
ghost use Rattle.lsys_spec.specs.Edits.{label_place};
ghost use Rattle.lsys_text.specs.Tokens.{kind_row};
ghost use Rattle.lsys_reading.specs.RuleLines.{IsRuleLine};
ghost use Rattle.lsys_bodies.specs.Building.{production_at};
ghost use Rattle.lsys_bodies.specs.Views.{as_production};
ghost use Rattle.lsys_bodies.specs.Formals.{AreFormalNames, rest_pieces};
ghost use Rattle.lsys_bodies.specs.Searching.{count};
ghost use Rattle.lsys_rules.specs.Faults.{Tells, mixes, elsewhere, IsNewcomer, one_unless};
ghost use Rattle.lsys_rules.specs.RuleRefusals.{AsNewcomer, TellsLimit, TellsNames, TellsNumber, group_refusal, is_hom_too_many, is_one_too_many, rule_size, with_table_once, spelled_refusal, spelled_hom_refusal};
ghost use Rattle.lsys_rules.specs.WrittenCommands.{rule_place};

use crate::faults::{Cause, Fault};
use crate::labelled::{has_hom_rule, has_rule};
use crate::limits::{MOST_RULES, MOST_TABLES};
use crate::rule_table::is_table;
use crate::system::System;
use lsys_bodies::{FormalNames, HomRule, Rule, first_many, same_name, unknown_name};
use lsys_reading::{LabeledRule, RuleLine};
use lsys_text::{Name, Token, Word};

/// What refuses a production: a name, a formal, the rules of its group, its label, or a limit.
pub(crate) fn production_fault(
    system: &System,
    tokens: &[Token],
    labeled: &LabeledRule,
    names: &FormalNames,
) -> Option<Fault>
    requires line { IsRuleLine (kind_row tokens.now) labeled.now.rule }
    requires names { AreFormalNames (rule_place labeled.now) labeled.now.rule names.now }
    requires room { rule_place labeled.now + rule_size tokens.now labeled.now.rule ≤ usize.MAX }
    ensures { Tells result (spelled_refusal system.now tokens.now labeled.now) }
{
    let label = first_token(labeled.table);
    if let Some(fault) = own_fault(tokens, &labeled.rule, names) {
        return Some(fault);
    }
    let newcomer = Newcomer::of(labeled);
    if let Some(fault) = group_fault(system, label, &newcomer) {
        return Some(fault);
    }
    if let Some(fault) = number_fault(system, label, &newcomer) {
        return Some(fault);
    }
    limit_fault(label + 2, &labeled.rule)
}

// The number of a production's label among the tokens of its line.
fn first_token(table: Option<Word>) -> usize
    ensures { result ≡ label_place table }
{
    match table {
        Some(_) => 2,
        None => 1,
    }
}

// What refuses a rule wherever it is put: a name that is no formal, or a formal that stands twice.
fn own_fault(tokens: &[Token], rule: &RuleLine, names: &FormalNames) -> Option<Fault>
    requires line { IsRuleLine (kind_row tokens.now) rule.now }
    requires room { names.now.end + count (rest_pieces (kind_row tokens.now) rule.now) ≤ usize.MAX }
    ensures { TellsNames tokens.now rule.now names.now result }
{
    if let Some(place) = unknown_name(tokens, rule, names) {
        return Some(Fault {
            cause: Cause::Name,
            place,
        });
    }
    let place = names.repeated()?;
    Some(Fault {
        cause: Cause::Duplicate,
        place,
    })
}

// The limit that a rule passes.
fn limit_fault(from: usize, rule: &RuleLine) -> Option<Fault>
    requires room { from ≤ 4 }
    ensures { TellsLimit from rule.now result }
{
    let place = first_many(from, rule)?;
    Some(Fault {
        cause: Cause::TooMany,
        place,
    })
}

/// What a production is among others.
#[derive(Clone, Copy)]
pub(crate) struct Newcomer {
    pub(crate) table: Word,
    pub(crate) label: Word,
    pub(crate) name: Name,
    pub(crate) arity: usize,
    pub(crate) is_weighted: bool,
}

impl Newcomer {
    fn of(labeled: &LabeledRule) -> Newcomer
        ensures { (ks : List Kind) → IsNewcomer (production_at ks labeled.now) result }
    {
        Newcomer {
            table: labeled.table.unwrap_or(Word::from_text(b"main")),
            label: labeled.label,
            name: labeled.rule.predecessor.name,
            arity: labeled.rule.predecessor.formals.len(),
            is_weighted: labeled.rule.weight.is_some(),
        }
    }

    // Whether the rule would be in a group with this one, and only one of both has a weight.
    fn clashes_with(&self, rule: &Rule) -> bool
        ensures { AsNewcomer self.now (λ p. result ≡ mixes p (as_production rule.now)) }
    {
        let body = rule.body.get();
        rule.label != self.label
            && rule.table == self.table
            && same_name(body.predecessor.name, self.name)
            && body.predecessor.formals.len() == self.arity
            && body.weight.is_some() != self.is_weighted
    }
}

// What refuses a production for the rules that there are: it would mix its group, or its label stands elsewhere.
fn group_fault(system: &System, label: usize, newcomer: &Newcomer) -> Option<Fault>
    ensures { AsNewcomer newcomer.now (λ p. Tells result (group_refusal system.now label p)) }
{
    if is_mixed(system.rules(), newcomer) {
        return Some(Fault {
            cause: Cause::Mixed,
            place: label,
        });
    }
    if has_label_elsewhere(system.rules(), newcomer)
        || has_hom_rule(system.hom_rules(), newcomer.label)
    {
        return Some(Fault {
            cause: Cause::Label,
            place: label,
        });
    }
    None
}

fn is_mixed(rules: &[Rule], newcomer: &Newcomer) -> bool
    ensures { AsNewcomer newcomer.now (λ p. result ≡ any (mixes p) (map as_production rules.now)) }
{
    for rule in rules {
        if newcomer.clashes_with(rule) {
            return true;
        }
    }
    false
}

// Whether some rule has the label, and another table.
fn has_label_elsewhere(rules: &[Rule], newcomer: &Newcomer) -> bool
    ensures { AsNewcomer newcomer.now (λ p. result ≡ any (elsewhere p) (map as_production rules.now)) }
{
    for rule in rules {
        if rule.label == newcomer.label && rule.table != newcomer.table {
            return true;
        }
    }
    false
}

// What refuses a production for the number of tables or of rules, where its label has no other table.
fn number_fault(system: &System, label: usize, newcomer: &Newcomer) -> Option<Fault>
    ensures { AsNewcomer newcomer.now (TellsNumber system.now label result) }
{
    if makes_many_tables(system, newcomer.table) {
        return Some(Fault {
            cause: Cause::TooMany,
            place: 1,
        });
    }
    if makes_many_rules(system, newcomer.label) {
        return Some(Fault {
            cause: Cause::TooMany,
            place: label,
        });
    }
    None
}

// Whether there would be too many tables with a rule of this one.
fn makes_many_tables(system: &System, table: Word) -> bool
    ensures { result ≡ nat_lt most_tables (length (with_table_once (tables system.now.rules) table)) }
{
    let tables = system.tables();
    tables.len() + one_unless(is_table(tables, table)) > MOST_TABLES
}

// Whether there would be too many rules with a production under this label.
fn makes_many_rules(system: &System, label: Word) -> bool
    ensures { (p : Production) → label ≡ p.label
        → result ≡ is_one_too_many p system.now }
{
    let rules = system.rules();
    rules.len() + system.hom_rules().len() + one_unless(has_rule(rules, label)) > MOST_RULES
}

// Whether there would be too many rules with one of the homomorphism under this label.
fn makes_many_homs(system: &System, label: Word) -> bool
    ensures { (h : Homomorphism) → label ≡ h.label
        → result ≡ is_hom_too_many h system.now }
{
    let rules = system.hom_rules();
    rules.len() + system.rules().len() + one_unless(has_hom_rule(rules, label)) > MOST_RULES
}

fn one_unless(there: bool) -> usize
    ensures value { result ≡ one_unless there }
    ensures bound { result ≤ 1 }
{
    if there { 0 } else { 1 }
}

/// What refuses a rule of the homomorphism: a name, a formal, its label, or a limit.
pub(crate) fn homomorphism_fault(
    system: &System,
    tokens: &[Token],
    labeled: &LabeledRule,
    names: &FormalNames,
) -> Option<Fault>
    requires line { IsRuleLine (kind_row tokens.now) labeled.now.rule }
    requires names { AreFormalNames 3 labeled.now.rule names.now }
    requires room { 3 + rule_size tokens.now labeled.now.rule ≤ usize.MAX }
    ensures { Tells result (spelled_hom_refusal system.now tokens.now labeled.now) }
{
    if let Some(fault) = own_fault(tokens, &labeled.rule, names) {
        return Some(fault);
    }
    if has_rule(system.rules(), labeled.label) {
        return Some(Fault {
            cause: Cause::Label,
            place: 1,
        });
    }
    if makes_many_homs(system, labeled.label) {
        return Some(Fault {
            cause: Cause::TooMany,
            place: 1,
        });
    }
    limit_fault(3, &labeled.rule)
}
