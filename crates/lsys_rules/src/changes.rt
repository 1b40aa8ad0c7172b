//! What an edit that nothing refuses makes of a system's parts.
ghost use Rattle.std.specs.Prelude.{◌≡◌, ◌≢◌, ◌≤◌, ℕ, None, [], List, IfOk, OnOk, length, map};
ghost use Rattle.lsys_syntax.specs.Limits.{greatest_version, most_depth_of_two};
ghost use Rattle.lsys_syntax.specs.Checks.{axiom_many};
ghost use Rattle.lsys_syntax.specs.Commands.{drop_rule, set_axiom, set_ignored, set_schedule, drop_own};
ghost use Rattle.lsys_syntax.specs.Tokens.{Kind};
ghost use Rattle.lsys_syntax.specs.Sentences.{AreTokens};
ghost use Rattle.lsys_spec.specs.Edits.{once, refusal, values_of};
ghost use Rattle.lsys_text.specs.Tokens.{kind_row};
ghost use Rattle.lsys_module.specs.Building.{AreOfLine};
ghost use Rattle.lsys_module.specs.Views.{module_name, string_of};
ghost use Rattle.lsys_reading.specs.Commands.{parts_command};
ghost use Rattle.lsys_reading.specs.Parted.{command_of, IsParted};
ghost use Rattle.lsys_reading.specs.RuleLines.{IsRuleLine};
ghost use Rattle.lsys_bodies.specs.Building.{CanBuild};
ghost use Rattle.lsys_rules.specs.Changes.{IsPlainEdit, AddsNameOnce, Changes};
ghost use Rattle.lsys_rules.specs.Systems.{system_of};
ghost use Rattle.lsys_rules.specs.WrittenCommands.{SpellsAxiom, written_axiom, written_homomorphism, written_list, written_production, written_rule};

use crate::names::is_among;
use crate::own_list::OwnList;
use crate::parts::SystemParts;
use lsys_bodies::{build_hom_rule, build_rule};
use lsys_module::{StringRefusal, SymbolList, build_string};
use lsys_reading::{CommandParts, LabeledRule, OwnNames as ReadList};
use lsys_text::{Name, Token, Word};
use std::alloc::{AllocError, Global};

// The parts after the command that a line's tokens spell, which is none of the seed; those after a query are equal to the old
// ones.
pub(crate) fn changed(
    alloc: Global,
    parts: &SystemParts,
    tokens: &[Token],
    edit: &CommandParts,
) -> Result<SystemParts, AllocError>
    requires forms { AreTokens (kind_row tokens.now) }
    requires line { AreOfLine tokens.now }
    requires parted { IsParted (kind_row tokens.now) edit.now }
    requires unseeded { (n : ℕ) → edit.now ≢ CommandParts.Seed n }
    requires accepted { refusal (system_of parts.now) (command_of tokens.now) ≡ None }
    ensures { Changes parts.now (command_of tokens.now) result }
{
    match edit {
        CommandParts::Axiom => with_axiom(alloc, parts, tokens),
        CommandParts::Production(labeled) => with_production(alloc, parts, tokens, labeled),
        CommandParts::Drop(label) => without_rule(alloc, parts, *label),
        CommandParts::Ignore(names) => with_ignored(alloc, parts, names),
        CommandParts::Schedule(words) => with_schedule(alloc, parts, words),
        CommandParts::Homomorphism(labeled) => with_hom_rule(alloc, parts, tokens, labeled),
        CommandParts::Own(list) => with_own(alloc, parts, list),
        CommandParts::Common(table) => without_own(alloc, parts, *table),
        other => with_plain(parts, other),
    }
}

// Those after an edit of the depth, the version, the lattice or the numbering, or after a query.
fn with_plain(parts: &SystemParts, edit: &CommandParts) -> Result<SystemParts, AllocError>
    requires plain { IsPlainEdit edit.now }
    requires depth { (n : ℕ) → edit.now ≡ CommandParts.Depth n → n ≤ most_depth_of_two }
    requires version { (n : ℕ) → edit.now ≡ CommandParts.Version n → n ≤ greatest_version }
    ensures { (ks : List Kind) → Changes parts.now (parts_command ks edit.now) result }
{
    let mut next = parts.clone()?;
    match edit {
        CommandParts::Depth(depth) => next.depth = *depth as u32,
        CommandParts::Lattice(lattice) => next.lattice = *lattice,
        CommandParts::Version(version) => next.version = *version as u32,
        CommandParts::Lineage(numbering) => next.numbering = *numbering,
        _ => (),
    }
    Ok(next)
}

fn with_axiom(
    alloc: Global,
    parts: &SystemParts,
    tokens: &[Token],
) -> Result<SystemParts, AllocError>
    requires place { 1 ≤ length tokens.now }
    requires forms { AreTokens (kind_row tokens.now) }
    requires line { AreOfLine tokens.now }
    requires string { SpellsAxiom tokens.now }
    requires few { axiom_many 1 (written_axiom tokens.now) ≡ None }
    ensures { Changes parts.now (set_axiom (written_axiom tokens.now)) result }
{
    let axiom = built_string(alloc, tokens)?;
    let mut next = parts.clone()?;
    next.axiom = axiom;
    Ok(next)
}

// The string after an axiom's word.
fn built_string(alloc: Global, tokens: &[Token]) -> Result<SymbolList, AllocError>
    requires place { 1 ≤ length tokens.now }
    requires forms { AreTokens (kind_row tokens.now) }
    requires line { AreOfLine tokens.now }
    requires string { SpellsAxiom tokens.now }
    requires few { axiom_many 1 (written_axiom tokens.now) ≡ None }
    ensures { IfOk result (λ symbols. string_of symbols ≡ values_of (written_axiom tokens.now)) }
{
    match build_string(alloc, tokens, 1) {
        Ok(symbols) => Ok(symbols),
        Err(StringRefusal::TooMany { column: _column }) => unreachable!(),
        Err(StringRefusal::Memory) => Err(AllocError),
    }
}

fn with_production(
    alloc: Global,
    parts: &SystemParts,
    tokens: &[Token],
    labeled: &LabeledRule,
) -> Result<SystemParts, AllocError>
    requires line { IsRuleLine (kind_row tokens.now) labeled.now.rule }
    requires checked { CanBuild (written_rule tokens.now labeled.now.rule) }
    ensures { Changes parts.now (written_production tokens.now labeled.now) result }
{
    let rule = build_rule(alloc, tokens, labeled)?;
    let rules = parts.rules.with(alloc, rule)?;
    let mut next = parts.clone()?;
    next.rules = rules;
    Ok(next)
}

fn with_hom_rule(
    alloc: Global,
    parts: &SystemParts,
    tokens: &[Token],
    labeled: &LabeledRule,
) -> Result<SystemParts, AllocError>
    requires line { IsRuleLine (kind_row tokens.now) labeled.now.rule }
    requires checked { CanBuild (written_rule tokens.now labeled.now.rule) }
    ensures { Changes parts.now (written_homomorphism tokens.now labeled.now) result }
{
    let rule = build_hom_rule(alloc, tokens, labeled)?;
    let homs = parts.homs.with(alloc, rule)?;
    let mut next = parts.clone()?;
    next.homs = homs;
    Ok(next)
}

fn without_rule(alloc: Global, parts: &SystemParts, label: Word) -> Result<SystemParts, AllocError>
    ensures { Changes parts.now (drop_rule label) result }
{
    let rules = parts.rules.without(alloc, label)?;
    let homs = parts.homs.without(alloc, label)?;
    let mut next = parts.clone()?;
    next.rules = rules;
    next.homs = homs;
    Ok(next)
}

fn with_schedule(
    alloc: Global,
    parts: &SystemParts,
    words: &[Word],
) -> Result<SystemParts, AllocError>
    ensures { Changes parts.now (set_schedule words.now) result }
{
    let schedule = Vec::from_slice(alloc, words)?;
    let mut next = parts.clone()?;
    next.schedule = schedule;
    Ok(next)
}

fn with_ignored(
    alloc: Global,
    parts: &SystemParts,
    names: &[Name],
) -> Result<SystemParts, AllocError>
    ensures { Changes parts.now (set_ignored (map module_name names.now)) result }
{
    let ignored = once(alloc, names)?;
    let mut next = parts.clone()?;
    next.ignored = ignored;
    Ok(next)
}

fn with_own(alloc: Global, parts: &SystemParts, list: &ReadList) -> Result<SystemParts, AllocError>
    ensures { Changes parts.now (written_list list.now) result }
{
    let names = once(alloc, &list.names)?;
    let own = parts
        .own
        .with(alloc, OwnList::new(list.table, list.kind, names))?;
    let mut next = parts.clone()?;
    next.own = own;
    Ok(next)
}

fn without_own(alloc: Global, parts: &SystemParts, table: Word) -> Result<SystemParts, AllocError>
    ensures { Changes parts.now (drop_own table) result }
{
    let own = parts.own.without(alloc, table)?;
    let mut next = parts.clone()?;
    next.own = own;
    Ok(next)
}

// Each name once, at its first place.
fn once(alloc: Global, names: &[Name]) -> Result<Vec<Name>, AllocError>
    ensures { IfOk result (λ kept. map module_name kept.items ≡ once [] (map module_name names.now)) }
{
    let mut kept = Vec::new(alloc);
    for name in names {
        add_once(&mut kept, *name)?;
    }
    Ok(kept)
}

// Adds a name, unless it stands there.
fn add_once(kept: &mut Vec<Name>, name: Name) -> Result<(), AllocError>
    ensures { OnOk result (AddsNameOnce kept.old.items kept.new.items name) }
{
    if !is_among(kept, name) {
        kept.push(name)?;
    }
    Ok(())
}
