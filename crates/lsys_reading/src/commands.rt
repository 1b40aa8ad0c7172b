//! The rest of each command after its word.
ghost use Rattle.std.specs.Prelude.{◌≡◌, ◌≤◌, [], IfOk};
ghost use Rattle.lsys_syntax.specs.LineMachine.{of_ignored, VersionDue, TableDue, CommonDue, NumberingDue, InAxiom, Symbols, ProductionDue, DropDue, SeedDue, DepthDue, InNames, ScheduleDue, LatticeDue, LabelDue, StringRead, Fresh};
ghost use Rattle.lsys_reading.specs.Tokens.{kinds_in, size};
ghost use Rattle.lsys_reading.specs.Lines.{IsPart, IsRest, AreNames};
ghost use Rattle.lsys_reading.specs.Words.{word_state};
ghost use Rattle.lsys_reading.specs.Commands.{list_kind_of, parts_command, AreParts, IsCommandRest, IsCommandEnd};

use crate::form::Form;
use crate::heading::{homomorphism_heading, production_heading, table_heading};
use crate::line_tokens::LineTokens;
use crate::parts::{CommandParts, LabeledRule, LatticeName, ListKind, OwnNames};
use crate::refusal::PartRefusal;
use crate::rule::rule_line;
use crate::word::{CommandWord, command_word, lattice_name, numbering_name};
use crate::words::{end, last_number, last_word, name, word};
use lsys_module::scan_string;
use lsys_text::Name;
use std::alloc::Global;

// What the tokens of a line are the parts of.
pub(crate) fn parts(alloc: Global, line: &LineTokens) -> Result<CommandParts, PartRefusal>
    ensures rest { IsRest (kinds_in line.now) 0 Fresh (parts_command (kinds_in line.now)) result }
    ensures parts { IfOk result (AreParts (kinds_in line.now)) }
{
    let word = command(line)?;
    parts_after(alloc, line, word)
}

// The word that a line begins with.
fn command(line: &LineTokens) -> Result<CommandWord, PartRefusal>
    ensures word { IsPart (kinds_in line.now) 0 Fresh (λ w. 1) word_state result }
    ensures some { IfOk result (λ w. 1 ≤ size line.now) }
{
    match command_word(word(line, 0)?) {
        Some(word) => Ok(word),
        None => Err(PartRefusal::Token { place: 0 }),
    }
}

// What stands after this word.
fn parts_after(
    alloc: Global,
    line: &LineTokens,
    word: CommandWord,
) -> Result<CommandParts, PartRefusal>
    requires { 1 ≤ size line.now }
    ensures rest { IsCommandRest (kinds_in line.now) (word_state word) result }
    ensures parts { IfOk result (AreParts (kinds_in line.now)) }
{
    match word {
        CommandWord::Axiom => axiom(line),
        CommandWord::Production => production(alloc, line),
        CommandWord::Drop => drop(line),
        CommandWord::Ignore => ignore(alloc, line),
        CommandWord::Schedule => schedule(alloc, line),
        CommandWord::Seed => seed(line),
        CommandWord::Depth => depth(line),
        CommandWord::Lattice => lattice(line),
        CommandWord::Homomorphism => homomorphism(alloc, line),
        CommandWord::String => string(line),
        CommandWord::Segments => alone(line, CommandParts::Segments),
        CommandWord::Svg => alone(line, CommandParts::Svg),
        CommandWord::Show => alone(line, CommandParts::Show),
        CommandWord::Quit => alone(line, CommandParts::Quit),
        CommandWord::Version => version(line),
        CommandWord::Ignoring => own(alloc, line, ListKind::Ignore),
        CommandWord::Consider => own(alloc, line, ListKind::Consider),
        CommandWord::Common => common(line),
        CommandWord::Lineage => lineage(line),
    }
}

// After `axiom`: a string, whose parameters are numbers.
fn axiom(line: &LineTokens) -> Result<CommandParts, PartRefusal>
    requires { 1 ≤ size line.now }
    ensures rest { IsCommandRest (kinds_in line.now) (InAxiom (Symbols [])) result }
    ensures parts { IfOk result (AreParts (kinds_in line.now)) }
{
    match scan_string(&line.tokens, 1) {
        Ok(()) => Ok(CommandParts::Axiom),
        Err(refusal) => Err(PartRefusal::from_place(refusal)),
    }
}

// After `production`: a table, where it is written, a label, a colon and a rule.
fn production(alloc: Global, line: &LineTokens) -> Result<CommandParts, PartRefusal>
    ensures rest { IsCommandRest (kinds_in line.now) ProductionDue result }
    ensures parts { IfOk result (AreParts (kinds_in line.now)) }
{
    let heading = production_heading(line)?;
    let rule = rule_line(alloc, line, heading.end, Form::Production)?;
    Ok(CommandParts::Production(LabeledRule {
        table: heading.table,
        label: heading.label,
        rule,
    }))
}

// After `hom`: a label, a colon and a rule.
fn homomorphism(alloc: Global, line: &LineTokens) -> Result<CommandParts, PartRefusal>
    ensures rest { IsCommandRest (kinds_in line.now) LabelDue result }
    ensures parts { IfOk result (AreParts (kinds_in line.now)) }
{
    let heading = homomorphism_heading(line)?;
    let rule = rule_line(alloc, line, heading.end, Form::Homomorphism)?;
    Ok(CommandParts::Homomorphism(LabeledRule {
        table: heading.table,
        label: heading.label,
        rule,
    }))
}

// After `drop`: a label.
fn drop(line: &LineTokens) -> Result<CommandParts, PartRefusal>
    ensures rest { IsCommandRest (kinds_in line.now) DropDue result }
    ensures parts { IfOk result (AreParts (kinds_in line.now)) }
{
    Ok(CommandParts::Drop(last_word(line)?))
}

// After `seed`: a number.
fn seed(line: &LineTokens) -> Result<CommandParts, PartRefusal>
    ensures rest { IsCommandRest (kinds_in line.now) SeedDue result }
    ensures parts { IfOk result (AreParts (kinds_in line.now)) }
{
    Ok(CommandParts::Seed(last_number(line)?))
}

// After `depth`: a number.
fn depth(line: &LineTokens) -> Result<CommandParts, PartRefusal>
    ensures rest { IsCommandRest (kinds_in line.now) DepthDue result }
    ensures parts { IfOk result (AreParts (kinds_in line.now)) }
{
    Ok(CommandParts::Depth(last_number(line)?))
}

// Names, from a place up to the line's end.
fn names(alloc: Global, line: &LineTokens, from: usize) -> Result<Vec<Name>, PartRefusal>
    requires within { from ≤ size line.now }
    ensures { AreNames (kinds_in line.now) from result }
{
    let mut names = Vec::new(alloc);
    let mut at = from;
    'names: while at < line.len() {
        names
            .push(name(line, at)?)
            .map_err(|_| PartRefusal::Memory)?;
        at += 1;
    }
    Ok(names)
}

// After `ignore`: names.
fn ignore(alloc: Global, line: &LineTokens) -> Result<CommandParts, PartRefusal>
    requires { 1 ≤ size line.now }
    ensures rest { IsCommandRest (kinds_in line.now) (InNames of_ignored []) result }
    ensures parts { IfOk result (AreParts (kinds_in line.now)) }
{
    Ok(CommandParts::Ignore(names(alloc, line, 1)?))
}

// After `ignoring` or `consider`: a table, a colon and names.
fn own(alloc: Global, line: &LineTokens, kind: ListKind) -> Result<CommandParts, PartRefusal>
    ensures rest { IsCommandRest (kinds_in line.now) (TableDue (list_kind_of kind)) result }
    ensures parts { IfOk result (AreParts (kinds_in line.now)) }
{
    let table = table_heading(line)?;
    let names = names(alloc, line, 3)?;
    Ok(CommandParts::Own(OwnNames { kind, table, names }))
}

// After `common`: a table.
fn common(line: &LineTokens) -> Result<CommandParts, PartRefusal>
    ensures rest { IsCommandRest (kinds_in line.now) CommonDue result }
    ensures parts { IfOk result (AreParts (kinds_in line.now)) }
{
    Ok(CommandParts::Common(last_word(line)?))
}

// After `version`: a number.
fn version(line: &LineTokens) -> Result<CommandParts, PartRefusal>
    ensures rest { IsCommandRest (kinds_in line.now) VersionDue result }
    ensures parts { IfOk result (AreParts (kinds_in line.now)) }
{
    Ok(CommandParts::Version(last_number(line)?))
}

// After `lineage`: the name of a numbering.
fn lineage(line: &LineTokens) -> Result<CommandParts, PartRefusal>
    ensures rest { IsCommandRest (kinds_in line.now) NumberingDue result }
    ensures parts { IfOk result (AreParts (kinds_in line.now)) }
{
    match numbering_name(word(line, 1)?) {
        Some(numbering) => {
            end(line, 2)?;
            Ok(CommandParts::Lineage(numbering))
        }
        None => Err(PartRefusal::Token { place: 1 }),
    }
}

// After `schedule`: words, one at least.
fn schedule(alloc: Global, line: &LineTokens) -> Result<CommandParts, PartRefusal>
    ensures rest { IsCommandRest (kinds_in line.now) ScheduleDue result }
    ensures parts { IfOk result (AreParts (kinds_in line.now)) }
{
    let first = word(line, 1)?;
    let mut tables = Vec::new(alloc);
    tables.push(first).map_err(|_| PartRefusal::Memory)?;
    let mut at = 2;
    'tables: while at < line.len() {
        tables
            .push(word(line, at)?)
            .map_err(|_| PartRefusal::Memory)?;
        at += 1;
    }
    Ok(CommandParts::Schedule(tables))
}

// After `lattice`: the name of one.
fn lattice(line: &LineTokens) -> Result<CommandParts, PartRefusal>
    ensures rest { IsCommandRest (kinds_in line.now) LatticeDue result }
    ensures parts { IfOk result (AreParts (kinds_in line.now)) }
{
    match lattice_name(word(line, 1)?) {
        Some(name) => {
            end(line, 2)?;
            Ok(CommandParts::Lattice(name))
        }
        None => Err(PartRefusal::Token { place: 1 }),
    }
}

// After `string`: a level's number, or nothing.
fn string(line: &LineTokens) -> Result<CommandParts, PartRefusal>
    ensures rest { IsCommandRest (kinds_in line.now) StringRead result }
    ensures parts { IfOk result (AreParts (kinds_in line.now)) }
{
    if line.len() <= 1 {
        return Ok(CommandParts::String(None));
    }
    Ok(CommandParts::String(Some(last_number(line)?)))
}

// After the word of a command that is this word alone: nothing.
fn alone(line: &LineTokens, parts: CommandParts) -> Result<CommandParts, PartRefusal>
    ensures end { IsCommandEnd (kinds_in line.now) parts result }
    ensures parts { IfOk result (λ p. p ≡ parts) }
{
    end(line, 1)?;
    Ok(parts)
}
