//! What refuses a command.
ghost use Rattle.std.specs.Prelude.{◌≤◌, length};
ghost use Rattle.lsys_syntax.specs.Checks.{axiom_many};
ghost use Rattle.lsys_syntax.specs.Sentences.{AreTokens};
ghost use Rattle.lsys_spec.specs.Edits.{many, refusal, refused_at};
ghost use Rattle.lsys_text.specs.Tokens.{kind_row};
ghost use Rattle.lsys_reading.specs.Commands.{parts_command};
ghost use Rattle.lsys_reading.specs.Parted.{command_of, IsParted};
ghost use Rattle.lsys_rules.specs.Faults.{Tells};
ghost use Rattle.lsys_rules.specs.Formals.{HasFormals};
ghost use Rattle.lsys_rules.specs.WrittenCommands.{SpellsAxiom, written_axiom};

use crate::command::Command;
use crate::edit_faults::{
    common_fault, depth_fault, drop_fault, ignore_fault, later_fault, level_fault, list_fault,
    schedule_fault, version_fault,
};
use crate::faults::{Cause, Fault};
use crate::rule_faults::{homomorphism_fault, production_fault};
use crate::system::System;
use lsys_bodies::FormalNames;
use lsys_module::first_many;
use lsys_reading::CommandParts;
use lsys_text::Token;

/// What refuses a command: the first refusal in the order version, name, duplicate, mixed, label, table, level, many.
pub(crate) fn fault_of(system: &System, command: &Command) -> Option<Fault>
    ensures { Tells result (refusal system.now (command_of command.now.tokens)) }
{
    parts_fault(system, command.tokens(), command.parts(), command.formals())
}

fn parts_fault(
    system: &System,
    tokens: &[Token],
    parts: &CommandParts,
    formals: &Option<FormalNames>,
) -> Option<Fault>
    requires forms { AreTokens (kind_row tokens.now) }
    requires parted { IsParted (kind_row tokens.now) parts.now }
    requires formals { HasFormals parts.now formals.now }
    ensures { Tells result (refusal system.now (parts_command (kind_row tokens.now) parts.now)) }
{
    match (parts, formals) {
        (CommandParts::Axiom, _) => axiom_fault(tokens),
        (CommandParts::Production(labeled), Some(names)) => {
            production_fault(system, tokens, labeled, names)
        }
        (CommandParts::Homomorphism(labeled), Some(names)) => {
            homomorphism_fault(system, tokens, labeled, names)
        }
        (CommandParts::Drop(label), _) => drop_fault(system, *label),
        (CommandParts::Ignore(names), _) => ignore_fault(names),
        (CommandParts::Schedule(words), _) => schedule_fault(system, words),
        (CommandParts::Depth(depth), _) => depth_fault(system, *depth),
        (CommandParts::String(level), _) => level_fault(system, *level),
        (CommandParts::Version(version), _) => version_fault(system, *version),
        (CommandParts::Own(list), _) => list_fault(system, list.table, &list.names),
        (CommandParts::Common(table), _) => common_fault(system, *table),
        (CommandParts::Lineage(_), _) => later_fault(system),
        _ => None,
    }
}

// The limit that an axiom passes.
fn axiom_fault(tokens: &[Token]) -> Option<Fault>
    requires place { 1 ≤ length tokens.now }
    requires forms { AreTokens (kind_row tokens.now) }
    requires string { SpellsAxiom tokens.now }
    ensures { Tells result (refused_at (axiom_many 1 (written_axiom tokens.now)) many) }
{
    let place = first_many(tokens, 1)?;
    Some(Fault {
        cause: Cause::TooMany,
        place,
    })
}
