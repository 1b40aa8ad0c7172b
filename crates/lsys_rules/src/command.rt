//! Commands.
ghost use Rattle.std.specs.Prelude.{◌≡◌, ◌≤◌, All, IfOk};
ghost use Rattle.lsys_syntax.specs.Limits.{most_line_bytes};
ghost use Rattle.lsys_syntax.specs.Sentences.{AreTokens};
ghost use Rattle.lsys_text.specs.Tokens.{kind_row, LiesInLine};
ghost use Rattle.lsys_module.specs.Building.{AreOfLine};
ghost use Rattle.lsys_reading.specs.Parted.{command_of, IsParted};
ghost use Rattle.lsys_reading.specs.Parsing.{column_of, kind_of_command};
ghost use Rattle.lsys_rules.specs.Formals.{HasFormalsOf};
ghost use Rattle.lsys_rules.specs.Parsing.{IsParsedLine};
ghost use Rattle.lsys_rules.specs.WrittenCommands.{rule_place};

use crate::refusal::Refusal;
use lsys_bodies::FormalNames;
use lsys_reading::{CommandKind, CommandParts, LabeledRule};
use lsys_text::Token;
use std::alloc::{AllocError, Global};
use std::marker::Model;

/// A line's command. Contracts see the tokens of the line, which spell the command, and how many bytes it has.
#[derive(Drop)]
pub struct Command {
    line: lsys_reading::ReadCommand,
    bytes: u32,
    /// The formals of its rule, where it has one.
    formals: Option<FormalNames>,
}

impl Model for Command {
    ghost use Rattle.lsys_rules.specs.Lines.{CommandLine};

    ghost Value = { CommandLine };

    ghost use Rattle.lsys_rules.specs.InsideCommand.{line_in, IsCommandLine};

    ghost view = { line_in };

    ghost invariant = { IsCommandLine };
}

/// The command that a line's tokens spell. `length` is that of the line in bytes, without its LF and the CR before it.
///
/// # Errors
///
/// `Token` and `Deep` have the column of the first token with which no command goes on, or the one after the line's end,
/// and `Memory` is lack of memory, told only of a line that begins with the word of a command. No other refusal comes.
pub fn parse_command(alloc: Global, tokens: &[Token], length: u32) -> Result<Command, Refusal>
    requires short { length ≤ most_line_bytes }
    requires forms { AreTokens (kind_row tokens.now) }
    requires line { All (LiesInLine length) tokens.now }
    ensures { IsParsedLine tokens.now length result }
{
    let line = lsys_reading::parse_command(alloc, tokens, length)?;
    let formals = formals(alloc, line.tokens(), line.parts())?;
    Ok(Command {
        line,
        bytes: length,
        formals,
    })
}

// The formals of a line's rule, where it has one.
fn formals(
    alloc: Global,
    tokens: &[Token],
    parts: &CommandParts,
) -> Result<Option<FormalNames>, AllocError>
    requires forms { AreTokens (kind_row tokens.now) }
    requires parts { IsParted (kind_row tokens.now) parts.now }
    ensures { IfOk result (HasFormalsOf tokens.now) }
{
    match parts {
        CommandParts::Production(labeled) => {
            let from = production_place(labeled);
            Ok(Some(FormalNames::of(alloc, from, &labeled.rule)?))
        }
        CommandParts::Homomorphism(labeled) => Ok(Some(FormalNames::of(alloc, 3, &labeled.rule)?)),
        _ => Ok(None),
    }
}

// The number of the first token of a production's rule.
pub(crate) fn production_place(labeled: &LabeledRule) -> usize
    ensures { result ≡ rule_place labeled.now }
{
    if labeled.table.is_some() { 4 } else { 3 }
}

impl Command {
    /// What the command is for.
    pub fn kind(&self) -> CommandKind
        ensures { result ≡ kind_of_command (command_of self.now.tokens) }
    {
        self.line.kind()
    }

    /// The tokens of its line.
    pub fn tokens(&self) -> &[Token]
        ensures tokens { result.now ≡ self.now.tokens }
        ensures forms { AreTokens (kind_row self.now.tokens) }
        ensures line { AreOfLine self.now.tokens }
    {
        self.line.tokens()
    }

    // What the tokens are the parts of.
    pub(crate) fn parts(&self) -> &CommandParts
        ensures { IsParted (kind_row self.now.tokens) result.now }
    {
        self.line.parts()
    }

    // The formals of its rule, where it has one.
    pub(crate) fn formals(&self) -> &Option<FormalNames>
        ensures { HasFormalsOf self.now.tokens result.now }
    {
        &self.formals
    }

    // The column of the token at a place, from 1, or of the line's end.
    pub(crate) fn column(&self, place: usize) -> u32
        ensures { result ≡ column_of self.now.bytes self.now.tokens place }
    {
        match self.line.tokens().get(place) {
            Some(token) => token.start + 1,
            None => self.bytes + 1,
        }
    }
}
