//! Tokens as commands.
ghost use Rattle.std.specs.Prelude.{◌≡◌, ◌≤◌, All, not};
ghost use Rattle.lsys_syntax.specs.Limits.{most_line_bytes};
ghost use Rattle.lsys_syntax.specs.Sentences.{AreTokens};
ghost use Rattle.lsys_text.specs.Tokens.{kind_row, LiesInLine};
ghost use Rattle.lsys_syntax.specs.LineMachine.{Fresh, is_stop, line_step};
ghost use Rattle.lsys_text.specs.Tokens.{kind_of};
ghost use Rattle.lsys_reading.specs.Parsing.{column_of, BeginsCommand, IsParsed};

use crate::command::ReadCommand;
use crate::commands::parts;
use crate::line_tokens::LineTokens;
use crate::refusal::ReadingRefusal;
use crate::word::command_word;
use crate::words::word_of;
use lsys_text::{Token, TokenKind};
use std::alloc::Global;

/// The command that a line's tokens spell. `line_length` is that of the line in bytes, without its LF
/// and the CR before it.
///
/// # Errors
///
/// `Token` and `Deep` have the column of the first token with which no command goes on, or the one after the line's
/// end. `Memory` is lack of memory, and is told only of a line that begins with the word of a command.
pub fn parse_command(
    alloc: Global,
    tokens: &[Token],
    line_length: u32,
) -> Result<ReadCommand, ReadingRefusal>
    requires short { line_length ≤ most_line_bytes }
    requires forms { AreTokens (kind_row tokens.now) }
    requires line { All (LiesInLine line_length) tokens.now }
    ensures { IsParsed tokens.now line_length result }
{
    if !begins_command(tokens) {
        return Err(ReadingRefusal::Token {
            column: first_column(tokens, line_length),
        });
    }
    let line = LineTokens {
        tokens: Vec::from_slice(alloc, tokens)?,
        bytes: line_length,
    };
    match parts(alloc, &line) {
        Ok(parts) => Ok(ReadCommand { line, parts }),
        Err(refusal) => Err(line.refusal(refusal)),
    }
}

// Whether a line begins with the word of a command.
fn begins_command(tokens: &[Token]) -> bool
    ensures { BeginsCommand (kind_row tokens.now) result }
{
    match tokens.first() {
        Some(token) => is_command_word(token.kind),
        None => false,
    }
}

// Whether a token is the word of a command.
fn is_command_word(kind: TokenKind) -> bool
    ensures { result ≡ not (is_stop (line_step Fresh (kind_of kind))) }
{
    match word_of(kind) {
        Some(word) => command_word(word).is_some(),
        None => false,
    }
}

// The column of a line's first token, or of its end.
fn first_column(tokens: &[Token], line_length: u32) -> u32
    requires short { line_length ≤ most_line_bytes }
    requires line { All (LiesInLine line_length) tokens.now }
    ensures { result ≡ column_of line_length tokens.now 0 }
{
    match tokens.first() {
        Some(token) => token.start + 1,
        None => line_length + 1,
    }
}
