//! Lines that are read into tokens.
ghost use Rattle.std.specs.Prelude.{◌≡◌, ◌≤◌, IfErr, IfOk, length, option_map};
ghost use Rattle.lsys_syntax.specs.Limits.{most_line_bytes};
ghost use Rattle.lsys_session.specs.ReadLines.{AreReadTokens, IsReadAs, IsUnread};

use crate::line::is_without_command;
use lsys_rules::Refusal;
use lsys_text::{TextRefusal, Token, tokens};
use std::alloc::Global;
use std::marker::Model;

/// A line of at most 65,536 bytes, without its LF and CR, that is read into tokens: once, for all who ask what it says.
/// Contracts see its bytes.
#[derive(Drop)]
pub struct ReadLine<'a> {
    bytes: &'a [u8],
    /// None where the line is passed over.
    tokens: Option<Vec<Token>>,
}

impl<'a> Model for ReadLine<'a> {
    ghost use Rattle.std.specs.Prelude.{ℕ, List, option_map};
    ghost use Rattle.lsys_session.specs.ReadLines.{IsLineTaken};

    ghost Value = { List ℕ };

    ghost view = { λ l. l.bytes.now };

    ghost invariant = { λ l. IsLineTaken l.bytes.now (option_map (λ found. found.items) l.tokens) };
}

impl<'a> ReadLine<'a> {
    /// Reads a line into tokens, unless it is passed over: empty, blank or a comment.
    ///
    /// # Errors
    ///
    /// The first byte that is in no token, or lack of memory; neither comes at a line that is passed over.
    pub fn new(alloc: Global, line: &'a [u8]) -> Result<ReadLine<'a>, Refusal>
        requires { length line.now ≤ most_line_bytes }
        ensures line { IfOk result (λ read. read ≡ line.now) }
        ensures unread { IfErr result (IsUnread line.now) }
    {
        let tokens = match tokens_of(alloc, line) {
            Ok(tokens) => tokens,
            Err(TextRefusal::Byte { column }) => return Err(Refusal::Byte { column }),
            Err(TextRefusal::Memory) => return Err(Refusal::Memory),
        };
        Ok(ReadLine {
            bytes: line,
            tokens,
        })
    }

    /// Its tokens; none where it is passed over.
    pub fn tokens(&self) -> Option<&[Token]>
        ensures { IsReadAs self.now (option_map (λ found. found.now) result) }
    {
        match &self.tokens {
            Some(found) => Some(found.as_slice()),
            None => None,
        }
    }

    /// How many bytes it has.
    pub fn len(&self) -> u32
        ensures length { result ≡ length self.now }
        ensures short { result ≤ most_line_bytes }
    {
        self.bytes.len() as u32
    }
}

// The tokens of a line, unless it is passed over.
fn tokens_of(alloc: Global, line: &[u8]) -> Result<Option<Vec<Token>>, TextRefusal>
    requires { length line.now ≤ most_line_bytes }
    ensures { AreReadTokens line.now result }
{
    if is_without_command(line) {
        return Ok(None);
    }
    Ok(Some(tokens(alloc, line)?))
}
