//! What a line asks of a system.
ghost use Rattle.std.specs.Prelude.{◌≡◌, ◌≤◌, length};
ghost use Rattle.lsys_syntax.specs.Limits.{most_line_bytes};
ghost use Rattle.lsys_session.specs.ReadLines.{AreTokensOf};
ghost use Rattle.lsys_session.specs.Requests.{IsCommandIn, IsRequest, IsRequested, query_by};

use crate::read_line::ReadLine;
use lsys_rules::{Command, CommandKind, Refusal, System, apply, check, parse_command};
use lsys_text::Token;
use std::alloc::Global;

/// What a line asks that isn't refused by itself.
#[derive(Drop)]
pub enum Request {
    /// The line is empty, blank or a comment, and has no reply.
    Nothing,
    /// The derivation of this system, which an edit makes.
    Edit(System),
    /// A level that is there; the last one without a number.
    String { level: Option<u64> },
    /// The picture's segments.
    Segments,
    /// The picture.
    Svg,
    /// The system as a script.
    Show,
    /// The end of the session.
    Quit,
}

/// What a line asks of a system. A query takes no copy of the system, and an edit one.
///
/// # Errors
///
/// The first refusal of the line by itself, in the language's order; lack of memory comes for no line without a reply, and in
/// place of no refusal that was found.
pub fn request_of(alloc: Global, system: &System, line: &ReadLine<'_>) -> Result<Request, Refusal>
    ensures { IsRequest system.now line.now result }
{
    let Some(found) = line.tokens() else {
        return Ok(Request::Nothing);
    };
    let command = command_in(alloc, line, found)?;
    requested(alloc, system, &command)
}

/// The same of a line of at most 65,536 bytes, without its LF and CR, that isn't read yet.
pub(crate) fn request_in(alloc: Global, system: &System, line: &[u8]) -> Result<Request, Refusal>
    requires { length line.now ≤ most_line_bytes }
    ensures { IsRequest system.now line.now result }
{
    let read = ReadLine::new(alloc, line)?;
    request_of(alloc, system, &read)
}

// The command that a line's tokens spell.
fn command_in(alloc: Global, line: &ReadLine<'_>, found: &[Token]) -> Result<Command, Refusal>
    requires { AreTokensOf line.now found.now }
    ensures { IsCommandIn line.now result }
{
    parse_command(alloc, found, line.len())
}

// What a command asks.
fn requested(alloc: Global, system: &System, command: &Command) -> Result<Request, Refusal>
    ensures { IsRequested system.now command.now result }
{
    match query_by(command.kind()) {
        Some(query) => {
            check(system, command)?;
            Ok(query)
        }
        None => {
            let next = apply(alloc, system, command)?;
            Ok(Request::Edit(next))
        }
    }
}

// What a command of this kind asks that changes nothing.
fn query_by(kind: CommandKind) -> Option<Request>
    ensures { result ≡ query_by kind }
{
    match kind {
        CommandKind::Edit => None,
        CommandKind::String { level } => Some(Request::String { level }),
        CommandKind::Segments => Some(Request::Segments),
        CommandKind::Svg => Some(Request::Svg),
        CommandKind::Show => Some(Request::Show),
        CommandKind::Quit => Some(Request::Quit),
    }
}
