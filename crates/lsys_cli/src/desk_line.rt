//! Lines that ask something of a desk.
ghost use Rattle.std.specs.Prelude.{◌≡◌, ◌<◌, ◌+◌, ℕ, All, map, bytes_eq, option_map};
ghost use Rattle.lsys_text.specs.Tokens.{LiesInLine, kind_of, token_of};
ghost use Rattle.lsys_history.specs.Desks.{bare_asks, kind_asks, number_asks, tokens_ask, word_asks};
ghost use Rattle.lsys_cli.specs.Views.{desk_line_of, asked_by_two};

use lsys_session::ReadLine;
use lsys_text::{Token, TokenKind, Word};

/// What a line asks of a desk.
#[derive(Clone, Copy, PartialEq, Eq, Debug)]
pub(crate) enum DeskLine {
    /// To go back to the system before the last edit.
    Undo,
    /// To go on to the system that was undone last.
    Redo,
    /// To count the letters of a level.
    Growth { level: u64 },
    /// To tell how far the picture reaches.
    Bounds,
    /// To tell where the picture's turtle stands after so many symbols of the image. The number stands at this column.
    At { place: u64, column: u32 },
}

/// What a line asks of a desk. One that is passed over asks nothing.
pub(crate) fn desk_line(line: &ReadLine<'_>) -> Option<DeskLine>
    ensures { bare_asks line.now ≡ option_map desk_line_of result }
{
    let found = line.tokens()?;
    asked_by(found)
}

// What a line with these tokens asks.
fn asked_by(found: &[Token]) -> Option<DeskLine>
    requires { (most : ℕ) × All (LiesInLine most) found.now }
    ensures { tokens_ask (map token_of found.now) ≡ option_map desk_line_of result }
{
    match found {
        [word] => asked_alone(word.kind),
        [word, number] => asked_with(word.kind, *number),
        _ => None,
    }
}

// What a token alone asks.
fn asked_alone(kind: TokenKind) -> Option<DeskLine>
    ensures { kind_asks (kind_of kind) ≡ option_map desk_line_of result }
{
    match kind {
        TokenKind::Word(word) => asked_by_word(word),
        _ => None,
    }
}

fn asked_by_word(word: Word) -> Option<DeskLine>
    ensures { word_asks word ≡ option_map desk_line_of result }
{
    if is_spelled(word, b"undo") {
        Some(DeskLine::Undo)
    } else if is_spelled(word, b"redo") {
        Some(DeskLine::Redo)
    } else if is_spelled(word, b"bounds") {
        Some(DeskLine::Bounds)
    } else {
        None
    }
}

// What a token of this kind and one after it ask.
fn asked_with(first: TokenKind, second: Token) -> Option<DeskLine>
    requires { second.start < second.end }
    ensures { asked_by_two first second ≡ option_map desk_line_of result }
{
    let TokenKind::Word(word) = first else {
        return None;
    };
    let TokenKind::Number(number) = second.kind else {
        return None;
    };
    asked_of_number(word, number, second.start + 1)
}

// What a word asks with a number at this column.
fn asked_of_number(word: Word, number: u64, column: u32) -> Option<DeskLine>
    ensures { number_asks word number column ≡ option_map desk_line_of result }
{
    if is_spelled(word, b"growth") {
        Some(DeskLine::Growth { level: number })
    } else if is_spelled(word, b"at") {
        Some(DeskLine::At {
            place: number,
            column,
        })
    } else {
        None
    }
}

fn is_spelled(word: Word, text: &[u8]) -> bool
    ensures { result ≡ bytes_eq word text.now }
{
    word.text().as_bytes() == text
}
