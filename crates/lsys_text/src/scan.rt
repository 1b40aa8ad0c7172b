//! The token at the front of a text, and the mode after it.
ghost use Rattle.std.specs.Prelude.{◌≡◌, ◌+◌, ◌-◌, ◌*◌, ◌^◌, ◌<◌, ◌≤◌, ◌++◌, ◌∷◌, [], length, All, option_map, OnOk, OnErr, IfOk, IfSome, IsTrue, SomeIff};
ghost use Rattle.std.specs.List.{prefix_len};
ghost use Rattle.std.specs.Str.Parse.{digits_value};
ghost use Rattle.lsys_syntax.specs.Limits.{most_line_bytes};
ghost use Rattle.lsys_syntax.specs.Tokens.{is_blank, is_digit, is_letter, is_alphanumeric, is_word_byte, after_word, next_mode, name_tail, name_with};
ghost use Rattle.lsys_syntax.specs.Pieces.{Every};
ghost use Rattle.lsys_text.specs.Tokens.{kind_of, IsMarkByte, HasMarkByte, is_mark, LiesInLine};
ghost use Rattle.lsys_text.specs.declared.refusals.TextRefusal.TheVariants.{Byte};
ghost use Rattle.lsys_text.specs.Scans.{mode_of, lexeme_of, begins_with, first_token, first_name, first_mark, as_token, IsStep, IsPushed, IsPassed, IsRefusalFrom, front_number, front_word, IsFurther, IsModeAfter};

use crate::names::{Name, Word};
use crate::refusals::TextRefusal;
use crate::token_kind::{Token, TokenKind};

/// How the next letters are read.
#[derive(Clone, Copy)]
pub enum Mode {
    /// As words, before the first token.
    First,
    /// As words, to the end of the line.
    Words,
    /// As words, up to the first `:`.
    UntilColon,
    /// As names.
    Modules,
}

/// A token's kind, and how many bytes it has after its first.
#[derive(Clone, Copy)]
pub struct Lexeme {
    pub kind: TokenKind,
    pub more: usize,
}

/// Where a line is read, and how.
#[derive(Clone, Copy)]
pub struct Cursor {
    pub place: usize,
    pub mode: Mode,
}

impl Cursor {
    /// At the start of a line.
    pub fn new() -> Cursor
        ensures { result ≡ record { place = 0; mode = Mode.First } }
    {
        Cursor {
            place: 0,
            mode: Mode::First,
        }
    }
}

/// Adds the next token of a line, and answers where the line goes on: nowhere if only blanks are left.
///
/// Where there is no room for the token, the rest of the line is gone along for a byte that is in none.
pub fn push_token(
    found: &mut Vec<Token>,
    line: &[u8],
    cursor: Cursor,
) -> Result<Option<Cursor>, TextRefusal>
    requires line { length line.now ≤ most_line_bytes }
    requires place { cursor.place ≤ length line.now }
    requires marks { All HasMarkByte found.old.items }
    requires places { All (LiesInLine (length line.now)) found.old.items }
    ensures step { IsStep line.now found.old.items cursor found.new.items result }
    ensures within { IfOk result (IsFurther line.now cursor) }
    ensures marks { All HasMarkByte found.new.items }
    ensures places { All (LiesInLine (length line.now)) found.new.items }
    ensures one { length found.new.items ≤ length found.old.items + 1 }
    ensures end { result ≡ Ok None → length found.new.items ≤ length found.old.items }
{
    let start = cursor.place + blanks_len(&line[cursor.place..]);
    if start == line.len() {
        return Ok(None);
    }
    match token_at(cursor.mode, &line[start..]) {
        Some(lexeme) => push_lexeme(found, line, start, cursor.mode, lexeme),
        None => Err(refused_byte(start)),
    }
}

// Adds the token that begins at a place, and answers where the line goes on.
fn push_lexeme(
    found: &mut Vec<Token>,
    line: &[u8],
    start: usize,
    mode: Mode,
    lexeme: Lexeme,
) -> Result<Option<Cursor>, TextRefusal>
    requires line { length line.now ≤ most_line_bytes }
    requires place { start + lexeme.more < length line.now }
    ensures pushed { IsPushed line.now found.old.items start mode lexeme found.new.items result }
{
    let place = start + 1 + lexeme.more;
    let after = Cursor {
        place,
        mode: mode_after(mode, lexeme.kind),
    };
    let token = Token {
        kind: lexeme.kind,
        start: start as u32,
        end: place as u32,
    };
    match found.push(token) {
        Ok(()) => Ok(Some(after)),
        Err(_) => Err(refusal_from(line, after)),
    }
}

// The refusal of the byte at a place.
fn refused_byte(place: usize) -> TextRefusal
    requires { place < most_line_bytes }
    ensures { result ≡ Byte (place + 1) }
{
    TextRefusal::Byte {
        column: place as u32 + 1,
    }
}

// Why a line is refused whose tokens from here on find no room: its first byte that is in none, or lack of memory.
fn refusal_from(line: &[u8], cursor: Cursor) -> TextRefusal
    requires line { length line.now ≤ most_line_bytes }
    requires place { cursor.place ≤ length line.now }
    ensures { IsRefusalFrom line.now cursor result }
{
    let mut cursor = cursor;
    'rest: loop {
        match pass_token(line, cursor) {
            Ok(Some(after)) => cursor = after,
            Ok(None) => return TextRefusal::Memory,
            Err(refusal) => return refusal,
        }
    }
}

// Goes past the next token of a line, and answers where it goes on.
fn pass_token(line: &[u8], cursor: Cursor) -> Result<Option<Cursor>, TextRefusal>
    requires line { length line.now ≤ most_line_bytes }
    requires place { cursor.place ≤ length line.now }
    ensures passed { IsPassed line.now cursor result }
    ensures within { IfOk result (IsFurther line.now cursor) }
{
    let start = cursor.place + blanks_len(&line[cursor.place..]);
    if start == line.len() {
        return Ok(None);
    }
    match token_at(cursor.mode, &line[start..]) {
        Some(lexeme) => Ok(Some(Cursor {
            place: start + 1 + lexeme.more,
            mode: mode_after(cursor.mode, lexeme.kind),
        })),
        None => Err(refused_byte(start)),
    }
}

// How many blanks stand at the front of a text.
fn blanks_len(text: &[u8]) -> usize
    ensures len { result ≡ prefix_len is_blank text.now }
    ensures within { result ≤ length text.now }
{
    text.iter().take_while(|byte| is_blank(**byte)).count()
}

fn is_blank(byte: u8) -> bool
    ensures { result ≡ is_blank byte }
{
    byte == b' ' || byte == b'\t'
}

fn is_word_byte(byte: u8) -> bool
    ensures { result ≡ is_word_byte byte }
{
    byte.is_ascii_alphanumeric() || byte == b'_'
}

/// The longest token at the front of a text that doesn't begin with a blank.
pub fn token_at(mode: Mode, text: &[u8]) -> Option<Lexeme>
    requires { 0 < length text.now }
    ensures token { option_map lexeme_of result ≡ first_token (mode_of mode) text.now }
    ensures within { IfSome result (λ found. found.more < length text.now) }
    ensures mark { IfSome result (λ found. IsMarkByte found.kind) }
{
    let first = text[0];
    if first.is_ascii_digit() {
        Some(number_at(text))
    } else if first.is_ascii_alphabetic() {
        Some(match mode {
            Mode::Modules => name_at(text),
            _ => word_at(text),
        })
    } else {
        mark_at(text)
    }
}

/// The mode after a token.
pub fn mode_after(mode: Mode, kind: TokenKind) -> Mode
    ensures { mode_of result ≡ next_mode (mode_of mode) (kind_of kind) }
{
    match (mode, kind) {
        (Mode::First, TokenKind::Word(word)) => mode_after_word(word),
        (Mode::First, _) => Mode::Words,
        (Mode::UntilColon, TokenKind::Mark(b':')) => Mode::Modules,
        _ => mode,
    }
}

// The mode after the first word of a line.
fn mode_after_word(word: Word) -> Mode
    ensures { mode_of result ≡ after_word word }
{
    let word = word.text();
    let text = word.as_bytes();
    if text == b"axiom".as_slice() || text == b"ignore".as_slice() {
        Mode::Modules
    } else if text == b"production".as_slice()
        || text == b"hom".as_slice()
        || text == b"ignoring".as_slice()
        || text == b"consider".as_slice()
    {
        Mode::UntilColon
    } else {
        Mode::Words
    }
}

// The number at the front of a text.
fn number_at(text: &[u8]) -> Lexeme
    requires { IsTrue (begins_with is_digit text.now) }
    ensures number { lexeme_of result ≡ front_number text.now }
    ensures within { result.more < length text.now }
    ensures mark { IsMarkByte result.kind }
{
    let len = digits_len(text);
    let kind = match value_of(&text[..len]) {
        Some(value) => TokenKind::Number(value),
        None => TokenKind::BigNumber,
    };
    Lexeme {
        kind,
        more: len - 1,
    }
}

// How many digits stand at the front of a text.
fn digits_len(text: &[u8]) -> usize
    ensures len { result ≡ prefix_len is_digit text.now }
    ensures within { result ≤ length text.now }
{
    text.iter().take_while(|byte| byte.is_ascii_digit()).count()
}

// The value of some digits, where it is at most 2^64 - 1.
fn value_of(digits: &[u8]) -> Option<u64>
    requires { Every is_digit digits.now }
    ensures { SomeIff result (digits_value 10 digits.now < 2 ^ 64) (digits_value 10 digits.now) }
{
    let mut value = 0;
    for digit in digits {
        value = with_digit(value, *digit - b'0')?;
    }
    Some(value)
}

// A number with one more digit.
fn with_digit(value: u64, digit: u8) -> Option<u64>
    ensures { SomeIff result (value * 10 + digit < 2 ^ 64) (value * 10 + digit) }
{
    value.checked_mul(10)?.checked_add(u64::from(digit))
}

// The word at the front of a text.
fn word_at(text: &[u8]) -> Lexeme
    requires { IsTrue (begins_with is_letter text.now) }
    ensures word { lexeme_of result ≡ front_word text.now }
    ensures within { result.more < length text.now }
    ensures mark { IsMarkByte result.kind }
{
    let len = word_len(text);
    let kind = if len <= 16 {
        TokenKind::Word(Word::from_text(&text[..len]))
    } else {
        TokenKind::LongWord
    };
    Lexeme {
        kind,
        more: len - 1,
    }
}

// How many letters, digits and `_` stand at the front of a text.
fn word_len(text: &[u8]) -> usize
    ensures len { result ≡ prefix_len is_word_byte text.now }
    ensures within { result ≤ length text.now }
{
    text.iter().take_while(|byte| is_word_byte(**byte)).count()
}

// The name at the front of a text.
fn name_at(text: &[u8]) -> Lexeme
    requires { IsTrue (begins_with is_letter text.now) }
    ensures name { lexeme_of result ≡ first_name text.now }
    ensures within { result.more < length text.now }
    ensures mark { IsMarkByte result.kind }
{
    let more = name_more(&text[1..]);
    Lexeme {
        kind: TokenKind::Name(Name::from_text(&text[..=more])),
        more,
    }
}

// How many bytes of a name stand after its letter.
fn name_more(after: &[u8]) -> usize
    ensures more { result ≡ (name_with 0 (name_tail after.now)).1 }
    ensures within { result ≤ length after.now }
{
    if after.is_empty() || after[0] != b'_' {
        return 0;
    }
    match plain_len(&after[1..]).min(6) {
        0 => 0,
        tail => tail + 1,
    }
}

// How many letters and digits stand at the front of a text.
fn plain_len(text: &[u8]) -> usize
    ensures len { result ≡ prefix_len is_alphanumeric text.now }
    ensures within { result ≤ length text.now }
{
    text.iter()
        .take_while(|byte| byte.is_ascii_alphanumeric())
        .count()
}

// The mark at the front of a text, of two bytes where two fit.
fn mark_at(text: &[u8]) -> Option<Lexeme>
    requires { 0 < length text.now }
    ensures found { option_map lexeme_of result ≡ first_mark text.now }
    ensures within { IfSome result (λ found. found.more < length text.now) }
    ensures mark { IfSome result (λ found. IsMarkByte found.kind) }
{
    let double = match text {
        [b'=', b'>', ..] => Some(TokenKind::Arrow),
        [b'=', b'=', ..] => Some(TokenKind::Equal),
        [b'!', b'=', ..] => Some(TokenKind::Unequal),
        [b'<', b'=', ..] => Some(TokenKind::AtMost),
        [b'>', b'=', ..] => Some(TokenKind::AtLeast),
        _ => None,
    };
    if let Some(kind) = double {
        return Some(Lexeme { kind, more: 1 });
    }
    let first = text[0];
    if is_mark(first) {
        Some(Lexeme {
            kind: TokenKind::Mark(first),
            more: 0,
        })
    } else {
        None
    }
}

fn is_mark(byte: u8) -> bool
    ensures { result ≡ is_mark byte }
{
    matches!(
        byte,
        b'(' | b')'
            | b'['
            | b']'
            | b','
            | b':'
            | b'@'
            | b'+'
            | b'-'
            | b'*'
            | b'/'
            | b'\\'
            | b'%'
            | b'&'
            | b'|'
            | b'^'
            | b'!'
            | b'<'
            | b'>'
            | b'='
    )
}
