//! Words, numbers and names at a place, and a line's end.
ghost use Rattle.std.specs.Prelude.{◌≡◌};
ghost use Rattle.lsys_text.specs.Tokens.{kind_of};
ghost use Rattle.lsys_reading.specs.Tokens.{kinds_in};
ghost use Rattle.lsys_reading.specs.Lines.{word_in, numeral_in, IsWord, IsNumber, IsName, IsEnd, IsLastWord, IsLastNumber};

use crate::glyph::peek;
use crate::line_tokens::LineTokens;
use crate::refusal::PartRefusal;
use lsys_text::{Name, TokenKind, Word};

// The word that a token is, where it is one.
pub(crate) fn word_of(kind: TokenKind) -> Option<Word>
    ensures { result ≡ word_in (kind_of kind) }
{
    match kind {
        TokenKind::Word(word) => Some(word),
        _ => None,
    }
}

fn number_of(kind: TokenKind) -> Option<u64>
    ensures { result ≡ numeral_in (kind_of kind) }
{
    match kind {
        TokenKind::Number(number) => Some(number),
        _ => None,
    }
}

// The word at a place.
pub(crate) fn word(line: &LineTokens, at: usize) -> Result<Word, PartRefusal>
    ensures { IsWord (kinds_in line.now) at result }
{
    let Some(token) = line.at(at) else {
        return Err(PartRefusal::Token { place: at });
    };
    match word_of(token.kind) {
        Some(word) => Ok(word),
        None => Err(PartRefusal::Token { place: at }),
    }
}

// The number at a place.
pub(crate) fn number(line: &LineTokens, at: usize) -> Result<u64, PartRefusal>
    ensures { IsNumber (kinds_in line.now) at result }
{
    let Some(token) = line.at(at) else {
        return Err(PartRefusal::Token { place: at });
    };
    match number_of(token.kind) {
        Some(number) => Ok(number),
        None => Err(PartRefusal::Token { place: at }),
    }
}

// The name of a module at a place.
pub(crate) fn name(line: &LineTokens, at: usize) -> Result<Name, PartRefusal>
    ensures { IsName (kinds_in line.now) at result }
{
    match peek(line, at).name() {
        Some(name) => Ok(name),
        None => Err(PartRefusal::Token { place: at }),
    }
}

// The line's end.
pub(crate) fn end(line: &LineTokens, at: usize) -> Result<(), PartRefusal>
    ensures { IsEnd (kinds_in line.now) at result }
{
    match line.at(at) {
        Some(_token) => Err(PartRefusal::Token { place: at }),
        None => Ok(()),
    }
}

// The word after a line's first one, where it is the last token.
pub(crate) fn last_word(line: &LineTokens) -> Result<Word, PartRefusal>
    ensures { IsLastWord (kinds_in line.now) result }
{
    let word = word(line, 1)?;
    end(line, 2)?;
    Ok(word)
}

// The number after a line's first word, where it is the last token.
pub(crate) fn last_number(line: &LineTokens) -> Result<u64, PartRefusal>
    ensures { IsLastNumber (kinds_in line.now) result }
{
    let number = number(line, 1)?;
    end(line, 2)?;
    Ok(number)
}
