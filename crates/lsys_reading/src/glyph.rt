//! What a token is to a rule.
ghost use Rattle.std.specs.Prelude.{◌≡◌};
ghost use Rattle.lsys_syntax.specs.Sentences.{IsToken};
ghost use Rattle.lsys_text.specs.Tokens.{kind_of, mark_kind};
ghost use Rattle.lsys_reading.specs.Tokens.{kinds_in};
ghost use Rattle.lsys_reading.specs.Glyphs.{IsGlyph, IsPeeked, glyph_formal, glyph_name, separator_of, is_opening, is_colon, is_arrow};

use crate::line_tokens::LineTokens;
use lsys_text::{Name, TokenKind};

/// What stands between formals or parameters, or after the last one.
#[derive(Clone, Copy, PartialEq, Eq, Debug)]
pub(crate) enum Separator {
    Comma,
    Close,
}

/// What a token is to a rule.
#[derive(Clone, Copy)]
pub(crate) enum RuleGlyph {
    /// The name of a module or of a formal.
    Letters(Name),
    /// A mark that is the name of a module.
    Sign(Name),
    /// `[`
    Push,
    /// `]`
    Pop,
    /// `%`
    Cut,
    /// `(`
    Open,
    /// `)`
    Close,
    /// `,`
    Comma,
    /// `:`
    Colon,
    /// `@`
    At,
    /// `=>`
    Arrow,
    /// `<`
    Less,
    /// `>`
    Greater,
    /// No part of a rule begins or ends with it.
    Other,
    /// No token is left.
    End,
}

// What stands at a place.
pub(crate) fn peek(line: &LineTokens, at: usize) -> RuleGlyph
    ensures { IsPeeked (kinds_in line.now) at result }
{
    match line.at(at) {
        Some(token) => RuleGlyph::of(token.kind),
        None => RuleGlyph::End,
    }
}

impl RuleGlyph {
    fn of(kind: TokenKind) -> RuleGlyph
        requires { IsToken (kind_of kind) }
        ensures { IsGlyph result (kind_of kind) }
    {
        match kind {
            TokenKind::Name(name) => RuleGlyph::Letters(name),
            TokenKind::Arrow => RuleGlyph::Arrow,
            TokenKind::Mark(mark) => RuleGlyph::of_mark(mark),
            _ => RuleGlyph::Other,
        }
    }

    fn of_mark(mark: u8) -> RuleGlyph
        ensures { IsGlyph result (mark_kind mark) }
    {
        match mark {
            b'+' | b'-' | b'&' | b'^' | b'\\' | b'/' | b'|' | b'!' => {
                RuleGlyph::Sign(Name::from_mark(mark))
            }
            b'[' => RuleGlyph::Push,
            b']' => RuleGlyph::Pop,
            b'%' => RuleGlyph::Cut,
            b'(' => RuleGlyph::Open,
            b')' => RuleGlyph::Close,
            b',' => RuleGlyph::Comma,
            b':' => RuleGlyph::Colon,
            b'@' => RuleGlyph::At,
            b'<' => RuleGlyph::Less,
            b'>' => RuleGlyph::Greater,
            _ => RuleGlyph::Other,
        }
    }

    // The formal that it names.
    pub(crate) fn formal(self) -> Option<Name>
        ensures { result ≡ glyph_formal self }
    {
        match self {
            RuleGlyph::Letters(name) => Some(name),
            _ => None,
        }
    }

    // The name of a module that it is.
    pub(crate) fn name(self) -> Option<Name>
        ensures { result ≡ glyph_name self }
    {
        match self {
            RuleGlyph::Letters(name) | RuleGlyph::Sign(name) => Some(name),
            _ => None,
        }
    }

    pub(crate) fn separator(self) -> Option<Separator>
        ensures { result ≡ separator_of self }
    {
        match self {
            RuleGlyph::Comma => Some(Separator::Comma),
            RuleGlyph::Close => Some(Separator::Close),
            _ => None,
        }
    }

    pub(crate) fn is_open(self) -> bool
        ensures { result ≡ is_opening self }
    {
        matches!(self, RuleGlyph::Open)
    }

    pub(crate) fn is_colon(self) -> bool
        ensures { result ≡ is_colon self }
    {
        matches!(self, RuleGlyph::Colon)
    }

    pub(crate) fn is_arrow(self) -> bool
        ensures { result ≡ is_arrow self }
    {
        matches!(self, RuleGlyph::Arrow)
    }
}
