//! What tokens are to a string.
ghost use Rattle.std.specs.Prelude.{◌≡◌};
ghost use Rattle.lsys_text.specs.Tokens.{kind_of, mark_kind};
ghost use Rattle.lsys_module.specs.Scanning.{glyph_of};

use lsys_text::TokenKind;

/// What a token is to a string.
#[derive(Clone, Copy)]
pub(crate) enum StringGlyph {
    /// A module's name, but for `-`.
    Name,
    /// `-`: the name of a module, or a sign.
    Minus,
    /// `[`
    Push,
    /// `]`
    Pop,
    /// `%`
    Cut,
    /// `(`
    Open,
    /// `)`
    Close,
    /// `,`
    Comma,
    Number(u64),
    /// No string has it.
    Other,
}

impl StringGlyph {
    pub(crate) fn of(kind: TokenKind) -> StringGlyph
        ensures { result ≡ glyph_of (kind_of kind) }
    {
        match kind {
            TokenKind::Name(_) => StringGlyph::Name,
            TokenKind::Number(number) => StringGlyph::Number(number),
            TokenKind::Mark(mark) => StringGlyph::of_mark(mark),
            _ => StringGlyph::Other,
        }
    }

    fn of_mark(mark: u8) -> StringGlyph
        ensures { result ≡ glyph_of (mark_kind mark) }
    {
        match mark {
            b'+' | b'&' | b'^' | b'\\' | b'/' | b'|' | b'!' => StringGlyph::Name,
            b'-' => StringGlyph::Minus,
            b'[' => StringGlyph::Push,
            b']' => StringGlyph::Pop,
            b'%' => StringGlyph::Cut,
            b'(' => StringGlyph::Open,
            b')' => StringGlyph::Close,
            b',' => StringGlyph::Comma,
            _ => StringGlyph::Other,
        }
    }
}
