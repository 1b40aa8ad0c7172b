//! At which token a string passes a limit.
ghost use Rattle.std.specs.Prelude.{◌≡◌, ◌≤◌, length};
ghost use Rattle.lsys_syntax.specs.Sentences.{AreTokens};
ghost use Rattle.lsys_text.specs.Tokens.{kind_row};
ghost use Rattle.lsys_module.specs.Scanning.{string_verdict, TellsString};
ghost use Rattle.lsys_module.specs.Counting.{IsLimitPlace, counter_step, with_spot, with_symbol, with_param, spot_after};

use crate::build::{MOST_PARAMS, MOST_SYMBOLS};
use crate::glyph::StringGlyph;
use lsys_text::Token;

/// The token at which a string passes a limit: the first one of the first symbol past 4,096, or of the first parameter of
/// a module past 8, whichever stands first. `scan_string` has found that the tokens from a place on are a string. It takes
/// no memory.
pub fn first_many(tokens: &[Token], from: usize) -> Option<usize>
    requires place { from ≤ length tokens.now }
    requires forms { AreTokens (kind_row tokens.now) }
    requires scanned { TellsString (string_verdict from tokens.now) }
    ensures { IsLimitPlace from (string_verdict from tokens.now) result }
{
    let mut counter = StringCounts {
        spot: CountSpot::Outside,
        symbols: 0,
        params: 0,
    };
    for place in from..tokens.len() {
        let token = tokens[place];
        match counter.after(StringGlyph::of(token.kind)) {
            Some(next) => counter = next,
            None => return Some(place),
        }
    }
    None
}

/// Where the next token stands.
#[derive(Clone, Copy)]
pub(crate) enum CountSpot {
    /// Outside of parentheses, where none begin.
    Outside,
    /// After a name, where they may begin.
    AfterName,
    /// In parentheses, where a parameter begins.
    ParamDue,
    /// In parentheses, after the first token of a parameter.
    InParam,
}

/// What was counted of a string: its symbols, and the parameters of the last one.
#[derive(Clone, Copy)]
pub(crate) struct StringCounts {
    pub(crate) spot: CountSpot,
    pub(crate) symbols: usize,
    pub(crate) params: usize,
}

impl StringCounts {
    // The count after one more token, or None where that token is one too many.
    fn after(self, glyph: StringGlyph) -> Option<StringCounts>
        ensures { result ≡ counter_step self glyph }
    {
        match (self.spot, glyph) {
            (CountSpot::AfterName, StringGlyph::Open) => Some(self.with_spot(CountSpot::ParamDue)),
            (CountSpot::AfterName | CountSpot::Outside, _) => self.with_symbol(spot_after(glyph)),
            (CountSpot::ParamDue, _) => self.with_param(),
            (CountSpot::InParam, StringGlyph::Comma) => Some(self.with_spot(CountSpot::ParamDue)),
            (CountSpot::InParam, StringGlyph::Close) => Some(self.with_spot(CountSpot::Outside)),
            (CountSpot::InParam, _) => Some(self),
        }
    }

    fn with_spot(self, spot: CountSpot) -> StringCounts
        ensures { result ≡ with_spot spot self }
    {
        StringCounts { spot, ..self }
    }

    fn with_symbol(self, spot: CountSpot) -> Option<StringCounts>
        ensures { result ≡ with_symbol spot self }
    {
        if self.symbols >= MOST_SYMBOLS {
            return None;
        }
        Some(StringCounts {
            spot,
            symbols: self.symbols + 1,
            params: 0,
        })
    }

    fn with_param(self) -> Option<StringCounts>
        ensures { result ≡ with_param self }
    {
        if self.params >= MOST_PARAMS {
            return None;
        }
        Some(StringCounts {
            spot: CountSpot::InParam,
            symbols: self.symbols,
            params: self.params + 1,
        })
    }
}

// After a symbol's first token outside of parentheses.
fn spot_after(glyph: StringGlyph) -> CountSpot
    ensures { result ≡ spot_after glyph }
{
    match glyph {
        StringGlyph::Name | StringGlyph::Minus => CountSpot::AfterName,
        _ => CountSpot::Outside,
    }
}
