//! Whether tokens are a string.
ghost use Rattle.std.specs.Prelude.{◌≡◌, ◌<◌, ◌≤◌, ◌+◌, length, IfErr, IfSome, OnErr, OnOk};
ghost use Rattle.lsys_syntax.specs.Sentences.{AreTokens};
ghost use Rattle.lsys_text.specs.Tokens.{kind_row};
ghost use Rattle.lsys_module.specs.Places.{BeginsBefore, NoneGoesOn, refused_place, IsStringFrom};
ghost use Rattle.lsys_module.specs.Scanning.{string_verdict, IsScanned, between_step, param_step, progress_step, may_end};

use crate::glyph::StringGlyph;
use lsys_text::{PlaceRefusal, Token};

/// Where the next token stands.
#[derive(Clone, Copy)]
pub(crate) enum ScanSpot {
    /// Between symbols. The last one is a module without parameters, after which a `(` may stand, or not.
    Between { bare: bool },
    /// In parentheses, where a number is due.
    NumberDue,
    /// After a sign.
    MinusRead,
    /// After a number.
    NumberRead,
}

/// What the next token hangs on.
#[derive(Clone, Copy)]
pub(crate) struct Progress {
    pub(crate) spot: ScanSpot,
    /// So many branches are open.
    pub(crate) branches: usize,
}

/// Finds whether the tokens from a place on are a string whose parameters are numbers, each with a sign or without.
///
/// # Errors
///
/// `Token` has the place of the first token with which no string goes on: some string begins with the tokens before it,
/// and none goes on with it; or, after the last token, they are no whole string. `Deep` never comes.
pub fn scan_string(tokens: &[Token], from: usize) -> Result<(), PlaceRefusal>
    requires { from ≤ length tokens.now }
    ensures verdict { IsScanned (string_verdict from tokens.now) result }
    ensures string { AreTokens (kind_row tokens.now) → OnOk result (IsStringFrom from tokens.now) }
    ensures no_string { OnErr result (IsStringFrom from tokens.now → ⊥) }
    ensures after { IfErr result (λ refusal. from ≤ refused_place refusal) }
    ensures within { IfErr result (λ refusal. refused_place refusal ≤ length tokens.now) }
    ensures before { AreTokens (kind_row tokens.now) → IfErr result (BeginsBefore from tokens.now) }
    ensures none_goes_on { IfErr result (NoneGoesOn from tokens.now) }
{
    let mut progress = Progress {
        spot: ScanSpot::Between { bare: false },
        branches: 0,
    };
    for place in from..tokens.len() {
        match progress.after(StringGlyph::of(tokens[place].kind)) {
            Some(next) => progress = next,
            None => return Err(PlaceRefusal::Token { place }),
        }
    }
    if !progress.may_end() {
        return Err(PlaceRefusal::Token {
            place: tokens.len(),
        });
    }
    Ok(())
}

impl Progress {
    // One token on, where a string goes on with it.
    fn after(self, glyph: StringGlyph) -> Option<Progress>
        requires { self.branches < usize.MAX }
        ensures step { result ≡ progress_step self glyph }
        ensures few { IfSome result (λ next. next.branches ≤ self.branches + 1) }
    {
        let branches = self.branches;
        match self.spot {
            ScanSpot::Between { bare } => after_symbol(glyph, bare, branches),
            spot => in_parentheses(spot, glyph).map(|spot| Progress { spot, branches }),
        }
    }

    // A string may end here.
    fn may_end(self) -> bool
        ensures { result ≡ may_end self.spot self.branches }
    {
        match self.spot {
            ScanSpot::Between { .. } => self.branches == 0,
            _ => false,
        }
    }
}

fn after_symbol(glyph: StringGlyph, bare: bool, branches: usize) -> Option<Progress>
    requires { branches < usize.MAX }
    ensures step { result ≡ between_step glyph bare branches }
    ensures few { IfSome result (λ next. next.branches ≤ branches + 1) }
{
    let (bare, branches) = match glyph {
        StringGlyph::Name | StringGlyph::Minus => (true, branches),
        StringGlyph::Push => (false, branches + 1),
        StringGlyph::Pop => (false, branches.checked_sub(1)?),
        StringGlyph::Cut => (false, branches),
        StringGlyph::Open if bare => {
            let spot = ScanSpot::NumberDue;
            return Some(Progress { spot, branches });
        }
        _ => return None,
    };
    let spot = ScanSpot::Between { bare };
    Some(Progress { spot, branches })
}

fn in_parentheses(spot: ScanSpot, glyph: StringGlyph) -> Option<ScanSpot>
    ensures { result ≡ param_step spot glyph }
{
    match (spot, glyph) {
        (ScanSpot::NumberDue, StringGlyph::Number(number)) if number < 1 << 63 => Some(
            ScanSpot::NumberRead,
        ),
        (ScanSpot::NumberDue, StringGlyph::Minus) => Some(ScanSpot::MinusRead),
        (ScanSpot::MinusRead, StringGlyph::Number(number)) if number <= 1 << 63 => Some(
            ScanSpot::NumberRead,
        ),
        (ScanSpot::NumberRead, StringGlyph::Comma) => Some(ScanSpot::NumberDue),
        (ScanSpot::NumberRead, StringGlyph::Close) => Some(ScanSpot::Between { bare: false }),
        _ => None,
    }
}
