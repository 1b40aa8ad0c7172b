//! How far tokens are an expression.
ghost use Rattle.std.specs.Prelude.{◌≡◌, ◌≤◌, length, drop, true, false};
ghost use Rattle.lsys_syntax.specs.ExpressionMachine as machine;
ghost use Rattle.lsys_syntax.specs.ExpressionPlaces.{extent};
ghost use Rattle.lsys_syntax.specs.Sentences.{AreTokens};
ghost use Rattle.lsys_text.specs.Tokens.{kind_row};
ghost use Rattle.lsys_expr.specs.Levels.{is_inside};
ghost use Rattle.lsys_expr.specs.Roles.{BeginsAs, FollowsAs};
ghost use Rattle.lsys_expr.specs.Scanning.{IsSeenWithin, IsOpened};
ghost use Rattle.lsys_expr.specs.Scanned.{IsExtent, IsEndPlace, place_answered};
ghost use Rattle.lsys_expr.specs.ScanSteps.{TakesKind, GoesOnWith, GoesToOperand, IsWholeIf};

use crate::levels::OpenLevels;
use crate::roles::{Begin, Follow, begin_of, follow_of};
use lsys_text::{PlaceRefusal, Token, TokenKind};

/// The greatest place such that an expression, nested at most 32 deep, begins with the tokens from
/// `from` up to it, where these are a whole expression. So of `1<2<3` it is the place of the second
/// `<`. Whether the token there may follow is for the caller to say. It takes no memory.
///
/// # Errors
///
/// `Token` with this place where these tokens are no expression. `Deep` with it where an expression
/// of a greater nesting goes on with the token there.
pub fn scan_expr(tokens: &[Token], from: usize) -> Result<usize, PlaceRefusal>
    requires forms { AreTokens (kind_row tokens.now) }
    requires within { from ≤ length tokens.now }
    ensures extent { IsExtent from (extent (drop from (kind_row tokens.now))) result }
    ensures place { IsEndPlace from (drop from (kind_row tokens.now)) result }
    ensures from { from ≤ place_answered result }
    ensures end { place_answered result ≤ length tokens.now }
{
    let mut scan = Scan::new();
    for (ahead, token) in tokens[from..].iter().enumerate() {
        let place = from + ahead;
        match scan.take(token.kind) {
            TokenEffect::Goes => {}
            TokenEffect::Ends => return Ok(place),
            TokenEffect::Stops => return Err(PlaceRefusal::Token { place }),
            TokenEffect::TooDeep => return Err(PlaceRefusal::Deep { place }),
        }
    }
    if scan.is_whole() {
        Ok(tokens.len())
    } else {
        Err(PlaceRefusal::Token {
            place: tokens.len(),
        })
    }
}

/// What has to come next.
#[derive(Clone, Copy)]
pub(crate) enum Awaited {
    Operand,
    /// An operator, or the end.
    Operator,
    /// The second `&` of two.
    SecondAnd,
    /// The second `|` of two.
    SecondOr,
}

/// What a token does.
#[derive(Clone, Copy)]
pub(crate) enum TokenEffect {
    /// The expression goes on with it.
    Goes,
    /// The expression is whole before it.
    Ends,
    /// No expression goes on with it, and there is no whole one before it.
    Stops,
    /// Only one that is nested too deep goes on with it.
    TooDeep,
}

/// What is known of the tokens before a place.
#[derive(Drop)]
pub(crate) struct Scan {
    awaited: Awaited,
    levels: OpenLevels,
}

impl Scan {
    fn new() -> Scan
        ensures { IsSeenWithin result.awaited result.levels (machine.start_expr machine.no_parens) }
    {
        Scan {
            awaited: Awaited::Operand,
            levels: OpenLevels::new(),
        }
    }

    // Goes on with a token.
    fn take(&mut self, kind: TokenKind) -> TokenEffect
        ensures { TakesKind kind self.old self.new result }
    {
        match self.awaited {
            Awaited::Operand => self.begin(begin_of(kind)),
            Awaited::Operator => self.follow(follow_of(kind)),
            Awaited::SecondAnd => self.second(matches!(follow_of(kind), Follow::And)),
            Awaited::SecondOr => self.second(matches!(follow_of(kind), Follow::Or)),
        }
    }

    // Goes on where an operand is due.
    fn begin(&mut self, begin: Begin) -> TokenEffect
        requires { self.old.awaited ≡ Awaited.Operand }
        ensures { GoesOnWith (BeginsAs begin) self.old self.new result }
    {
        match begin {
            Begin::Whole => {
                self.awaited = Awaited::Operator;
                TokenEffect::Goes
            }
            Begin::Parenthesis if self.levels.is_full() => TokenEffect::TooDeep,
            Begin::Parenthesis => {
                self.levels.open_parenthesis();
                TokenEffect::Goes
            }
            Begin::Prefix => self.open_prefix(),
            Begin::Nothing => TokenEffect::Stops,
        }
    }

    // Goes on after an operand.
    fn follow(&mut self, follow: Follow) -> TokenEffect
        requires { self.old.awaited ≡ Awaited.Operator }
        ensures { GoesOnWith (FollowsAs follow) self.old self.new result }
    {
        match follow {
            Follow::Power => self.open_prefix(),
            Follow::Product | Follow::Sum => {
                self.levels.end_prefixes();
                self.await_next(Awaited::Operand)
            }
            Follow::Comparison if self.levels.is_compared() => self.end(),
            Follow::Comparison => {
                self.levels.compare();
                self.await_next(Awaited::Operand)
            }
            Follow::And => {
                self.levels.clear();
                self.await_next(Awaited::SecondAnd)
            }
            Follow::Or => {
                self.levels.clear();
                self.await_next(Awaited::SecondOr)
            }
            Follow::Closing if self.levels.is_inside() => {
                self.levels.close_parenthesis();
                TokenEffect::Goes
            }
            Follow::Closing => TokenEffect::Ends,
            Follow::Other => self.end(),
        }
    }

    // Does not go on after an operand.
    fn end(&self) -> TokenEffect
        ensures inside { is_inside self.now.levels ≡ true → result ≡ TokenEffect.Stops }
        ensures outside { is_inside self.now.levels ≡ false → result ≡ TokenEffect.Ends }
    {
        if self.levels.is_inside() {
            TokenEffect::Stops
        } else {
            TokenEffect::Ends
        }
    }

    // Goes on after the first `&` or `|` of two.
    fn second(&mut self, is_second: bool) -> TokenEffect
        ensures yes { is_second ≡ true → GoesToOperand self.old self.new result }
        ensures none { is_second ≡ false → result ≡ TokenEffect.Stops }
    {
        if is_second {
            self.await_next(Awaited::Operand)
        } else {
            TokenEffect::Stops
        }
    }

    // Opens a prefix or a power, whose operand is due next.
    fn open_prefix(&mut self) -> TokenEffect
        ensures { IsOpened self.old.levels self.new.awaited self.new.levels result }
    {
        if self.levels.is_full() {
            return TokenEffect::TooDeep;
        }
        self.levels.open_prefix();
        self.await_next(Awaited::Operand)
    }

    fn await_next(&mut self, awaited: Awaited) -> TokenEffect
        ensures goes { result ≡ TokenEffect.Goes }
        ensures next { self.new ≡ record { awaited = awaited; levels = self.old.levels } }
    {
        self.awaited = awaited;
        TokenEffect::Goes
    }

    // Whether the tokens are a whole expression.
    fn is_whole(&self) -> bool
        ensures { IsWholeIf result self.now }
    {
        matches!(self.awaited, Awaited::Operator) && !self.levels.is_inside()
    }
}
