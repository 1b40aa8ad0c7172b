//! What a token does in an expression.
ghost use Rattle.std.specs.Prelude.{◌≡◌};
ghost use Rattle.lsys_syntax.specs.RuleMachine.{small};
ghost use Rattle.lsys_text.specs.Tokens.{kind_of, mark_kind};
ghost use Rattle.lsys_expr.specs.Roles.{BeginsAs, FollowsAs};

use lsys_text::TokenKind;

/// The least number that is too great for an expression.
const NUMBER_LIMIT: u64 = 1 << 63;

/// What a token is where an operand is due.
#[derive(Clone, Copy)]
pub(crate) enum Begin {
    /// A whole operand.
    Whole,
    Parenthesis,
    Prefix,
    Nothing,
}

/// What a token does after an operand.
#[derive(Clone, Copy)]
pub(crate) enum Follow {
    Power,
    Product,
    Sum,
    Comparison,
    /// The first `&` of two.
    And,
    /// The first `|` of two.
    Or,
    Closing,
    Other,
}

/// What a token is where an operand is due.
pub(crate) fn begin_of(kind: TokenKind) -> Begin
    ensures { BeginsAs result (small (kind_of kind)) }
{
    match kind {
        TokenKind::Name(_) => Begin::Whole,
        TokenKind::Number(number) if number < NUMBER_LIMIT => Begin::Whole,
        TokenKind::Mark(byte) => mark_begin(byte),
        _ => Begin::Nothing,
    }
}

fn mark_begin(byte: u8) -> Begin
    ensures { BeginsAs result (mark_kind byte) }
{
    match byte {
        b'(' => Begin::Parenthesis,
        b'-' | b'!' => Begin::Prefix,
        _ => Begin::Nothing,
    }
}

/// What a token does after an operand.
pub(crate) fn follow_of(kind: TokenKind) -> Follow
    ensures { FollowsAs result (small (kind_of kind)) }
{
    match kind {
        TokenKind::Equal | TokenKind::Unequal | TokenKind::AtMost | TokenKind::AtLeast => {
            Follow::Comparison
        }
        TokenKind::Mark(byte) => mark_follow(byte),
        _ => Follow::Other,
    }
}

fn mark_follow(byte: u8) -> Follow
    ensures { FollowsAs result (mark_kind byte) }
{
    match byte {
        b'^' => Follow::Power,
        b'*' | b'/' | b'%' => Follow::Product,
        b'+' | b'-' => Follow::Sum,
        b'<' | b'>' => Follow::Comparison,
        b'&' => Follow::And,
        b'|' => Follow::Or,
        b')' => Follow::Closing,
        _ => Follow::Other,
    }
}
