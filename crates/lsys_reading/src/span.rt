//! The expressions of a rule, and what stands between them.
ghost use Rattle.std.specs.Prelude.{◌≡◌, ◌≤◌, ◌<◌, length, IfOk};
ghost use Rattle.lsys_reading.specs.Tokens.{kinds_in, size};
ghost use Rattle.lsys_reading.specs.Spans.{IsSpan, ConditionIsSpan, IsExpressionRead, IsConditionRead, IsWeightRead, IsArrowRead};

use crate::form::Form;
use crate::glyph::peek;
use crate::line_tokens::LineTokens;
use crate::refusal::PartRefusal;
use lsys_expr::scan_expr;

/// The tokens of an expression: from number `from` up to number `to`, that one left out.
#[derive(Clone, Copy, PartialEq, Eq, Debug)]
pub struct ExprSpan {
    pub from: usize,
    pub to: usize,
}

/// A condition or a weight, where there is one, up to the token after it.
#[derive(Clone, Copy)]
pub(crate) struct OptionRead {
    pub span: Option<ExprSpan>,
    pub end: usize,
}

// An expression.
pub(crate) fn expression(line: &LineTokens, at: usize) -> Result<ExprSpan, PartRefusal>
    requires within { at ≤ size line.now }
    ensures read { IsExpressionRead (kinds_in line.now) at result }
    ensures span { IfOk result (λ s. IsSpan (kinds_in line.now) s) }
    ensures place { IfOk result (λ s. (at < s.to) × (s.to ≤ size line.now)) }
{
    match scan_expr(&line.tokens, at) {
        Ok(to) => Ok(ExprSpan { from: at, to }),
        Err(refusal) => Err(PartRefusal::from_place(refusal)),
    }
}

// A condition after its colon, where there is one.
pub(crate) fn condition(line: &LineTokens, at: usize) -> Result<OptionRead, PartRefusal>
    requires within { at ≤ size line.now }
    ensures read { IsConditionRead (kinds_in line.now) at result }
    ensures span { IfOk result (λ x. ConditionIsSpan (kinds_in line.now) x.span) }
    ensures place { IfOk result (λ x. x.end ≤ size line.now) }
{
    if !peek(line, at).is_colon() {
        return Ok(OptionRead {
            span: None,
            end: at,
        });
    }
    let span = expression(line, at + 1)?;
    Ok(OptionRead {
        span: Some(span),
        end: span.to,
    })
}

// A weight after its `@`, where there is one.
pub(crate) fn weight(line: &LineTokens, at: usize, form: Form) -> Result<OptionRead, PartRefusal>
    requires within { at ≤ size line.now }
    ensures read { IsWeightRead form (kinds_in line.now) at result }
    ensures span { IfOk result (λ x. ConditionIsSpan (kinds_in line.now) x.span) }
    ensures place { IfOk result (λ x. x.end ≤ size line.now) }
{
    if !form.takes_weight(peek(line, at)) {
        return Ok(OptionRead {
            span: None,
            end: at,
        });
    }
    let span = expression(line, at + 1)?;
    Ok(OptionRead {
        span: Some(span),
        end: span.to,
    })
}

// The arrow; the place after it.
pub(crate) fn arrow(line: &LineTokens, at: usize) -> Result<usize, PartRefusal>
    requires within { at ≤ size line.now }
    ensures read { IsArrowRead (kinds_in line.now) at result }
    ensures place { IfOk result (λ end. end ≤ size line.now) }
{
    if peek(line, at).is_arrow() {
        Ok(at + 1)
    } else {
        Err(PartRefusal::Token { place: at })
    }
}
