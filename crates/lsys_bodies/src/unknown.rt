//! Names in the expressions of a rule that are no formals of it.
ghost use Rattle.std.specs.Prelude.{◌≤◌, ◌+◌};
ghost use Rattle.lsys_syntax.specs.Tokens.{Colon};
ghost use Rattle.lsys_syntax.specs.Expressions.{expr_pieces};
ghost use Rattle.lsys_text.specs.Tokens.{kind_row};
ghost use Rattle.lsys_reading.specs.Spans.{AreSpans, ConditionIsSpan, IsSpan, expr_at};
ghost use Rattle.lsys_reading.specs.Images.{ImageIsAt, ImagesAreAt};
ghost use Rattle.lsys_reading.specs.RuleLines.{IsRuleLine};
ghost use Rattle.lsys_bodies.specs.Formals.{rest_pieces};
ghost use Rattle.lsys_bodies.specs.Searching.{Searches, count, SearchesSpan};
ghost use Rattle.lsys_bodies.specs.FoundNames.{IsFirstUnknown};
ghost use Rattle.lsys_bodies.specs.SpanPieces.{image_pieces, images_pieces, marked_span, more_spans};

use crate::formals::FormalNames;
use lsys_reading::{ExprSpan, ImageSymbol, RuleLine};
use lsys_text::Token;

/// The first name of the rule's expressions that is no formal of it, by the number of its token.
pub fn unknown_name(tokens: &[Token], rule: &RuleLine, formals: &FormalNames) -> Option<usize>
    requires expressions { IsRuleLine (kind_row tokens.now) rule.now }
    requires room { formals.now.end + count (rest_pieces (kind_row tokens.now) rule.now) ≤ usize.MAX }
    ensures { IsFirstUnknown (kind_row tokens.now) rule.now formals.now result }
{
    search_rest(tokens, rule, formals).err()
}

// Each search answers the place after what it searched, or the first unknown name.

fn search_rest(tokens: &[Token], rule: &RuleLine, formals: &FormalNames) -> Result<usize, usize>
    requires expressions { IsRuleLine (kind_row tokens.now) rule.now }
    requires room { formals.now.end + count (rest_pieces (kind_row tokens.now) rule.now) ≤ usize.MAX }
    ensures { Searches formals.now formals.now.end (rest_pieces (kind_row tokens.now) rule.now) result }
{
    let place = search_option(tokens, formals, formals.end, rule.condition)?;
    let place = search_option(tokens, formals, place, rule.weight)?;
    search_images(tokens, formals, place + 1, &rule.successor)
}

// An expression after a mark, where there is one.
fn search_option(
    tokens: &[Token],
    formals: &FormalNames,
    place: usize,
    span: Option<ExprSpan>,
) -> Result<usize, usize>
    requires span { ConditionIsSpan (kind_row tokens.now) span }
    requires room { place + count (marked_span Colon (kind_row tokens.now) span) ≤ usize.MAX }
    ensures { SearchesSpan formals.now place (kind_row tokens.now) span result }
{
    match span {
        Some(span) => search_expression(tokens, formals, place + 1, span),
        None => Ok(place),
    }
}

fn search_expression(
    tokens: &[Token],
    formals: &FormalNames,
    place: usize,
    span: ExprSpan,
) -> Result<usize, usize>
    requires span { IsSpan (kind_row tokens.now) span }
    requires room { place + count (expr_pieces (expr_at (kind_row tokens.now) span)) ≤ usize.MAX }
    ensures { Searches formals.now place (expr_pieces (expr_at (kind_row tokens.now) span)) result }
{
    let mut end = place;
    for token in &tokens[span.from..span.to] {
        if formals.is_unknown(token.kind) {
            return Err(end);
        }
        end += 1;
    }
    Ok(end)
}

// Parameters, each after a mark.
fn search_params(
    tokens: &[Token],
    formals: &FormalNames,
    place: usize,
    params: &[ExprSpan],
) -> Result<usize, usize>
    requires spans { AreSpans (kind_row tokens.now) params.now }
    requires room { place + count (more_spans (kind_row tokens.now) params.now) ≤ usize.MAX }
    ensures { Searches formals.now place (more_spans (kind_row tokens.now) params.now) result }
{
    let mut end = place;
    for param in params {
        end = search_expression(tokens, formals, end + 1, *param)?;
    }
    Ok(end)
}

fn search_image(
    tokens: &[Token],
    formals: &FormalNames,
    place: usize,
    image: &ImageSymbol,
) -> Result<usize, usize>
    requires expressions { ImageIsAt (kind_row tokens.now) image.now }
    requires room { place + count (image_pieces (kind_row tokens.now) image.now) ≤ usize.MAX }
    ensures { Searches formals.now place (image_pieces (kind_row tokens.now) image.now) result }
{
    match image {
        ImageSymbol::Module(module) if !module.params.is_empty() => {
            let end = search_params(tokens, formals, place + 1, &module.params)?;
            Ok(end + 1)
        }
        _ => Ok(place + 1),
    }
}

fn search_images(
    tokens: &[Token],
    formals: &FormalNames,
    place: usize,
    images: &[ImageSymbol],
) -> Result<usize, usize>
    requires expressions { ImagesAreAt (kind_row tokens.now) images.now }
    requires room { place + count (images_pieces (kind_row tokens.now) images.now) ≤ usize.MAX }
    ensures { Searches formals.now place (images_pieces (kind_row tokens.now) images.now) result }
{
    let mut end = place;
    for image in images {
        end = search_image(tokens, formals, end, image)?;
    }
    Ok(end)
}
