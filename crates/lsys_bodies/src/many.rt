//! The limits of a rule.
ghost use Rattle.std.specs.Prelude.{◌≡◌, ◌≤◌, ◌+◌, ◌-◌};
ghost use Rattle.lsys_syntax.specs.Limits.{most_rule_tokens};
ghost use Rattle.lsys_syntax.specs.Tokens.{Kind};
ghost use Rattle.lsys_bodies.specs.Counting.{Counting};
ghost use Rattle.lsys_bodies.specs.CountedParts.{CountsImage, CountsImages, CountsModule, CountsRule, CountsSpan, CountsSpans, CountsSuccessor, IsFirstPastLimits};
ghost use Rattle.lsys_bodies.specs.PatternPieces.{left_context, module_pieces, more_formals_pieces, pattern_pieces, pieces_in, right_context};

use crate::counter::RuleCounts;
use lsys_reading::{ExprSpan, ImageSymbol, PatternSymbol, RuleLine};
use lsys_text::Name;

/// The most modules of a left context.
const MOST_LEFT: usize = 8;

/// The most symbols of a right context, brackets counted.
const MOST_RIGHT: usize = 16;

/// The most symbols of a successor, brackets and cuts counted.
const MOST_SUCCESSOR_SYMBOLS: usize = 128;

/// The first token of the rule at which one of its limits is passed, where its first one has number `from`.
pub fn first_many(from: usize, rule: &RuleLine) -> Option<usize>
    requires room { from + most_rule_tokens ≤ usize.MAX }
    ensures { IsFirstPastLimits from rule.now result }
{
    match count_rule(rule) {
        Ok(_) => None,
        Err(tokens) => Some(from.saturating_add(tokens)),
    }
}

// Each answers what is counted after what it counts, or the tokens before the one at which a limit is passed.

// All of a rule.
fn count_rule(rule: &RuleLine) -> Result<RuleCounts, usize>
    ensures { CountsRule rule.now result }
{
    let start = RuleCounts {
        tokens: 0,
        symbols: 0,
        most: 0,
        params: 0,
    };
    let left = count_left(start, &rule.left)?;
    let predecessor = count_module(left.section(1), &rule.predecessor.formals)?;
    let right = count_right(predecessor, &rule.right)?;
    let condition = count_option(right, rule.condition)?;
    let weight = count_option(condition, rule.weight)?;
    let arrow = weight.mark()?;
    count_successor(arrow, &rule.successor)
}

// Formals, each after a mark.
fn count_formals(counter: RuleCounts, formals: &[Name]) -> Result<RuleCounts, usize>
    ensures { Counting counter (more_formals_pieces formals.now) result }
{
    let mut counted = counter;
    for _formal in formals {
        counted = counted.formal()?;
    }
    Ok(counted)
}

// A name, and the formals after it.
fn count_module(counter: RuleCounts, formals: &[Name]) -> Result<RuleCounts, usize>
    ensures { (k : Kind) → Counting counter (module_pieces k formals.now) result }
{
    let named = counter.symbol()?;
    if formals.is_empty() {
        return Ok(named);
    }
    let counted = count_formals(named, formals)?;
    counted.mark()
}

fn count_pattern(counter: RuleCounts, symbol: &PatternSymbol) -> Result<RuleCounts, usize>
    ensures { Counting counter (pattern_pieces symbol.now) result }
{
    match symbol {
        PatternSymbol::Module(module) => count_module(counter, &module.formals),
        PatternSymbol::Push => counter.symbol(),
        PatternSymbol::Pop => counter.symbol(),
    }
}

fn count_patterns(counter: RuleCounts, symbols: &[PatternSymbol]) -> Result<RuleCounts, usize>
    ensures { Counting counter (pieces_in symbols.now) result }
{
    let mut counted = counter;
    for symbol in symbols {
        counted = count_pattern(counted, symbol)?;
    }
    Ok(counted)
}

// How many tokens an expression has.
fn size(span: ExprSpan) -> usize
    ensures { result ≡ span.to - span.from }
{
    span.to.saturating_sub(span.from)
}

// An expression after a mark, where there is one.
fn count_option(counter: RuleCounts, span: Option<ExprSpan>) -> Result<RuleCounts, usize>
    ensures { CountsSpan counter span result }
{
    match span {
        Some(span) => {
            let marked = counter.mark()?;
            marked.expression(size(span))
        }
        None => Ok(counter),
    }
}

// Parameters, each after a mark.
fn count_params(counter: RuleCounts, params: &[ExprSpan]) -> Result<RuleCounts, usize>
    ensures { CountsSpans counter params.now result }
{
    let mut counted = counter;
    for param in params {
        counted = counted.param(size(*param))?;
    }
    Ok(counted)
}

fn count_image(counter: RuleCounts, image: &ImageSymbol) -> Result<RuleCounts, usize>
    ensures { CountsImage counter image.now result }
{
    match image {
        ImageSymbol::Module(module) => count_image_module(counter, &module.params),
        ImageSymbol::Push => counter.symbol(),
        ImageSymbol::Pop => counter.symbol(),
        ImageSymbol::Cut => counter.symbol(),
    }
}

// A name, and the parameters after it.
fn count_image_module(counter: RuleCounts, params: &[ExprSpan]) -> Result<RuleCounts, usize>
    ensures { CountsModule counter params.now result }
{
    let named = counter.symbol()?;
    if params.is_empty() {
        return Ok(named);
    }
    let counted = count_params(named, params)?;
    counted.mark()
}

fn count_images(counter: RuleCounts, images: &[ImageSymbol]) -> Result<RuleCounts, usize>
    ensures { CountsImages counter images.now result }
{
    let mut counted = counter;
    for image in images {
        counted = count_image(counted, image)?;
    }
    Ok(counted)
}

// A left context, and the mark after it.
fn count_left(counter: RuleCounts, symbols: &[PatternSymbol]) -> Result<RuleCounts, usize>
    ensures { Counting counter (left_context symbols.now) result }
{
    if symbols.is_empty() {
        return Ok(counter);
    }
    let counted = count_patterns(counter.section(MOST_LEFT), symbols)?;
    counted.mark()
}

// A right context, and the mark before it.
fn count_right(counter: RuleCounts, symbols: &[PatternSymbol]) -> Result<RuleCounts, usize>
    ensures { Counting counter (right_context symbols.now) result }
{
    if symbols.is_empty() {
        return Ok(counter);
    }
    let marked = counter.mark()?;
    count_patterns(marked.section(MOST_RIGHT), symbols)
}

fn count_successor(counter: RuleCounts, images: &[ImageSymbol]) -> Result<RuleCounts, usize>
    ensures { CountsSuccessor counter images.now result }
{
    if images.is_empty() {
        return Ok(counter);
    }
    count_images(counter.section(MOST_SUCCESSOR_SYMBOLS), images)
}
