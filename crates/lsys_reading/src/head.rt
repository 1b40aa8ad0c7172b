//! A rule up to its right context.
ghost use Rattle.std.specs.Prelude.{◌≡◌, ◌≤◌, length, map, IfOk};
ghost use Rattle.lsys_reading.specs.Tokens.{kinds_in, size};
ghost use Rattle.lsys_reading.specs.Heads.{only_of, IsSingle, IsContext, IsPredecessorRead, IsRightRead, IsHeadRead};

use crate::form::Form;
use crate::glyph::peek;
use crate::line_tokens::LineTokens;
use crate::patterns::{PatternModule, PatternSymbol, PatternsRead, Section, patterns};
use crate::refusal::PartRefusal;
use std::alloc::Global;

/// A left context and a predecessor, up to the token after them.
#[derive(Drop)]
pub(crate) struct PredecessorRead {
    pub left: Vec<PatternSymbol>,
    pub predecessor: PatternModule,
    pub end: usize,
}

/// A right context, where there is one, up to the token after it.
#[derive(Drop)]
pub(crate) struct RightRead {
    pub right: Vec<PatternSymbol>,
    pub end: usize,
}

/// Contexts and predecessor, up to the token after them.
#[derive(Drop)]
pub(crate) struct HeadRead {
    pub left: Vec<PatternSymbol>,
    pub predecessor: PatternModule,
    pub right: Vec<PatternSymbol>,
    pub end: usize,
}

// The module that alone the symbols are.
fn only(symbols: Vec<PatternSymbol>) -> Option<PatternModule>
    ensures { result ≡ only_of symbols.items }
{
    let mut symbols = symbols;
    if symbols.len() > 1 {
        return None;
    }
    match symbols.pop() {
        Some(PatternSymbol::Module(pattern)) => Some(pattern),
        _ => None,
    }
}

// A predecessor alone, after a left context.
fn single(
    left: Vec<PatternSymbol>,
    symbols: Vec<PatternSymbol>,
    end: usize,
) -> Result<PredecessorRead, PartRefusal>
    ensures { IsSingle left.items symbols.items end result }
{
    match only(symbols) {
        Some(predecessor) => Ok(PredecessorRead {
            left,
            predecessor,
            end,
        }),
        None => Err(PartRefusal::Token { place: end }),
    }
}

// A predecessor, with its left context where there is one.
fn predecessor(
    alloc: Global,
    line: &LineTokens,
    at: usize,
    form: Form,
) -> Result<PredecessorRead, PartRefusal>
    requires within { at ≤ size line.now }
    ensures read { IsPredecessorRead form (kinds_in line.now) at result }
    ensures place { IfOk result (λ x. x.end ≤ size line.now) }
{
    let first = patterns(alloc, line, at, form.first_section())?;
    if !form.takes_left(first.symbols.is_empty(), peek(line, first.end)) {
        return single(Vec::new(alloc), first.symbols, first.end);
    }
    let second = patterns(alloc, line, first.end + 1, Section::Alone)?;
    single(first.symbols, second.symbols, second.end)
}

// Whether symbols are a right context: there is one at least, and no branch is open.
fn is_context(read: &PatternsRead) -> bool
    ensures { IsContext result read.now.symbols.items read.now.branches }
{
    !read.symbols.is_empty() && read.branches == 0
}

// A right context, where there is one.
fn right(alloc: Global, line: &LineTokens, at: usize, form: Form) -> Result<RightRead, PartRefusal>
    requires within { at ≤ size line.now }
    ensures read { IsRightRead form (kinds_in line.now) at result }
    ensures place { IfOk result (λ x. x.end ≤ size line.now) }
{
    if !form.takes_right(peek(line, at)) {
        return Ok(RightRead {
            right: Vec::new(alloc),
            end: at,
        });
    }
    let read = patterns(alloc, line, at + 1, Section::Right)?;
    if !is_context(&read) {
        return Err(PartRefusal::Token { place: read.end });
    }
    Ok(RightRead {
        right: read.symbols,
        end: read.end,
    })
}

// Contexts and predecessor.
pub(crate) fn head(
    alloc: Global,
    line: &LineTokens,
    at: usize,
    form: Form,
) -> Result<HeadRead, PartRefusal>
    requires within { at ≤ size line.now }
    ensures read { IsHeadRead form (kinds_in line.now) at result }
    ensures place { IfOk result (λ x. x.end ≤ size line.now) }
{
    let PredecessorRead {
        left,
        predecessor,
        end,
    } = predecessor(alloc, line, at, form)?;
    let RightRead { right, end } = right(alloc, line, end, form)?;
    Ok(HeadRead {
        left,
        predecessor,
        right,
        end,
    })
}
