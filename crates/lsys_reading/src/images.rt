//! The successor of a rule: symbols with expressions.
ghost use Rattle.std.specs.Prelude.{◌≡◌, ◌≤◌, ◌<◌, ◌+◌, length, IfOk};
ghost use Rattle.lsys_reading.specs.Tokens.{kinds_in, size};
ghost use Rattle.lsys_reading.specs.Spans.{IsSpan, AreSpans};
ghost use Rattle.lsys_reading.specs.Images.{image_opening_of, image_branches, ImageIsAt, ImagesAreAt, IsParamRead, AreParamsRead, IsImageModuleRead, IsImageRead, IsSuccessorRead};

use crate::form::Form;
use crate::glyph::{RuleGlyph, Separator, peek};
use crate::line_tokens::LineTokens;
use crate::refusal::PartRefusal;
use crate::span::{ExprSpan, expression};
use lsys_text::Name;
use std::alloc::Global;

/// A module of a successor, and its parameters.
#[derive(Drop)]
pub struct ImageModule {
    pub name: Name,
    pub params: Vec<ExprSpan>,
}

/// A symbol of a successor.
#[derive(Drop)]
pub enum ImageSymbol {
    Module(ImageModule),
    Push,
    Pop,
    Cut,
}

/// What begins with a token.
#[derive(Clone, Copy)]
pub(crate) enum ImageOpening {
    Name(Name),
    Push,
    Pop,
    Cut,
}

/// A parameter, and what stands after it.
#[derive(Clone, Copy)]
pub(crate) struct ParamRead {
    pub span: ExprSpan,
    pub separator: Separator,
}

/// Parameters, up to the token after their parenthesis.
#[derive(Drop)]
pub(crate) struct ParamsRead {
    pub params: Vec<ExprSpan>,
    pub end: usize,
}

/// A module, up to the token after it.
#[derive(Drop)]
pub(crate) struct ImageModuleRead {
    pub image: ImageModule,
    pub end: usize,
}

/// A symbol, up to the token after it.
#[derive(Drop)]
pub(crate) struct ImageRead {
    pub symbol: ImageSymbol,
    pub end: usize,
}

// The symbol that begins with a token, where so many branches are open.
fn image_opening(form: Form, branches: usize, glyph: RuleGlyph) -> Option<ImageOpening>
    ensures { result ≡ image_opening_of form branches glyph }
{
    match glyph {
        RuleGlyph::Letters(name) | RuleGlyph::Sign(name) => Some(ImageOpening::Name(name)),
        RuleGlyph::Push => Some(ImageOpening::Push),
        RuleGlyph::Pop if branches > 0 => Some(ImageOpening::Pop),
        RuleGlyph::Cut if form == Form::Production => Some(ImageOpening::Cut),
        _ => None,
    }
}

// How many branches are open after a symbol.
fn image_branches(symbol: &ImageSymbol, branches: usize) -> usize
    requires { branches < usize.MAX }
    ensures { result ≡ image_branches symbol.now branches }
{
    match symbol {
        ImageSymbol::Push => branches + 1,
        ImageSymbol::Pop => branches.saturating_sub(1),
        _ => branches,
    }
}

// A parameter, and what stands after it.
fn param(line: &LineTokens, at: usize) -> Result<ParamRead, PartRefusal>
    requires within { at ≤ size line.now }
    ensures read { IsParamRead (kinds_in line.now) at result }
    ensures span { IfOk result (λ x. IsSpan (kinds_in line.now) x.span) }
    ensures place { IfOk result (λ x. (at < x.span.to) × (x.span.to + 1 ≤ size line.now)) }
{
    let span = expression(line, at)?;
    match peek(line, span.to).separator() {
        Some(separator) => Ok(ParamRead { span, separator }),
        None => Err(PartRefusal::Token { place: span.to }),
    }
}

// The parameters after a parenthesis.
fn params(alloc: Global, line: &LineTokens, at: usize) -> Result<ParamsRead, PartRefusal>
    requires within { at ≤ size line.now }
    ensures read { AreParamsRead (kinds_in line.now) at result }
    ensures some { IfOk result (λ x. 0 < length x.params.items) }
    ensures spans { IfOk result (λ x. AreSpans (kinds_in line.now) x.params.items) }
    ensures place { IfOk result (λ x. (at < x.end) × (x.end ≤ size line.now)) }
{
    let mut params = Vec::new(alloc);
    let mut end = at;
    'params: loop {
        let read = param(line, end)?;
        params.push(read.span).map_err(|_| PartRefusal::Memory)?;
        end = read.span.to + 1;
        if read.separator == Separator::Close {
            return Ok(ParamsRead { params, end });
        }
    }
}

// A module after its name.
fn image_module(
    alloc: Global,
    line: &LineTokens,
    at: usize,
    name: Name,
) -> Result<ImageModuleRead, PartRefusal>
    requires within { at ≤ size line.now }
    ensures read { IsImageModuleRead name (kinds_in line.now) at result }
    ensures spans { IfOk result (λ x. AreSpans (kinds_in line.now) x.image.params.items) }
    ensures place { IfOk result (λ x. (at ≤ x.end) × (x.end ≤ size line.now)) }
{
    if !peek(line, at).is_open() {
        return Ok(ImageModuleRead {
            image: ImageModule {
                name,
                params: Vec::new(alloc),
            },
            end: at,
        });
    }
    let ParamsRead { params, end } = params(alloc, line, at + 1)?;
    Ok(ImageModuleRead {
        image: ImageModule { name, params },
        end,
    })
}

// A symbol.
fn image_symbol(
    alloc: Global,
    line: &LineTokens,
    at: usize,
    form: Form,
    branches: usize,
) -> Result<ImageRead, PartRefusal>
    requires within { at < size line.now }
    ensures read { IsImageRead form branches (kinds_in line.now) at result }
    ensures spans { IfOk result (λ x. ImageIsAt (kinds_in line.now) x.symbol) }
    ensures place { IfOk result (λ x. (at < x.end) × (x.end ≤ size line.now)) }
{
    let Some(opening) = image_opening(form, branches, peek(line, at)) else {
        return Err(PartRefusal::Token { place: at });
    };
    let end = at + 1;
    let symbol = match opening {
        ImageOpening::Name(name) => {
            let ImageModuleRead { image, end } = image_module(alloc, line, end, name)?;
            return Ok(ImageRead {
                symbol: ImageSymbol::Module(image),
                end,
            });
        }
        ImageOpening::Push => ImageSymbol::Push,
        ImageOpening::Pop => ImageSymbol::Pop,
        ImageOpening::Cut => ImageSymbol::Cut,
    };
    Ok(ImageRead { symbol, end })
}

// The symbols up to the line's end.
pub(crate) fn successor(
    alloc: Global,
    line: &LineTokens,
    at: usize,
    form: Form,
) -> Result<Vec<ImageSymbol>, PartRefusal>
    requires within { at ≤ size line.now }
    ensures read { IsSuccessorRead form (kinds_in line.now) at result }
    ensures spans { IfOk result (λ x. ImagesAreAt (kinds_in line.now) x.items) }
{
    let mut symbols = Vec::new(alloc);
    let mut branches = 0;
    let mut end = at;
    'symbols: while end < line.len() {
        let read = image_symbol(alloc, line, end, form, branches)?;
        branches = image_branches(&read.symbol, branches);
        symbols.push(read.symbol).map_err(|_| PartRefusal::Memory)?;
        end = read.end;
    }
    if branches > 0 {
        return Err(PartRefusal::Token { place: end });
    }
    Ok(symbols)
}
