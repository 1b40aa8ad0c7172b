//! Symbols with formals: the contexts of a rule, and its predecessor.
ghost use Rattle.std.specs.Prelude.{◌≡◌, ◌≤◌, ◌<◌, IfOk, IfSome};
ghost use Rattle.lsys_reading.specs.Tokens.{kinds_in, size};
ghost use Rattle.lsys_reading.specs.Patterns.{symbol_read, takes_name, opening_of, branches_after, IsModuleRead, IsSymbolRead, ArePatternsRead, CountsBranches};

use crate::formals::{FormalsRead, formals};
use crate::glyph::{RuleGlyph, peek};
use crate::line_tokens::LineTokens;
use crate::refusal::PartRefusal;
use lsys_text::Name;
use std::alloc::Global;

/// A module of a context, or a predecessor.
#[derive(Drop)]
pub struct PatternModule {
    pub name: Name,
    pub formals: Vec<Name>,
}

/// A symbol of a context.
#[derive(Drop)]
pub enum PatternSymbol {
    Module(PatternModule),
    Push,
    Pop,
}

/// Which symbols may stand in a list of them.
#[derive(Clone, Copy, PartialEq, Eq, Debug)]
pub(crate) enum Section {
    /// Any number of modules: a left context, or a predecessor.
    First,
    /// One module: a predecessor.
    Alone,
    /// Any number of modules, and branches: a right context.
    Right,
}

/// Where the next symbol stands.
#[derive(Clone, Copy)]
pub(crate) struct Standing {
    pub section: Section,
    pub is_first: bool,
    /// So many branches are open.
    pub branches: usize,
}

/// What begins with a token.
#[derive(Clone, Copy)]
pub(crate) enum Opening {
    Name(Name),
    Push,
    Pop,
}

/// A module, up to the token after it.
#[derive(Drop)]
pub(crate) struct ModuleRead {
    pub pattern: PatternModule,
    pub end: usize,
}

/// A symbol, up to the token after it.
#[derive(Drop)]
pub(crate) struct SymbolRead {
    pub symbol: PatternSymbol,
    pub end: usize,
}

/// Symbols, up to the first token that is none.
#[derive(Drop)]
pub(crate) struct PatternsRead {
    pub symbols: Vec<PatternSymbol>,
    /// So many branches are open.
    pub branches: usize,
    pub end: usize,
}

impl Standing {
    // The symbol that begins with a token.
    fn opening(self, glyph: RuleGlyph) -> Option<Opening>
        ensures { result ≡ opening_of self glyph }
    {
        match glyph {
            RuleGlyph::Letters(name) | RuleGlyph::Sign(name) if self.takes_name() => {
                Some(Opening::Name(name))
            }
            RuleGlyph::Push if self.section == Section::Right => Some(Opening::Push),
            RuleGlyph::Pop if self.section == Section::Right && self.branches > 0 => Some(
                Opening::Pop,
            ),
            _ => None,
        }
    }

    fn takes_name(self) -> bool
        ensures { result ≡ takes_name self.section self.is_first }
    {
        self.section != Section::Alone || self.is_first
    }
}

// A module after its name.
fn module(
    alloc: Global,
    line: &LineTokens,
    at: usize,
    name: Name,
) -> Result<ModuleRead, PartRefusal>
    requires within { at ≤ size line.now }
    ensures read { IsModuleRead name (kinds_in line.now) at result }
    ensures name { IfOk result (λ x. x.pattern.name ≡ name) }
    ensures place { IfOk result (λ x. (at ≤ x.end) × (x.end ≤ size line.now)) }
{
    if !peek(line, at).is_open() {
        return Ok(ModuleRead {
            pattern: PatternModule {
                name,
                formals: Vec::new(alloc),
            },
            end: at,
        });
    }
    let FormalsRead { formals, end } = formals(alloc, line, at + 1)?;
    Ok(ModuleRead {
        pattern: PatternModule { name, formals },
        end,
    })
}

// A symbol, where one stands.
fn symbol(
    alloc: Global,
    line: &LineTokens,
    at: usize,
    standing: Standing,
) -> Result<Option<SymbolRead>, PartRefusal>
    requires within { at ≤ size line.now }
    ensures read { IsSymbolRead standing (kinds_in line.now) at result }
    ensures place { IfOk result (λ o. IfSome o (λ x. (at < x.end) × (x.end ≤ size line.now))) }
{
    let Some(opening) = standing.opening(peek(line, at)) else {
        return Ok(None);
    };
    match opening {
        Opening::Name(name) => {
            let ModuleRead { pattern, end } = module(alloc, line, at + 1, name)?;
            Ok(Some(SymbolRead {
                symbol: PatternSymbol::Module(pattern),
                end,
            }))
        }
        Opening::Push => Ok(Some(SymbolRead {
            symbol: PatternSymbol::Push,
            end: at + 1,
        })),
        Opening::Pop => Ok(Some(SymbolRead {
            symbol: PatternSymbol::Pop,
            end: at + 1,
        })),
    }
}

// How many branches are open after a symbol.
fn branches_after(symbol: &PatternSymbol, branches: usize) -> usize
    requires { branches < usize.MAX }
    ensures { result ≡ branches_after (symbol_read symbol.now) branches }
{
    match symbol {
        PatternSymbol::Module(_) => branches,
        PatternSymbol::Push => branches + 1,
        PatternSymbol::Pop => branches.saturating_sub(1),
    }
}

// The symbols from a place on.
pub(crate) fn patterns(
    alloc: Global,
    line: &LineTokens,
    at: usize,
    section: Section,
) -> Result<PatternsRead, PartRefusal>
    requires within { at ≤ size line.now }
    ensures read { ArePatternsRead section (kinds_in line.now) at result }
    ensures branches { IfOk result CountsBranches }
    ensures place { IfOk result (λ x. (at ≤ x.end) × (x.end ≤ size line.now)) }
{
    let mut symbols = Vec::new(alloc);
    let mut branches = 0;
    let mut end = at;
    'symbols: loop {
        let standing = Standing {
            section,
            is_first: symbols.is_empty(),
            branches,
        };
        let Some(read) = symbol(alloc, line, end, standing)? else {
            return Ok(PatternsRead {
                symbols,
                branches,
                end,
            });
        };
        branches = branches_after(&read.symbol, branches);
        symbols.push(read.symbol).map_err(|_| PartRefusal::Memory)?;
        end = read.end;
    }
}
