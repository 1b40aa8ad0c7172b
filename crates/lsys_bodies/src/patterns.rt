//! Contexts and predecessors, built from a rule's line.
ghost use Rattle.std.specs.Prelude.{◌≡◌, List, map, IfOk, OnOk};
ghost use Rattle.lsys_syntax.specs.Tokens.{Kind};
ghost use Rattle.lsys_syntax.specs.Strings.{EachOf};
ghost use Rattle.lsys_syntax.specs.Rules.{IsPattern};
ghost use Rattle.lsys_reading.specs.Patterns.{symbol_read};
ghost use Rattle.lsys_reading.specs.Heads.{patterns_of};
ghost use Rattle.lsys_bodies.specs.Views.{pattern_symbol, item_symbol};
ghost use Rattle.lsys_bodies.specs.BuiltParts.{AddsFormalsOf, AreRuleFormals};

use crate::body::{Item, Pattern};
use lsys_reading::{PatternModule, PatternSymbol as ContextSymbol, RuleLine};
use lsys_text::Name;
use std::alloc::{AllocError, Global};

/// A left context, which has modules alone.
pub(crate) fn left_context(
    alloc: Global,
    symbols: &[ContextSymbol],
) -> Result<Vec<Pattern>, AllocError>
    requires { EachOf IsPattern (patterns_of symbols.now) }
    ensures { IfOk result (λ v. map pattern_symbol v.items ≡ patterns_of symbols.now) }
{
    let mut patterns = Vec::with_capacity(alloc, symbols.len())?;
    for symbol in symbols {
        match symbol {
            ContextSymbol::Module(module) => patterns.push(pattern(alloc, module)?)?,
            _ => unreachable!(),
        }
    }
    Ok(patterns)
}

/// A right context.
pub(crate) fn right_context(
    alloc: Global,
    symbols: &[ContextSymbol],
) -> Result<Vec<Item>, AllocError>
    ensures { IfOk result (λ v. map item_symbol v.items ≡ patterns_of symbols.now) }
{
    let mut items = Vec::with_capacity(alloc, symbols.len())?;
    for symbol in symbols {
        items.push(item(alloc, symbol)?)?;
    }
    Ok(items)
}

fn item(alloc: Global, symbol: &ContextSymbol) -> Result<Item, AllocError>
    ensures { IfOk result (λ x. item_symbol x ≡ symbol_read symbol.now) }
{
    match symbol {
        ContextSymbol::Module(module) => Ok(Item::Pattern(pattern(alloc, module)?)),
        ContextSymbol::Push => Ok(Item::Push),
        ContextSymbol::Pop => Ok(Item::Pop),
    }
}

/// A module of a context, or a predecessor.
pub(crate) fn pattern(alloc: Global, symbol: &PatternModule) -> Result<Pattern, AllocError>
    ensures name { IfOk result (λ p. p.name ≡ symbol.now.name) }
    ensures formals { IfOk result (λ p. p.formals.items ≡ symbol.now.formals.items) }
{
    Ok(Pattern {
        name: symbol.name,
        formals: Vec::from_slice(alloc, &symbol.formals)?,
    })
}

/// The formals of a rule, by their places: those of the left context, the predecessor's and those of the right context.
pub(crate) fn all_formals(alloc: Global, line: &RuleLine) -> Result<Vec<Name>, AllocError>
    ensures { (ks : List Kind) → IfOk result (λ v. AreRuleFormals ks line.now v.items) }
{
    let mut formals = Vec::new(alloc);
    add_formals(&mut formals, &line.left)?;
    formals.extend_from_slice(&line.predecessor.formals)?;
    add_formals(&mut formals, &line.right)?;
    Ok(formals)
}

// Adds the formals of a context.
fn add_formals(formals: &mut Vec<Name>, symbols: &[ContextSymbol]) -> Result<(), AllocError>
    ensures { OnOk result (AddsFormalsOf symbols.now formals.old.items formals.new.items) }
{
    for symbol in symbols {
        if let ContextSymbol::Module(module) = symbol {
            formals.extend_from_slice(&module.formals)?;
        }
    }
    Ok(())
}
