//! Successors, their parameters evaluated.
ghost use Rattle.std.specs.Prelude.{◌≡◌, ◌≤◌, ◌∷◌, [], length, map};
ghost use Rattle.lsys_spec.specs.Bodies.{body_of};
ghost use Rattle.lsys_spec.specs.Meaning.{filled, filled_params};
ghost use Rattle.lsys_expr.specs.Answers.{as_meant};
ghost use Rattle.lsys_syntax.specs.Smalls.{HaveFewParams};
ghost use Rattle.lsys_bodies.specs.Views.{rule_of, template_of, template_symbol, tree_in};
ghost use Rattle.lsys_rewrite.specs.Filled.{IsAdded, IsAddedFront, IsFilled, IsFilledSymbol, successor_filled, templates_filled};

use crate::refusal::FillRefusal;
use lsys_bodies::{Rule, SharedBody, Template};
use lsys_expr::{Arith, Expr, eval};
use lsys_module::{Module, Params, Symbol, SymbolList};
use std::alloc::Global;

/// A rule's successor, where its formals have the values `bound`, by place.
///
/// # Errors
///
/// `Arith` has the first fault of a parameter, from left to right, and `Memory` is lack of memory.
pub fn fill(alloc: Global, rule: &Rule, bound: &[i64]) -> Result<SymbolList, FillRefusal>
    ensures { IsFilled (filled (body_of (rule_of rule.now)).successor bound.now) result }
{
    let mut symbols = SymbolList::new(alloc);
    fill_into(&mut symbols, &rule.body, bound)?;
    Ok(symbols)
}

/// Adds the successor of a body, where its formals have the values `bound`, by place, at the end of a list. The list gets no
/// more room than that takes.
///
/// # Errors
///
/// As `fill`. The list is then as it was.
pub fn fill_into(
    symbols: &mut SymbolList,
    body: &SharedBody,
    bound: &[i64],
) -> Result<(), FillRefusal>
    ensures { IsAdded (successor_filled body.now bound.now) symbols.old symbols.new result }
{
    let len = symbols.len();
    let templates = body.successor();
    symbols.reserve(templates.len())?;
    let added = add_front(symbols, templates, bound);
    if added.is_err() {
        symbols.truncate(len);
    }
    added
}

// Adds symbols of a successor up to its first fault.
fn add_front(
    symbols: &mut SymbolList,
    templates: &[Template],
    bound: &[i64],
) -> Result<(), FillRefusal>
    requires { HaveFewParams (map template_symbol templates.now) }
    ensures { IsAddedFront (templates_filled templates.now bound.now) symbols.old symbols.new result }
{
    for template in templates {
        symbols.push(fill_template(template, bound)?)?;
    }
    Ok(())
}

/// One symbol of a successor, where the rule's formals have the values `bound`, by place. It has at most eight parameters.
/// Takes no memory.
///
/// # Errors
///
/// The first fault of a parameter, from left to right.
pub fn fill_template(template: &Template, bound: &[i64]) -> Result<Symbol, Arith>
    requires { HaveFewParams (template_symbol template.now ∷ []) }
    ensures { IsFilledSymbol (filled (template_of template.now ∷ []) bound.now) result }
{
    Ok(match template {
        Template::Push => Symbol::Push,
        Template::Pop => Symbol::Pop,
        Template::Cut => Symbol::Cut,
        Template::Module { name, params } => Symbol::Module(Module {
            name: *name,
            params: fill_params(params.as_slice(), bound)?,
        }),
    })
}

// The values of parameters, of which there are at most eight.
fn fill_params(params: &[Expr], bound: &[i64]) -> Result<Params, Arith>
    requires { length params.now ≤ 8 }
    ensures { as_meant result ≡ filled_params (map tree_in params.now) bound.now }
{
    let mut values = [0; 8];
    for (place, expr) in params.iter().enumerate() {
        values[place] = eval(expr, bound)?;
    }
    Ok(Params::of(&values[..params.len()]))
}
