//! What is left of the image of one symbol of a level.
ghost use Rattle.std.specs.Prelude.{◌≡◌, ◌≤◌, ◌∷◌, [], ℤ, IsOk, IsTrue, List, length, map, MatchOption};
ghost use Rattle.lsys_syntax.specs.Strings as S;
ghost use Rattle.lsys_spec.specs.Images.{image_of};
ghost use Rattle.lsys_spec.specs.Pictures.{first_or_one};
ghost use Rattle.lsys_spec.specs.Meaning.{filled, filled_params};
ghost use Rattle.lsys_expr.specs.Answers.{as_meant};
ghost use Rattle.lsys_module.specs.Views.{symbol_of};
ghost use Rattle.lsys_syntax.specs.Smalls.{HaveFewParams};
ghost use Rattle.lsys_bodies.specs.Views.{homomorphism_of, template_of, template_symbol, tree_in};
ghost use Rattle.lsys_hom.specs.Parts.{AreFilled, IsImage, IsSoundPart, IsFirstLookedAt, IsFirstTaken, IsLookedAtAlone, fault_alone, module_with, or_none, symbols_of};

use crate::choice::body_for;
use crate::look::{Glance, look_at};
use lsys_bodies::{HomRule, Template};
use lsys_expr::{Arith, Expr, eval};
use lsys_module::{Module, Params, Symbol};
use lsys_rewrite::fill_template;
use lsys_text::Name;

/// What is left of the image of one symbol.
#[derive(Clone, Copy)]
pub enum Part<'a> {
    Nothing,
    /// A bracket, or a module that stays.
    Single(Symbol),
    /// Symbols of a successor, which are evaluated when they are asked for. None has a fault.
    Successor {
        templates: &'a [Template],
        params: &'a [i64],
    },
    /// Symbols of a successor without parameters, as they stand in its rule.
    Constant(&'a [Symbol]),
}

impl<'a> Part<'a> {
    /// The image of a module, of which no parameter has a fault.
    pub fn of_module(rules: &'a [HomRule], name: Name, params: &'a [i64]) -> Result<Part<'a>, Arith>
        requires { length params.now ≤ 8 }
        ensures { IsImage (image_of (map homomorphism_of rules.now) (module_with name params.now)) result }
    {
        match body_for(rules, name, params)? {
            None => Ok(Part::Single(Symbol::Module(Module {
                name,
                params: Params::of(params),
            }))),
            Some(body) => {
                if let Some(symbols) = body.constant() {
                    return Ok(Part::Constant(symbols.symbols()));
                }
                let templates = body.successor();
                check_templates(templates, params)?;
                Ok(Part::Successor { templates, params })
            }
        }
    }

    /// How many symbols there are.
    pub fn len(&self) -> usize
        requires { IsSoundPart self.now }
        ensures { result ≡ length (symbols_of self.now) }
    {
        match self {
            Part::Nothing => 0,
            Part::Single(_) => 1,
            Part::Successor { templates, .. } => templates.len(),
            Part::Constant(symbols) => symbols.len(),
        }
    }

    /// Nothing is left. False may be answered of a successor too of which nothing is left.
    pub(crate) fn is_over(&self) -> bool
        ensures { IsTrue result → symbols_of self.now ≡ [] }
    {
        matches!(self, Part::Nothing)
    }

    /// Takes the first symbol.
    pub fn next(&mut self) -> Option<Symbol>
        requires { IsSoundPart self.old }
        ensures taken { IsFirstTaken (symbols_of self.old) (symbols_of self.new) result }
        ensures sound { IsSoundPart self.new }
    {
        match *self {
            Part::Nothing => None,
            Part::Single(symbol) => {
                *self = Part::Nothing;
                Some(symbol)
            }
            Part::Successor { templates, params } => {
                let (first, rest) = templates.split_first()?;
                *self = Part::Successor {
                    templates: rest,
                    params,
                };
                match fill_template(first, params) {
                    Ok(symbol) => Some(symbol),
                    Err(_) => unreachable!(),
                }
            }
            Part::Constant(symbols) => {
                let (first, rest) = symbols.split_first()?;
                *self = Part::Constant(rest);
                Some(*first)
            }
        }
    }

    /// Takes the first symbol, and answers what is looked at of it. Of a successor no more is evaluated.
    pub(crate) fn look(&mut self) -> Option<Glance>
        requires { IsSoundPart self.old }
        ensures taken { IsFirstLookedAt (symbols_of self.old) (symbols_of self.new) result }
        ensures sound { IsSoundPart self.new }
    {
        match *self {
            Part::Nothing => None,
            Part::Single(symbol) => {
                *self = Part::Nothing;
                Some(look_at(&symbol))
            }
            Part::Successor { templates, params } => {
                let (first, rest) = templates.split_first()?;
                *self = Part::Successor {
                    templates: rest,
                    params,
                };
                Some(look_at_template(first, params))
            }
            Part::Constant(symbols) => {
                let (first, rest) = symbols.split_first()?;
                *self = Part::Constant(rest);
                Some(look_at(first))
            }
        }
    }
}

/// What is looked at of the symbol that a template without a fault becomes.
fn look_at_template(template: &Template, params: &[i64]) -> Glance
    requires { AreFilled (template_of template.now ∷ []) params.now }
    ensures { IsLookedAtAlone (or_none (filled (template_of template.now ∷ []) params.now)) result }
{
    match template {
        Template::Push => Glance::Push,
        Template::Pop => Glance::Pop,
        Template::Cut => Glance::Cut,
        Template::Module {
            name,
            params: exprs,
        } => Glance::Module {
            name: *name,
            first: first_value(exprs.as_slice(), params),
        },
    }
}

/// The value of the first parameter, or 1 where there is none. No parameter has a fault.
fn first_value(exprs: &[Expr], params: &[i64]) -> i64
    requires { IsOk (filled_params (map tree_in exprs.now) params.now) }
    ensures { result ≡ first_or_one (or_none (filled_params (map tree_in exprs.now) params.now)) }
{
    match exprs.first() {
        None => 1,
        Some(expr) => match eval(expr, params) {
            Ok(value) => value,
            Err(_) => unreachable!(),
        },
    }
}

/// Evaluates each parameter, for its fault.
///
/// # Errors
///
/// The first fault, from left to right.
fn check_templates(templates: &[Template], params: &[i64]) -> Result<(), Arith>
    ensures { as_meant result ≡ fault_alone (filled (map template_of templates.now) params.now) }
{
    for template in templates {
        check_template(template, params)?;
    }
    Ok(())
}

/// The same of one symbol.
fn check_template(template: &Template, params: &[i64]) -> Result<(), Arith>
    ensures { as_meant result ≡ fault_alone (filled (template_of template.now ∷ []) params.now) }
{
    match template {
        Template::Module { params: exprs, .. } => check_params(exprs.as_slice(), params),
        _ => Ok(()),
    }
}

/// The same of the parameters of one module.
fn check_params(exprs: &[Expr], params: &[i64]) -> Result<(), Arith>
    ensures { as_meant result ≡ fault_alone (filled_params (map tree_in exprs.now) params.now) }
{
    for expr in exprs {
        eval(expr, params)?;
    }
    Ok(())
}
