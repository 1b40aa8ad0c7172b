//! Successors without parameters.
ghost use Rattle.std.specs.Prelude.{◌≡◌, IfOk};
ghost use Rattle.lsys_bodies.specs.Constants.{module_alone, symbol_alone, constant_of};

use crate::body::Template;
use lsys_expr::Expr;
use lsys_module::{Module, Params, Symbol, SymbolList};
use lsys_text::Name;
use std::alloc::{AllocError, Global};

/// The symbols of these templates; none where one of them has parameters.
pub(crate) fn constant_of(
    alloc: Global,
    templates: &[Template],
) -> Result<Option<SymbolList>, AllocError>
    ensures { IfOk result (λ c. c ≡ constant_of templates.now) }
{
    let mut symbols = SymbolList::new(alloc);
    for template in templates {
        let Some(symbol) = symbol_alone(template) else {
            return Ok(None);
        };
        symbols.push(symbol)?;
    }
    // The copy has no room to spare.
    Ok(Some(symbols.clone()?))
}

// The symbol that a template is; none where it has parameters.
fn symbol_alone(template: &Template) -> Option<Symbol>
    ensures { result ≡ symbol_alone template.now }
{
    match template {
        Template::Push => Some(Symbol::Push),
        Template::Pop => Some(Symbol::Pop),
        Template::Cut => Some(Symbol::Cut),
        Template::Module { name, params } => module_alone(*name, params),
    }
}

// The module with this name, where it has no parameters.
fn module_alone(name: Name, params: &[Expr]) -> Option<Symbol>
    ensures { result ≡ module_alone name params.now }
{
    if !params.is_empty() {
        return None;
    }
    Some(Symbol::Module(Module {
        name,
        params: Params::of(&[]),
    }))
}
