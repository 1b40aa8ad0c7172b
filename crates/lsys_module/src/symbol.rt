//! Modules and symbols.
ghost use Rattle.std.specs.Prelude.{◌≡◌};
ghost use Rattle.lsys_syntax.specs.Strings.{IsParam, IsSymbol};
ghost use Rattle.lsys_spec.specs.Numbers.{code_of};
ghost use Rattle.lsys_module.specs.Views.{symbol_of};

use crate::params::Params;
use lsys_text::Name;

/// A module: its name and its parameters.
#[derive(Clone, Copy, PartialEq, Eq)]
pub struct Module {
    pub name: Name,
    pub params: Params,
}

/// A symbol of a string.
#[derive(Clone, Copy, PartialEq, Eq)]
pub enum Symbol {
    /// `[`, which begins a branch.
    Push,
    /// `]`, which ends one.
    Pop,
    /// `%`, which cuts the rest of its branch off.
    Cut,
    /// A module.
    Module(Module),
}

/// The code that symbols of one name have and no others: of a module the number of its name, of another symbol its
/// byte.
pub fn name_code(symbol: &Symbol) -> u64
    ensures { result ≡ code_of (symbol_of symbol.now) }
{
    match symbol {
        Symbol::Push => u64::from(b'['),
        Symbol::Pop => u64::from(b']'),
        Symbol::Cut => u64::from(b'%'),
        Symbol::Module(module) => module.name.number(),
    }
}

/// A law of symbols: each stands for a symbol of the language, since a module's name has the form of a name, and its
/// parameters are of 64 bits.
pub(crate) fn law_of_symbols(symbol: &Symbol)
    ensures { IsSymbol IsParam (symbol_of symbol.now) }
{
    if let Symbol::Module(module) = symbol {
        module.name.law_of_names();
        module.params.law_of_params();
    }
}
