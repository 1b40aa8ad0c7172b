//! Symbols of an image, as far as they are looked at.
ghost use Rattle.std.specs.Prelude.{◌≡◌, []};
ghost use Rattle.lsys_spec.specs.Levels.{plain};
ghost use Rattle.lsys_spec.specs.Pictures.{first_or_one};
ghost use Rattle.lsys_level.specs.Spots.{with_lineage};
ghost use Rattle.lsys_level.specs.Views.{seen_of};
ghost use Rattle.lsys_module.specs.Views.{symbol_of};
ghost use Rattle.lsys_hom.specs.Looks.{in_short, looked_at};

use lsys_level::Sight;
use lsys_module::Symbol;
use lsys_text::Name;

/// A symbol, as far as it is looked at.
#[derive(Clone, Copy)]
pub enum Glance {
    /// `[`
    Push,
    /// `]`
    Pop,
    /// `%`
    Cut,
    /// A module: its name, and its first parameter, or 1 without parameters.
    Module { name: Name, first: i64 },
}

/// What is looked at of a symbol.
pub(crate) fn look_at(symbol: &Symbol) -> Glance
    ensures { looked_at result ≡ in_short (symbol_of symbol.now) }
{
    match symbol {
        Symbol::Push => Glance::Push,
        Symbol::Pop => Glance::Pop,
        Symbol::Cut => Glance::Cut,
        Symbol::Module(module) => Glance::Module {
            name: module.name,
            first: first_of(module.params.values()),
        },
    }
}

/// The same of a symbol that is seen on a level.
pub(crate) fn look_of(sight: Sight<'_>) -> Glance
    ensures { looked_at result ≡ in_short (plain (with_lineage [] (seen_of sight.entry))) }
{
    match sight {
        Sight::Push => Glance::Push,
        Sight::Pop => Glance::Pop,
        Sight::Module { name, params } => Glance::Module {
            name,
            first: first_of(params),
        },
    }
}

/// The first parameter, or 1 where there is none.
pub(crate) fn first_of(params: &[i64]) -> i64
    ensures { result ≡ first_or_one params.now }
{
    match params.first() {
        Some(value) => *value,
        None => 1,
    }
}
