//! Symbols that are seen.
ghost use Rattle.std.specs.Prelude.{◌≡◌, ◌≢◌, ◌↔◌, IsTrue};
ghost use Rattle.lsys_module.specs.declared.symbol.Symbol.TheVariants.{Cut};
ghost use Rattle.lsys_level.specs.Spots.{Module};
ghost use Rattle.lsys_level.specs.Places.{seen_in};
ghost use Rattle.lsys_level.specs.Views.{seen_of};
ghost use Rattle.lsys_forest.specs.Nodes.{seen_as};
ghost use Rattle.lsys_forest.specs.declared.node.NodeKind.TheVariants as kinds;

use lsys_level::Sight;
use lsys_module::Symbol;
use lsys_text::Name;

/// Whether it is this symbol that is seen.
pub(crate) fn is_seen(sight: Sight<'_>, symbol: &Symbol) -> bool
    requires { symbol.now ≢ Cut }
    ensures { IsTrue result ↔ (seen_of sight.entry ≡ seen_in symbol.now) }
{
    match sight {
        Sight::Push => matches!(symbol, Symbol::Push),
        Sight::Pop => matches!(symbol, Symbol::Pop),
        Sight::Module { name, params } => is_module(name, params, symbol),
    }
}

/// Whether a symbol is a module of this name with these parameters.
fn is_module(name: Name, params: &[i64], symbol: &Symbol) -> bool
    requires { symbol.now ≢ Cut }
    ensures { IsTrue result ↔ (seen_as (kinds.Module name) params.now ≡ seen_in symbol.now) }
{
    match symbol {
        Symbol::Module(module) => name == module.name && params == module.params.values(),
        _ => false,
    }
}
