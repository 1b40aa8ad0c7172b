//! A level as a string.
ghost use Rattle.std.specs.Prelude.{◌≡◌, ◌<◌, [], length, IfOk};
ghost use Rattle.lsys_spec.specs.Levels.{plain};
ghost use Rattle.lsys_module.specs.Views.{symbol_of};
ghost use Rattle.lsys_level.specs.Spots.{spots_at, with_lineage};
ghost use Rattle.lsys_level.specs.Views.{seen_of, HasFewParams, IsCopy};

use crate::sight::Sight;
use crate::view::LevelView;
use lsys_module::{Module, Params, Symbol, SymbolList};
use std::alloc::{AllocError, Global};

/// The symbols of a level, copied whole.
///
/// # Errors
///
/// Out of memory.
pub fn copy_level<W: LevelView>(
    alloc: Global,
    view: &W,
    level: u32,
) -> Result<SymbolList, AllocError>
    requires { level < length (W.levels view.now) }
    ensures { IfOk result (λ symbols. IsCopy (spots_at (W.levels view.now) level) symbols) }
{
    let mut symbols = SymbolList::new(alloc);
    let mut at = view.first(level);
    while let Some(spot) = at {
        symbols.push(symbol_seen(view.sight(spot)))?;
        at = view.right(spot);
    }
    Ok(symbols)
}

/// The symbol that is seen.
fn symbol_seen(sight: Sight<'_>) -> Symbol
    requires { HasFewParams sight }
    ensures { symbol_of result ≡ plain (with_lineage [] (seen_of sight.entry)) }
{
    match sight {
        Sight::Push => Symbol::Push,
        Sight::Pop => Symbol::Pop,
        Sight::Module { name, params } => Symbol::Module(Module {
            name,
            params: Params::of(params),
        }),
    }
}
