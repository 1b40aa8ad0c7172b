//! Cuts.
ghost use Rattle.std.specs.Prelude.{◌≡◌, ◌<◌, false, length, IfSome};
ghost use Rattle.lsys_module.specs.Views.{symbol_of};
ghost use Rattle.lsys_rewrite.specs.Cutting.{next_cutting, marked, symbol_stays, IsCutOf, MarksKept};

use lsys_module::{Symbol, SymbolList};

/// Takes each `%` out of a string, and all that follows it in its branch (ABOP chapter 3). The bracket that ends the
/// branch stays.
///
/// `kept` has a place for each symbol, which becomes true where the symbol stays. The string is read once, and no memory
/// is taken.
pub fn cut(symbols: &mut SymbolList, kept: &mut [bool])
    requires places { length kept.old ≡ length symbols.old }
    ensures kept { MarksKept symbols.old kept.new }
    ensures left { symbols.new ≡ marked kept.new symbols.old }
    ensures cut { IsCutOf symbols.old symbols.new }
{
    let mut len = 0;
    let mut cutting = None;
    for place in 0..symbols.len() {
        let symbol = symbols.symbols()[place];
        let is_kept = stays(cutting, &symbol);
        cutting = next_cutting(cutting, &symbol);
        kept[place] = is_kept;
        if is_kept {
            symbols.set(len, symbol);
            len += 1;
        }
    }
    symbols.truncate(len);
}

/// Whether the next symbol stays, where a branch is being cut off in which so many others are open, or none is.
pub fn stays(cutting: Option<usize>, symbol: &Symbol) -> bool
    ensures { result ≡ symbol_stays cutting (symbol_of symbol.now) }
{
    match (cutting, symbol) {
        (None, symbol) => !matches!(symbol, Symbol::Cut),
        (Some(0), Symbol::Pop) => true,
        _ => false,
    }
}

/// After the next symbol, whether a branch is being cut off and how many others are open in it.
pub fn next_cutting(cutting: Option<usize>, symbol: &Symbol) -> Option<usize>
    requires { IfSome cutting (λ branches. branches < usize.MAX) }
    ensures { result ≡ next_cutting cutting (symbol_of symbol.now) }
{
    match (cutting, symbol) {
        (None, Symbol::Cut) => Some(0),
        (Some(branches), Symbol::Push) => Some(branches + 1),
        (Some(branches), Symbol::Pop) => branches.checked_sub(1),
        (cutting, _) => cutting,
    }
}
