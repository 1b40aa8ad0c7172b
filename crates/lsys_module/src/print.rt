//! Strings as they are printed.
ghost use Rattle.std.specs.Prelude.{◌≡◌, IfOk, false, map};
ghost use Rattle.lsys_syntax.specs.Strings.{AreSymbols, ends_in_name, string_text, value_pieces};
ghost use Rattle.lsys_io.specs.Putting.{Puts};
ghost use Rattle.lsys_module.specs.Views.{module_name, string_of, symbol_of};
ghost use Rattle.lsys_module.specs.Printing.{gap_text, more_text, name_after, params_text, runs_on_after};
ghost use Rattle.lsys_module.specs.Shapes.{after_in, text_in};

use crate::notation::{Notation, Shape};
use crate::symbol::Symbol;
use crate::symbol_list::SymbolList;
use lsys_io::{Buffered, Failed, Sink};
use lsys_text::Name;

/// Puts a string of symbols, without an end of line.
///
/// A blank stands between a module without parameters whose name has a `_` and a symbol that begins with
/// a letter, and nowhere else. What was put are symbols of the language, so the text is read as the same string
/// (`law_of_printed_strings`).
///
/// # Errors
///
/// The sink failed; a front of what was held and of the string was written then.
pub fn print_string<K: Sink>(
    out: &mut Buffered,
    sink: &mut K,
    symbols: &SymbolList,
) -> Result<(), Failed>
    ensures put { Puts K.Sink sink out (string_text (string_of symbols.now)) result }
    ensures forms { AreSymbols (string_of symbols.now) }
{
    put_symbols::<K, Symbol, i64, Strings>(out, sink, symbols.symbols())
}

// The symbols of a string, whose parameters are numbers.
struct Strings;

impl Notation<Symbol, i64> for Strings {
    ghost use Rattle.std.specs.Prelude.{ℤ};

    ghost Written = { ℤ };

    ghost way = { record { symbol = symbol_of; param = λ z. z; print = value_pieces } };

    fn shape(of: &Symbol) -> Shape<'_, i64> {
        match of {
            Symbol::Push => Shape::Push,
            Symbol::Pop => Shape::Pop,
            Symbol::Cut => Shape::Cut,
            Symbol::Module(module) => Shape::Module(module.name, module.params.values()),
        }
    }

    fn put_param<K: Sink>(out: &mut Buffered, sink: &mut K, of: &i64) -> Result<(), Failed> {
        out.put_number(sink, i128::from(*of))
    }
}

/// Puts symbols one after the other, and a blank where the one before would be read on.
///
/// # Errors
///
/// The sink failed; a front of what was held and of the symbols was written then.
pub fn put_symbols<K: Sink, S, P, N: Notation<S, P>>(
    out: &mut Buffered,
    sink: &mut K,
    symbols: &[S],
) -> Result<(), Failed>
    ensures { Puts K.Sink sink out (text_in N.way symbols.now) result }
{
    let mut runs_on = false;
    for symbol in symbols {
        runs_on = put_symbol::<K, S, P, N>(out, sink, symbol, runs_on)?;
    }
    Ok(())
}

/// Puts a symbol, after a blank where the one before runs on and this one begins with a letter. Answers whether a
/// letter directly after it would be read as part of it.
///
/// # Errors
///
/// The sink failed; a front of what was held and of the symbol was written then.
pub fn put_symbol<K: Sink, S, P, N: Notation<S, P>>(
    out: &mut Buffered,
    sink: &mut K,
    symbol: &S,
    runs_on: bool,
) -> Result<bool, Failed>
    ensures put { Puts K.Sink sink out (after_in N.way runs_on symbol.now) result }
    ensures runs_on { IfOk result (λ more. more ≡ ends_in_name (N.way.symbol symbol.now)) }
{
    match N::shape(symbol) {
        Shape::Push => put_mark(out, sink, b"["),
        Shape::Pop => put_mark(out, sink, b"]"),
        Shape::Cut => put_mark(out, sink, b"%"),
        Shape::Module(name, params) => {
            let long = put_name(out, sink, name, runs_on)?;
            put_params::<K, S, P, N>(out, sink, params)?;
            Ok(long && params.is_empty())
        }
    }
}

// Puts a mark, which never runs on.
fn put_mark<K: Sink>(out: &mut Buffered, sink: &mut K, mark: &[u8]) -> Result<bool, Failed>
    ensures put { Puts K.Sink sink out mark.now result }
    ensures runs_on { IfOk result (λ more. more ≡ false) }
{
    out.put(sink, mark)?;
    Ok(false)
}

/// Puts a name, after a blank where it begins with a letter and the one before runs on. Answers whether a letter
/// directly after it would be read as part of it.
///
/// # Errors
///
/// The sink failed; a front of what was held and of the name was written then.
pub fn put_name<K: Sink>(
    out: &mut Buffered,
    sink: &mut K,
    name: Name,
    runs_on: bool,
) -> Result<bool, Failed>
    ensures put { Puts K.Sink sink out (name_after runs_on (module_name name)) result }
    ensures runs_on { IfOk result (λ more. more ≡ runs_on_after (module_name name)) }
{
    let text = name.text();
    let bytes = text.as_bytes();
    put_gap(out, sink, runs_on, bytes[0].is_ascii_alphabetic())?;
    out.put(sink, bytes)?;
    Ok(bytes.len() > 1)
}

// Puts a blank, where what stands before runs on and what follows begins with a letter.
#[tactic(auto, using(lsys_io::proofs::Puts::puts_nothing))]
fn put_gap<K: Sink>(
    out: &mut Buffered,
    sink: &mut K,
    runs_on: bool,
    letter: bool,
) -> Result<(), Failed>
    ensures { Puts K.Sink sink out (gap_text runs_on letter) result }
{
    if runs_on && letter {
        return out.put(sink, b" ");
    }
    Ok(())
}

// Puts parameters, in parentheses where there are any.
#[tactic(auto, using(lsys_io::proofs::Puts::puts_then, lsys_io::proofs::Puts::puts_failed, lsys_io::proofs::Puts::puts_nothing))]
fn put_params<K: Sink, S, P, N: Notation<S, P>>(
    out: &mut Buffered,
    sink: &mut K,
    params: &[P],
) -> Result<(), Failed>
    ensures { Puts K.Sink sink out (params_text N.way.print (map N.way.param params.now)) result }
{
    let Some((first, others)) = params.split_first() else {
        return Ok(());
    };
    out.put(sink, b"(")?;
    N::put_param(out, sink, first)?;
    put_more::<K, S, P, N>(out, sink, others)?;
    out.put(sink, b")")
}

// Puts parameters, each after a comma.
fn put_more<K: Sink, S, P, N: Notation<S, P>>(
    out: &mut Buffered,
    sink: &mut K,
    params: &[P],
) -> Result<(), Failed>
    ensures { Puts K.Sink sink out (more_text N.way.print (map N.way.param params.now)) result }
{
    for param in params {
        out.put(sink, b",")?;
        N::put_param(out, sink, param)?;
    }
    Ok(())
}
