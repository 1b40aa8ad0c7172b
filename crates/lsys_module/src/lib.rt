//! Modules with parameters, and strings of them: kept in place, read from tokens and printed.
#![tactic(auto)]

ghost use Rattle.std.specs.Prelude.{◌≡◌, ℤ, List};
ghost use Rattle.lsys_syntax.specs.Strings as strings;
ghost use Rattle.lsys_spec.specs.Systems.{written};
ghost use Rattle.lsys_spec.specs.Edits.{values_of};
ghost use Rattle.lsys_module.specs.ReadBack.{PrintedStringsAreRead};

mod build;
mod glyph;
mod limits;
mod notation;
mod params;
mod print;
mod refusal;
mod scan;
mod symbol;
mod symbol_list;

pub use build::build_string;
pub use limits::first_many;
pub use notation::{Notation, Shape};
pub use params::Params;
pub use print::{print_string, put_name, put_symbol, put_symbols};
pub use refusal::StringRefusal;
pub use scan::scan_string;
pub use symbol::{Module, Symbol, name_code};
pub use symbol_list::SymbolList;

/// A law of printed strings: a string whose brackets are balanced is printed so that its text, wherever it stands in a
/// line of names, is read as the tokens of a string, and that string has the same values.
pub fn law_of_printed_strings()
    ensures read { PrintedStringsAreRead }
    ensures values { (symbols : List (strings.Symbol ℤ)) → values_of (written symbols) ≡ symbols }
{}
