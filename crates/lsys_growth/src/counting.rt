//! Rows of counts.
ghost use Rattle.std.specs.Prelude.{◌≡◌, ◌≤◌, OnOk, map, slice_get};
ghost use Rattle.std.specs.Option.{option_map};
ghost use Rattle.lsys_module.specs.Views.{module_name, string_of};
ghost use Rattle.lsys_growth.specs.Counting.{count_of_what, is_counted, AddsAlone, AddsString, AddsTemplates, count_alone, count_in_templates};

use lsys_bodies::{Template, same_name};
use lsys_module::Symbol;
use lsys_text::Name;
use std::alloc::AllocError;

// Puts the counts of an axiom after some entries: of each letter, and then of `[`.
pub(crate) fn push_axiom(
    entries: &mut Vec<Option<u128>>,
    letters: &[Name],
    symbols: &[Symbol],
) -> Result<(), AllocError>
    ensures { OnOk result (AddsString letters.now symbols.now entries.old entries.new) }
{
    for place in 0..letters.len() + 1 {
        let times = times_in_axiom(symbols, letter_at(letters, place));
        entries.push(Some(times as u128))?;
    }
    Ok(())
}

// The same, of a successor.
pub(crate) fn push_successor(
    entries: &mut Vec<Option<u128>>,
    letters: &[Name],
    templates: &[Template],
) -> Result<(), AllocError>
    ensures { OnOk result (AddsTemplates letters.now templates.now entries.old entries.new) }
{
    for place in 0..letters.len() + 1 {
        let times = times_in_successor(templates, letter_at(letters, place));
        entries.push(Some(times as u128))?;
    }
    Ok(())
}

// The same, of a letter alone, or of `[` for none.
pub(crate) fn push_alone(
    entries: &mut Vec<Option<u128>>,
    letters: &[Name],
    symbol: &Option<Name>,
) -> Result<(), AllocError>
    ensures { OnOk result (AddsAlone letters.now symbol.now entries.old entries.new) }
{
    for place in 0..letters.len() + 1 {
        let times = times_alone(symbol, letter_at(letters, place));
        entries.push(Some(times as u128))?;
    }
    Ok(())
}

// The letter at a place; after the last one none, which stands for `[`.
pub(crate) fn letter_at(letters: &[Name], place: usize) -> Option<Name>
    ensures { option_map module_name result ≡ slice_get (map module_name letters.now) place }
{
    letters.get(place).copied()
}

fn times_in_axiom(symbols: &[Symbol], letter: Option<Name>) -> usize
    ensures { result ≡ count_of_what (option_map module_name letter) (string_of symbols.now) }
{
    let mut times = 0;
    for symbol in symbols {
        let is_counted = match symbol {
            Symbol::Module(module) => is_letter(letter, module.name),
            Symbol::Push => letter.is_none(),
            Symbol::Pop | Symbol::Cut => false,
        };
        times += usize::from(is_counted);
    }
    times
}

fn times_in_successor(templates: &[Template], letter: Option<Name>) -> usize
    ensures { result ≡ count_in_templates letter templates.now }
{
    let mut times = 0;
    for template in templates {
        let is_counted = match template {
            Template::Module { name, .. } => is_letter(letter, *name),
            Template::Push => letter.is_none(),
            Template::Pop | Template::Cut => false,
        };
        times += usize::from(is_counted);
    }
    times
}

fn times_alone(symbol: &Option<Name>, letter: Option<Name>) -> usize
    ensures times { result ≡ count_alone letter symbol.now }
    ensures once { result ≤ 1 }
{
    let is_counted = match symbol {
        Some(name) => is_letter(letter, *name),
        None => letter.is_none(),
    };
    usize::from(is_counted)
}

fn is_letter(letter: Option<Name>, name: Name) -> bool
    ensures { result ≡ is_counted (option_map module_name letter) (module_name name) }
{
    match letter {
        Some(letter) => same_name(letter, name),
        None => false,
    }
}
