//! The letters of a system.
ghost use Rattle.std.specs.Prelude.{◌≡◌, ◌≤◌, ◌∷◌, [], IfOk, length, map};
ghost use Rattle.lsys_spec.specs.Systems.{comes_before};
ghost use Rattle.lsys_module.specs.Views.{module_name, string_of};
ghost use Rattle.lsys_bodies.specs.Views.{rule_of};
ghost use Rattle.lsys_growth.specs.Growth.{among, letters, most_letters, module_names, rule_names};
ghost use Rattle.lsys_growth.specs.Letters.{AreLettersOf, letter_place, PutsNames, letter_before, names_in_rules, names_in_templates};

use lsys_bodies::{Rule, Template, same_name};
use lsys_module::Symbol;
use lsys_rules::System;
use lsys_text::Name;
use std::alloc::{AllocError, Global};

/// The greatest number of letters of a system whose growth is told.
pub(crate) const MOST_LETTERS: usize = 63;

// The letters of a system in the order of their bytes, each once. None where there are more than 63.
pub(crate) fn letters(alloc: Global, system: &System) -> Result<Option<Vec<Name>>, AllocError>
    ensures { IfOk result (λ found. AreLettersOf system.now found) }
{
    let mut letters = Vec::new(alloc);
    if !put_axiom(&mut letters, system.axiom().symbols())? {
        return Ok(None);
    }
    if !put_rules(&mut letters, system.rules())? {
        return Ok(None);
    }
    Ok(Some(letters))
}

// Puts the names of the rules' predecessors and successors to the others. False where there would be more than 63.
fn put_rules(letters: &mut Vec<Name>, rules: &[Rule]) -> Result<bool, AllocError>
    requires { length letters.old.items ≤ most_letters }
    ensures { IfOk result (PutsNames letters.old (names_in_rules rules.now) letters.new) }
{
    for rule in rules {
        if !put_rule(letters, rule)? {
            return Ok(false);
        }
    }
    Ok(true)
}

fn put_rule(letters: &mut Vec<Name>, rule: &Rule) -> Result<bool, AllocError>
    requires { length letters.old.items ≤ most_letters }
    ensures { IfOk result (PutsNames letters.old (rule_names (rule_of rule.now)) letters.new) }
{
    let body = rule.body.get();
    if !put_name(letters, body.predecessor.name)? {
        return Ok(false);
    }
    put_successor(letters, &body.successor)
}

fn put_axiom(letters: &mut Vec<Name>, symbols: &[Symbol]) -> Result<bool, AllocError>
    requires { length letters.old.items ≤ most_letters }
    ensures { IfOk result (PutsNames letters.old (module_names (string_of symbols.now)) letters.new) }
{
    for symbol in symbols {
        if let Symbol::Module(module) = symbol {
            if !put_name(letters, module.name)? {
                return Ok(false);
            }
        }
    }
    Ok(true)
}

fn put_successor(letters: &mut Vec<Name>, templates: &[Template]) -> Result<bool, AllocError>
    requires { length letters.old.items ≤ most_letters }
    ensures { IfOk result (PutsNames letters.old (names_in_templates templates.now) letters.new) }
{
    for template in templates {
        if let Template::Module { name, .. } = template {
            if !put_name(letters, *name)? {
                return Ok(false);
            }
        }
    }
    Ok(true)
}

// Puts a name to the others, unless it is one of them or would be the 64th.
fn put_name(letters: &mut Vec<Name>, name: Name) -> Result<bool, AllocError>
    requires { length letters.old.items ≤ most_letters }
    ensures { IfOk result (PutsNames letters.old (module_name name ∷ []) letters.new) }
{
    if is_among(letters, name) {
        return Ok(true);
    }
    if letters.len() == MOST_LETTERS {
        return Ok(false);
    }
    let place = place_of(letters, name);
    letters.insert(place, name)?;
    Ok(true)
}

fn is_among(letters: &[Name], name: Name) -> bool
    ensures { result ≡ among (map module_name letters.now) (module_name name) }
{
    letters.iter().any(|other| same_name(*other, name))
}

// How many letters stand before the first that comes after a name.
fn place_of(letters: &[Name], name: Name) -> usize
    ensures place { result ≡ letter_place (module_name name) (map module_name letters.now) }
    ensures within { result ≤ length letters.now }
{
    letters
        .iter()
        .position(|other| comes_before(name, *other))
        .unwrap_or(letters.len())
}

fn comes_before(one: Name, other: Name) -> bool
    ensures { result ≡ letter_before (module_name one) (module_name other) }
{
    one.text().as_bytes() < other.text().as_bytes()
}
