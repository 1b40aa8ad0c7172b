//! The class of systems whose growth is told.
ghost use Rattle.std.specs.Prelude.{◌≡◌, map};
ghost use Rattle.lsys_laws.specs.Sessions.{IsWell};
ghost use Rattle.lsys_module.specs.Views.{string_of};
ghost use Rattle.lsys_bodies.specs.Views.{as_production, rule_of, template_symbol};
ghost use Rattle.lsys_growth.specs.Growth.{all_plain, in_class, is_bare, is_plain_rule};

use lsys_bodies::{Rule, Template};
use lsys_module::Symbol;
use lsys_rules::System;

// Whether every module of a letter is rewritten alike: no production has a context, a formal, a condition or a weight, and
// the axiom and the successors have neither cuts nor parameters.
pub(crate) fn is_in_class(system: &System) -> bool
    ensures class { result ≡ in_class system.now }
    ensures well { IsWell system.now }
{
    is_bare_axiom(system.axiom().symbols()) && are_plain(system.rules())
}

fn are_plain(rules: &[Rule]) -> bool
    ensures { result ≡ all_plain (map as_production rules.now) }
{
    for rule in rules {
        if !is_plain(rule) {
            return false;
        }
    }
    true
}

fn is_plain(rule: &Rule) -> bool
    ensures { result ≡ is_plain_rule (rule_of rule.now) }
{
    let body = rule.body.get();
    body.left.is_empty()
        && body.right.is_empty()
        && body.predecessor.formals.is_empty()
        && body.condition.is_none()
        && body.weight.is_none()
        && is_bare_successor(&body.successor)
}

fn is_bare_axiom(symbols: &[Symbol]) -> bool
    ensures { result ≡ is_bare (string_of symbols.now) }
{
    for symbol in symbols {
        let is_bare = match symbol {
            Symbol::Cut => false,
            Symbol::Module(module) => module.params.values().is_empty(),
            Symbol::Push | Symbol::Pop => true,
        };
        if !is_bare {
            return false;
        }
    }
    true
}

fn is_bare_successor(templates: &[Template]) -> bool
    ensures { result ≡ is_bare (map template_symbol templates.now) }
{
    for template in templates {
        let is_bare = match template {
            Template::Cut => false,
            Template::Module { params, .. } => params.is_empty(),
            Template::Push | Template::Pop => true,
        };
        if !is_bare {
            return false;
        }
    }
    true
}
