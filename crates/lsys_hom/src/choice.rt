//! Which rule a module's image is made by.
ghost use Rattle.std.specs.Prelude.{◌≡◌};
ghost use Rattle.lsys_expr.specs.Answers.{as_meant};
ghost use Rattle.lsys_module.specs.Views.{module_name};
ghost use Rattle.lsys_bodies.specs.Views.{homomorphism_of};
ghost use Rattle.lsys_hom.specs.Parts.{applies, module_with, IsRuleFor};

use lsys_bodies::{HomRule, SharedBody, same_name};
use lsys_expr::{Arith, holds};
use lsys_text::Name;

/// The body of the first rule that is for the module and whose condition holds. The conditions of later ones aren't tried.
pub(crate) fn body_for<'a>(
    rules: &'a [HomRule],
    name: Name,
    params: &[i64],
) -> Result<Option<&'a SharedBody>, Arith>
    ensures { IsRuleFor rules.now (module_with name params.now) result }
{
    for rule in rules {
        if applies(rule, name, params)? {
            return Ok(Some(&rule.body));
        }
    }
    Ok(None)
}

/// Whether the rule is for the module and its condition holds.
fn applies(rule: &HomRule, name: Name, params: &[i64]) -> Result<bool, Arith>
    ensures { as_meant result ≡ applies (module_with name params.now) (homomorphism_of rule.now) }
{
    let predecessor = rule.body.predecessor();
    if !same_name(predecessor.name, name) || predecessor.arity() != params.len() {
        return Ok(false);
    }
    match rule.body.condition() {
        None => Ok(true),
        Some(condition) => holds(condition, params),
    }
}
