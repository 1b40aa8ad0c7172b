//! The rules for a module.
ghost use Rattle.std.specs.Prelude.{◌≡◌, ◌<◌, ◌≤◌, ◌∷◌, [], length, not, slice_get, IfOk, IfSome};
ghost use Rattle.std.specs.Option.{option_map};
ghost use Rattle.lsys_syntax.specs.Limits.{most_rules};
ghost use Rattle.lsys_bodies.specs.Views.{nest};
ghost use Rattle.lsys_spec.specs.Bodies.{group, innermost};
ghost use Rattle.lsys_spec.specs.Equalities.{same_all, same_body};
ghost use Rattle.lsys_spec.specs.Meaning.{any_weight};
ghost use Rattle.lsys_spec.specs.Standings.{free, no_patterns};
ghost use Rattle.lsys_module.specs.Views.{module_name};
ghost use Rattle.lsys_laws.specs.Sessions.{IsWell};
ghost use Rattle.lsys_match.specs.Groups.{asks_nothing, bodies_of, meant, rules_found, rules_of};

use lsys_bodies::{Item, Rule, SharedBody};
use lsys_rules::{SharedGroup, System};
use lsys_text::Name;
use std::alloc::AllocError;
use std::marker::Model;

/// The rules of a level's table for modules with a name and a number of parameters, one at least, in the order in which
/// they are tried.
#[derive(Drop)]
pub struct Group<'a> {
    shared: &'a SharedGroup,
    rules: &'a [Rule],
}

impl<'a> Model for Group<'a> {
    ghost use Rattle.std.specs.Prelude.{List, ◌≡◌, ◌<◌, ◌≤◌, length};
    ghost use Rattle.std.specs.Coded.{codes};
    ghost use Rattle.lsys_syntax.specs.Limits.{most_rules};
    ghost use Rattle.lsys_expr.specs.Codes.{expression_code};
    ghost use Rattle.lsys_bodies.specs.declared.body.Body.{Body};

    ghost Value = { List Body };

    ghost coded = { Prim.hlevel (codes, expression_code) };

    ghost use Rattle.lsys_match.specs.Groups.{bodies_of};

    ghost view = { λ a. bodies_of a.rules.now };

    ghost invariant = { λ a. (a.shared.now ≡ a.rules.now) × (0 < length a.rules.now)
        × (length a.rules.now ≤ most_rules) };
}

// The rule has a left or a right context.
fn has_context(body: &SharedBody) -> bool
    ensures { result ≡ not (free (meant body.now ∷ [])) }
{
    !body.left().is_empty() || has_pattern(body.right())
}

// A right context has a pattern or a branch. (It is balanced, so it doesn't begin with `]`.)
fn has_pattern(items: &[Item]) -> bool
    ensures { result ≡ not (no_patterns (innermost (nest items.now))) }
{
    matches!(items.first(), Some(Item::Push | Item::Pattern(_)))
}

// The body of the rule at a place among these; none past the last one.
pub(crate) fn body_at(rules: &[Rule], place: usize) -> Option<&SharedBody>
    ensures { option_map (λ b. b.now) result ≡ slice_get (bodies_of rules.now) place }
{
    let rule = rules.get(place)?;
    Some(&rule.body)
}

impl<'a> Group<'a> {
    /// The rules of a level for modules with this name and so many parameters; none where there are no such rules.
    pub(crate) fn at(system: &'a System, level: u32, name: Name, arity: usize) -> Option<Group<'a>>
        ensures rules { rules_found result ≡ group system.now level (module_name name) arity }
        ensures some { IfSome result (λ g. 0 < length (rules_of g)) }
        ensures well { IsWell system.now }
    {
        let shared = system.group(level, name, arity)?;
        Some(Group {
            shared,
            rules: shared.rules(),
        })
    }

    /// The body of the rule at a place, from 0; none past the last one.
    pub fn get(&self, place: usize) -> Option<&'a SharedBody>
        ensures kept { option_map (λ b. b.now) result ≡ slice_get self.now place }
        ensures body { option_map (λ b. meant b.now) result ≡ slice_get (rules_of self.now) place }
        ensures few { length (rules_of self.now) ≤ most_rules }
    {
        body_at(self.rules, place)
    }

    /// A rule has a weight.
    pub fn is_weighted(&self) -> bool
        ensures { result ≡ any_weight (rules_of self.now) }
    {
        let mut place = 0;
        while let Some(body) = self.get(place) {
            if body.weight().is_some() {
                return true;
            }
            place += 1;
        }
        false
    }

    /// No rule has a context.
    pub fn is_free(&self) -> bool
        ensures { result ≡ free (rules_of self.now) }
    {
        let mut place = 0;
        while let Some(body) = self.get(place) {
            if has_context(body) {
                return false;
            }
            place += 1;
        }
        true
    }

    /// The first rule has neither contexts nor a condition.
    pub(crate) fn asks_nothing(&self) -> bool
        ensures { result ≡ asks_nothing (rules_of self.now) }
    {
        let Some(body) = self.get(0) else {
            return false;
        };
        !has_context(body) && body.condition().is_none()
    }

    /// The rules, to be kept: they are shared, so none is copied.
    pub(crate) fn share(&self) -> Result<SharedGroup, AllocError>
        ensures { IfOk result (λ rules. bodies_of rules ≡ self.now) }
    {
        self.shared.clone()
    }

    /// The bodies of these rules are those of the group, in order.
    pub(crate) fn is_same(&self, group: &SharedGroup) -> bool
        ensures { result ≡ same_all same_body (rules_of (bodies_of group.now)) (rules_of self.now) }
    {
        let others = group.rules();
        let mut place = 0;
        while let Some(body) = self.get(place) {
            let Some(other) = others.get(place) else {
                return false;
            };
            if !other.body.same(body) {
                return false;
            }
            place += 1;
        }
        place == others.len()
    }

    /// The other group has the same bodies, in order.
    pub(crate) fn agrees(&self, other: &Group<'_>) -> bool
        ensures { result ≡ same_all same_body (rules_of other.now) (rules_of self.now) }
    {
        self.is_same(other.shared)
    }
}
