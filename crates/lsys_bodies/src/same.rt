//! Whether two bodies are the same.
ghost use Rattle.std.specs.Prelude.{◌≡◌, true, map};
ghost use Rattle.lsys_syntax.specs.Strings.{balanced};
ghost use Rattle.lsys_spec.specs.Systems.{same_name};
ghost use Rattle.lsys_spec.specs.Bodies.{body_of, innermost};
ghost use Rattle.lsys_spec.specs.Equalities.{same_all, same_body, same_option, same_pattern, same_patterns, same_template, same_tree};
ghost use Rattle.lsys_module.specs.Views.{module_name};
ghost use Rattle.lsys_bodies.specs.Built.{IsBuilt};
ghost use Rattle.lsys_bodies.specs.Same.{same_item};
ghost use Rattle.lsys_bodies.specs.Views.{body_value, item_symbol, nest, as_pattern, template_of, tree_in, as_rule};
ghost use Rattle.lsys_bodies.specs.BuiltParts.{optional_tree};

use crate::body::{Body, Item, Pattern, SharedBody, Template};
use lsys_expr::{Expr, same_expr};
use lsys_text::Name;

impl SharedBody {
    /// Whether both bodies are the same: what they mean, and not how their formals are called. It stops at the first
    /// difference.
    pub fn same(&self, other: &SharedBody) -> bool
        ensures { result ≡ same_body (body_of (as_rule self.now)) (body_of (as_rule other.now)) }
    {
        same_body(self.get(), other.get())
    }
}

fn same_body(one: &Body, other: &Body) -> bool
    requires one { IsBuilt one.now }
    requires other { IsBuilt other.now }
    ensures { result ≡ same_body (body_value one.now) (body_value other.now) }
{
    same_patterns(&one.left, &other.left)
        && same_pattern(&one.predecessor, &other.predecessor)
        && same_right(&one.right, &other.right)
        && same_option(&one.condition, &other.condition)
        && same_option(&one.weight, &other.weight)
        && same_templates(&one.successor, &other.successor)
}

fn same_patterns(one: &[Pattern], other: &[Pattern]) -> bool
    ensures { result ≡ same_all same_pattern (map as_pattern one.now) (map as_pattern other.now) }
{
    let Some((first, more)) = one.split_first() else {
        return other.is_empty();
    };
    let Some((another, others)) = other.split_first() else {
        return false;
    };
    same_pattern(first, another) && same_patterns(more, others)
}

fn same_pattern(one: &Pattern, other: &Pattern) -> bool
    ensures { result ≡ same_pattern (as_pattern one.now) (as_pattern other.now) }
{
    same_name(one.name, other.name) && one.formals.len() == other.formals.len()
}

/// Whether two names are the same.
pub fn same_name(one: Name, other: Name) -> bool
    ensures { result ≡ same_name (module_name one) (module_name other) }
{
    one == other
}

// Right contexts, which are balanced: their patterns are the same where their items are.
fn same_right(one: &[Item], other: &[Item]) -> bool
    requires one { balanced 0 (map item_symbol one.now) ≡ true }
    requires other { balanced 0 (map item_symbol other.now) ≡ true }
    ensures { result ≡ same_patterns (innermost (nest one.now)) (innermost (nest other.now)) }
{
    same_items(one, other)
}

fn same_items(one: &[Item], other: &[Item]) -> bool
    ensures { result ≡ same_all same_item one.now other.now }
{
    let Some((first, more)) = one.split_first() else {
        return other.is_empty();
    };
    let Some((another, others)) = other.split_first() else {
        return false;
    };
    same_item(first, another) && same_items(more, others)
}

fn same_item(one: &Item, other: &Item) -> bool
    ensures { result ≡ same_item one.now other.now }
{
    match (one, other) {
        (Item::Push, Item::Push) | (Item::Pop, Item::Pop) => true,
        (Item::Pattern(one), Item::Pattern(other)) => same_pattern(one, other),
        _ => false,
    }
}

fn same_option(one: &Option<Expr>, other: &Option<Expr>) -> bool
    ensures { result ≡ same_option same_tree (optional_tree one.now) (optional_tree other.now) }
{
    match (one, other) {
        (None, None) => true,
        (Some(one), Some(other)) => same_expr(one, other),
        _ => false,
    }
}

fn same_templates(one: &[Template], other: &[Template]) -> bool
    ensures { result ≡ same_all same_template (map template_of one.now) (map template_of other.now) }
{
    let Some((first, more)) = one.split_first() else {
        return other.is_empty();
    };
    let Some((another, others)) = other.split_first() else {
        return false;
    };
    same_template(first, another) && same_templates(more, others)
}

fn same_template(one: &Template, other: &Template) -> bool
    ensures { result ≡ same_template (template_of one.now) (template_of other.now) }
{
    match (one, other) {
        (Template::Push, Template::Push)
        | (Template::Pop, Template::Pop)
        | (Template::Cut, Template::Cut) => true,
        (
            Template::Module { name, params },
            Template::Module {
                name: other_name,
                params: other_params,
            },
        ) => same_name(*name, *other_name) && same_params(params, other_params),
        _ => false,
    }
}

fn same_params(one: &[Expr], other: &[Expr]) -> bool
    ensures { result ≡ same_all same_tree (map tree_in one.now) (map tree_in other.now) }
{
    let Some((first, more)) = one.split_first() else {
        return other.is_empty();
    };
    let Some((another, others)) = other.split_first() else {
        return false;
    };
    same_expr(first, another) && same_params(more, others)
}
