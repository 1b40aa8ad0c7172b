//! The rules of a group, which copies of a system share.
ghost use Rattle.std.specs.Prelude.{◌≡◌, ◌<◌, IfOk, length};
ghost use Rattle.lsys_rules.specs.Groups.{rules_or_none};

use lsys_bodies::Rule;
use std::alloc::{AllocError, Global};
use std::marker::Model;
use std::rc::Rc;

/// The rules of a group, one at least, in the order in which they are tried. Copies of a system share them, and so do
/// the systems before and after an edit that leaves the group as it is, and who keeps them: a copy takes no memory.
/// Contracts see them as the rules alone.
#[derive(Drop)]
pub struct SharedGroup {
    rules: Rc<Vec<Rule>>,
}

impl Model for SharedGroup {
    ghost use Rattle.std.specs.Prelude.{List, ◌<◌, length};
    ghost use Rattle.std.specs.Coded.{codes};
    ghost use Rattle.lsys_expr.specs.Codes.{expression_code};
    ghost use Rattle.lsys_bodies.specs.declared.rule.Rule.{Rule};

    ghost Value = { List Rule };

    ghost coded = { Prim.hlevel (codes, expression_code) };

    ghost view = { λ a. a.rules.value.items };

    ghost invariant = { λ a. 0 < length a.rules.value.items };
}

impl SharedGroup {
    // That of these rules; none where there is no rule.
    pub(crate) fn of(alloc: Global, rules: Vec<Rule>) -> Result<Option<SharedGroup>, AllocError>
        ensures { IfOk result (λ group. rules_or_none group ≡ rules.items) }
    {
        if rules.is_empty() {
            return Ok(None);
        }
        Ok(Some(SharedGroup {
            rules: Rc::new(alloc, rules)?,
        }))
    }

    /// The rules, one at least.
    pub fn rules(&self) -> &[Rule]
        ensures rules { result.now ≡ self.now }
        ensures some { 0 < length self.now }
    {
        &self.rules
    }
}

impl Clone for SharedGroup {
    ghost is_clone = { λ a b. b ≡ a };

    fn clone(&self) -> Result<SharedGroup, AllocError> {
        Ok(SharedGroup {
            rules: self.rules.clone()?,
        })
    }
}
