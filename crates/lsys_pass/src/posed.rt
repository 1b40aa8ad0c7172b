//! What a pass derives for a system.
ghost use Rattle.std.specs.Prelude.{◌≡◌, ◌↔◌, IfOk, IsTrue, None, map};
ghost use Rattle.lsys_spec.specs.Systems.{Each};
ghost use Rattle.lsys_bodies.specs.Views.{as_production};
ghost use Rattle.lsys_pass.specs.Views.{IsPosed};

use lsys_bodies::Rule;
use lsys_rules::System;
use std::alloc::AllocError;

/// What a pass derives for a system, where the system that it has now has this seed. Where no rule has a weight nothing is drawn,
/// and a seed tells the keys and nothing else: then it is the system with this seed, so that another seed alone gives the pass
/// nothing to do. Else it is the system. It takes no memory, and costs a step for each rule.
///
/// # Errors
///
/// The system has too many copies.
pub(crate) fn posed_for(system: &System, seed: u64) -> Result<System, AllocError>
    ensures { IfOk result (IsPosed system.now) }
{
    let copy = system.clone()?;
    if have_no_weights(system.rules()) {
        Ok(copy.with_seed(seed))
    } else {
        Ok(copy)
    }
}

/// Whether none of these rules has a weight.
fn have_no_weights(rules: &[Rule]) -> bool
    ensures { IsTrue result ↔ Each (λ p. p.rule.weight ≡ None) (map as_production rules.now) }
{
    rules.iter().all(|rule| rule.body.weight().is_none())
}
