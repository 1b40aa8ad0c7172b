//! What trying a rule answers.
ghost use Rattle.std.specs.Prelude.{◌≡◌};
ghost use Rattle.lsys_bodies.specs.Views.{body_value};
ghost use Rattle.lsys_match.specs.Tries.{outcome_by, judged_by};

use lsys_bodies::Body;
use lsys_expr::holds;
use lsys_rewrite::FaultKind;

/// The outcome of a rule at a module.
#[derive(Clone, Copy, Drop)]
pub(crate) enum RuleOutcome {
    /// It doesn't apply.
    No,
    /// It applies.
    Yes,
    /// What the fault is.
    Fails(FaultKind),
}

// Of a rule whose contexts match, with these values of its formals.
pub(crate) fn judge(body: &Body, bound: &[i64]) -> RuleOutcome
    ensures { outcome_by result bound.now ≡ judged_by (body_value body.now) bound.now }
{
    let Some(condition) = &body.condition else {
        return RuleOutcome::Yes;
    };
    match holds(condition, bound) {
        Ok(true) => RuleOutcome::Yes,
        Ok(false) => RuleOutcome::No,
        Err(fault) => RuleOutcome::Fails(FaultKind::from(fault)),
    }
}
