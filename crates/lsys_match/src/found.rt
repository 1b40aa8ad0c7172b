//! The rules of a group with weights that apply.
ghost use Rattle.std.specs.Prelude.{◌≡◌, [], IfOk, OnErr, Ok, map};
ghost use Rattle.lsys_spec.specs.Choice.{not_negative, picked, weighed, weights};
ghost use Rattle.lsys_match.specs.Choices.{applying, applying_of, choice_by, weight_by, AddsWithinTotal, ConsidersRule};
ghost use Rattle.lsys_match.specs.Groups.{meant};

use crate::choice::Choice;
use crate::outcome::RuleOutcome;
use lsys_bodies::SharedBody;
use lsys_draw::{draw, pick};
use lsys_expr::eval;
use lsys_rewrite::FaultKind;
use std::alloc::{AllocError, Global};
use std::marker::Model;

/// The weights of the rules that apply sum to at most so much.
const GREATEST_WEIGHT: u64 = i64::MAX as u64;

/// A rule that applies, by its place in the group, with the values of its formals and its weight.
#[derive(Drop)]
pub(crate) struct Applying {
    pub(crate) place: u8,
    pub(crate) weight: u64,
    pub(crate) values: Vec<i64>,
}

/// The rules that were found to apply, and the sum of their weights.
#[derive(Drop)]
pub(crate) struct ApplyingRules {
    rules: Vec<Applying>,
    total: u64,
    alloc: Global,
}

impl Model for ApplyingRules {
    ghost use Rattle.std.specs.Prelude.{◌≡◌, ◌≤◌, List, map, sum};
    ghost use Rattle.lsys_syntax.specs.Limits.{greatest_weight};
    ghost use Rattle.lsys_spec.specs.Choice.{Applying, weights};
    ghost use Rattle.lsys_match.specs.Choices.{applying_of};

    ghost Value = { List Applying };

    ghost view = { λ a. map applying_of a.rules.items };

    ghost invariant = { λ a. (a.total ≡ sum (weights (map applying_of a.rules.items))) × (a.total ≤ greatest_weight) };
}

impl ApplyingRules {
    /// No rule. Takes no memory.
    pub(crate) fn new(alloc: Global) -> ApplyingRules
        ensures { result ≡ [] }
    {
        ApplyingRules {
            rules: Vec::new(alloc),
            total: 0,
            alloc,
        }
    }

    /// Adds the rule at a place where its outcome is that it applies, and tells the fault, if there is one.
    pub(crate) fn consider(
        &mut self,
        place: u8,
        body: &SharedBody,
        outcome: RuleOutcome,
        bound: &[i64],
    ) -> Result<Option<FaultKind>, AllocError>
        ensures found { ConsidersRule self.old place body.now outcome bound.now self.new result }
        ensures refused { OnErr result (outcome ≡ RuleOutcome.Yes) }
    {
        match outcome {
            RuleOutcome::No => Ok(None),
            RuleOutcome::Fails(kind) => Ok(Some(kind)),
            RuleOutcome::Yes => match weigh(body, bound) {
                Ok(weight) => self.add(place, weight, bound),
                Err(kind) => Ok(Some(kind)),
            },
        }
    }

    // Adds a rule that applies, where the weights don't sum to too much then.
    fn add(
        &mut self,
        place: u8,
        weight: u64,
        bound: &[i64],
    ) -> Result<Option<FaultKind>, AllocError>
        ensures { AddsWithinTotal self.old (applying place bound.now weight) self.new result }
    {
        if weight > GREATEST_WEIGHT - self.total {
            return Ok(Some(FaultKind::WeightTotal));
        }
        let mut values = Vec::new(self.alloc);
        values.extend_from_slice(bound)?;
        self.rules.push(Applying {
            place,
            weight,
            values,
        })?;
        self.total += weight;
        Ok(None)
    }

    /// The rule that the draw of a key picks. `bound` has the values of its formals.
    pub(crate) fn pick(&self, key: u64, bound: &mut Vec<i64>) -> Result<Choice, AllocError>
        ensures { IfOk result (λ c. choice_by c bound.new.items ≡ picked key (Ok self.now)) }
    {
        let weights = weights_of(self.alloc, &self.rules)?;
        let Some(at) = pick(draw(key), &weights) else {
            return Ok(Choice::NoRule);
        };
        let Some(rule) = self.rules.get(at) else {
            return Ok(Choice::NoRule);
        };
        bound.truncate(0);
        bound.extend_from_slice(&rule.values)?;
        Ok(Choice::Chosen(rule.place))
    }
}

// The weight of a rule that applies.
fn weigh(body: &SharedBody, bound: &[i64]) -> Result<u64, FaultKind>
    ensures { weight_by result ≡ weighed (meant body.now).weight bound.now }
{
    let Some(weight) = body.weight() else {
        return Ok(0);
    };
    match eval(weight, bound) {
        Ok(value) => unsigned(value),
        Err(fault) => Err(FaultKind::from(fault)),
    }
}

fn unsigned(value: i64) -> Result<u64, FaultKind>
    ensures { weight_by result ≡ not_negative value }
{
    if value < 0 {
        return Err(FaultKind::NegativeWeight);
    }
    Ok(value as u64)
}

// The weights of rules, in order.
fn weights_of(alloc: Global, rules: &[Applying]) -> Result<Vec<u64>, AllocError>
    ensures { IfOk result (λ ws. ws.items ≡ weights (map applying_of rules.now)) }
{
    let mut weights = Vec::new(alloc);
    for rule in rules {
        weights.push(rule.weight)?;
    }
    Ok(weights)
}
