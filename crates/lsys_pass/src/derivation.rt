//! A derivation whose levels stand in a forest.
ghost use Rattle.std.specs.Prelude.{◌≡◌, ◌+◌, length, sum_by};
ghost use Rattle.lsys_forest.specs.Groves.{IsAtRest};
ghost use Rattle.lsys_pass.specs.declared.state.PassState.TheVariants.{Rest};
ghost use Rattle.lsys_pass.specs.Passes.{HasOwnRuns};
ghost use Rattle.lsys_pass.specs.Views.{level_in, place_among, levels_for, view_of, IsPosed, CountsAnswered, KeepsLevelsAlone, AnswersItsQuestions, KeepsNoOtherAnswer};

use crate::key::key_by_seed;
use crate::pass::Pass;
use crate::posed::posed_for;
use crate::state::PassState;
use lsys_forest::{Forest, NodeId};
use lsys_level::{LevelView, Sight, Tag};
use lsys_match::{Derivation, Steps};
use lsys_reads::KeptAnswer;
use lsys_rewrite::{DeriveRefusal, EditCount};
use lsys_rules::System;
use std::alloc::{AllocError, Global};
use std::marker::Model;
use std::sync::ledger::Ledger;

/// A system with its levels, which stand in a forest, and the answers to all their questions. An edit repairs the levels in
/// place, and touches only what comes, goes or changes, or may have another answer. Where no rule has a weight, no key is made for
/// another seed before it is asked for.
#[derive(Drop)]
pub struct ForestDerivation<L: Ledger> {
    system: System,
    /// It derives the system or, where no rule of it has a weight, the system with another seed.
    pass: Pass<L>,
}

impl<L: Ledger> Model for ForestDerivation<L> {
    ghost use Rattle.std.specs.Coded.{codes};
    ghost use Rattle.lsys_expr.specs.Codes.{expression_code};
    ghost use Rattle.lsys_rules.specs.Codes.{expr_code};
    ghost use Rattle.lsys_pass.specs.Views.{ForestView, view_of, IsPosed, IsQuiet};

    ghost Value = { ForestView };

    ghost coded = { Prim.hlevel (codes, expression_code, expr_code) };

    ghost view = { λ a. view_of a.system a.pass };

    ghost invariant = { λ a. IsQuiet a.pass × IsPosed a.system a.pass.system };
}

/// How much a derivation keeps.
#[derive(Clone, Copy, PartialEq, Eq, Debug, Drop)]
pub struct Held {
    /// The nodes of its forest.
    pub nodes: u64,
    /// The answers that its nodes keep.
    pub answers: u64,
}

impl<L: Ledger> ForestDerivation<L> {
    /// The pass in which the levels stand. It is at rest, also after an edit that was refused, and keeps what the levels need
    /// and nothing else: the nodes of the levels and the root, an answer to each of their questions, and the runs that these
    /// answers hold. In which runs the nodes' own lists stand, its forest tells ([`Forest::regions`]). It costs no step.
    ///
    /// Its system is the derivation's or, where no rule has a weight, the derivation's with another seed: by that its nodes have
    /// their keys.
    ///
    /// [`Forest::regions`]: lsys_forest::Forest::regions
    pub fn pass(&self) -> &Pass<L>
        ensures view { view_of self.now.system result.now ≡ self.now }
        ensures posed { IsPosed self.now.system result.now.system }
        ensures rest { (result.now.state ≡ Rest) × IsAtRest result.now.forest }
        ensures nodes { KeepsLevelsAlone result.now }
        ensures answers { AnswersItsQuestions result.now }
        ensures none { KeepsNoOtherAnswer result.now }
        ensures runs { HasOwnRuns result.now }
    {
        prove!(matches!(self.pass.state(), PassState::Rest));
        &self.pass
    }

    /// The forest in which the levels stand: its levels, up to the system's depth, but for the keys, which may be by another seed
    /// where no rule has a weight. It costs no step.
    pub fn forest(&self) -> &Forest<KeptAnswer<L>>
        ensures { levels_for self.now.system result.now ≡ self.now.levels }
    {
        self.pass.forest()
    }

    /// How much it keeps: a node for each symbol of the levels, and the root, and an answer for each question of the system.
    /// So what an edit made superfluous is gone. It costs no step.
    pub fn held(&self) -> Held
        ensures nodes { result.nodes ≡ sum_by length self.now.levels + 1 }
        ensures answers { CountsAnswered self.now result.answers }
    {
        Held {
            nodes: self.pass.forest().live() as u64,
            answers: self.pass.answers() as u64,
        }
    }
}

/// The levels of the system, from the axiom to the depth. A symbol's tag is the number of its node.
impl<L: Ledger> LevelView for ForestDerivation<L> {
    type Spot = NodeId;

    ghost levels = { λ v. v.levels };

    ghost level_of = { λ v spot. level_in spot v.levels };

    ghost place_of = { λ v spot. place_among spot v.levels };

    fn first(&self, level: u32) -> Option<NodeId> {
        self.pass.forest().first(level)
    }

    fn left(&self, spot: NodeId) -> Option<NodeId> {
        self.pass.forest().left(spot)
    }

    fn right(&self, spot: NodeId) -> Option<NodeId> {
        self.pass.forest().right(spot)
    }

    fn mate(&self, spot: NodeId) -> NodeId {
        self.pass.forest().mate(spot)
    }

    fn sight(&self, spot: NodeId) -> Sight<'_> {
        self.pass.forest().sight(spot)
    }

    fn tag(&self, spot: NodeId) -> Tag {
        self.pass.forest().tag(spot)
    }

    fn key(&self, spot: NodeId) -> u64 {
        let seed = self.system.seed();
        let forest = self.pass.forest();
        if self.pass.system().seed() == seed {
            forest.key(spot)
        } else {
            key_by_seed(forest, spot, seed)
        }
    }
}

impl<L: Ledger> Derivation<L> for ForestDerivation<L> {
    ghost use Rattle.lsys_spec.specs.LevelLaws.{candidate_visits};

    ghost system_of = { λ d. d.system };

    ghost limit_of = { λ d. d.limit };

    ghost visits = { candidate_visits };

    fn start(alloc: Global, limit: u32) -> Result<ForestDerivation<L>, AllocError> {
        let pass = Pass::new(alloc, limit)?;
        Ok(ForestDerivation {
            system: pass.system().clone()?,
            pass,
        })
    }

    fn system(&self) -> &System {
        prove!(matches!(self.pass.state(), PassState::Rest));
        &self.system
    }

    fn total(&self) -> u64 {
        self.pass.total() as u64
    }

    fn edit<V: Ledger>(
        &mut self,
        alloc: Global,
        system: System,
        asked: &mut Steps<L>,
        visited: &mut Steps<V>,
    ) -> Result<EditCount, DeriveRefusal> {
        let posed = posed_for(&system, self.pass.system().seed())?;
        let count = self.pass.edit(alloc, posed, asked, visited)?;
        prove!(matches!(self.pass.state(), PassState::Rest));
        self.system = system;
        Ok(count)
    }
}
