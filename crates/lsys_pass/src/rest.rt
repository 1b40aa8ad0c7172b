//! What a pass tells of its last rest.
ghost use Rattle.std.specs.Prelude.{◌≡◌};
ghost use Rattle.lsys_pass.specs.Passes.{IsPass};
ghost use Rattle.lsys_pass.specs.Sizes.{total_of};

use crate::pass::Pass;
use crate::sizes::room_under;
use lsys_forest::Forest;
use lsys_reads::KeptAnswer;
use lsys_rules::System;
use std::sync::ledger::Ledger;

impl<L: Ledger> Pass<L> {
    /// The forest, in which at rest the levels stand. It costs no step.
    pub fn forest(&self) -> &Forest<KeptAnswer<L>>
        ensures forest { result.now ≡ self.now.forest }
        ensures pass { IsPass self.now }
    {
        &self.forest
    }

    /// The system of the last rest. It costs no step.
    pub fn system(&self) -> &System
        ensures system { result.now ≡ self.now.system }
        ensures pass { IsPass self.now }
    {
        &self.system
    }

    /// How many symbols the levels of the last rest have. It costs a step for each level.
    pub(crate) fn total(&self) -> usize
        ensures total { result ≡ total_of self.now.sizes }
        ensures pass { IsPass self.now }
    {
        self.limit as usize - room_under(self.limit, &self.sizes.rest)
    }

    /// How many answers its nodes keep at rest. It costs no step.
    pub(crate) fn answers(&self) -> usize
        ensures answers { result ≡ self.now.answers }
        ensures pass { IsPass self.now }
    {
        self.answers
    }
}
