//! An edit: a pass makes the levels of another system, one after the other.
ghost use Rattle.std.specs.Prelude.{◌≡◌, ◌≢◌, ◌+◌, ◌*◌, ◌≤◌, [], length, IfOk, OnOk, OnErr, IfErr, IfSome, IfNone};
ghost use Rattle.lsys_spec.specs.Rows.{In};
ghost use Rattle.lsys_match.specs.Derivations.{Rises, most_read, IsLevelRefusal};
ghost use Rattle.lsys_pass.specs.declared.state.PassState.TheVariants.{Rest, Done};
ghost use Rattle.lsys_pass.specs.Passes.{HasOwnRuns, IsPass};
ghost use Rattle.lsys_pass.specs.Moves.{AtLevel, SameRun, IsBack, ArrivesAt};
ghost use Rattle.lsys_pass.specs.Spent.{AllPending, spent_visits, AsksRenewed, AsksWithin, VisitsSpent, VisitsWithin};
ghost use Rattle.lsys_pass.specs.Edits.{IsEdited, CountsEdited, ReadsEdited};

use crate::pass::Pass;
use crate::state::PassState;
use lsys_forest::NodeId;
use lsys_match::Steps;
use lsys_rewrite::{DeriveRefusal, EditCount};
use lsys_rules::System;
use std::alloc::{AllocError, Global};
use std::sync::ledger::Ledger;

impl<L: Ledger> Pass<L> {
    /// Makes the levels of another system, and tells how many questions were new and how many there are. `asked` rises by the
    /// new questions, and `visited` by the entries that were read for the candidates. It costs steps by these entries, by the
    /// nodes that come, go or change, by who stands beside them and by who read them.
    ///
    /// # Errors
    ///
    /// Why the system has no levels under the limit, or lack of memory. The pass is at rest then as before, at most as many
    /// questions were asked as the limit has symbols, and at most 1,025 entries were read for each.
    pub(crate) fn edit<V: Ledger>(
        &mut self,
        alloc: Global,
        system: System,
        asked: &mut Steps<L>,
        visited: &mut Steps<V>,
    ) -> Result<EditCount, DeriveRefusal>
        requires rest { self.old.state ≡ Rest }
        ensures rest { self.new.state ≡ Rest }
        ensures limit { self.new.limit ≡ self.old.limit }
        ensures runs { HasOwnRuns self.new }
        ensures edited { OnOk result (IsEdited self.old self.new system) }
        ensures refusal { IfErr result (IsLevelRefusal system self.old.limit) }
        ensures counted { CountsEdited self.old.system system self.old.limit result }
        ensures asked { IfOk result (λ count. asked.new ≡ asked.old + count.asked) }
        ensures read { ReadsEdited self.old.system system self.old.limit visited.old visited.new result }
        ensures refused { OnErr result (IsBack self.old self.new) }
        ensures few_asked { OnErr result (Rises 0 self.old.limit asked.old asked.new) }
        ensures few_read { OnErr result
            (Rises 0 (most_read * self.old.limit) visited.old visited.new) }
    {
        // The type's invariant is known where a field is named.
        let _ = &self.forest;
        self.begin(alloc, system)?;
        match self.make_levels(alloc, asked, visited) {
            Ok(()) => {
                let count = self.close();
                let _ = &self.forest;
                Ok(count)
            }
            Err(refusal) => {
                self.abandon();
                Err(refusal)
            }
        }
    }

    /// Makes all levels, from the first one on, which was made, and of which nothing was asked yet.
    ///
    /// # Errors
    ///
    /// Why the system has no levels under the limit, or lack of memory. Only to abandon the pass is left.
    fn make_levels<V: Ledger>(
        &mut self,
        alloc: Global,
        asked: &mut Steps<L>,
        visited: &mut Steps<V>,
    ) -> Result<(), DeriveRefusal>
        requires first { ArrivesAt self.old.next 0 self.old.state }
        requires pending { AllPending self.old self.old.state }
        requires renewed { self.old.renewed ≡ [] }
        ensures run { SameRun self.old self.new }
        ensures pass { OnOk result (IsPass self.new) }
        ensures done { OnOk result (self.new.state ≡ Done) }
        ensures asks { OnOk result (asked.new ≡ asked.old + length self.new.renewed) }
        ensures visits { OnOk result (visited.new ≡ visited.old + spent_visits self.new) }
        ensures refusal { IfErr result (IsLevelRefusal self.old.next self.old.limit) }
        ensures other { OnErr result (self.new.state ≢ Rest) }
        ensures few_asked { OnErr result (Rises 0 self.old.limit asked.old asked.new) }
        ensures few_read { OnErr result
            (Rises 0 (most_read * self.old.limit) visited.old visited.new) }
    {
        while let PassState::Level(_) = self.state() {
            self.ask_pending(alloc, asked, visited)?;
            self.finish_level(alloc)?;
        }
        Ok(())
    }

    /// Asks all nodes that are pending, the first one first.
    ///
    /// # Errors
    ///
    /// Out of memory.
    fn ask_pending<V: Ledger>(
        &mut self,
        alloc: Global,
        asked: &mut Steps<L>,
        visited: &mut Steps<V>,
    ) -> Result<(), AllocError>
        requires state { AtLevel self.old.state }
        ensures run { SameRun self.old self.new }
        ensures state { self.new.state ≡ self.old.state }
        ensures pass { OnOk result (IsPass self.new) }
        ensures none { OnOk result (self.new.pending ≡ []) }
        ensures asks { OnOk result (AsksRenewed self.old self.new asked.old asked.new) }
        ensures visits { OnOk result (VisitsSpent self.old self.new visited.old visited.new) }
        ensures from_asked { asked.old ≤ asked.new }
        ensures few_asked { OnErr result (AsksWithin self.old asked.old asked.new) }
        ensures from_read { visited.old ≤ visited.new }
        ensures few_read { OnErr result (VisitsWithin self.old visited.old visited.new) }
    {
        while let Some(node) = self.first_pending() {
            self.step(alloc, node, asked, visited)?;
        }
        Ok(())
    }

    /// The first node that is pending. It costs a step, or a logarithm where others were asked before it.
    fn first_pending(&self) -> Option<NodeId>
        ensures some { IfSome result (λ node. In node self.now.pending) }
        ensures none { IfNone result (self.now.pending ≡ []) }
        ensures pass { IsPass self.now }
    {
        match self.work.pending.len() {
            0 => None,
            _ => Some(self.work.pending.nth(0)),
        }
    }
}
