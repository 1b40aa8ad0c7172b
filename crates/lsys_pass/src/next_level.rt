//! A level is finished, and the next one is made.
ghost use Rattle.std.specs.Prelude.{◌≡◌, ◌↔◌, ◌<◌, ◌+◌, ◌^◌, [], IsTrue, OnOk, OnErr, IfErr};
ghost use Rattle.lsys_match.specs.Derivations.{IsLevelRefusal};
ghost use Rattle.lsys_pass.specs.declared.state.PassState.TheVariants.{Failed};
ghost use Rattle.lsys_pass.specs.Moves.{AtLevel, SameRun, ArrivesAt, Finishes, Fails};
ghost use Rattle.lsys_pass.specs.Fresh.{WasAsked, WasJustMade, SizesTo, Origin};
ghost use Rattle.lsys_pass.specs.Spent.{AllPending};
ghost use Rattle.lsys_pass.specs.Refusals.{RefusesAfter, IsLimitRefusal};

use crate::keep::target;
use crate::pass::Pass;
use crate::state::PassState;
use lsys_rewrite::DeriveRefusal;
use std::alloc::{AllocError, Global};
use std::sync::ledger::Ledger;

impl<L: Ledger> Pass<L> {
    /// Makes the next level, where all nodes of this one were asked: from what the answers that are kept put in their places.
    /// It costs steps by the nodes with other answers or other symbols, by who stands beside them and by who read them; it goes
    /// along a whole level only where its rules, the seed or the lineages are others, a cut on it reaches what stands after, it
    /// was the last one or is, or so many of its nodes have other children that this costs no more.
    ///
    /// # Errors
    ///
    /// The leftmost fault of the level, where it has one; else the limit, where the next level passes it, or lack of memory. The
    /// pass has failed then: only to abandon it is left.
    pub fn finish_level(&mut self, alloc: Global) -> Result<(), DeriveRefusal>
        requires state { AtLevel self.old.state }
        requires pending { self.old.pending ≡ [] }
        ensures finishes { OnOk result (Finishes self.old self.new) }
        ensures all { OnOk result (AllPending self.new self.new.state) }
        ensures fails { OnErr result (Fails self.old self.new) }
        ensures refusal { IfErr result (IsLevelRefusal self.old.next self.old.limit) }
        ensures exact { RefusesAfter self.old self.old.state result }
    {
        let level = match self.state {
            PassState::Level(level) => level,
            _ => unreachable!(),
        };
        if let Some(refusal) = self.fault_refusal(level) {
            self.fail();
            return Err(refusal);
        }
        self.fail();
        let depth = self.depth();
        let next = level + 1;
        self.make_next(alloc, level)?;
        Ok(self.come_to(alloc, next, depth)?)
    }

    /// Makes the next level, where all of this one was asked: the children of those parents whose children may be others.
    ///
    /// # Errors
    ///
    /// The limit, where the next level passes it; else lack of memory. The last rest stays then too.
    fn make_next(&mut self, alloc: Global, level: u32) -> Result<(), DeriveRefusal>
        requires failed { self.old.state ≡ Failed }
        requires asked { WasAsked self.old level }
        requires few { level + 1 < 2 ^ 32 }
        ensures fresh { OnOk result (WasJustMade self.new (level + 1)) }
        ensures origin { OnOk result (Origin self.new (level + 1)) }
        ensures sizes { OnOk result (SizesTo self.new (level + 1)) }
        ensures renewed { OnOk result (self.new.renewed ≡ self.old.renewed) }
        ensures refusal { IfErr result (IsLimitRefusal self.old.next self.old.limit (level + 1)) }
        ensures run { SameRun self.old self.new }
        ensures state { self.new.state ≡ Failed }
    {
        let parents = self.find_parents(alloc, level)?;
        let count = self.count_next(level, &parents)?;
        self.within_limit(level + 1, count.symbols)?;
        self.make_level(alloc, level, &parents.list, &count.need, count.symbols)?;
        Ok(())
    }

    /// The depth of the system that is being made.
    pub(crate) fn depth(&self) -> u32
        ensures { result ≡ self.now.next.depth }
    {
        target(&self.next, &self.system).depth()
    }

    /// Comes to a level that was just made: finds who is asked on it, or ends the levels with it, where it is at the depth.
    ///
    /// # Errors
    ///
    /// Out of memory.
    pub(crate) fn come_to(
        &mut self,
        alloc: Global,
        level: u32,
        depth: u32,
    ) -> Result<(), AllocError>
        requires failed { self.old.state ≡ Failed }
        requires fresh { WasJustMade self.old level }
        requires origin { Origin self.old level }
        requires depth { depth ≡ self.old.next.depth }
        requires sizes { SizesTo self.old level }
        ensures run { SameRun self.old self.new }
        ensures renewed { OnOk result (self.new.renewed ≡ self.old.renewed) }
        ensures comes { OnOk result (ArrivesAt self.old.next level self.new.state) }
        ensures all { OnOk result (AllPending self.new self.new.state) }
        ensures fails { OnErr result (self.new.state ≡ Failed) }
    {
        let found = self.find_turned(alloc)?;
        if is_asked(level, depth) {
            self.ask_level(alloc, level, &found)?;
            self.state = PassState::Level(level);
        } else {
            self.end_levels(alloc, level)?;
            self.state = PassState::Done;
        }
        Ok(())
    }
}

/// Whether the nodes of a level are asked in a system of this depth: all levels are but the last one.
pub(crate) fn is_asked(level: u32, depth: u32) -> bool
    ensures { IsTrue result ↔ (level < depth) }
{
    level < depth
}
