//! How long the next level will be.
ghost use Rattle.std.specs.Prelude.{◌≡◌, ◌-◌, ◌+◌, ◌<◌, ◌≤◌, IfOk, OnOk, IfErr};
ghost use Rattle.lsys_pass.specs.Sizes.{total_of};
ghost use Rattle.lsys_pass.specs.Passes.{stage_of};
ghost use Rattle.lsys_pass.specs.Advances.{symbols_wanted};
ghost use Rattle.lsys_pass.specs.Fresh.{WasAsked, AreNextParents, AreWalkedOrAlone};
ghost use Rattle.lsys_pass.specs.NextParents.{IsSmallCount, count_for, needs_for};
ghost use Rattle.lsys_pass.specs.Refusals.{IsLimitRefusal};

use crate::ending::gone_nodes;
use crate::keep::target;
use crate::parents::Parents;
use crate::pass::Pass;
use crate::sizes::room_under;
use lsys_children::{ChildCount, Need, count_children};
use lsys_front::count_kids;
use lsys_rewrite::DeriveRefusal;
use std::alloc::AllocError;
use std::sync::ledger::Ledger;

/// What it takes to make the next level, and how many symbols it will have.
#[derive(Clone, Copy, Drop)]
pub(crate) struct NextCount {
    pub(crate) need: Need,
    pub(crate) symbols: usize,
}

impl<L: Ledger> Pass<L> {
    /// Counts what it takes to make the children of these parents, and how many symbols the next level will have. It costs steps by
    /// the parents, by what is wanted of them, and by those that are gone.
    ///
    /// # Errors
    ///
    /// Out of memory.
    pub(crate) fn count_next(
        &mut self,
        level: u32,
        parents: &Parents,
    ) -> Result<NextCount, AllocError>
        requires asked { WasAsked self.old level }
        requires found { AreNextParents self.old level parents.now.list.items }
        requires either { AreWalkedOrAlone self.old level parents.now.is_whole
            parents.now.list.items }
        ensures same { self.new ≡ self.old }
        ensures need { IfOk result (λ n. n.need ≡ needs_for self.old parents.now) }
        ensures symbols { IfOk result (λ n. n.symbols ≡ symbols_wanted (stage_of self.old) level) }
    {
        let numbering = target(&self.next, &self.system).lineage();
        let count = count_children(
            &self.forest,
            numbering,
            &parents.list,
            &mut self.wanted,
            &mut self.brood,
        )?;
        Ok(NextCount {
            need: count.need,
            symbols: self.next_symbols(level, parents, &count),
        })
    }

    /// How many symbols the next level will have, where this was counted.
    fn next_symbols(&self, level: u32, parents: &Parents, count: &ChildCount) -> usize
        requires asked { WasAsked self.now level }
        requires found { AreNextParents self.now level parents.now.list.items }
        requires either { AreWalkedOrAlone self.now level parents.now.is_whole
            parents.now.list.items }
        requires count { count.now ≡ count_for self.now parents.now }
        requires few { IsSmallCount self.now parents.now count.now }
        ensures { result ≡ symbols_wanted (stage_of self.now) level }
    {
        if parents.is_whole {
            return count.wanted;
        }
        let gone = count_kids(&self.forest, gone_nodes(&self.work.front));
        self.sizes.symbols_of(level as usize + 1) - gone + count.wanted - count.had
    }

    /// Whether a level, which will be made next and have so many symbols, is within the limit beside those that are made.
    ///
    /// # Errors
    ///
    /// The limit.
    pub(crate) fn within_limit(&self, level: u32, symbols: usize) -> Result<(), DeriveRefusal>
        requires after { 0 < level }
        requires asked { WasAsked self.now (level - 1) }
        requires symbols { symbols ≡ symbols_wanted (stage_of self.now) (level - 1) }
        ensures within { OnOk result (total_of self.now.made + symbols ≤ self.now.limit) }
        ensures refusal { IfErr result (IsLimitRefusal self.now.next self.now.limit level) }
    {
        if symbols > room_under(self.limit, &self.sizes.made) {
            return Err(DeriveRefusal::Limit { level });
        }
        Ok(())
    }
}
