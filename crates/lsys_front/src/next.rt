//! The front of the next level.
ghost use Rattle.std.specs.Prelude.{◌≡◌, ◌++◌, ℕ, [], IfOk, OnOk};
ghost use Rattle.lsys_spec.specs.Rows.{In};
ghost use Rattle.lsys_forest.specs.Groves.{IsLive};
ghost use Rattle.lsys_front.specs.Fronts.{IsToldNext, StandOn, no_differences};
ghost use Rattle.lsys_front.specs.LooksFrom.{moved_in, LooksIfThere, LooksOnlyBelow};

use crate::changes::LevelChanges;
use crate::ends::add_children;
use crate::front::Front;
use lsys_children::Changes;
use lsys_forest::Forest;
use lsys_reads::KeptAnswer;
use std::alloc::{AllocError, Global};
use std::sync::ledger::Ledger;

impl Front {
    /// The front of the next level, of which it was told what became of the children that were made: how it changed, and who is
    /// looked at there, if the next level was there at the last rest; else all its nodes came. Who turned isn't known yet, and no node
    /// lost its answer.
    ///
    /// It costs steps by the nodes that are told and by those that are gone from this level, and their children; and where the next level
    /// was there, by those that came or turned, and by how far it is to the next children beside them.
    ///
    /// # Errors
    ///
    /// Out of memory.
    pub fn next<L: Ledger>(
        &self,
        alloc: Global,
        forest: &Forest<KeptAnswer<L>>,
        told: &Changes,
        was_there: bool,
    ) -> Result<Front, AllocError>
        requires lives { (k : ℕ) → In k self.now.changes.gone → IsLive forest.now k }
        requires level { (t : ℕ) × StandOn forest.now t (told.now.touched ++ moved_in self.now) }
        ensures told { IfOk result (λ next. IsToldNext forest.now self.now told.now next.changes) }
        ensures looks { IfOk result (λ n. LooksIfThere was_there forest.now self.now told.now n.changes) }
        ensures below { IfOk result (λ next. LooksOnlyBelow forest.now self.now told.now next.changes) }
        ensures turned { IfOk result (λ next. next.turned ≡ []) }
        ensures bare { IfOk result (λ next. next.bare ≡ []) }
    {
        let mut next = Front::new(alloc);
        self.tell_next(forest, told, was_there, &mut next.changes)?;
        Ok(next)
    }

    /// Tells how the next level changed, and who is looked at there.
    ///
    /// # Errors
    ///
    /// Out of memory.
    fn tell_next<L: Ledger>(
        &self,
        forest: &Forest<KeptAnswer<L>>,
        told: &Changes,
        was_there: bool,
        changes: &mut LevelChanges,
    ) -> Result<(), AllocError>
        requires lives { (k : ℕ) → In k self.now.changes.gone → IsLive forest.now k }
        requires level { (t : ℕ) × StandOn forest.now t (told.now.touched ++ moved_in self.now) }
        requires none { changes.old ≡ no_differences.changes }
        ensures told { OnOk result (IsToldNext forest.now self.now told.now changes.new) }
        ensures looks { OnOk result (LooksIfThere was_there forest.now self.now told.now changes.new) }
        ensures below { OnOk result (LooksOnlyBelow forest.now self.now told.now changes.new) }
    {
        changes.came.extend_from_slice(told.added())?;
        changes.changed.extend_from_slice(told.changed())?;
        changes.gone.extend_from_slice(told.gone())?;
        add_children(forest, &self.changes.gone, &mut changes.gone)?;
        if !was_there {
            return Ok(());
        }
        self.look_below(forest, told.touched(), &mut changes.looked)
    }
}
