//! The last level of a system.
ghost use Rattle.std.specs.Prelude.{◌≡◌, ◌≤◌, ◌<◌, ◌^◌, ℕ, List, length, OnOk};
ghost use Rattle.lsys_spec.specs.Rows.{In};
ghost use Rattle.lsys_forest.specs.Groves.{IsRooted, now_of, changes_in, live_nodes, IsLive};
ghost use Rattle.lsys_forest.specs.Rows.{complete_levels};
ghost use Rattle.lsys_front.specs.Losses.{LosesOnly};
ghost use Rattle.lsys_pass.specs.declared.state.PassState.TheVariants.{Failed};
ghost use Rattle.lsys_pass.specs.Passes.{stage_of};
ghost use Rattle.lsys_pass.specs.Moves.{SameRun};
ghost use Rattle.lsys_pass.specs.Fresh.{row_of, HasFound, Goes, IsLast};
ghost use Rattle.lsys_pass.specs.Lasts.{AreEndedOn, DropsOn};

use crate::pass::Pass;
use lsys_children::list_level;
use lsys_forest::{Forest, Kept, NodeId};
use lsys_front::{Front, add_children, drop_below, end_level, law_of_forests};
use lsys_level::Tag;
use std::alloc::{AllocError, Global};
use std::sync::ledger::Ledger;

impl<L: Ledger> Pass<L> {
    /// Makes this level the last one: its nodes lose their answers and their children. Those that lose an answer are dropped,
    /// and so are those after the level that had one at the last rest. Where the last rest had no answers from this level on,
    /// nothing is to be done; else it costs the nodes of the level, and those that were after it.
    ///
    /// # Errors
    ///
    /// Out of memory. The last rest stays then too.
    pub(crate) fn end_levels(&mut self, alloc: Global, level: u32) -> Result<(), AllocError>
        requires failed { self.old.state ≡ Failed }
        requires found { (beside : List ℕ) × (readers : List ℕ)
            × HasFound self.old level beside readers }
        requires last { self.old.next.depth ≡ level }
        ensures last { OnOk result (IsLast self.new level) }
        ensures goes { OnOk result (Goes (stage_of self.old) (stage_of self.new) level) }
        ensures rows { OnOk result
            ((u : ℕ) → u ≤ level → row_of self.new u ≡ row_of self.old u) }
        ensures made { self.new.made ≡ self.old.made }
        ensures run { SameRun self.old self.new }
        ensures state { self.new.state ≡ Failed }
    {
        let depth = self.system.depth();
        if depth <= level {
            return Ok(());
        }
        let ended = end_forest(
            alloc,
            &mut self.forest,
            level,
            depth - level,
            gone_nodes(&self.work.front),
            &mut self.work.dropped,
        );
        law_of_forests(&self.forest);
        ended
    }
}

/// Makes this level of a forest the last one: its nodes lose their answers and their children. Those that lose an answer come
/// after `dropped`. Then come those that keep one among the nodes that were below the level, or are below those that are gone
/// from it: of so many levels, as long as there are nodes.
///
/// # Errors
///
/// Out of memory, which may come between two nodes. The last rest stays then too, and no answer is new.
fn end_forest<A: Kept>(
    alloc: Global,
    forest: &mut Forest<A>,
    level: u32,
    levels_after: u32,
    gone: &[NodeId],
    dropped: &mut Vec<Tag>,
) -> Result<(), AllocError>
    requires sound { IsRooted forest.old.root (changes_in forest.old) (now_of forest.old) }
    requires few { live_nodes forest.old < 2 ^ 32 }
    requires level { level < length (complete_levels forest.old) }
    requires lives { (k : ℕ) → In k gone.now → IsLive forest.old k }
    ensures ended { OnOk result (AreEndedOn forest.old forest.new level) }
    ensures dropped { OnOk result (DropsOn forest level gone.now levels_after dropped) }
    ensures loses { LosesOnly forest.old forest.new }
{
    let mut nodes = Vec::new(alloc);
    list_level(forest, level, &mut nodes)?;
    let mut below = Vec::new(alloc);
    end_level(forest, &nodes, &mut below, dropped)?;
    add_children(forest, gone, &mut below)?;
    drop_below(alloc, forest, below, levels_after, dropped)
}

/// The nodes that are gone from a level.
pub(crate) fn gone_nodes(front: &Front) -> &[NodeId]
    ensures { result.now ≡ front.now.changes.gone }
{
    &front.changes.gone
}
