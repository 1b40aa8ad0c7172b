//! Which nodes of a level turned, and who else on it may have another question.
ghost use Rattle.std.specs.Prelude.{◌≡◌, ◌<◌, ◌^◌, ◌++◌, ℕ, false, length, IfOk, OnOk};
ghost use Rattle.lsys_spec.specs.Rows.{In};
ghost use Rattle.lsys_forest.specs.Groves.{IsLive};
ghost use Rattle.lsys_reads.specs.Seats.{is_marked, SameSeats, KeepsSeats};
ghost use Rattle.lsys_front.specs.Found.{AreOnLevels, HasSeatsForFound};
ghost use Rattle.lsys_front.specs.LooksFrom.{moved_in};
ghost use Rattle.lsys_pass.specs.declared.state.PassState.TheVariants.{Failed};
ghost use Rattle.lsys_pass.specs.Passes.{stage_of};
ghost use Rattle.lsys_pass.specs.Fresh.{Goes, WasJustMade, KnowsTurned, TurnsOnly};
ghost use Rattle.lsys_pass.specs.Works.{DropsGone, IsFoundBy, MovesTurned};

use crate::pass::Pass;
use crate::work::Work;
use lsys_forest::{Forest, Kept, NodeId};
use lsys_front::{Found, Front, add_answered};
use lsys_reads::{Reads, Seats};
use std::alloc::{AllocError, Global};
use std::sync::ledger::Ledger;

impl<L: Ledger> Pass<L> {
    /// Finds the nodes of the level that was made last which have other neighbours, or another mate, than at the last rest:
    /// they turned. Those, and the nodes that came, are among those that moved now; and the nodes that are gone and had an answer
    /// are dropped. It gives the others that may have another question, though their rules are the same.
    ///
    /// It costs steps by the nodes that came, are gone, changed or were looked at, and by the readers of those that are found.
    ///
    /// # Errors
    ///
    /// Out of memory. The last rest stays.
    pub(crate) fn find_turned(&mut self, alloc: Global) -> Result<Found, AllocError>
        requires failed { self.old.state ≡ Failed }
        requires fresh { (t : ℕ) × (t < 2 ^ 32) × WasJustMade self.old t }
        ensures found { IfOk result (λ f. KnowsTurned self.old self.new f.beside.items f.readers.items) }
        ensures goes { OnOk result ((t : ℕ) → Goes (stage_of self.old) (stage_of self.new) t) }
        ensures same { TurnsOnly self.old self.new }
        ensures seats { SameSeats self.old.seats self.new.seats }
        ensures keeps { KeepsSeats self.old.seats self.new.seats }
    {
        self.work
            .note_turned(alloc, &self.forest, &mut self.seats, &self.readers.reads)
    }
}

impl Work {
    /// Finds the nodes of the level that turned. They and those that came moved, and those that are gone and keep an answer are
    /// dropped; the nodes of this level begin where those with another answer end. No node is marked before or after.
    ///
    /// # Errors
    ///
    /// Out of memory. The seats tell what they told.
    fn note_turned<A: Kept>(
        &mut self,
        alloc: Global,
        forest: &Forest<A>,
        seats: &mut Seats,
        reads: &Reads,
    ) -> Result<Found, AllocError>
        requires lives { (k : ℕ) → In k self.old.front.changes.gone → IsLive forest.now k }
        requires levels { AreOnLevels forest.now self.old.front.changes }
        requires room { HasSeatsForFound forest.now reads.now self.old.front.changes seats.old }
        requires clear { (k : ℕ) → is_marked seats.old k ≡ false }
        ensures found { IfOk result (IsFoundBy forest.now seats.old reads.now self.old self.new) }
        ensures dropped { OnOk result (DropsGone forest.now self.old self.new) }
        ensures moved { OnOk result (MovesTurned self.old self.new) }
        ensures first { OnOk result (self.new.first_renewed ≡ length self.old.renewed.items) }
        ensures changes { self.new.front.changes ≡ self.old.front.changes }
        ensures bare { self.new.front.bare ≡ self.old.front.bare }
        ensures pending { self.new.pending ≡ self.old.pending }
        ensures faults { self.new.faults ≡ self.old.faults }
        ensures renewed { self.new.renewed ≡ self.old.renewed }
        ensures born { self.new.born ≡ self.old.born }
        ensures clear { (k : ℕ) → is_marked seats.new k ≡ false }
        ensures seats { SameSeats seats.old seats.new }
        ensures keeps { KeepsSeats seats.old seats.new }
    {
        add_answered(forest, &self.front.changes.gone, &mut self.dropped)?;
        let found = self.front.turn(alloc, forest, seats, reads)?;
        add_moved(&mut self.moved, &self.front)?;
        self.first_renewed = self.renewed.len();
        Ok(found)
    }
}

/// Adds the nodes that came to a level, and those that turned there.
///
/// # Errors
///
/// Out of memory.
fn add_moved(moved: &mut Vec<NodeId>, front: &Front) -> Result<(), AllocError>
    ensures { OnOk result (moved.new.items ≡ moved.old.items ++ moved_in front.now) }
{
    moved.extend_from_slice(&front.changes.came)?;
    moved.extend_from_slice(&front.turned)
}
