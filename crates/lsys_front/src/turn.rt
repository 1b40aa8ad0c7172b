//! Which nodes of a level turned.
ghost use Rattle.std.specs.Prelude.{◌≡◌, ℕ, false, IfOk};
ghost use Rattle.lsys_reads.specs.Seats.{is_marked, SameSeats, KeepsSeats};
ghost use Rattle.lsys_front.specs.Found.{AreOnLevels, HasSeatsForFound};
ghost use Rattle.lsys_front.specs.Askable.{FindsTurned};

use crate::asks::Found;
use crate::changes::find_nodes;
use crate::front::Front;
use lsys_forest::{Forest, Kept};
use lsys_reads::{Reads, Seats};
use std::alloc::{AllocError, Global};

impl Front {
    /// Finds the nodes of the level that have other neighbours, or another mate, than their seats tell: they are those that
    /// turned now. And it gives the others whose questions may be others, though their rules are the same. No node is marked
    /// before or after.
    ///
    /// It costs steps by the nodes that changed or were looked at, and by the readers of those that are found.
    ///
    /// # Errors
    ///
    /// Out of memory. The seats tell what they told.
    pub fn turn<A: Kept>(
        &mut self,
        alloc: Global,
        forest: &Forest<A>,
        seats: &mut Seats,
        reads: &Reads,
    ) -> Result<Found, AllocError>
        requires levels { AreOnLevels forest.now self.old.changes }
        requires room { HasSeatsForFound forest.now reads.now self.old.changes seats.old }
        requires clear { (k : ℕ) → is_marked seats.old k ≡ false }
        ensures found { IfOk result (FindsTurned forest.now seats.old reads.now self.old self.new) }
        ensures changes { self.new.changes ≡ self.old.changes }
        ensures bare { self.new.bare ≡ self.old.bare }
        ensures clear { (k : ℕ) → is_marked seats.new k ≡ false }
        ensures seats { SameSeats seats.old seats.new }
        ensures keeps { KeepsSeats seats.old seats.new }
    {
        let mut beside = Vec::new(alloc);
        let mut readers = Vec::new(alloc);
        find_nodes(
            forest,
            seats,
            reads,
            &self.changes,
            &mut self.turned,
            &mut beside,
            &mut readers,
        )?;
        Ok(Found { beside, readers })
    }
}
