//! Who is looked at on the next level.
ghost use Rattle.std.specs.Prelude.{◌++◌, ℕ, OnOk};
ghost use Rattle.lsys_spec.specs.Rows.{In};
ghost use Rattle.lsys_front.specs.Fronts.{StandOn};
ghost use Rattle.lsys_front.specs.LooksFrom.{moved_in, LooksFrom, AddsBelowThem};

use crate::front::Front;
use lsys_forest::{Forest, Kept, NodeId};
use lsys_reads::{look_around, look_at_mates, look_beyond, look_into_branches};
use std::alloc::AllocError;

impl Front {
    /// Adds the nodes of the next level that may have other neighbours there, or another mate: by the nodes of this level that
    /// came or have other children, which are the touched ones, and by those that came or have other neighbours.
    ///
    /// It costs steps by these nodes and their children, and by how far it is to the next children beside them.
    ///
    /// # Errors
    ///
    /// Out of memory. No node is taken away, and only nodes of the next level are added.
    pub fn look_below<A: Kept>(
        &self,
        forest: &Forest<A>,
        touched: &[NodeId],
        looked: &mut Vec<NodeId>,
    ) -> Result<(), AllocError>
        requires level { (t : ℕ) × StandOn forest.now t (touched.now ++ moved_in self.now) }
        ensures looks { OnOk result (LooksFrom forest.now self.now touched.now looked.new.items) }
        ensures below { OnOk result (AddsBelowThem forest.now self.now touched.now looked.old looked.new) }
        ensures keeps { OnOk result ((k : ℕ) → In k looked.old.items → In k looked.new.items) }
    {
        look_around(forest, touched, looked)?;
        look_around(forest, &self.changes.came, looked)?;
        look_at_mates(forest, touched, looked)?;
        look_at_mates(forest, &self.changes.came, looked)?;
        look_beyond(forest, &self.changes.came, looked)?;
        look_beyond(forest, &self.turned, looked)?;
        look_into_branches(forest, &self.changes.came, looked)?;
        look_into_branches(forest, &self.turned, looked)?;
        Ok(())
    }
}
