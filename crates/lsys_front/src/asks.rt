//! Which nodes of a level that was made are asked.
ghost use Rattle.std.specs.Prelude.{◌≡◌, ℕ, IfOk, OnOk, false};
ghost use Rattle.lsys_spec.specs.Rows.{AreApart};
ghost use Rattle.lsys_reads.specs.Seats.{is_marked, HasSeat, SameSeats, KeepsSeats};
ghost use Rattle.lsys_front.specs.Finds.{AllMarked};
ghost use Rattle.lsys_front.specs.Questioned.{AreInOrder};
ghost use Rattle.lsys_front.specs.Asks.{StandTogether};
ghost use Rattle.lsys_front.specs.Askable.{MayAsk, AreAsked, GathersAll};

use crate::front::Front;
use crate::gather::gather_nodes;
use crate::order::in_order;
use crate::questioned::add_asked;
use lsys_forest::{Forest, Kept, NodeId};
use lsys_reads::Seats;
use lsys_rules::System;
use std::alloc::{AllocError, Global};

/// The nodes of a level, of those that were there and have not turned, whose questions may be others: beside those that
/// changed, and readers.
#[derive(Drop)]
pub struct Found {
    pub beside: Vec<NodeId>,
    pub readers: Vec<NodeId>,
}

impl Front {
    /// The nodes of the level that are to be asked, from left to right: those that came, turned or were found, and others,
    /// that have a question. No node is marked before or after.
    ///
    /// It costs steps by the number of all these, and by its logarithm.
    ///
    /// # Errors
    ///
    /// Out of memory. The seats tell what they told.
    pub fn asked<A: Kept>(
        &self,
        alloc: Global,
        system: &System,
        level: u32,
        forest: &Forest<A>,
        seats: &mut Seats,
        found: &Found,
        others: &[NodeId],
    ) -> Result<Vec<NodeId>, AllocError>
        requires level { StandTogether forest.now (MayAsk self.now found.now others.now) }
        requires room { (k : ℕ) → MayAsk self.now found.now others.now k → HasSeat seats.old k }
        requires clear { (k : ℕ) → is_marked seats.old k ≡ false }
        ensures are { IfOk result (AreAsked self.now found.now others.now system.now level forest.now) }
        ensures once { IfOk result (λ ks. AreApart ks.items) }
        ensures order { IfOk result (λ ks. AreInOrder forest.now ks.items) }
        ensures clear { (k : ℕ) → is_marked seats.new k ≡ false }
        ensures seats { SameSeats seats.old seats.new }
        ensures keeps { KeepsSeats seats.old seats.new }
    {
        let mut nodes = Vec::new(alloc);
        let outcome = self.gather(seats, found, others, &mut nodes);
        seats.clear(&nodes);
        outcome?;
        let mut asked = Vec::new(alloc);
        add_asked(system, level, forest, &nodes, &mut asked)?;
        in_order(alloc, forest, &asked)
    }

    /// Marks and adds the nodes that may have to be asked, each once. Those that turned or came are the last: where symbols come to an axiom, by
    /// places, a level grows at its end.
    fn gather(
        &self,
        seats: &mut Seats,
        found: &Found,
        others: &[NodeId],
        nodes: &mut Vec<NodeId>,
    ) -> Result<(), AllocError>
        requires room { (k : ℕ) → MayAsk self.now found.now others.now k → HasSeat seats.old k }
        ensures gathers { GathersAll self.now found.now others.now seats.old seats.new nodes.old nodes.new }
        ensures all { OnOk result (AllMarked (MayAsk self.now found.now others.now) seats.new) }
    {
        gather_nodes(seats, others, nodes)?;
        gather_nodes(seats, &found.beside, nodes)?;
        gather_nodes(seats, &found.readers, nodes)?;
        gather_nodes(seats, &self.turned, nodes)?;
        gather_nodes(seats, &self.changes.came, nodes)?;
        Ok(())
    }
}
