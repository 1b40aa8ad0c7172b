//! The parents of the next level.
ghost use Rattle.std.specs.Prelude.{◌≡◌, ◌↔◌, ◌≤◌, ◌^◌, ℕ, true, false, length, sum_by, IfOk, OnOk};
ghost use Rattle.lsys_spec.specs.Rows.{In, AreApart};
ghost use Rattle.lsys_forest.specs.Groves.{IsLive, now_of};
ghost use Rattle.lsys_forest.specs.Rows.{kids_in};
ghost use Rattle.lsys_reads.specs.Seats.{is_marked, HasSeat, SameSeats, KeepsSeats};
ghost use Rattle.lsys_front.specs.Finds.{AllMarked};
ghost use Rattle.lsys_children.specs.WalkedParents.{HaveShortSuccessors};
ghost use Rattle.lsys_front.specs.Fronts.{MayHaveOthers};
ghost use Rattle.lsys_front.specs.OpenParents.{GathersParents, NoneOpens, OneOpens};

use crate::front::Front;
use crate::gather::{gather_nodes, gather_tags};
use lsys_children::is_open;
use lsys_forest::{Forest, Kept, NodeId};
use lsys_level::Tag;
use lsys_reads::{KeptAnswer, Seats};
use std::alloc::{AllocError, Global};
use std::sync::ledger::Ledger;

impl Front {
    /// The nodes of the level whose children may be others than at the last rest, where none was cut off then and none is now:
    /// those with a new answer, those that came or changed, and those that lost their answer. Each once. No node is marked
    /// before or after.
    ///
    /// It costs steps by the number of these.
    ///
    /// # Errors
    ///
    /// Out of memory. The seats tell what they told.
    pub fn parents(
        &self,
        alloc: Global,
        seats: &mut Seats,
        renewed: &[Tag],
    ) -> Result<Vec<NodeId>, AllocError>
        requires room { (k : ℕ) → MayHaveOthers self.now renewed.now k → HasSeat seats.old k }
        requires clear { (k : ℕ) → is_marked seats.old k ≡ false }
        ensures are { IfOk result (λ ks. (k : ℕ)
            → In k ks.items ↔ MayHaveOthers self.now renewed.now k) }
        ensures once { IfOk result (λ ks. AreApart ks.items) }
        ensures clear { (k : ℕ) → is_marked seats.new k ≡ false }
        ensures seats { SameSeats seats.old seats.new }
        ensures keeps { KeepsSeats seats.old seats.new }
    {
        let mut nodes = Vec::new(alloc);
        let outcome = self.gather_parents(seats, renewed, &mut nodes);
        seats.clear(&nodes);
        outcome?;
        Ok(nodes)
    }

    /// Marks and adds these nodes. One that is marked stays out.
    ///
    /// # Errors
    ///
    /// Out of memory. Those that were added then are marked, and no others.
    fn gather_parents(
        &self,
        seats: &mut Seats,
        renewed: &[Tag],
        nodes: &mut Vec<NodeId>,
    ) -> Result<(), AllocError>
        requires room { (k : ℕ) → MayHaveOthers self.now renewed.now k → HasSeat seats.old k }
        ensures gathers { GathersParents self.now renewed.now seats.old seats.new nodes.old nodes.new }
        ensures all { OnOk result (AllMarked (MayHaveOthers self.now renewed.now) seats.new) }
    {
        gather_tags(seats, renewed, nodes)?;
        gather_nodes(seats, &self.changes.came, nodes)?;
        gather_nodes(seats, &self.changes.changed, nodes)?;
        gather_nodes(seats, &self.bare, nodes)?;
        Ok(())
    }
}

/// How many children these nodes have together. It costs steps by the number of the nodes.
pub fn count_kids<A: Kept>(forest: &Forest<A>, nodes: &[NodeId]) -> usize
    requires lives { (k : ℕ) → In k nodes.now → IsLive forest.now k }
    requires few { sum_by (λ k. length (kids_in (now_of forest.now k))) nodes.now ≤ 2 ^ 32 }
    ensures { result ≡ sum_by (λ k. length (kids_in (now_of forest.now k))) nodes.now }
{
    let mut count: usize = 0;
    for node in nodes {
        count += forest.children(*node).len();
    }
    count
}

/// Whether a cut among what replaces one of these nodes, by the answer that it keeps, reaches what stands after it. It costs
/// steps by the length of what replaces them.
pub fn any_opens<L: Ledger>(forest: &Forest<KeptAnswer<L>>, nodes: &[NodeId]) -> bool
    requires lives { (k : ℕ) → In k nodes.now → IsLive forest.now k }
    requires short { HaveShortSuccessors (now_of forest.now) nodes.now }
    ensures none { result ≡ false → NoneOpens (now_of forest.now) nodes.now }
    ensures one { result ≡ true → OneOpens (now_of forest.now) nodes.now }
{
    for node in nodes {
        if is_open(forest, *node) {
            return true;
        }
    }
    false
}
