//! The parents whose children are made.
ghost use Rattle.std.specs.Prelude.{◌≡◌, ◌↔◌, ◌<◌, ℕ, true, false, map, None, IfOk, IfSome};
ghost use Rattle.lsys_spec.specs.Rows.{In, AreApart};
ghost use Rattle.lsys_children.specs.Parents.{uncut};
ghost use Rattle.lsys_reads.specs.Seats.{SameSeats, KeepsSeats};
ghost use Rattle.lsys_pass.specs.declared.state.PassState.TheVariants.{Failed};
ghost use Rattle.lsys_pass.specs.Sizes.{with_open};
ghost use Rattle.lsys_pass.specs.Fresh.{WasAsked, IsChanged, IsMadeAlike, AreNextParents, AreWalkedOrAlone, IsClosedUnless};
ghost use Rattle.lsys_pass.specs.NextParents.{AreWholeOrAlone};

use crate::keep::target;
use crate::pass::Pass;
use lsys_children::{Parent, list_level, walk_parents};
use lsys_forest::NodeId;
use lsys_front::any_opens;
use lsys_reading::Lineage;
use std::alloc::{AllocError, Global};
use std::sync::ledger::Ledger;

/// Parents of the next level: all nodes of a level, as a walk told them, or those alone whose children may be others; and whether
/// a cut on the level reaches what stands after it.
#[derive(Drop)]
pub(crate) struct Parents {
    pub(crate) list: Vec<Parent>,
    pub(crate) is_whole: bool,
    pub(crate) is_open: bool,
}

impl<L: Ledger> Pass<L> {
    /// Finds the parents whose children may be others: those that the front tells. Or it goes along the level, where a cut on it
    /// reached what stands after it, or reaches it now, where it was the last one, or keys or lineages are others.
    ///
    /// # Errors
    ///
    /// Out of memory.
    pub(crate) fn find_parents(&mut self, alloc: Global, level: u32) -> Result<Parents, AllocError>
        requires failed { self.old.state ≡ Failed }
        requires asked { WasAsked self.old level }
        ensures found { IfOk result (λ ps. AreNextParents self.new level ps.list.items) }
        ensures either { IfOk result (λ ps. AreWalkedOrAlone self.new level ps.is_whole ps.list.items) }
        ensures closed { IfOk result (λ ps. IsClosedUnless self.new level ps.is_open) }
        ensures asked { WasAsked self.new level }
        ensures same { self.new ≡ record self.old { seats = self.new.seats; made = self.new.made } }
        ensures seats { SameSeats self.old.seats self.new.seats }
        ensures keeps { KeepsSeats self.old.seats self.new.seats }
        ensures made { IfOk result (λ ps. self.new.made ≡ with_open self.old.made ps.is_open) }
    {
        let parents = self.next_parents(alloc, level)?;
        self.sizes.tell_open(parents.is_open);
        Ok(parents)
    }

    /// The same, without telling whether the level is open.
    fn next_parents(&mut self, alloc: Global, level: u32) -> Result<Parents, AllocError>
        requires failed { self.old.state ≡ Failed }
        requires asked { WasAsked self.old level }
        ensures found { IfOk result (λ ps. AreNextParents self.new level ps.list.items) }
        ensures either { IfOk result (λ ps. AreWalkedOrAlone self.new level ps.is_whole ps.list.items) }
        ensures closed { IfOk result (λ ps. IsClosedUnless self.new level ps.is_open) }
        ensures asked { WasAsked self.new level }
        ensures same { self.new ≡ record self.old { seats = self.new.seats } }
        ensures seats { SameSeats self.old.seats self.new.seats }
        ensures keeps { KeepsSeats self.old.seats self.new.seats }
    {
        if self.is_other_level(level) {
            return self.walked_parents(alloc, level);
        }
        let nodes = self.changed_nodes(alloc, level)?;
        match self.found_parents(alloc, level, &nodes)? {
            Some(parents) => Ok(parents),
            None => self.walked_parents(alloc, level),
        }
    }

    /// The nodes of the level whose children may be others, each once.
    fn changed_nodes(&mut self, alloc: Global, level: u32) -> Result<Vec<NodeId>, AllocError>
        requires failed { self.old.state ≡ Failed }
        requires asked { WasAsked self.old level }
        ensures are { IfOk result (λ ks. (k : ℕ) → In k ks.items ↔ IsChanged self.new k) }
        ensures once { IfOk result (λ ks. AreApart ks.items) }
        ensures asked { WasAsked self.new level }
        ensures same { self.new ≡ record self.old { seats = self.new.seats } }
        ensures seats { SameSeats self.old.seats self.new.seats }
        ensures keeps { KeepsSeats self.old.seats self.new.seats }
    {
        let renewed = &self.work.renewed[self.work.first_renewed..];
        let nodes = self.work.front.parents(alloc, &mut self.seats, renewed)?;
        Ok(nodes)
    }

    /// They are the parents, where no cut among what replaces one of them reaches what stands after it.
    fn found_parents(
        &self,
        alloc: Global,
        level: u32,
        nodes: &[NodeId],
    ) -> Result<Option<Parents>, AllocError>
        requires asked { WasAsked self.now level }
        requires are { (k : ℕ) → In k nodes.now ↔ IsChanged self.now k }
        requires once { AreApart nodes.now }
        requires same { IsMadeAlike self.now level }
        ensures found { IfOk result (λ o. IfSome o (λ ps. AreNextParents self.now level ps.list.items)) }
        ensures either { IfOk result (λ o. IfSome o (AreWholeOrAlone self.now level)) }
        ensures closed { IfOk result (λ o. IfSome o (λ ps. IsClosedUnless self.now level ps.is_open)) }
    {
        if any_opens(&self.forest, nodes) {
            return Ok(None);
        }
        Ok(Some(Parents {
            list: whole_parents(alloc, nodes)?,
            is_whole: false,
            is_open: false,
        }))
    }

    /// All nodes of the level.
    fn walked_parents(&self, alloc: Global, level: u32) -> Result<Parents, AllocError>
        requires asked { WasAsked self.now level }
        ensures found { IfOk result (λ ps. AreNextParents self.now level ps.list.items) }
        ensures either { IfOk result (λ ps. AreWalkedOrAlone self.now level ps.is_whole ps.list.items) }
        ensures closed { IfOk result (λ ps. IsClosedUnless self.now level ps.is_open) }
    {
        let mut nodes = Vec::new(alloc);
        list_level(&self.forest, level, &mut nodes)?;
        let mut list = Vec::new(alloc);
        let is_open = walk_parents(&self.forest, &nodes, &mut list)?;
        Ok(Parents {
            list,
            is_whole: true,
            is_open,
        })
    }

    /// Whether any child below the level may be another: it was the last level, keys or lineages are others, or a cut on it
    /// reached what stood after it.
    fn is_other_level(&self, level: u32) -> bool
        ensures { result ≡ false → IsMadeAlike self.now level }
    {
        let next = target(&self.next, &self.system);
        level >= self.system.depth()
            || next.seed() != self.system.seed()
            || !is_same_numbering(next.lineage(), self.system.lineage())
            || self.sizes.was_open(level)
    }
}

/// Whether lineages are numbered the same way.
fn is_same_numbering(one: Lineage, two: Lineage) -> bool
    ensures { result ≡ true → one ≡ two }
{
    matches!(
        (one, two),
        (Lineage::Places, Lineage::Places) | (Lineage::Names, Lineage::Names)
    )
}

/// These nodes as parents of which none is cut off.
fn whole_parents(alloc: Global, nodes: &[NodeId]) -> Result<Vec<Parent>, AllocError>
    ensures { IfOk result (λ parents. parents.items ≡ map uncut nodes.now) }
{
    let mut parents = Vec::new(alloc);
    for node in nodes {
        parents.push(Parent {
            node: *node,
            is_cut: false,
        })?;
    }
    Ok(parents)
}
