//! Nodes by their numbers.
ghost use Rattle.std.specs.Prelude.{◌≡◌, ◌↔◌, IsTrue, ◌+◌, ◌<◌, ◌≤◌, ◌^◌, ℕ, None, OnOk, Some, IsSome, option_map, option_copied};
ghost use Rattle.slab.specs.Slab.{Slab, get};
ghost use Rattle.lsys_forest.specs.Shelves.{run_at};
ghost use Rattle.lsys_forest.specs.declared.node.NodeEntry.{NodeEntry};
ghost use Rattle.lsys_forest.specs.Slots.{slot_at, footing_at, rank_at, link_at, footing_mate, live_slots, run_after, kind_set, key_set, answer_set, answer_before, node_in, node_set, params_set, kids_set, footing_set, rank_set, right_set, links_set, mate_set, PutsEntry, HasEntryAt};
ghost use Rattle.lsys_forest.specs.SlotChanges.{KeepsOtherFootings, empty_table, param_run_at, kid_run_at, param_run_or, kid_run_or, entry_params_or, entry_kids_or, Vacates, ChangesSlot, ChangesParamRun, ChangesKidRun, ChangesFooting, FootingBecomes, ChangesEntry};
ghost use Rattle.lsys_forest.specs.Regions.{HasNoVacantRuns};

use crate::node::{Footing, NodeEntry, NodeId, NodeKind, Stored, nowhere};
use crate::walk::Way;
use lsys_region::Run;
use slab::Slab;
use std::alloc::{AllocError, Global};
use std::marker::Model;
use std::mem;

/// Each number is below it.
const NUMBERS: usize = 0x1_0000_0000;

/// Nodes by their numbers, each with the runs of its lists, and where it stands among others.
#[derive(Drop)]
pub(crate) struct NodeTable<A> {
    nodes: Slab<NodeEntry<A>>,
}

impl<A> Model for NodeTable<A> {
    ghost use Rattle.lsys_forest.specs.Slots.{SlotTable, table_of};

    ghost Value = { SlotTable A };

    ghost view = { λ a. table_of a.nodes };
}

impl<A: Drop> NodeTable<A> {
    /// No nodes. It takes no memory.
    pub(crate) fn new(alloc: Global) -> NodeTable<A>
        ensures { result ≡ empty_table }
    {
        NodeTable {
            nodes: Slab::new(alloc),
        }
    }

    /// Makes room for so many nodes more. Where twice the room would be for more nodes than there are numbers, it is made for
    /// exactly as many.
    ///
    /// # Errors
    ///
    /// Out of memory. The nodes stay. No clause of the slab bounds what room it makes, so that is looked at; its code makes no
    /// more than was asked for.
    pub(crate) fn reserve(&mut self, nodes: usize) -> Result<(), AllocError>
        ensures nodes { self.new ≡ record self.old { capacity = self.new.capacity } }
        ensures room { OnOk result (live_slots self.new.slots + nodes ≤ self.new.capacity) }
        ensures numbers { OnOk result (self.new.capacity ≤ 2 ^ 32) }
        ensures capacity { self.old.capacity ≤ self.new.capacity }
    {
        let live = self.nodes.len();
        if self.nodes.capacity() > NUMBERS / 2 && self.nodes.capacity() - live < nodes {
            self.nodes
                .reserve_exact(nodes.max(NUMBERS.saturating_sub(live)))?;
        }
        self.nodes.reserve(nodes)?;
        if self.has_numbers() {
            Ok(())
        } else {
            Err(AllocError)
        }
    }

    /// Adds a node, and answers its number. It takes no memory.
    pub(crate) fn insert(&mut self, entry: NodeEntry<A>) -> NodeId
        requires room { live_slots self.old.slots < self.old.capacity }
        requires numbers { self.old.capacity ≤ 2 ^ 32 }
        ensures next { result ≡ self.old.next }
        ensures vacant { slot_at self.old.slots result ≡ None }
        ensures none { run_at self.old.param_runs result ≡ None }
        ensures no_kids { run_at self.old.kid_runs result ≡ None }
        ensures put { PutsEntry self.old self.new result entry }
        ensures live { live_slots self.new.slots ≡ live_slots self.old.slots + 1 }
        ensures capacity { self.new.capacity ≡ self.old.capacity }
    {
        NodeId(self.nodes.insert_reserved(entry) as u32)
    }

    /// The node with this number, if it lives.
    pub(crate) fn get(&self, number: NodeId) -> Option<&Stored<A>>
        ensures { option_copied result ≡ slot_at self.now.slots number }
    {
        match self.nodes.get(number.0 as usize) {
            Some(entry) => Some(&entry.node),
            None => None,
        }
    }

    /// The run of a node's parameters, if the node lives.
    pub(crate) fn params(&self, number: NodeId) -> Option<&Run>
        ensures { option_copied result ≡ param_run_at self.now number }
    {
        match self.nodes.get(number.0 as usize) {
            Some(entry) => Some(&entry.params),
            None => None,
        }
    }

    /// The run of a node's children, if the node lives.
    pub(crate) fn kids(&self, number: NodeId) -> Option<&Run>
        ensures { option_copied result ≡ kid_run_at self.now number }
    {
        match self.nodes.get(number.0 as usize) {
            Some(entry) => Some(&entry.kids),
            None => None,
        }
    }

    /// A law of numbers: where no node lives, there are no runs of lists.
    pub(crate) fn law_of_vacant_numbers(&self)
        ensures { HasNoVacantRuns self.now }
    {
        // How the entries stand is known where the field is named.
        let _ = &self.nodes;
    }

    /// The rank of a node; 0 where it doesn't live.
    pub(crate) fn rank(&self, number: NodeId) -> usize
        ensures { result ≡ rank_at self.now.footings number }
    {
        match self.nodes.get(number.0 as usize) {
            Some(entry) => entry.footing.rank,
            None => 0,
        }
    }

    /// The neighbour to which a node is linked, that way; none where it doesn't live.
    pub(crate) fn link(&self, number: NodeId, way: Way) -> Option<NodeId>
        ensures { result ≡ link_at way self.now.footings number }
    {
        let entry = self.nodes.get(number.0 as usize)?;
        match way {
            Way::Left => entry.footing.left,
            Way::Right => entry.footing.right,
        }
    }

    /// The mate that stands at a node; none where it doesn't live.
    pub(crate) fn mate(&self, number: NodeId) -> Option<NodeId>
        ensures { result ≡ footing_mate self.now.footings number }
    {
        match self.nodes.get(number.0 as usize) {
            Some(entry) => entry.footing.mate,
            None => None,
        }
    }

    /// Where a node stands among others; nowhere where it doesn't live.
    #[inline]
    pub(crate) fn footing(&self, number: NodeId) -> Footing
        ensures { result ≡ footing_at self.now.footings number }
    {
        match self.nodes.get(number.0 as usize) {
            Some(entry) => entry.footing,
            None => nowhere(),
        }
    }

    /// How many nodes live.
    pub(crate) fn live(&self) -> usize
        ensures { result ≡ live_slots self.now.slots }
    {
        self.nodes.len()
    }

    /// Whether there are numbers for all nodes that there is room for.
    pub(crate) fn has_numbers(&self) -> bool
        ensures { IsTrue result ↔ (self.now.capacity ≤ 2 ^ 32) }
    {
        self.nodes.capacity() <= NUMBERS
    }

    /// For how many nodes there is room. Each number is below it.
    pub(crate) fn numbers(&self) -> usize
        ensures room { result ≡ self.now.capacity }
        ensures below { (k : ℕ) → IsSome (slot_at self.now.slots k) → k < result }
    {
        self.nodes.capacity()
    }

    /// Removes a node, and answers it if it lived. It takes no memory.
    pub(crate) fn remove(&mut self, number: NodeId) -> Option<NodeEntry<A>>
        ensures was { HasEntryAt self.old number result }
        ensures gone { Vacates number self.old self.new }
    {
        self.nodes.try_remove(number.0 as usize)
    }

    /// Sets a symbol without its parameters, and answers the one before.
    pub(crate) fn swap_kind(&mut self, number: NodeId, kind: NodeKind) -> Option<NodeKind>
        ensures before { result ≡ option_map (λ s. s.kind) (slot_at self.old.slots number) }
        ensures changed { ChangesSlot (kind_set kind) number self.old self.new }
    {
        change_kind(&mut self.nodes, number, kind)
    }

    /// Sets a key, and answers the one before.
    pub(crate) fn swap_key(&mut self, number: NodeId, key: u64) -> Option<u64>
        ensures before { result ≡ option_map (λ s. s.key) (slot_at self.old.slots number) }
        ensures changed { ChangesSlot (key_set key) number self.old self.new }
    {
        change_key(&mut self.nodes, number, key)
    }

    /// Sets an answer, and answers the one before; where no node lives, the answer comes back.
    pub(crate) fn swap_answer(&mut self, number: NodeId, answer: Option<A>) -> Option<A>
        ensures before { result ≡ answer_before (slot_at self.old.slots number) answer }
        ensures changed { ChangesSlot (answer_set answer) number self.old self.new }
    {
        change_answer(&mut self.nodes, number, answer)
    }

    /// Sets the run of a node's parameters, and answers the one before; where no node lives, the run comes back.
    pub(crate) fn swap_params(&mut self, number: NodeId, run: Run) -> Run
        ensures before { result ≡ param_run_or self.old number run }
        ensures changed { ChangesParamRun number run self.old self.new }
        ensures here { run_at self.new.param_runs number ≡ run_after (slot_at self.old.slots number) run }
    {
        change_params(&mut self.nodes, number, run)
    }

    /// Sets the run of a node's children, and answers the one before; where no node lives, the run comes back.
    pub(crate) fn swap_kids(&mut self, number: NodeId, run: Run) -> Run
        ensures before { result ≡ kid_run_or self.old number run }
        ensures changed { ChangesKidRun number run self.old self.new }
        ensures here { run_at self.new.kid_runs number ≡ run_after (slot_at self.old.slots number) run }
    {
        change_kids(&mut self.nodes, number, run)
    }

    /// Sets the rank of a node, if it lives.
    pub(crate) fn set_rank(&mut self, number: NodeId, rank: usize)
        ensures changed { ChangesFooting (rank_set rank) number self.old self.new }
        ensures here { FootingBecomes (rank_set rank) number self.old self.new }
    {
        change_rank(&mut self.nodes, number, rank);
    }

    /// Links a node to its right neighbour, if it lives.
    pub(crate) fn set_right(&mut self, number: NodeId, right: Option<NodeId>)
        ensures same { self.new ≡ record self.old { footings = self.new.footings } }
        ensures here { FootingBecomes (right_set right) number self.old self.new }
        ensures others { KeepsOtherFootings number self.old.footings self.new.footings }
    {
        change_right(&mut self.nodes, number, right);
    }

    /// Links a node to its neighbours, if it lives.
    pub(crate) fn set_links(&mut self, number: NodeId, left: Option<NodeId>, right: Option<NodeId>)
        ensures same { self.new ≡ record self.old { footings = self.new.footings } }
        ensures here { FootingBecomes (links_set left right) number self.old self.new }
        ensures others { KeepsOtherFootings number self.old.footings self.new.footings }
    {
        change_links(&mut self.nodes, number, left, right);
    }

    /// Sets the mate of a node, if it lives.
    pub(crate) fn set_mate(&mut self, number: NodeId, mate: Option<NodeId>)
        ensures same { self.new ≡ record self.old { footings = self.new.footings } }
        ensures here { FootingBecomes (mate_set mate) number self.old self.new }
        ensures others { KeepsOtherFootings number self.old.footings self.new.footings }
    {
        change_mate(&mut self.nodes, number, mate);
    }
}

/// Sets a symbol without its parameters, and answers the one before.
fn change_kind<A: Drop>(
    nodes: &mut Slab<NodeEntry<A>>,
    number: NodeId,
    kind: NodeKind,
) -> Option<NodeKind>
    ensures before { result ≡ option_map (λ e. e.node.kind) (get nodes.old number) }
    ensures changed { ChangesEntry (node_set (kind_set kind)) number nodes.old nodes.new }
{
    match nodes.get_mut(number.0 as usize) {
        Some(entry) => Some(mem::replace(&mut entry.node.kind, kind)),
        None => None,
    }
}

/// Sets a key, and answers the one before.
fn change_key<A: Drop>(nodes: &mut Slab<NodeEntry<A>>, number: NodeId, key: u64) -> Option<u64>
    ensures before { result ≡ option_map (λ e. e.node.key) (get nodes.old number) }
    ensures changed { ChangesEntry (node_set (key_set key)) number nodes.old nodes.new }
{
    match nodes.get_mut(number.0 as usize) {
        Some(entry) => Some(mem::replace(&mut entry.node.key, key)),
        None => None,
    }
}

/// Sets an answer, and answers the one before; where no node lives, the answer comes back.
fn change_answer<A: Drop>(
    nodes: &mut Slab<NodeEntry<A>>,
    number: NodeId,
    answer: Option<A>,
) -> Option<A>
    ensures before { result ≡ answer_before (node_in (get nodes.old number)) answer }
    ensures changed { ChangesEntry (node_set (answer_set answer)) number nodes.old nodes.new }
{
    match nodes.get_mut(number.0 as usize) {
        Some(entry) => swap_answers(&mut entry.node.answer, answer),
        None => answer,
    }
}

/// Puts an answer where another one or none stands, which is answered: where none does, nothing has to be moved out.
#[inline]
fn swap_answers<A: Drop>(place: &mut Option<A>, answer: Option<A>) -> Option<A>
    ensures before { result ≡ place.old }
    ensures put { place.new ≡ answer }
{
    if place.is_none() {
        *place = answer;
        return None;
    }
    mem::replace(place, answer)
}

/// Sets the run of a node's parameters, and answers the one before; where no node lives, the run comes back.
fn change_params<A: Drop>(nodes: &mut Slab<NodeEntry<A>>, number: NodeId, run: Run) -> Run
    ensures before { result ≡ entry_params_or (get nodes.old number) run }
    ensures changed { ChangesEntry (params_set run) number nodes.old nodes.new }
{
    match nodes.get_mut(number.0 as usize) {
        Some(entry) => mem::replace(&mut entry.params, run),
        None => run,
    }
}

/// Sets the run of a node's children, and answers the one before; where no node lives, the run comes back.
fn change_kids<A: Drop>(nodes: &mut Slab<NodeEntry<A>>, number: NodeId, run: Run) -> Run
    ensures before { result ≡ entry_kids_or (get nodes.old number) run }
    ensures changed { ChangesEntry (kids_set run) number nodes.old nodes.new }
{
    match nodes.get_mut(number.0 as usize) {
        Some(entry) => mem::replace(&mut entry.kids, run),
        None => run,
    }
}

/// Sets the rank of a node, if it lives.
fn change_rank<A: Drop>(nodes: &mut Slab<NodeEntry<A>>, number: NodeId, rank: usize)
    ensures { ChangesEntry (footing_set (rank_set rank)) number nodes.old nodes.new }
{
    if let Some(entry) = nodes.get_mut(number.0 as usize) {
        entry.footing.rank = rank;
    }
}

/// Links a node to its right neighbour, if it lives.
fn change_right<A: Drop>(nodes: &mut Slab<NodeEntry<A>>, number: NodeId, right: Option<NodeId>)
    ensures { ChangesEntry (footing_set (right_set right)) number nodes.old nodes.new }
{
    if let Some(entry) = nodes.get_mut(number.0 as usize) {
        entry.footing.right = right;
    }
}

/// Links a node to its neighbours, if it lives.
fn change_links<A: Drop>(
    nodes: &mut Slab<NodeEntry<A>>,
    number: NodeId,
    left: Option<NodeId>,
    right: Option<NodeId>,
)
    ensures { ChangesEntry (footing_set (links_set left right)) number nodes.old nodes.new }
{
    if let Some(entry) = nodes.get_mut(number.0 as usize) {
        entry.footing.left = left;
        entry.footing.right = right;
    }
}

/// Sets the mate of a node, if it lives.
fn change_mate<A: Drop>(nodes: &mut Slab<NodeEntry<A>>, number: NodeId, mate: Option<NodeId>)
    ensures { ChangesEntry (footing_set (mate_set mate)) number nodes.old nodes.new }
{
    if let Some(entry) = nodes.get_mut(number.0 as usize) {
        entry.footing.mate = mate;
    }
}
