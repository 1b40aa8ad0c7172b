//! Nodes that are still to be asked.
ghost use Rattle.std.specs.Prelude.{◌≡◌, ◌<◌, ◌≤◌, ◌++◌, ◌∷◌, ℕ, List, [], true, false, Some, OnOk, OnErr, length, map, slice_get, vec_len, vec_capacity};
ghost use Rattle.std.specs.List.{remove};
ghost use Rattle.lsys_spec.specs.Rows.{In};
ghost use Rattle.lsys_pass.specs.Places.{AreInOrderOnLevel};
ghost use Rattle.lsys_pass.specs.Queues.{AreCounted, those_left, fresh_slot, those_in, HasRoomForSlots};

use lsys_forest::{Forest, Kept, NodeId};
use std::alloc::{AllocError, Global};
use std::marker::Model;

/// A node until it is taken off. It stands in the middle of a part of a queue, and knows how many of those before it there are
/// gone.
#[derive(Clone, Copy, Drop)]
struct Slot {
    node: Option<NodeId>,
    gone: usize,
}

/// Nodes in order, from which the first is taken off at the cost of a step, and any at that of a logarithm. Before one is taken off
/// that isn't the first, each gets a slot, at the cost of a step: each slot is in the middle of a part, and those before it and those
/// after it are parts again.
#[derive(Drop)]
pub(crate) struct Queue {
    /// The nodes, as long as they have no slots.
    nodes: Vec<NodeId>,
    /// Their slots; as long as there are none, there is room for them.
    slots: Vec<Slot>,
    /// Of those that are left, the queue has those from this place on.
    start: usize,
    /// How many are left.
    end: usize,
    /// The nodes have no slots.
    whole: bool,
}

impl Model for Queue {
    ghost use Rattle.std.specs.Prelude.{ℕ, List, drop};
    ghost use Rattle.std.specs.Coded.{coded_list, coded_ℕ};

    ghost Value = { List ℕ };

    ghost coded = { coded_list coded_ℕ };

    ghost use Rattle.lsys_pass.specs.Queues.{IsQueue, those_in};

    ghost view = { λ q. drop q.start (those_in q.whole q.nodes.items q.slots.items) };

    ghost invariant = { λ q. IsQueue q.nodes.items q.slots q.start q.end q.whole };
}

impl Queue {
    /// Of no nodes. It takes no memory.
    pub(crate) fn new(alloc: Global) -> Queue
        ensures { result ≡ [] }
    {
        Queue {
            nodes: Vec::new(alloc),
            slots: Vec::new(alloc),
            start: 0,
            end: 0,
            whole: true,
        }
    }

    /// These nodes take the place of the others.
    ///
    /// # Errors
    ///
    /// Out of memory. The others stay.
    pub(crate) fn set(&mut self, nodes: Vec<NodeId>) -> Result<(), AllocError>
        ensures ok { OnOk result (self.new ≡ nodes.items) }
        ensures err { OnErr result (self.new ≡ self.old) }
    {
        let mut slots = Vec::new(*self.slots.allocator());
        slots.reserve(nodes.len())?;
        self.start = 0;
        self.end = nodes.len();
        self.whole = true;
        self.nodes = nodes;
        self.slots = slots;
        Ok(())
    }

    /// Forgets all nodes. It takes no memory.
    pub(crate) fn clear(&mut self)
        ensures { self.new ≡ [] }
    {
        self.nodes.clear();
        self.slots.clear();
        self.start = 0;
        self.end = 0;
        self.whole = true;
    }

    /// How many nodes it has. It costs one step.
    pub(crate) fn len(&self) -> usize
        ensures { result ≡ length self.now }
    {
        self.end - self.start
    }

    /// The node at a place. It costs a step where none but first ones were taken off, and else a logarithm.
    pub(crate) fn nth(&self, place: usize) -> NodeId
        requires { place < length self.now }
        ensures { slice_get self.now place ≡ Some result }
    {
        if self.whole {
            let nodes: &[NodeId] = &self.nodes;
            return nodes[self.start + place];
        }
        let slots: &[Slot] = &self.slots;
        nth_among(slots, self.start + place)
    }

    /// At which place a node stands, where the nodes are in order on one complete level. The first one is looked at first; else
    /// it is found by halves: as many nodes as a logarithm are looked up and compared.
    pub(crate) fn place_of<A: Kept>(&self, forest: &Forest<A>, node: NodeId) -> usize
        requires order { AreInOrderOnLevel forest.now self.now }
        requires among { In node self.now }
        ensures { slice_get self.now result ≡ Some node }
    {
        let mut first = 0;
        let mut end = self.len();
        if end > 0 && self.nth(0) == node {
            return 0;
        }
        while first < end {
            let middle = first + (end - first) / 2;
            if forest.is_before(self.nth(middle), node) {
                first = middle + 1;
            } else {
                end = middle;
            }
        }
        first
    }

    /// Takes the node at a place off. It costs a step for the first one, and else a logarithm; and a step for each node, where none but
    /// first ones were taken off before. It takes no memory.
    pub(crate) fn take(&mut self, place: usize)
        requires { place < length self.old }
        ensures { self.new ≡ remove self.old place }
    {
        if place == 0 {
            self.start += 1;
            return;
        }
        give_slots(&mut self.whole, &self.nodes, &mut self.slots);
        take_among(&mut self.slots, self.start + place);
        self.end -= 1;
    }
}

/// Gives nodes their slots, if they have none. It takes no memory.
fn give_slots(whole: &mut bool, nodes: &[NodeId], slots: &mut Vec<Slot>)
    requires room { whole.old ≡ true → HasRoomForSlots slots.old nodes.now }
    requires counted { whole.old ≡ false → AreCounted slots.old.items }
    ensures whole { whole.new ≡ false }
    ensures counted { AreCounted slots.new.items }
    ensures left { those_left slots.new.items ≡ those_in whole.old nodes.now slots.old.items }
{
    if *whole {
        add_slots(nodes, slots);
        *whole = false;
    }
}

/// Adds slots of these nodes, of which none is gone, to none. It takes no memory.
fn add_slots(nodes: &[NodeId], slots: &mut Vec<Slot>)
    requires room { HasRoomForSlots slots.old nodes.now }
    ensures { slots.new.items ≡ map fresh_slot nodes.now }
{
    for node in nodes {
        add_slot(*node, slots);
    }
}

/// Adds the slot of a node. It takes no memory.
fn add_slot(node: NodeId, slots: &mut Vec<Slot>)
    requires { vec_len slots.old < vec_capacity slots.old }
    ensures added { slots.new.items ≡ slots.old.items ++ fresh_slot node ∷ [] }
    ensures capacity { vec_capacity slots.old ≤ vec_capacity slots.new }
{
    let slot = Slot {
        node: Some(node),
        gone: 0,
    };
    match slots.push(slot) {
        Ok(()) => {}
        Err(_) => unreachable!(),
    }
}

/// The node at a place among those that a part has left.
fn nth_among(part: &[Slot], place: usize) -> NodeId
    requires counted { AreCounted part.now }
    requires within { place < length (those_left part.now) }
    ensures { slice_get (those_left part.now) place ≡ Some result }
{
    let middle = part.len() / 2;
    let slot = part[middle];
    let before = middle - slot.gone;
    if place < before {
        return nth_among(&part[..middle], place);
    }
    match slot.node {
        Some(node) if place == before => node,
        Some(_) => nth_among(&part[middle + 1..], place - before - 1),
        None => nth_among(&part[middle + 1..], place - before),
    }
}

/// Takes the node at a place off those that a part has left.
fn take_among(part: &mut [Slot], place: usize)
    requires counted { AreCounted part.old }
    requires within { place < length (those_left part.old) }
    ensures counted { AreCounted part.new }
    ensures left { those_left part.new ≡ remove (those_left part.old) place }
{
    let middle = part.len() / 2;
    let slot = part[middle];
    let before = middle - slot.gone;
    if place < before {
        part[middle].gone += 1;
        return take_among(&mut part[..middle], place);
    }
    match slot.node {
        Some(_) if place == before => part[middle].node = None,
        Some(_) => take_among(&mut part[middle + 1..], place - before - 1),
        None => take_among(&mut part[middle + 1..], place - before),
    }
}
