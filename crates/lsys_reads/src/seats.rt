//! The seats of nodes.
ghost use Rattle.std.specs.Prelude.{◌≡◌, ◌≢◌, ◌↔◌, ℕ, IsTrue, OnOk, true, false};
ghost use Rattle.lsys_spec.specs.Rows.{In};
ghost use Rattle.lsys_reads.specs.Neighbours.{neighbours_in, IsOnLevel};
ghost use Rattle.lsys_reads.specs.KeptSeats.{UndisturbedStandAsBefore, UndisturbedStandAsSeated};
ghost use Rattle.lsys_reads.specs.Seats.{neighbours_at, is_marked, HasSeat, SameSeats, SameMarks, KeepsSeats, TellsAt};

use crate::seat::{Seat, lone_seat, seat_in, tell_same};
use lsys_forest::{Forest, Kept, NodeId};
use std::alloc::{AllocError, Global};
use std::marker::Model;

/// The seats of nodes, by their numbers, each with a mark.
#[derive(Drop)]
pub struct Seats {
    seats: Vec<Seat>,
}

impl Model for Seats {
    ghost use Rattle.std.specs.Prelude.{List};
    ghost use Rattle.lsys_reads.specs.declared.seat.Seat.{Seat};

    ghost Value = { List Seat };

    ghost view = { λ a. a.seats.items };
}

impl Seats {
    /// No seats. It takes no memory.
    pub fn new(alloc: Global) -> Seats
        ensures { (k : ℕ) → is_marked result k ≡ false }
    {
        Seats {
            seats: Vec::new(alloc),
        }
    }

    /// Makes a seat for a node, if it has none: one that tells of nobody, not marked. All else stays.
    ///
    /// # Errors
    ///
    /// Out of memory. What the seats tell, and the marks, stay then too.
    pub fn make_room(&mut self, node: NodeId) -> Result<(), AllocError>
        ensures seats { SameSeats self.old self.new }
        ensures marks { SameMarks self.old self.new }
        ensures keeps { KeepsSeats self.old self.new }
        ensures ok { OnOk result (HasSeat self.new node) }
    {
        let last = node.0 as usize;
        while self.seats.len() <= last {
            let next = NodeId(self.seats.len() as u32);
            self.seats.push(lone_seat(next))?;
        }
        Ok(())
    }

    /// Sets the seat of a node of a complete level: it tells who is beside the node now. Nothing else changes. It takes no
    /// memory.
    pub fn seat<A: Kept>(&mut self, forest: &Forest<A>, node: NodeId)
        requires level { IsOnLevel forest.now node }
        requires room { HasSeat self.old node }
        ensures seats { TellsAt self.old self.new node (neighbours_in forest.now node) }
        ensures marks { SameMarks self.old self.new }
        ensures keeps { KeepsSeats self.old self.new }
    {
        let kept = &mut self.seats[node.0 as usize];
        *kept = seat_in(forest, node, kept.marked);
    }

    /// Whether a node of a complete level has the neighbours and the mate that its seat tells.
    pub fn is_seated<A: Kept>(&self, forest: &Forest<A>, node: NodeId) -> bool
        requires level { IsOnLevel forest.now node }
        requires room { HasSeat self.now node }
        ensures { IsTrue result ↔ (neighbours_in forest.now node ≡ neighbours_at self.now node) }
    {
        let kept = self.seats[node.0 as usize];
        tell_same(kept, seat_in(forest, node, false))
    }

    /// Whether a node is marked.
    pub fn is_marked(&self, node: NodeId) -> bool
        requires { HasSeat self.now node }
        ensures { result ≡ is_marked self.now node }
    {
        self.seats[node.0 as usize].marked
    }

    /// Marks a node, and answers whether it had no mark. Nothing else changes. It takes no memory.
    pub fn mark(&mut self, node: NodeId) -> bool
        requires room { HasSeat self.old node }
        ensures new { IsTrue result ↔ (is_marked self.old node ≡ false) }
        ensures marked { is_marked self.new node ≡ true }
        ensures others { (k : ℕ) → k ≢ node → is_marked self.new k ≡ is_marked self.old k }
        ensures seats { SameSeats self.old self.new }
        ensures keeps { KeepsSeats self.old self.new }
    {
        let kept = &mut self.seats[node.0 as usize];
        let new = !kept.marked;
        kept.marked = true;
        new
    }

    /// Takes the marks of these nodes away. Nothing else changes. It takes no memory.
    pub fn clear(&mut self, marked: &[NodeId])
        ensures cleared { (k : ℕ) → In k marked.now → is_marked self.new k ≡ false }
        ensures others { (k : ℕ) → (In k marked.now → ⊥)
            → is_marked self.new k ≡ is_marked self.old k }
        ensures seats { SameSeats self.old self.new }
        ensures keeps { KeepsSeats self.old self.new }
    {
        for node in marked {
            self.unmark(*node);
        }
    }

    /// Takes the mark of a node away. Nothing else changes.
    fn unmark(&mut self, node: NodeId)
        ensures cleared { is_marked self.new node ≡ false }
        ensures others { (k : ℕ) → k ≢ node → is_marked self.new k ≡ is_marked self.old k }
        ensures seats { SameSeats self.old self.new }
        ensures keeps { KeepsSeats self.old self.new }
    {
        if let Some(kept) = self.seats.get_mut(node.0 as usize) {
            kept.marked = false;
        }
    }
}

/// The law of seats. An old node of a level is disturbed exactly where its symbol is another, or who is beside it or its mate, or
/// the symbol of one that is beside it. So where the seats tell the neighbours of the old level, and these symbols are what they
/// were, the node is not disturbed exactly where [`Seats::is_seated`] answers true.
pub fn law_of_kept_seats<A>()
    ensures levels { UndisturbedStandAsBefore A }
    ensures seats { UndisturbedStandAsSeated A }
{}
