//! Who may have another question than before.
ghost use Rattle.std.specs.Prelude.{◌≡◌, ℕ, IsTrue, OnOk, false, []};
ghost use Rattle.lsys_reads.specs.Seats.{is_marked, SameSeats, KeepsSeats};
ghost use Rattle.lsys_front.specs.Found.{AreOnLevels, HasSeatsForFound, FindsIn};
ghost use Rattle.lsys_front.specs.Gatherings.{MarksOnlyFound};

use crate::finds::{find_beside, find_readers, find_turned, mark_all};
use lsys_forest::{Forest, Kept, NodeId};
use lsys_reads::{Reads, Seats};
use std::alloc::AllocError;
use std::marker::Model;

/// How a level changed: which nodes came, which are gone, which of those that stayed have another symbol, and which were
/// looked at since they may have other neighbours, or another mate.
#[derive(Drop)]
pub struct LevelChanges {
    pub came: Vec<NodeId>,
    pub gone: Vec<NodeId>,
    pub changed: Vec<NodeId>,
    pub looked: Vec<NodeId>,
}

impl Model for LevelChanges {
    ghost use Rattle.lsys_front.specs.Found.{LevelChanges};

    ghost Value = { LevelChanges };

    ghost view = { λ a. record {
      came = a.came.items;
      gone = a.gone.items;
      changed = a.changed.items;
      looked = a.looked.items;
    } };
}

/// Finds the nodes of a level that may have another question, though their rules are the same: each once, and none that
/// came. Into `turned` go those that have other neighbours, or another mate; into `beside` others whose symbol changed, and
/// those beside such; into `readers` others whose answers read one of all these, or one that is gone. No node is marked
/// before or after. With those that came, and those that have other rules, they are the candidates of the level.
///
/// It costs steps by the nodes that changed or were looked at, and by the readers of those that are found; and by those that came,
/// unless no other node differs.
///
/// # Errors
///
/// Out of memory. The seats tell what they told.
pub(crate) fn find_nodes<A: Kept>(
    forest: &Forest<A>,
    seats: &mut Seats,
    reads: &Reads,
    changes: &LevelChanges,
    turned: &mut Vec<NodeId>,
    beside: &mut Vec<NodeId>,
    readers: &mut Vec<NodeId>,
) -> Result<(), AllocError>
    requires levels { AreOnLevels forest.now changes.now }
    requires room { HasSeatsForFound forest.now reads.now changes.now seats.old }
    requires clear { (k : ℕ) → is_marked seats.old k ≡ false }
    ensures found { OnOk result (FindsIn forest.now seats reads.now changes.now turned beside readers) }
    ensures clear { (k : ℕ) → is_marked seats.new k ≡ false }
    ensures seats { SameSeats seats.old seats.new }
    ensures keeps { KeepsSeats seats.old seats.new }
{
    turned.clear();
    beside.clear();
    readers.clear();
    if find_none(changes) {
        return Ok(());
    }
    let outcome = find_marked(forest, seats, reads, changes, turned, beside, readers);
    seats.clear(&changes.gone);
    seats.clear(&changes.came);
    seats.clear(turned);
    seats.clear(beside);
    seats.clear(readers);
    outcome
}

/// Whether no node can be found: none was looked at, none has another symbol, and none is gone.
fn find_none(changes: &LevelChanges) -> bool
    ensures looked { IsTrue result → changes.now.looked ≡ [] }
    ensures changed { IsTrue result → changes.now.changed ≡ [] }
    ensures gone { IsTrue result → changes.now.gone ≡ [] }
{
    changes.looked.is_empty() && changes.changed.is_empty() && changes.gone.is_empty()
}

/// Finds them, and leaves marks on them, and on those that came or are gone.
fn find_marked<A: Kept>(
    forest: &Forest<A>,
    seats: &mut Seats,
    reads: &Reads,
    changes: &LevelChanges,
    turned: &mut Vec<NodeId>,
    beside: &mut Vec<NodeId>,
    readers: &mut Vec<NodeId>,
) -> Result<(), AllocError>
    requires levels { AreOnLevels forest.now changes.now }
    requires room { HasSeatsForFound forest.now reads.now changes.now seats.old }
    requires clear { (k : ℕ) → is_marked seats.old k ≡ false }
    requires turned { turned.old.items ≡ [] }
    requires beside { beside.old.items ≡ [] }
    requires readers { readers.old.items ≡ [] }
    ensures found { OnOk result (FindsIn forest.now seats reads.now changes.now turned beside readers) }
    ensures marked { MarksOnlyFound changes.now seats.new turned.new beside.new readers.new }
    ensures seats { SameSeats seats.old seats.new }
    ensures keeps { KeepsSeats seats.old seats.new }
{
    mark_all(seats, &changes.gone);
    mark_all(seats, &changes.came);
    find_turned(forest, seats, &changes.looked, turned)?;
    find_beside(forest, seats, &changes.changed, beside)?;
    find_readers(reads, seats, turned, readers)?;
    find_readers(reads, seats, beside, readers)?;
    find_readers(reads, seats, &changes.gone, readers)?;
    Ok(())
}
