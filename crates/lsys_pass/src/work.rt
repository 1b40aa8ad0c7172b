//! What a pass works on.
ghost use Rattle.std.specs.Prelude.{◌≡◌, ◌≤◌, ◌+◌, ◌++◌, ◌∷◌, [], length, if◌then◌else◌, OnOk};
ghost use Rattle.lsys_pass.specs.Works.{HasRoom, OtherListsStay, IsCleared, faulted};

use crate::fault::Faulted;
use crate::queue::Queue;
use lsys_forest::NodeId;
use lsys_front::Front;
use lsys_level::Tag;
use lsys_rewrite::FaultKind;
use std::alloc::{AllocError, Global};

/// The lists of a pass: the nodes that are still to be asked; those that have a fault; those with another answer than at the
/// last rest, how many of them had none then, and where those of the level begin, after those of the levels above it; those that
/// had an answer and have none any more; those that moved; and what differs on the level.
#[derive(Drop)]
pub(crate) struct Work {
    pub(crate) pending: Queue,
    pub(crate) faults: Vec<Faulted>,
    pub(crate) renewed: Vec<Tag>,
    pub(crate) born: usize,
    pub(crate) first_renewed: usize,
    pub(crate) dropped: Vec<Tag>,
    pub(crate) moved: Vec<NodeId>,
    pub(crate) front: Front,
}

impl Work {
    /// Nothing. It takes no memory.
    pub(crate) fn new(alloc: Global) -> Work
        ensures { IsCleared result }
    {
        Work {
            pending: Queue::new(alloc),
            faults: Vec::new(alloc),
            renewed: Vec::new(alloc),
            born: 0,
            first_renewed: 0,
            dropped: Vec::new(alloc),
            moved: Vec::new(alloc),
            front: Front::new(alloc),
        }
    }

    /// Makes room for what a node may get. All lists stay.
    ///
    /// # Errors
    ///
    /// Out of memory.
    pub(crate) fn reserve(&mut self) -> Result<(), AllocError>
        ensures faults { self.new.faults.items ≡ self.old.faults.items }
        ensures renewed { self.new.renewed.items ≡ self.old.renewed.items }
        ensures others { OtherListsStay self.old self.new }
        ensures born { self.new.born ≡ self.old.born }
        ensures room { OnOk result (HasRoom self.new) }
    {
        self.faults.reserve(1)?;
        self.renewed.reserve(1)
    }

    /// A node has another answer than at the last rest, and had none then or had one. It takes no memory.
    pub(crate) fn renew(&mut self, node: NodeId, is_born: bool)
        requires room { HasRoom self.old }
        requires few { self.old.born ≤ length self.old.renewed.items }
        ensures renewed { self.new.renewed.items ≡ self.old.renewed.items ++ node ∷ [] }
        ensures born { self.new.born ≡ self.old.born + (if is_born then 1 else 0) }
        ensures faults { self.new.faults.items ≡ self.old.faults.items }
        ensures others { OtherListsStay self.old self.new }
    {
        self.renewed.push_reserved(Tag(node.0));
        self.born += usize::from(is_born);
    }

    /// A node has this fault. It takes no memory.
    pub(crate) fn note(&mut self, node: NodeId, kind: FaultKind)
        requires room { HasRoom self.old }
        ensures faults { self.new.faults.items ≡ self.old.faults.items ++ faulted node kind ∷ [] }
        ensures renewed { self.new.renewed.items ≡ self.old.renewed.items }
        ensures born { self.new.born ≡ self.old.born }
        ensures others { OtherListsStay self.old self.new }
    {
        self.faults.push_reserved(Faulted { node, kind });
    }

    /// Forgets everything. It takes no memory.
    pub(crate) fn clear(&mut self)
        ensures { IsCleared self.new }
    {
        self.pending.clear();
        self.faults.clear();
        self.renewed.clear();
        self.born = 0;
        self.first_renewed = 0;
        self.dropped.clear();
        self.moved.clear();
        self.front.clear();
    }
}
