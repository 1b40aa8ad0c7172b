//! What differs on a level.
ghost use Rattle.std.specs.Prelude.{◌≡◌};
ghost use Rattle.lsys_front.specs.Fronts.{no_differences};

use crate::changes::LevelChanges;
use lsys_forest::NodeId;
use std::alloc::Global;
use std::marker::Model;

/// What differs on a level from that of the last rest.
#[derive(Drop)]
pub struct Front {
    pub changes: LevelChanges,
    pub turned: Vec<NodeId>,
    pub bare: Vec<NodeId>,
}

impl Model for Front {
    ghost use Rattle.lsys_front.specs.Fronts.{Differences};

    ghost Value = { Differences };

    ghost view = { λ a. record {
      changes = a.changes;
      turned = a.turned.items;
      bare = a.bare.items;
    } };
}

impl Front {
    /// Nothing differs. It takes no memory.
    pub fn new(alloc: Global) -> Front
        ensures { result ≡ no_differences }
    {
        Front {
            changes: LevelChanges {
                came: Vec::new(alloc),
                gone: Vec::new(alloc),
                changed: Vec::new(alloc),
                looked: Vec::new(alloc),
            },
            turned: Vec::new(alloc),
            bare: Vec::new(alloc),
        }
    }

    /// Nothing differs any more. It takes no memory.
    pub fn clear(&mut self)
        ensures { self.new ≡ no_differences }
    {
        self.changes.came.clear();
        self.changes.gone.clear();
        self.changes.changed.clear();
        self.changes.looked.clear();
        self.turned.clear();
        self.bare.clear();
    }
}
