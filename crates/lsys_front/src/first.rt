//! The front of the first level.
ghost use Rattle.std.specs.Prelude.{◌≡◌, [], IfOk};
ghost use Rattle.lsys_forest.specs.Groves.{AreSound, now_of, changes_in};
ghost use Rattle.lsys_front.specs.Fronts.{IsToldFirst};
ghost use Rattle.lsys_front.specs.LooksFrom.{first_nodes};

use crate::changes::LevelChanges;
use crate::front::Front;
use lsys_children::Changes;
use lsys_forest::{Forest, Kept};
use std::alloc::{AllocError, Global};

impl Front {
    /// What differs on the first level, by what was told when the children of the root were made. All its nodes are looked at.
    /// The forest is sound.
    ///
    /// # Errors
    ///
    /// Out of memory.
    pub fn first<A: Kept>(
        alloc: Global,
        forest: &Forest<A>,
        told: &Changes,
    ) -> Result<Front, AllocError>
        ensures told { IfOk result (λ front. IsToldFirst told.now front.changes) }
        ensures looked { IfOk result (λ front. front.changes.looked ≡ first_nodes forest.now) }
        ensures turned { IfOk result (λ front. front.turned ≡ []) }
        ensures bare { IfOk result (λ front. front.bare ≡ []) }
        ensures sound { AreSound forest.now.root (changes_in forest.now) (now_of forest.now) }
    {
        let root = forest.root();
        Ok(Front {
            changes: LevelChanges {
                came: Vec::from_slice(alloc, told.added())?,
                gone: Vec::from_slice(alloc, told.gone())?,
                changed: Vec::from_slice(alloc, told.changed())?,
                looked: Vec::from_slice(alloc, forest.children(root))?,
            },
            turned: Vec::new(alloc),
            bare: Vec::new(alloc),
        })
    }
}
