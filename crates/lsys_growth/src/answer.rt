//! The growth of a system at a level.
ghost use Rattle.std.specs.Prelude.{◌≡◌, map};
ghost use Rattle.lsys_growth.specs.Views.{count_of};

use lsys_text::Name;
use std::marker::Model;

/// A letter, and how often it stands in a level.
#[derive(Clone, Copy)]
pub struct Count {
    pub name: Name,
    pub count: u128,
}

/// The length of a level, and the counts of its letters. Contracts see it as the census of the definitions.
#[derive(Drop)]
pub struct Growth {
    pub(crate) length: u128,
    pub(crate) counts: Vec<Count>,
}

impl Model for Growth {
    ghost use Rattle.lsys_growth.specs.Growth.{Census};
    ghost use Rattle.lsys_growth.specs.Views.{census_of};

    ghost Value = { Census };

    ghost view = { λ g. census_of g.length g.counts.items };
}

impl Growth {
    /// How many symbols stand in the level, brackets counted.
    pub fn length(&self) -> u128
        ensures { result ≡ self.now.symbols }
    {
        self.length
    }

    /// How often each letter stands in the level that stands in it at all, in the order of the bytes of their names.
    pub fn counts(&self) -> &[Count]
        ensures { map count_of result.now ≡ self.now.counts }
    {
        &self.counts
    }
}
