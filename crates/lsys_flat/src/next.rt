//! The level that is being made of the one before it.
ghost use Rattle.std.specs.Prelude.{◌≡◌, ◌+◌, ◌<◌, ◌≤◌, ◌^◌, length, OnOk};
ghost use Rattle.lsys_spec.specs.Draws.{number_base};
ghost use Rattle.lsys_module.specs.Views.{string_of};
ghost use Rattle.lsys_reading.specs.Commands.{numbering_of};
ghost use Rattle.lsys_flat.specs.Grown.{nothing_made, AddsChildren, IsFinished};

use crate::level::Level;
use crate::made::Made;
use crate::numbers::ChildNumbers;
use lsys_module::Symbol;
use lsys_reading::Lineage;
use std::alloc::{AllocError, Global};
use std::marker::Model;

/// The level after a level, as far as the symbols of this one were replaced.
#[derive(Drop)]
pub struct NextLevel {
    numbers: ChildNumbers,
    made: Made,
}

impl Model for NextLevel {
    ghost use Rattle.lsys_reading.specs.Commands.{numbering_of};
    ghost use Rattle.lsys_flat.specs.Grown.{Making};

    ghost Value = { Making };

    ghost view = { λ a. record { numbering = numbering_of a.numbers.numbering; grown = a.made } };
}

impl NextLevel {
    /// No symbol was replaced yet. The level may have `room` symbols. Takes no memory.
    pub fn new(alloc: Global, numbering: Lineage, room: usize) -> NextLevel
        ensures { result ≡ nothing_made (numbering_of numbering) room }
    {
        NextLevel {
            numbers: ChildNumbers::new(alloc, numbering),
            made: Made::new(alloc, room),
        }
    }

    /// Adds what replaces the next symbol of the level before, which has this key: as its children, by their places or by
    /// their names.
    ///
    /// Level 0 is what replaces one symbol whose key is the seed by the axiom.
    ///
    /// # Errors
    ///
    /// Out of memory. The level is of no use then.
    pub fn add_children(&mut self, key: u64, successor: &[Symbol]) -> Result<(), AllocError>
        requires parents { self.old.grown.parents + 1 < 2 ^ 32 }
        requires few { length successor.now ≤ number_base }
        ensures added { OnOk result (AddsChildren key (string_of successor.now) self.old self.new) }
        ensures parents { OnOk result (self.new.grown.parents ≡ self.old.grown.parents + 1) }
        ensures room { OnOk result (self.new.grown.room ≡ self.old.grown.room) }
        ensures numbering { OnOk result (self.new.numbering ≡ self.old.numbering) }
    {
        self.made.add_children(&mut self.numbers, key, successor)
    }

    /// The level, where it has room.
    pub fn finish(self) -> Option<Level>
        ensures { IsFinished self.grown result }
    {
        self.made.finish()
    }
}
