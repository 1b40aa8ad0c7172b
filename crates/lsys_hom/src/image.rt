//! The image of a level.
ghost use Rattle.std.specs.Prelude.{◌<◌, ◌≤◌, length};
ghost use Rattle.lsys_level.specs.Spots.{spots_at};
ghost use Rattle.lsys_hom.specs.Calls.{IsNext};
ghost use Rattle.lsys_hom.specs.Looks.{IsKeptLook, IsNextLook};
ghost use Rattle.lsys_hom.specs.Ways.{ComesFrom};

use crate::look::Glance;
use crate::part::Part;
use crate::refusal::ImageRefusal;
use crate::walk::Walk;
use lsys_level::LevelView;
use lsys_module::Symbol;
use lsys_rules::System;
use std::marker::Model;

/// The image of a level, told one symbol at a time: each module is replaced once by the successor of the first rule of the
/// homomorphism that is for it and whose condition holds, and stays where there is none; brackets stay. It takes no memory,
/// and keeps its place in the level and the rest of one successor. Contracts see what is still to come.
#[derive(Drop)]
pub struct Image<'a, W: LevelView> {
    walk: Walk<'a, W>,
    part: Part<'a>,
}

impl<'a, W: LevelView> Model for Image<'a, W> {
    ghost use Rattle.lsys_hom.specs.Coming.{Coming};
    ghost use Rattle.lsys_hom.specs.Parts.{IsSoundPart};
    ghost use Rattle.lsys_hom.specs.Ways.{with_part};

    ghost Value = { Coming };

    ghost view = { λ a. with_part a.part a.walk.coming };

    ghost invariant = { λ a. IsSoundPart a.part };
}

impl<'a, W: LevelView> Image<'a, W> {
    /// The image of a level at its start. A level has at most `u32::MAX` symbols, as each level within a limit has.
    pub fn new(view: &'a W, system: &'a System, level: u32) -> Image<'a, W>
        requires level { level < length (W.levels view.now) }
        requires few { length (spots_at (W.levels view.now) level) ≤ u32.MAX }
        ensures { ComesFrom system.now (spots_at (W.levels view.now) level) result }
    {
        Image {
            walk: Walk::new(view, system.hom_rules(), level),
            part: Part::Nothing,
        }
    }

    /// The next symbol; None at the end and from then on.
    ///
    /// A step takes a time that depends neither on the level's length nor on the image's, but for modules whose image is
    /// empty, which are passed on the way.
    ///
    /// # Errors
    ///
    /// The image's refusal, in place of the first symbol of the module or of the bracket that refuses it, and from then on.
    pub fn next(&mut self) -> Result<Option<Symbol>, ImageRefusal>
        ensures { IsNext self.old self.new result }
    {
        if let Some(symbol) = self.part.next() {
            return Ok(Some(symbol));
        }
        match self.walk.next_part() {
            Err(refusal) => Err(refusal),
            Ok(None) => Ok(None),
            Ok(Some(part)) => {
                self.part = part;
                Ok(self.part.next())
            }
        }
    }

    /// Takes the next symbol as `next` does, and answers what is looked at of it: all that a turtle asks. It costs less.
    ///
    /// # Errors
    ///
    /// Those of `next`.
    pub fn look(&mut self) -> Result<Option<Glance>, ImageRefusal>
        ensures { IsNextLook self.old self.new result }
    {
        match self.look_at_level() {
            Some(seen) => Ok(Some(seen)),
            None => self.look_at_next(),
        }
    }

    // Where no rules are and nothing is left of an image, goes along the level itself. None where nothing is taken so.
    fn look_at_level(&mut self) -> Option<Glance>
        ensures { IsKeptLook self.old self.new result }
    {
        if !self.part.is_over() {
            return None;
        }
        self.walk.pass_kept()
    }

    // Takes the next symbol, whatever it comes from.
    fn look_at_next(&mut self) -> Result<Option<Glance>, ImageRefusal>
        ensures { IsNextLook self.old self.new result }
    {
        if let Some(seen) = self.part.look() {
            return Ok(Some(seen));
        }
        match self.walk.next_part() {
            Err(why) => Err(why),
            Ok(None) => Ok(None),
            Ok(Some(part)) => {
                self.part = part;
                Ok(self.part.look())
            }
        }
    }
}
