//! A turtle's way over an image.
ghost use Rattle.std.specs.Prelude.{◌≡◌, ◌<◌, ◌≤◌, length};
ghost use Rattle.lsys_spec.specs.Pictures.{modules_to};
ghost use Rattle.lsys_hom.specs.Looks.{looked_at};
ghost use Rattle.lsys_turtle.specs.Ways.{CanStep, IsReached, IsStepOf, OnSegment, SavesAsMany};
ghost use Rattle.lsys_out.specs.Drawings.{IsLookedAt, IsStopped, OnNext, OnStep, far_or, stopped, BeginsDrawing, TakesSeen, GoesToNext, Steps};
ghost use Rattle.lsys_out.specs.Nesting.{CanGo, HasLast, image_nesting};

use crate::refusal::PictureRefusal;
use lsys_hom::{Glance, Image};
use lsys_lattice::Lattice;
use lsys_level::LevelView;
use lsys_rules::System;
use lsys_turtle::{Act, Far, Segment, Turtle};
use std::marker::Model;

/// What one symbol of the image gives.
pub(crate) enum ImageStep {
    /// No segment.
    Quiet,
    Drawn(Segment),
    /// There is no symbol.
    End,
}

/// A way over an image. Contracts see what is still to come of the image, and how many of its modules were passed.
#[derive(Drop)]
pub struct TurtleWay<'a, W: LevelView> {
    image: Image<'a, W>,
    modules: u32,
}

impl<'a, W: LevelView> Model for TurtleWay<'a, W> {
    ghost use Rattle.std.specs.Prelude.{◌+◌, ◌≤◌, length};
    ghost use Rattle.lsys_syntax.specs.Limits.{most_image_symbols};
    ghost use Rattle.lsys_out.specs.Drawings.{Way};

    ghost Value = { Way };

    ghost view = { λ w. record { image = w.image; modules = w.modules } };

    ghost invariant = { λ w. w.modules + length w.image.symbols ≤ most_image_symbols };
}

impl<'a, W: LevelView> TurtleWay<'a, W> {
    /// At the start of the last level's image, and the turtle at its start.
    pub fn new<T: Lattice>(
        view: &'a W,
        system: &'a System,
        turtle: &mut Turtle<T>,
    ) -> TurtleWay<'a, W>
        requires last { HasLast system.now (W.levels view.now) }
        requires room { image_nesting system.now (W.levels view.now) ≤ turtle.old.room }
        ensures drawing { BeginsDrawing T.shape result turtle.new.turtle system.now (W.levels view.now) }
        ensures can_go { CanGo result.image.symbols turtle.new }
        ensures room { turtle.new.room ≡ turtle.old.room }
    {
        turtle.reset();
        TurtleWay {
            image: Image::new(view, system, system.depth()),
            modules: 0,
        }
    }

    /// The next segment; None at the end.
    ///
    /// # Errors
    ///
    /// The image's refusal, and else the first module that would lead too far. Never `Failed`.
    pub fn next<T: Lattice>(
        &mut self,
        turtle: &mut Turtle<T>,
    ) -> Result<Option<Segment>, PictureRefusal>
        requires can_go { CanGo self.old.image.symbols turtle.old }
        ensures next { GoesToNext T.shape self turtle result }
        ensures can_go { OnNext result (CanGo self.new.image.symbols turtle.new) }
        ensures fewer { OnNext result (length self.new.image.symbols < length self.old.image.symbols) }
        ensures room { turtle.new.room ≡ turtle.old.room }
    {
        'symbols: loop {
            match self.step(turtle)? {
                ImageStep::Quiet => {}
                ImageStep::Drawn(segment) => return Ok(Some(segment)),
                ImageStep::End => return Ok(None),
            }
        }
    }

    /// Passes one symbol of the image.
    fn step<T: Lattice>(&mut self, turtle: &mut Turtle<T>) -> Result<ImageStep, PictureRefusal>
        requires can_go { CanGo self.old.image.symbols turtle.old }
        ensures stepped { Steps T.shape self turtle result }
        ensures can_go { OnStep result (CanGo self.new.image.symbols turtle.new) }
        ensures fewer { OnStep result (length self.new.image.symbols < length self.old.image.symbols) }
        ensures room { turtle.new.room ≡ turtle.old.room }
    {
        match self.look() {
            Ok(Some(seen)) => self.go(turtle, seen),
            Ok(None) => Ok(ImageStep::End),
            Err(refusal) => Err(refusal),
        }
    }

    /// Looks at one symbol of the image, and passes it.
    fn look(&mut self) -> Result<Option<Glance>, PictureRefusal>
        ensures { IsLookedAt self.old self.new result }
    {
        match self.image.look() {
            Ok(Some(seen)) => {
                self.modules = modules_to(self.modules, &seen);
                Ok(Some(seen))
            }
            Ok(None) => Ok(None),
            Err(refusal) => Err(PictureRefusal::Image(refusal)),
        }
    }

    /// Has the turtle take the symbol that was passed last.
    fn go<T: Lattice>(
        &mut self,
        turtle: &mut Turtle<T>,
        seen: Glance,
    ) -> Result<ImageStep, PictureRefusal>
        requires ready { CanStep (looked_at seen) turtle.old }
        ensures gone { TakesSeen T.shape self turtle (looked_at seen) result }
        ensures same { OnStep result (self.new ≡ self.old) }
        ensures saved { SavesAsMany (looked_at seen) turtle.old turtle.new }
        ensures room { turtle.new.room ≡ turtle.old.room }
    {
        match take(turtle, seen) {
            Ok(Some(segment)) => Ok(ImageStep::Drawn(segment)),
            Ok(None) => Ok(ImageStep::Quiet),
            Err(Far) => Err(self.refusal()),
        }
    }

    /// The refusal of the image, if it comes later, and else of the module that was passed last, which is too far.
    fn refusal(&mut self) -> PictureRefusal
        ensures { IsStopped (stopped (far_or self.old.image.refusal self.old.modules)) result }
    {
        'symbols: loop {
            match self.image.next() {
                Ok(Some(_)) => {}
                Ok(None) => {
                    return PictureRefusal::Far {
                        module: self.modules,
                    };
                }
                Err(refusal) => return PictureRefusal::Image(refusal),
            }
        }
    }
}

/// How many modules there are up to a symbol, where so many stand before it.
fn modules_to(modules: u32, seen: &Glance) -> u32
    requires { modules < u32.MAX }
    ensures { result ≡ modules_to modules (looked_at seen.now) }
{
    match seen {
        Glance::Module { .. } => modules + 1,
        _ => modules,
    }
}

/// Has a turtle take a symbol that is looked at, as [`Turtle::step`].
fn take<T: Lattice>(turtle: &mut Turtle<T>, seen: Glance) -> Result<Option<Segment>, Far>
    requires ready { CanStep (looked_at seen) turtle.old }
    ensures stepped { IsStepOf T.shape (looked_at seen) turtle.old turtle.new result }
    ensures saved { SavesAsMany (looked_at seen) turtle.old turtle.new }
    ensures room { turtle.new.room ≡ turtle.old.room }
    ensures reached { OnSegment result IsReached }
{
    match seen {
        Glance::Push => turtle.save(),
        Glance::Pop => turtle.restore(),
        Glance::Cut => {}
        Glance::Module { name, first } => return turtle.act(Act::by(name, first)),
    }
    Ok(None)
}
