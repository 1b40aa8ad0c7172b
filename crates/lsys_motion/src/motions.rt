//! Kept motions.
ghost use Rattle.std.specs.Prelude.{◌≡◌, ◌<◌, ◌+◌, [], Err, None, Some, IfOk, length, slice_get};
ghost use Rattle.lsys_spec.specs.Pictures as P;
ghost use Rattle.lsys_lattice.specs.Wide.{extents_of};
ghost use Rattle.lsys_forest.specs.Rows.{complete_levels};
ghost use Rattle.lsys_out.specs.Drawings.{IsRefusal, last_drawing};
ghost use Rattle.lsys_out.specs.Nesting.{HasLast};
ghost use Rattle.lsys_motion.specs.Told.{Track};
ghost use Rattle.lsys_motion.specs.Refusals.{IsAsTold};
ghost use Rattle.lsys_motion.specs.LastLevels.{HasTakenLast, TellsLast, last_bounds, last_told};

use crate::descent::stand_before;
use crate::going::{take_below, take_rest};
use crate::keeper::Keeper;
use crate::piece::Piece;
use crate::pose::Pose;
use crate::refusal::MotionRefusal;
use crate::stand::Stand;
use crate::survey::survey_picture;
use lsys_forest::{Forest, Kept};
use lsys_hom::Walk;
use lsys_lattice::{Extents, Lattice};
use lsys_out::{PictureRefusal, image_nesting};
use lsys_rules::System;
use lsys_turtle::Turtle;
use std::alloc::{AllocError, Global};
use std::marker::Model;

/// What is kept of a picture on the lattice `T`, so that it is told without the forest and without
/// the level. Contracts see what is told.
#[derive(Drop)]
pub struct Motions<T: Lattice> {
    pieces: Vec<Piece<T>>,
    symbols: u32,
    end: Stand<T>,
    bounds: Extents,
}

impl<T: Lattice> Model for Motions<T> {
    ghost use Rattle.lsys_lattice.specs.Wide.{extents_of};
    ghost use Rattle.lsys_motion.specs.Told.{Track};
    ghost use Rattle.lsys_motion.specs.Pieces.{IsInReach, all_poses};

    ghost Value = { Track };

    ghost view = { λ m. record {
      bounds = extents_of m.bounds;
      poses = all_poses T.shape m.pieces.items m.symbols m.end;
    } };

    ghost invariant = { λ m. IsInReach T.shape m.pieces.items m.symbols m.end };
}

impl<T: Lattice> Motions<T> {
    /// The motions of the picture of a forest's last level, which is the system's. The lattice `T`
    /// stands in place of the system's.
    ///
    /// # Errors
    ///
    /// The image's refusal; then the first module that would lead too far; or lack of memory.
    pub fn new<A: Kept>(
        alloc: Global,
        forest: &Forest<A>,
        system: &System,
    ) -> Result<Motions<T>, MotionRefusal>
        requires { HasLast system.now (complete_levels forest.now) }
        ensures { TellsLast T.shape system.now (complete_levels forest.now) result }
    {
        let nesting = match image_nesting(forest, system) {
            Ok(nesting) => nesting,
            Err(refusal) => return Err(MotionRefusal::Image(refusal)),
        };
        let mut turtle: Turtle<T> = match Turtle::new(alloc, nesting) {
            Ok(turtle) => turtle,
            Err(AllocError) => return Err(MotionRefusal::Memory),
        };
        match survey_picture(forest, system, &mut turtle) {
            Err(refusal) => Err(refused(refusal)),
            Ok(bounds) => match kept(alloc, forest, system, bounds) {
                Ok(motions) => Ok(motions),
                Err(AllocError) => Err(MotionRefusal::Memory),
            },
        }
    }

    /// The number of symbols of the image, which is at most 1,000,000.
    pub fn len(&self) -> u32
        ensures { result + 1 ≡ length self.now.poses }
    {
        self.symbols
    }

    /// How far the picture reaches: the least and the greatest values of the three measures, of the
    /// origin and of both ends of each segment.
    pub fn bounds(&self) -> Extents
        ensures { extents_of result ≡ self.now.bounds }
    {
        self.bounds
    }

    /// Where the turtle stands after the first `place` symbols of the image, at most `len`.
    ///
    /// It goes down from the axiom's pieces to the symbol's: past the pieces before it by their
    /// numbers of symbols, and into the one that holds it. So the time is that of the pieces beside
    /// those on the way, and not of the symbols before it.
    pub fn at(&self, place: u32) -> Pose<T>
        requires { place < length self.now.poses }
        ensures { Some result ≡ slice_get self.now.poses place }
    {
        if place == self.symbols {
            return self.end.pose();
        }
        stand_before(self.pieces.as_slice(), place).pose()
    }
}

/// A picture's refusal, which isn't `Failed`.
fn refused(refusal: PictureRefusal) -> MotionRefusal
    requires { (r : P.PictureRefusal) × IsRefusal r refusal }
    ensures { (r : P.PictureRefusal) → IsRefusal r refusal
        → IsAsTold {A = Track} (Err r) (Err result) }
{
    match refusal {
        PictureRefusal::Image(refusal) => MotionRefusal::Image(refusal),
        PictureRefusal::Far { module } => MotionRefusal::Far { module },
        PictureRefusal::Failed => unreachable!(),
    }
}

/// The motions of a picture that isn't refused, and reaches so far.
fn kept<T: Lattice, A: Kept>(
    alloc: Global,
    forest: &Forest<A>,
    system: &System,
    bounds: Extents,
) -> Result<Motions<T>, AllocError>
    requires last { HasLast system.now (complete_levels forest.now) }
    requires drawn { (last_drawing T.shape system.now (complete_levels forest.now)).refusal ≡ None }
    requires bounds { extents_of bounds ≡ last_bounds T.shape system.now (complete_levels forest.now) }
    ensures { IfOk result (λ m. m ≡ last_told T.shape system.now (complete_levels forest.now)) }
{
    let keeper = taken(alloc, forest, system)?;
    let (pieces, symbols, end) = keeper.into_parts();
    Ok(Motions {
        pieces,
        symbols,
        end,
        bounds,
    })
}

/// The whole image of a picture that isn't refused, taken as the forest's nodes group it.
fn taken<T: Lattice, A: Kept>(
    alloc: Global,
    forest: &Forest<A>,
    system: &System,
) -> Result<Keeper<T>, AllocError>
    requires last { HasLast system.now (complete_levels forest.now) }
    requires drawn { (last_drawing T.shape system.now (complete_levels forest.now)).refusal ≡ None }
    ensures taken { IfOk result (HasTakenLast T.shape system.now (complete_levels forest.now)) }
    ensures none { IfOk result (λ k. k.marks ≡ []) }
{
    let mut keeper = Keeper::new(alloc);
    let mut walk = Walk::new(forest, system.hom_rules(), system.depth());
    let levels = system.depth().saturating_add(1);
    take_below(forest, forest.root(), levels, &mut walk, &mut keeper)?;
    take_rest(&mut walk, &mut keeper)?;
    keeper.finish();
    Ok(keeper)
}
