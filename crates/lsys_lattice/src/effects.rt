//! What strings do to turtles: the laws by which kept motions answer.

ghost use Rattle.std.specs.Prelude.{◌≡◌};
ghost use Rattle.lsys_spec.specs.Lattices.{Lattice, Vector, Frame, first_frame};
ghost use Rattle.lsys_spec.specs.Pictures as pictures;
ghost use Rattle.lsys_lattice.specs.Free.{turtle_of};
ghost use Rattle.lsys_lattice.specs.Rotations.{carried, frame_within};
ghost use Rattle.lsys_lattice.specs.Effects.{first_walker};
ghost use Rattle.lsys_lattice.specs.CarriedFrames.{FramesCarrySumsToSums, FramesCarryMultiplesToMultiples, FollowedFramesCarryInTurn, FollowingIsAssociative, TurnsPassThroughFollowing, FollowingStaysAmongFrames};
ghost use Rattle.lsys_lattice.specs.MultipliedEffects.{EffectsAreTheSameAnywhere, EffectsAreMultiplied, BranchesHaveNoEffect, DrawnEndsAreCarriedOn, ReachedPlacesAreCarriedOn, ReachedPlacesAreTheSameAnywhere};
ghost use Rattle.lsys_lattice.specs.BalancedParts.{CutsLeaveBalancedParts, ChildrenOfPartsStandSideBySide};
ghost use Rattle.lsys_lattice.specs.FreeTurtles.{TurtlesStepAsTheFreeWay, TurtlesDrawTheEndsOfTheFreeWay, TurtlesStopAtTheFirstFarModule, TurtlesDrawWhereNothingIsFar, NothingIsFarWhereAllPlacesAreNear, BoundsAreToldByDrawnEnds, TurtlesStandOnTheFreeWay};

/// A frame carries the first heading to its own, and the first frame carries nothing anywhere; sums are carried to sums and
/// multiples to multiples.
pub fn law_of_carrying()
    ensures heading { (l : Lattice) (f : Frame) → carried l f (first_frame l).heading ≡ f.heading }
    ensures start { (l : Lattice) (v : Vector) → carried l (first_frame l) v ≡ v }
    ensures sum { FramesCarrySumsToSums }
    ensures multiple { FramesCarryMultiplesToMultiples }
{}

/// Frames that follow one another carry one after the other; following is associative, and the first frame follows for
/// nothing; a turn of what follows is what follows the turn; no frame is left by following.
pub fn law_of_following()
    ensures carries { FollowedFramesCarryInTurn }
    ensures associative { FollowingIsAssociative }
    ensures start { (l : Lattice) (f : Frame) → frame_within l f (first_frame l) ≡ f }
    ensures turns { TurnsPassThroughFollowing }
    ensures known { FollowingStaysAmongFrames }
{}

/// From any turtle the way over a balanced string ends where its effect does, carried there, and what was saved stays; the
/// effects of strings one after the other are multiplied, a branch has none, and so it is with the ends that are drawn and with
/// the places that are reached.
pub fn law_of_effects()
    ensures anywhere { EffectsAreTheSameAnywhere }
    ensures product { EffectsAreMultiplied }
    ensures branch { BranchesHaveNoEffect }
    ensures ends { DrawnEndsAreCarriedOn }
    ensures reach { ReachedPlacesAreCarriedOn }
    ensures reached { ReachedPlacesAreTheSameAnywhere }
{}

/// What a cut leaves of a balanced part of a string is balanced, whatever stands before it and after it.
pub fn law_of_parts()
    ensures { CutsLeaveBalancedParts }
{}

/// The children of a balanced part of a level, as far as a cut leaves them, stand side by side in the next level, and are
/// balanced. So are the descendants of a module on any level below it.
pub fn law_of_nodes()
    ensures { ChildrenOfPartsStandSideBySide }
{}

/// The turtle of a picture begins as the free way does, and goes as it, as far as no module leads too far: it stops exactly
/// at the first module that does, and draws the same ends. No module does exactly where no place that is reached is too far.
pub fn law_of_free_turtles()
    ensures start { (l : Lattice) → turtle_of (first_walker l) ≡ pictures.at_start l }
    ensures step { TurtlesStepAsTheFreeWay }
    ensures ends { TurtlesDrawTheEndsOfTheFreeWay }
    ensures far { TurtlesStopAtTheFirstFarModule }
    ensures near { TurtlesDrawWhereNothingIsFar }
    ensures reach { NothingIsFarWhereAllPlacesAreNear }
{}

/// How far a picture reaches is told by the effect of its image: by the ends that this draws. And where its turtle is after
/// some symbols of the image is where the free way over these leads.
pub fn law_of_bounds()
    ensures bounds { BoundsAreToldByDrawnEnds }
    ensures turtles { TurtlesStandOnTheFreeWay }
{}
