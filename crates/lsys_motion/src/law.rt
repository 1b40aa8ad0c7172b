//! Laws of what motions tell.
ghost use Rattle.lsys_lattice.specs.Bounds.{bounds};
ghost use Rattle.lsys_motion.specs.Told.{IsRefusedAsPicture, TellsBounds, TellsTurtles};
ghost use Rattle.lsys_motion.specs.LastLevels.{HasLastOfMore, HasSameLast};

/// What is told of a level's picture are its bounds, and the pose of its turtle after any number
/// of symbols; and it is refused as the picture is.
pub fn law_of_told()
    ensures bounds { TellsBounds }
    ensures turtles { TellsTurtles }
    ensures refused { IsRefusedAsPicture }
{}

/// The levels up to the system's depth tell the last one: levels that go on have it too.
pub fn law_of_last_levels()
    ensures has { HasLastOfMore }
    ensures same { HasSameLast }
{}
