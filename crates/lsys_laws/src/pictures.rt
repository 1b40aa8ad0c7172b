//! Laws of pictures: their box, and the turtles that draw them.

ghost use Rattle.lsys_laws.specs.DrawnPictures.{BoxesAreLeast, ActsDependOnTheFirstLetter, ActsDependOnTheFirstParameter, ShiftedTurtlesDrawShiftedSegments};

/// The box of a picture, without its margin of 10, holds the projected origin and both projected ends of each segment,
/// and each of its sides touches one of these points. So no smaller box holds them.
pub fn law_of_least_boxes()
    ensures { BoxesAreLeast }
{}

/// What a module does to a turtle depends on its name and its first parameter alone, and of a name with letters on its
/// first letter; a missing parameter is 1.
pub fn law_of_acts()
    ensures letters { ActsDependOnTheFirstLetter }
    ensures parameters { ActsDependOnTheFirstParameter }
{}

/// Two turtles that differ by a vector, in their poses and in those that they saved, draw segments that differ by it,
/// where neither comes too far.
pub fn law_of_shifted_turtles()
    ensures { ShiftedTurtlesDrawShiftedSegments }
{}
