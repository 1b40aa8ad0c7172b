//! What is kept of the parts of a string, and how the whole is told by it: the laws on which kept motions stand.
//!
//! Its functions are laws with empty bodies.

ghost use Rattle.std.specs.Prelude.{◌≡◌, [], ◌∷◌};
ghost use Rattle.lsys_syntax.specs.Strings as S;
ghost use Rattle.lsys_spec.specs.Lattices.{Lattice};
ghost use Rattle.lsys_spec.specs.Systems.{System, WellSpelled};
ghost use Rattle.lsys_lattice.specs.Images.{HasBalancedImages};
ghost use Rattle.lsys_spec.specs.Pictures.{origin};
ghost use Rattle.lsys_lattice.specs.Motions.{motion, at_rest};
ghost use Rattle.lsys_lattice.specs.Far.{IsInPlane};
ghost use Rattle.lsys_lattice.specs.JoinedMotions.{FramesCarryExtents, StandsSeeExtents, MotionsAreJoined, WhatIsJoinedIsTheMotion, JoiningIsAssociative, RestBeforeAddsNothing, RestAfterAddsNothing, BranchesLeadNowhere, ModulesMoveAsTheyAct, MotionsTellBounds};
ghost use Rattle.lsys_lattice.specs.CoursesOfParts.{CoursesAreTheSameAnywhere, FirstStringsAreGoneFirst, SecondStringsAreGoneOnward, BranchesAreGoneInward, BranchesAreLeftAtTheStart, PartsLeadOneAfterTheOther, PartsAreGoneFromWhereOthersLed, StringsOfBalancedRunsAreBalanced, DescentsFindTheCourse, DescentsFindTheTurtle};
ghost use Rattle.lsys_lattice.specs.FarModules.{SeenExtentsTellFarModules, TheFirstFarModuleIsInTheFirstFarPart, PartsStayInThePlane};
ghost use Rattle.lsys_lattice.specs.ImagesOfParts.{ImagesStandSideBySide, PartsHaveTheirImages, BalancedPartsHaveBalancedImages, PartsHaveTheirDescendants, ModulesHaveTheirDescendants};

/// What a frame of the lattice makes of the extents of places is told by the extents alone, and so is how they are seen from a
/// stand.
pub fn law_of_carried_extents()
    ensures frame { FramesCarryExtents }
    ensures stand { StandsSeeExtents }
{}

/// The motion of a whole is told by the motions of its parts: of strings one after the other they are joined, whichever are
/// joined first, and rest adds nothing; what is made by carrying extents is this. A branch leads nowhere, and draws and reaches
/// what is in it; a single module has the motion of what it does, and no symbol is at rest. How far a picture reaches is told by the
/// motion of its image.
pub fn law_of_motions()
    ensures joined { MotionsAreJoined }
    ensures made { WhatIsJoinedIsTheMotion }
    ensures associative { JoiningIsAssociative }
    ensures rest_before { RestBeforeAddsNothing }
    ensures rest_after { RestAfterAddsNothing }
    ensures branch { BranchesLeadNowhere }
    ensures module { ModulesMoveAsTheyAct }
    ensures mark { (l : Lattice) → motion l (S.Cut ∷ []) ≡ at_rest l 1 }
    ensures rest { (l : Lattice) → motion l [] ≡ at_rest l 0 }
    ensures bounds { MotionsTellBounds }
{}

/// Inside a balanced string any turtle goes the way from the start, carried to where it is, and what was saved stays below.
/// In strings one after the other it goes the way of the first, and after this that of the second from where the first one
/// leads. In a branch it goes the way of what is in it, with the start saved, and after the `]` it is at the start again.
pub fn law_of_courses()
    ensures anywhere { CoursesAreTheSameAnywhere }
    ensures first { FirstStringsAreGoneFirst }
    ensures second { SecondStringsAreGoneOnward }
    ensures branch { BranchesAreGoneInward }
    ensures after { BranchesAreLeftAtTheStart }
{}

/// Parts side by side lead where each of them leads from where the one before it led. In one of them the turtle goes the way
/// of that part from where those before it led, whatever stands after it.
pub fn law_of_strides()
    ensures effect { PartsLeadOneAfterTheOther }
    ensures inside { PartsAreGoneFromWhereOthersLed }
{}

/// Of a string that is told by its parts the way over the first symbols is found by going down to the run where they end: past
/// the parts before it by their effects alone, and into a branch with the start saved. After its `]` a branch has led nowhere,
/// and the width is what it was. So the turtle of a picture is found.
pub fn law_of_fronts()
    ensures balanced { StringsOfBalancedRunsAreBalanced }
    ensures descent { DescentsFindTheCourse }
    ensures turtles { DescentsFindTheTurtle }
{}

/// From a stand no module of a part leads too far exactly where the extents of what it reaches, seen from the stand, stay within
/// the bound. The first module that leads too far is in the first part that has one. A part leads from places of the
/// hexagonal lattice's plane to such places, and the origin is one.
pub fn law_of_far_modules()
    ensures near { SeenExtentsTellFarModules }
    ensures first { TheFirstFarModuleIsInTheFirstFarPart }
    ensures plane { PartsStayInThePlane }
    ensures start { (l : Lattice) → IsInPlane l origin }
{}

/// The image of a level is told part by part: after the image of one part comes that of the next, as many modules and symbols
/// further on, and the first refusal is the whole's. Of a whole image each part is the image of that part alone, and balanced
/// parts have balanced images.
pub fn law_of_image_parts()
    ensures parts { ImagesStandSideBySide }
    ensures middle { PartsHaveTheirImages }
    ensures balanced { BalancedPartsHaveBalancedImages }
    ensures spelled { (s : System) → WellSpelled s → HasBalancedImages s }
{}

/// The descendants of a balanced part of a level stand side by side in each level below, and are balanced there. So do those of
/// a module, which is such a part.
pub fn law_of_descendants()
    ensures part { PartsHaveTheirDescendants }
    ensures module { ModulesHaveTheirDescendants }
{}
