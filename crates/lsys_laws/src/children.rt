//! Laws of levels as they come from what is kept of the level above them.

ghost use Rattle.lsys_laws.specs.GrownLevels.{LevelsComeFromKeptSuccessors, WithoutOpenCutsEachHasItsOwn, KeptNodesAreTheLevelBelow, ChildrenAreNumberedBelowTheirParent, LevelsAreOneMoreThanTheirNumber, MeantLevelsAreGrown, UndisturbedIsSettledUpToALevel, LevelsAreTheSameUnderAnyLimit};

/// A level comes from the kept successors of the level above it, whether children are numbered by places or by names:
/// each symbol has its own children, cut among themselves, or none, where a cut before it reaches it. Where no successor
/// has a cut that reaches what stands after it, each symbol has its own children. Nodes that keep these are so the level
/// below. The children of a symbol have its lineage with their numbers.
pub fn law_of_kept_children()
    ensures level { LevelsComeFromKeptSuccessors }
    ensures alone { WithoutOpenCutsEachHasItsOwn }
    ensures nodes { KeptNodesAreTheLevelBelow }
    ensures numbers { ChildrenAreNumberedBelowTheirParent }
{}

/// What holds of the levels of a well-spelled system holds of those of an unfinished derivation: there is one level more
/// than its number says, each is balanced and each of its lineages stands there once; and between the old levels and the
/// new ones the test of disturbed symbols tells which are settled.
pub fn law_of_unfinished_levels()
    ensures count { LevelsAreOneMoreThanTheirNumber }
    ensures levels { MeantLevelsAreGrown }
    ensures disturbed { UndisturbedIsSettledUpToALevel }
{}

/// Which levels a system has up to a level does not depend on the limit. So what is kept of a question, which is told by
/// them, depends on the system, the level and the lineage alone.
pub fn law_of_one_level()
    ensures { LevelsAreTheSameUnderAnyLimit }
{}
