//! The law of spots.
ghost use Rattle.lsys_forest.specs.CompleteLevels.{TellsCompleteLevels, BalancedLevelsAreComplete, NodesOfCompleteLevelsAreSpots};

/// A law of spots: a complete level is told as it is; a level is complete if it and every level before it are balanced; and
/// each of its nodes is a spot, at its place among them. That a forest is sound is told by [`Forest::root`].
///
/// [`Forest::root`]: crate::Forest::root
pub fn law_of_spots<A>()
    ensures told { TellsCompleteLevels A }
    ensures complete { BalancedLevelsAreComplete A }
    ensures spots { NodesOfCompleteLevelsAreSpots A }
{}
