//! The law of the next level.
ghost use Rattle.lsys_children.specs.MadeLevels.{WalkedLevelIsTheNext, ClosedLevelIsTheNext, MadeLevelKeepsAnswers};

/// Nodes are the levels of a system up to level t, with the right answers on it. Where the children of some of its nodes are
/// made, and the others had those that are wanted of them, the nodes are the levels up to t + 1, if these are within the limit:
/// by what a walk of the level finds to be wanted, or, where no cut reaches what stands after the children of one node, by
/// what replaces each. Answers stay.
pub fn law_of_made_levels()
    ensures walked { WalkedLevelIsTheNext }
    ensures alone { ClosedLevelIsTheNext }
    ensures answers { MadeLevelKeepsAnswers }
{}
