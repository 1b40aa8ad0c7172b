//! Laws of seats: how nodes stand beside others, and which of them stand still.

ghost use Rattle.lsys_laws.specs.StillNodes.{SettledNodesStandStill, UndisturbedNodesStandStill, UntouchedNodesAreNoCandidates, NodesAwayFromSeamsStandStill};

/// A symbol of an old level stands in a new one as before exactly where its node is still there, has the same symbol,
/// beside the same nodes with the same symbols, and the same mate; else it is disturbed.
pub fn law_of_seats()
    ensures settled { SettledNodesStandStill }
    ensures disturbed { UndisturbedNodesStandStill }
{}

/// Candidates, node by node: an old question is none exactly where its node and all nodes that its old answer read stand
/// still, and its module has the same rules.
pub fn law_of_untouched_nodes()
    ensures { UntouchedNodesAreNoCandidates }
{}

/// Who isn't looked at stands still: a node of both levels, below a level of which some nodes are touched and some turned,
/// stands still where its symbol, those of its neighbours, and its mate are the old ones, or it is at a seam.
pub fn law_of_still_nodes()
    ensures { NodesAwayFromSeamsStandStill }
{}
