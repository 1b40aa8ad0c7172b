//! The law of candidates.
ghost use Rattle.lsys_front.specs.Candidates.{CandidatesAreTheirNodes};

/// The module at a place of a level is a candidate exactly where its node is one: where it asks something, and the level
/// was the last one before, or the node does not stand there as it stood, or one that its old answer read does not, or its
/// module has other rules.
pub fn law_of_candidates()
    ensures { CandidatesAreTheirNodes }
{}
