//! Laws of answers and of questions told by tags.
ghost use Rattle.lsys_match.specs.KeptAnswers.{AreSameByLineages, NewHoldsOwnRuns, StaysMadeAfterRelease, StaysMadeBesideNew, StaysMadeInMoreRoom};

/// A law of kept answers: they stay what they are when another one is made or released, or when the store gets more room;
/// and a new answer holds its own runs.
pub fn law_of_kept_answers()
    ensures new { StaysMadeBesideNew }
    ensures own { NewHoldsOwnRuns }
    ensures released { StaysMadeAfterRelease }
    ensures stays { StaysMadeInMoreRoom }
{}

/// A law of questions told by tags: where the tags of an old question and a new one are equal exactly where their lineages
/// are, the questions are the same by tags exactly where they are by lineages.
pub fn law_of_tagged_questions()
    ensures { AreSameByLineages }
{}
