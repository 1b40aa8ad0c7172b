//! Laws of candidates: what is kept of a question that is none, and how those of a level are found.

ghost use Rattle.lsys_laws.specs.FoundCandidates.{WhatIsNoCandidateIsAsBefore, WhatWasNotAskedIsACandidate, NothingIsAskedOnTheLastLevel, NothingIsAskedWhereNoneStood, CandidatesAreDisturbedOrRuledOtherwise, AnswersAreDisturbedByWhatTheyName, SameRulesAreFound};

/// A question that is no candidate is the old system's, whatever the new system means after this level: the old answer
/// answers it, and is no fault.
pub fn law_of_kept_candidates()
    ensures { WhatIsNoCandidateIsAsBefore }
{}

/// A question that the old system didn't ask at this level and lineage is a candidate: so on a level that was its last, or
/// that it hadn't, and where no symbol of this lineage stood there. One that it asked is a candidate exactly where its own
/// symbol is disturbed, or one that its old answer read, or where the module has other rules. Where the modules of a name
/// have the same rules, with the same seed if they have weights, and the same filter if they have contexts, only what is
/// disturbed counts; and an answer read what is disturbed exactly where some lineage that its entries name is.
pub fn law_of_found_candidates()
    ensures new { WhatWasNotAskedIsACandidate }
    ensures last { NothingIsAskedOnTheLastLevel }
    ensures came { NothingIsAskedWhereNoneStood }
    ensures old { CandidatesAreDisturbedOrRuledOtherwise }
    ensures read { AnswersAreDisturbedByWhatTheyName }
    ensures rules { SameRulesAreFound }
{}
