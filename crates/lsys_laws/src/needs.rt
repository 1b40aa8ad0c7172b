//! Laws of what an edit needs.

ghost use Rattle.lsys_laws.specs.KnownQuestions.{WhatIsNotNeededWasAsked, CandidatesAreExactlyWhatIsTouched, QuestionsAreKeptAtTheirPlaces, LevelsAskByPlaces, NeededQuestionsStandLevelByLevel, NeedsAreCountedByLevels, LeastVisitsAreWhatTheyRead};

/// A question of the new system isn't needed exactly where it is one of the old system's questions, wherever that
/// stands among them.
pub fn law_of_known_questions()
    ensures { WhatIsNotNeededWasAsked }
{}

/// A candidate of an edit is exactly a question that some clause of the definition touches: it is none exactly where the
/// old system asked there for the same module, rules and key, the module and all that was read for it stand as before,
/// and the same names are ignored or no rule has a context.
pub fn law_of_exact_candidates()
    ensures { CandidatesAreExactlyWhatIsTouched }
{}

/// The question of a system at a level and lineage is what is kept at the lineage's place in that level, where each
/// lineage stands once in each level. The questions of a level are those of its places, in order.
pub fn law_of_kept_questions()
    ensures kept { QuestionsAreKeptAtTheirPlaces }
    ensures level { LevelsAskByPlaces }
{}

/// The questions that an edit needs are, level by level, those of the new level that what is kept at the old place of
/// their symbol's lineage doesn't answer. So the need is their number, and the least visits are what they read in all.
pub fn law_of_needs_by_levels()
    ensures questions { NeededQuestionsStandLevelByLevel }
    ensures need { NeedsAreCountedByLevels }
    ensures visits { LeastVisitsAreWhatTheyRead }
{}
