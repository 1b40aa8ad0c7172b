//! Laws of counts: what is found out about the questions of new levels, place by place, tells how many of them the old system
//! didn't answer, how many there are, and how much is read for them.
//!
//! The functions here have empty bodies: the contract is a law about the definitions of `lsys_spec`, and about answers told by
//! tags.

ghost use Rattle.std.specs.Prelude.{◌≡◌, ◌≤◌, ◌∷◌, ℕ, List, [], length, sum_by};
ghost use Rattle.lsys_spec.specs.Systems.{System};
ghost use Rattle.lsys_spec.specs.Levels.{LevelSymbol};
ghost use Rattle.lsys_spec.specs.Questions.{Question, questions, questions_at, least_visits};
ghost use Rattle.lsys_flat.specs.Laws.{NewAnswersAreTheNeed, NewAndTakenAnswersAreAllQuestions, WhatIsFoundIsKept, AllThatIsFoundIsKept, AnswersMoveAsTheyAreTold, AnswersThatStayAreToldAlike, AsManyAreToldAsKept, LevelsReadNoMoreThanTheirLength, QuestionsGrowByALevel, NothingIsFoundOfLevelZeroAlone, WhatIsFoundGrowsByALevel, NewAndTakenAnswersHaveTheSameLevels, WhatIsFoundCanMove, OldLevelsAreKeyed};

/// The new answers are as many as the questions of the new system that the old one didn't answer; with the answers that are
/// taken over they are as many as all questions of the new system.
pub fn law_of_counts()
    ensures need { NewAnswersAreTheNeed }
    ensures all { NewAndTakenAnswersAreAllQuestions }
{}

/// What was found out about new levels is what is kept of them, once the old answers that are the same are taken over. So
/// it is of one level and of all, and whether answers are told by tags or as they are kept.
pub fn law_of_slots()
    ensures level { WhatIsFoundIsKept }
    ensures levels { AllThatIsFoundIsKept }
    ensures kept { AnswersMoveAsTheyAreTold }
    ensures stay { AnswersThatStayAreToldAlike }
    ensures filled { AsManyAreToldAsKept }
{}

/// What is read for questions is bounded: the least visits by what is read for all of them, this by the length of the level;
/// and the questions of levels are those of each level below the last.
pub fn law_of_visits()
    ensures least { (olds qs : List Question) → least_visits olds qs ≤ sum_by (λ q. length q.trace) qs }
    ensures level { LevelsReadNoMoreThanTheirLength }
    ensures few { (s : System) (t : ℕ) (x : List LevelSymbol) → length (questions_at s t x) ≤ length x }
    ensures first { (s : System) (x : List LevelSymbol) → questions s (x ∷ []) ≡ [] }
    ensures more { QuestionsGrowByALevel }
{}

/// What is found out about new levels, level by level: nothing of level 0 alone, and one level more once the next one is
/// there.
pub fn law_of_found_levels()
    ensures first { NothingIsFoundOfLevelZeroAlone }
    ensures more { WhatIsFoundGrowsByALevel }
{}

/// Where each lineage stands once in a new level, what is found out about these can be taken over: each old answer from its
/// own place, and none where there is a new one.
pub fn law_of_moves()
    ensures levels { NewAndTakenAnswersHaveTheSameLevels }
    ensures places { WhatIsFoundCanMove }
{}

/// What is seen of levels with the keys of their lineages has these by every naming that makes those levels.
pub fn law_of_keys()
    ensures { OldLevelsAreKeyed }
{}
