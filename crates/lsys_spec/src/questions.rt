//! Laws of contexts and questions.

ghost use Rattle.lsys_spec.specs.WalkedContexts.{LeftWalksAnswerThePath, RightWalksAnswerTheBranch, WalksAnswerWhatStandsAround};
ghost use Rattle.lsys_spec.specs.UndisturbedQuestions.{SettledSymbolsStandInTheNewLevel, UndisturbedIsSettled, UndisturbedQuestionsStay, UndisturbedChoicesStay, SameQuestionsHaveTheSameChoice, SameQuestionsHaveTheSameSuccessor};
ghost use Rattle.lsys_spec.specs.NeededQuestions.{NeedsAreAtMostTheCandidates, LeastVisitsAreAtMostTheCandidates, TracesNameWhatStandsInTheLevel, WhatIsNotNeededIsAnswered};

/// The left walk answers what the path gives: its last modules, where they match the patterns in order.
pub fn law_of_left_contexts()
    ensures { LeftWalksAnswerThePath }
{}

/// The right walk answers the match of the patterns with the rest of the branch.
pub fn law_of_right_contexts()
    ensures { RightWalksAnswerTheBranch }
{}

/// What a rule's walks answer: the left context, the module itself, and the right context.
pub fn law_of_contexts()
    ensures { WalksAnswerWhatStandsAround }
{}

/// A symbol that isn't disturbed stands in the new level.
pub fn law_of_settled_symbols()
    ensures { SettledSymbolsStandInTheNewLevel }
{}

/// In the levels of well-spelled systems the test of disturbed symbols tells which are settled.
pub fn law_of_disturbed_symbols()
    ensures { UndisturbedIsSettled }
{}

/// Where a module, what was read for it, its group and its key stay, and what is ignored does so too or nothing is
/// read, its question and its choice are the same.
pub fn law_of_undisturbed_questions()
    ensures question { UndisturbedQuestionsStay }
    ensures choice { UndisturbedChoicesStay }
{}

/// Two questions that are the same have the same choice: the same place of the group with the same values, or none, or
/// the same fault; and so the same successor.
pub fn law_of_same_questions()
    ensures choice { SameQuestionsHaveTheSameChoice }
    ensures successor { SameQuestionsHaveTheSameSuccessor }
{}

/// A question that the old system didn't answer is a candidate: the need of an edit, and the entries that have to be
/// read for it, are at most those of the candidates.
pub fn law_of_needs()
    ensures questions { NeedsAreAtMostTheCandidates }
    ensures visits { LeastVisitsAreAtMostTheCandidates }
{}

/// What an entry of a trace names stands in the level.
pub fn law_of_traces()
    ensures { TracesNameWhatStandsInTheLevel }
{}

/// A question isn't needed exactly where the old system has that very question; by `law_of_same_questions` its choice is
/// then the same.
pub fn law_of_answered_questions()
    ensures { WhatIsNotNeededIsAnswered }
{}
