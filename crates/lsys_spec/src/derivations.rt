//! Laws of derivations: what a level depends on, and what it doesn't.

ghost use Rattle.lsys_spec.specs.Dependence.{SuccessorsAreTheSameAnywhere, LevelsAreMadeByAMorphism, StringsAreRewrittenLetterByLetter, MeaningDependsOnWhatLevelsIgnore, NextLevelsDependOnWhatIsIgnored, LevelsAskByWhatIsIgnored, AbsentLettersMayBeIgnored};

/// Without contexts a module's successor doesn't depend on where it stands.
pub fn law_of_context_free_successors()
    ensures { SuccessorsAreTheSameAnywhere }
{}

/// Without contexts and weights a level, before its cut, comes from the level before by a morphism: each letter gives
/// the string that it would give alone, and the strings stand one after the other. A fault of one is the other's.
pub fn law_of_morphisms()
    ensures level { LevelsAreMadeByAMorphism }
    ensures letter_by_letter { StringsAreRewrittenLetterByLetter }
{}

/// Ignored names matter only by the modules of the levels: where other names ignore the same of them, the next level,
/// its faults and the questions are the same, and so is what a system means. So a letter that doesn't occur may be
/// ignored or not.
pub fn law_of_ignored_names()
    ensures meaning { MeaningDependsOnWhatLevelsIgnore }
    ensures level { NextLevelsDependOnWhatIsIgnored }
    ensures questions { LevelsAskByWhatIsIgnored }
    ensures absent { AbsentLettersMayBeIgnored }
{}
