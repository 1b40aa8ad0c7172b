//! Laws of what an edit asks and reads, level by level.

ghost use Rattle.lsys_laws.specs.AddedVisits.{CandidatesAddUpByLevels, CandidateVisitsAddUpByLevels, NeedsAddUpByLevels, LeastVisitsAddUpByLevels};

/// What an edit asks and reads, with one level more: once level t + 1 is there, the questions of level t count too, its
/// candidates and what they read, those that have to be asked and what they read.
pub fn law_of_level_visits()
    ensures candidates { CandidatesAddUpByLevels }
    ensures visits { CandidateVisitsAddUpByLevels }
    ensures need { NeedsAddUpByLevels }
    ensures least { LeastVisitsAddUpByLevels }
{}
