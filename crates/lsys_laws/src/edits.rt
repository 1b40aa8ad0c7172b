//! Laws of edits: what each leaves well formed.

ghost use Rattle.std.specs.Prelude.{ℕ};
ghost use Rattle.lsys_spec.specs.Systems.{opening};
ghost use Rattle.lsys_laws.specs.Sessions.{IsWell, HasLevels};
ghost use Rattle.lsys_laws.specs.LastingSystems.{EditsKeepSystemsWell, LinesKeepSystemsWell, SessionsHaveSystemsThatAreWell, SessionsLeaveASystemThatIsWell, SessionsHaveSystemsThatReadBack, SessionsHaveSystemsOfPlainLines, LinesKeepLevels, SessionsHaveSystemsWithLevels};

/// The opening system is well formed and well spelled, and so is what a sentence's command makes of such a system,
/// where it isn't refused. So each system of a session is, whatever its script and whichever lines find no memory; and
/// what `show` prints of it reads back as the system, by lines that a session reads as they stand.
pub fn law_of_edits()
    ensures opening { IsWell opening }
    ensures edits { EditsKeepSystemsWell }
    ensures line { LinesKeepSystemsWell }
    ensures sessions { SessionsHaveSystemsThatAreWell }
    ensures last { SessionsLeaveASystemThatIsWell }
    ensures shown { SessionsHaveSystemsThatReadBack }
    ensures plain { SessionsHaveSystemsOfPlainLines }
{}

/// The opening system has its levels under every limit, and a line leaves a system that has them under the session's.
/// So every system of a session has its levels, and what is said of the levels and the questions of systems is said of
/// all that come.
pub fn law_of_session_levels()
    ensures opening { (limit : ℕ) → HasLevels limit opening }
    ensures line { LinesKeepLevels }
    ensures sessions { SessionsHaveSystemsWithLevels }
{}
