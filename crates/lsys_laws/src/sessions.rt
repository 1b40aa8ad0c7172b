//! Laws of sessions: what each line leaves, and what the printed script is answered.

ghost use Rattle.lsys_laws.specs.TakenBack.{ShortScriptsAreTakenBack, SessionsHaveSystemsThatAreTakenBack, LinesWithoutCommandLeaveTheSystem};

/// The printed script as a session answers it: for a well-formed and well-spelled system that has its levels under a
/// limit, and of whose printed lines none is too long, no reply to the printed script under that limit is a refusal,
/// and the last system is that system. So it is for each system of a session.
pub fn law_of_shown_replies()
    ensures taken_back { ShortScriptsAreTakenBack }
    ensures sessions { SessionsHaveSystemsThatAreTakenBack }
{}

/// A line that spells no command, as a blank one, a comment, or one that is refused before its command is known,
/// leaves the system as it was.
pub fn law_of_lines_without_command()
    ensures { LinesWithoutCommandLeaveTheSystem }
{}
