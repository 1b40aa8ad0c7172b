//! Laws of sessions: what was answered stays answered, and what a line leaves after.

ghost use Rattle.lsys_spec.specs.AnsweredLines.{FrontsAreAnsweredAlike, NothingIsAnsweredAfterTheEnd, RefusedLinesLeaveTheSystem, QueriesLeaveTheSystem, AcceptedEditsLeaveWhatTheyMake};

/// What stands after a whole line changes none of the replies up to it: the replies to a front of whole lines are a
/// front of the replies. After a `quit` that is heeded nothing is answered.
pub fn law_of_fronts()
    ensures front { FrontsAreAnsweredAlike }
    ensures ended { NothingIsAnsweredAfterTheEnd }
{}

/// A refused line leaves the system as it was, and so does a query. An edit that isn't refused leaves what it makes of
/// the system.
pub fn law_of_next_systems()
    ensures refused { RefusedLinesLeaveTheSystem }
    ensures query { QueriesLeaveTheSystem }
    ensures edit { AcceptedEditsLeaveWhatTheyMake }
{}
