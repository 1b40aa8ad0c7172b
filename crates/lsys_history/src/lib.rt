//! The history of a desk: the values that edits led away from, and those that were undone.
//!
//! A desk answers lines as a session does, and can go back and on: `specs/` has what it answers a line and a script, with undo and
//! redo, what that may cost, and examples that the checker computes. The functions beside [`History`] are laws with empty bodies:
//! the contract is a law about these definitions.
#![tactic(auto)]

ghost use Rattle.lsys_history.specs.LedBack.{WithoutDeskLinesNothingChanges, CutScriptsKeepEarlierReplies, UndoIsAccepted, UndoLeadsBack, RedoGivesBackTheDesk, UndoneEditsAreAccepted, UndoneEditsLeadBack, DesksKeepTheirLevels};
ghost use Rattle.lsys_history.specs.CostsOfDesks.{LinesThatLeadReplyAsEdits, LeadCostsAreTold, WithoutDeskLinesCostsAreTheSame, DeskCostsAddUpLineByLine, NoDeskCostsAreAddedAfterTheEnd};

mod history;

pub use history::History;

/// A script without desk lines is answered as without a desk.
pub fn law_of_the_former_text()
    ensures { WithoutDeskLinesNothingChanges }
{}

/// Take any front of a script's bytes, and any set of lines that are refused as out of memory. Of the front keep the whole
/// lines, and of the set the numbers of these: the replies are a front of the replies to the script. So a script that is cut
/// off never changes an earlier reply.
pub fn law_of_cuts()
    ensures { CutScriptsKeepEarlierReplies }
{}

/// Where the nearest system of the past has its levels, an undo isn't refused and leads back to it; and where the present
/// one has its levels too, a redo after it gives back the whole desk.
pub fn law_of_undo()
    ensures accepted { UndoIsAccepted }
    ensures back { UndoLeadsBack }
    ensures on { RedoGivesBackTheDesk }
{}

/// An undo after an accepted edit isn't refused, and leads back to the system before the edit.
pub fn law_of_an_undone_edit()
    ensures accepted { UndoneEditsAreAccepted }
    ensures back { UndoneEditsLeadBack }
{}

/// A line that leads somewhere has the reply of the edit from the present system to the one that it leads to. So where both
/// have their levels it is accepted, and the need in its cost is the first number of its `ok M/T`. Without desk lines a
/// script costs what it costs without a desk.
///
/// The cost of a script adds up line by line, up to the line that ends the session.
pub fn law_of_desk_costs()
    ensures leads { LinesThatLeadReplyAsEdits }
    ensures told { LeadCostsAreTold }
    ensures former { WithoutDeskLinesCostsAreTheSame }
    ensures line { DeskCostsAddUpLineByLine }
    ensures end { NoDeskCostsAreAddedAfterTheEnd }
{}

/// A line leaves a desk whose system has its levels under the limit such a desk, also where it is refused as out of
/// memory. So each system along a script has its levels.
pub fn law_of_desk_levels()
    ensures { DesksKeepTheirLevels }
{}
