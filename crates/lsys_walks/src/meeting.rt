//! Modules that walks meet.
ghost use Rattle.std.specs.Prelude.{◌≡◌, ◌+◌, ◌≤◌, length, option_copied, OnErr};
ghost use Rattle.lsys_walks.specs.Meetings.{NotesModule, DecidesModule};

use crate::counter::Counter;
use crate::entry::Entry;
use crate::mark::Mark;
use crate::pattern::fits;
use crate::reading::Reading;
use crate::walked::Walked;
use lsys_bodies::{Filter, Pattern};
use lsys_level::Tag;
use lsys_text::Name;
use std::alloc::AllocError;
use std::sync::ledger::Ledger;

/// How a walk goes on at a module.
#[derive(Clone, Copy)]
pub(crate) enum Meeting {
    /// The module is ignored, and the walk passes it.
    Passed,
    /// It fits the pattern that is due.
    Matched,
    /// The walk ends here.
    Ends(Walked),
}

/// Meets a module, where a pattern is due or a branch. The module is added to `trace`, as ignored or as compared, and
/// counted by `visited`. An ignored one is passed; any other one must fit the pattern, or the walk ends.
///
/// # Errors
///
/// Out of memory for the entry. Nothing was then read or counted.
pub(crate) fn meet_module<'a, V: Ledger>(
    filter: Filter<'_>,
    due: Option<&Pattern>,
    mark: Mark,
    tag: Tag,
    name: Name,
    params: &[i64],
    trace: &mut Reading<'a>,
    visited: &mut Counter<V>,
) -> Result<Meeting, AllocError>
    requires { length params.now ≤ 8 }
    ensures noted { NotesModule filter mark tag name params.now trace result }
    ensures decided { DecidesModule filter (option_copied due.entry) name params.now trace result }
    ensures refused { OnErr result (trace.new.read ≡ trace.old.read) }
    ensures same { trace.new.old ≡ trace.old.old }
    ensures counted { visited.new + length trace.old.read ≡ visited.old + length trace.new.read }
{
    if filter.ignores(name) {
        if trace.note(Entry::ignored(mark, tag, name, params), params, visited)? {
            return Ok(Meeting::Ends(Walked::TooFar));
        }
        return Ok(Meeting::Passed);
    }
    if trace.note(Entry::compared(mark, tag, name, params), params, visited)? {
        return Ok(Meeting::Ends(Walked::TooFar));
    }
    match due {
        Some(pattern) => {
            if fits(pattern, name, params) {
                return Ok(Meeting::Matched);
            }
            Ok(Meeting::Ends(Walked::Missed))
        }
        None => Ok(Meeting::Ends(Walked::Missed)),
    }
}
