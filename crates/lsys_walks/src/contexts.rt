//! The reads of a rule.
ghost use Rattle.std.specs.Prelude.{◌≡◌, ◌+◌, ◌≤◌, length, OnErr};
ghost use Rattle.lsys_spec.specs.Meaning.{most_entries};
ghost use Rattle.lsys_level.specs.Spots.{IsSpot};
ghost use Rattle.lsys_bodies.specs.Built.{IsBuilt};
ghost use Rattle.lsys_walks.specs.SpotReads.{WalksContexts, BeginsContexts};

use crate::counter::Counter;
use crate::left::left_reads;
use crate::mark::Mark;
use crate::reading::Reading;
use crate::right::right_reads;
use crate::walked::Walked;
use lsys_bodies::{Body, Filter};
use lsys_level::LevelView;
use std::alloc::AllocError;
use std::sync::ledger::Ledger;

/// Reads what a rule asks for at a module: its left context, and where that matches its right one.
///
/// `own` are the module's parameters, `rule` is the rule's place in its group. Where both contexts match, `bound` holds the
/// values of all formals of the rule, those of the left context first, then the module's own, then those of the right
/// context. Each entry is added to `trace`, compared there with the old one, and counted by `visited`. With the 1,025th
/// entry of the trace it answers [`Walked::TooFar`].
///
/// # Errors
///
/// Out of memory, for an entry that differs from the old trace or for the parameters. What was read by then is kept: of
/// the whole trace at most 1,024 entries.
pub fn context_reads<'a, W: LevelView, V: Ledger>(
    view: &W,
    spot: W::Spot,
    own: &[i64],
    filter: Filter<'_>,
    body: &Body,
    rule: u8,
    trace: &mut Reading<'a>,
    bound: &mut Vec<i64>,
    visited: &mut Counter<V>,
) -> Result<Walked, AllocError>
    requires spot { IsSpot (W.levels view.now) (W.level_of view.now spot) (W.place_of view.now spot) }
    requires built { IsBuilt body.now }
    requires room { length trace.old.read ≤ most_entries }
    ensures told { WalksContexts W.LevelView view spot filter rule body.now own.now trace bound result }
    ensures refused { BeginsContexts W.LevelView view spot filter rule body.now own.now trace result }
    ensures few { OnErr result (length trace.new.read ≤ most_entries) }
    ensures same { trace.new.old ≡ trace.old.old }
    ensures counted { visited.new + length trace.old.read ≡ visited.old + length trace.new.read }
{
    bound.truncate(0);
    let mark = Mark { rule, depth: 0 };
    match left_reads(view, spot, filter, &body.left, mark, trace, bound, visited)? {
        Walked::Found => {
            bound.reverse();
            bound.extend_from_slice(own)?;
            let right = &body.right;
            let walked = right_reads(view, spot, filter, right, 0, mark, trace, bound, visited)?;
            Ok(walked)
        }
        Walked::Missed => Ok(Walked::Missed),
        Walked::TooFar => Ok(Walked::TooFar),
    }
}
