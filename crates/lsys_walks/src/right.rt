//! The walk to the right.
ghost use Rattle.std.specs.Prelude.{◌≡◌, ◌+◌, ◌-◌, ◌<◌, ◌≤◌, length, take, OnErr};
ghost use Rattle.lsys_spec.specs.Meaning.{most_entries};
ghost use Rattle.lsys_level.specs.Spots.{IsSpot};
ghost use Rattle.lsys_walks.specs.SpotReads.{WalksRight, BeginsRightWalk, WalksInner, BeginsInnerWalk};
ghost use Rattle.lsys_walks.specs.Walked.{FoundAtBranch, MissedAsItWas};

use crate::counter::Counter;
use crate::entry::Entry;
use crate::item::{after, is_wanted, pattern_in};
use crate::mark::Mark;
use crate::meeting::{Meeting, meet_module};
use crate::reading::Reading;
use crate::walked::Walked;
use lsys_bodies::{Filter, Item};
use lsys_level::{LevelView, Sight};
use std::alloc::AllocError;
use std::sync::ledger::Ledger;

/// Reads from after a spot to the right, for the items of a rule's right context from one on, up to the `]` that ends
/// their branch or to the last one (ABOP 1.8 and 1.10.2).
///
/// The walk reads no further than the spot's own branch. A branch costs one entry, with its two brackets. A module pattern
/// passes it over; a branch pattern is tried in it, one deeper, and is wanted again after it where it didn't match there:
/// it need not reach the branch's end, and any of the branches that stand here may match. An ignored module is passed; any
/// other one is compared, and the walk stops at the entry that decides it. Each entry is added to `trace`, compared there
/// with the old one, and counted by `visited`. Where the items match, the parameters of the modules that they match stand
/// after those of `bound`, in order.
///
/// It is called again once for each branch pattern that is open, so at most eight deep, however deep the level is. With the
/// 1,025th entry of the trace it answers [`Walked::TooFar`].
///
/// # Errors
///
/// Out of memory, for an entry that differs from the old trace or for the parameters. What was read by then is kept: of
/// the whole trace at most 1,024 entries.
#[cycle(right_reads)]
pub fn right_reads<'a, W: LevelView, V: Ledger>(
    view: &W,
    spot: W::Spot,
    filter: Filter<'_>,
    items: &[Item],
    first: usize,
    mark: Mark,
    trace: &mut Reading<'a>,
    bound: &mut Vec<i64>,
    visited: &mut Counter<V>,
) -> Result<Walked, AllocError>
    requires spot { IsSpot (W.levels view.now) (W.level_of view.now spot) (W.place_of view.now spot) }
    requires first { first ≤ length items.now }
    requires depth { mark.depth + (length items.now - first) < 256 }
    requires room { length trace.old.read ≤ most_entries }
    ensures told { WalksRight W.LevelView view spot filter mark items.now first trace bound result }
    ensures refused { BeginsRightWalk W.LevelView view spot filter mark items.now first trace result }
    ensures few { OnErr result (length trace.new.read ≤ most_entries) }
    ensures front { take (length bound.old.items) bound.new.items ≡ bound.old.items }
    ensures same { trace.new.old ≡ trace.old.old }
    ensures counted { visited.new + length trace.old.read ≡ visited.old + length trace.new.read }
{
    let mut at = view.right(spot);
    let mut next = first;
    while is_wanted(items, next) {
        let here = match at {
            None => return Ok(Walked::Missed),
            Some(here) => here,
        };
        let tag = view.tag(here);
        match view.sight(here) {
            Sight::Pop => return Ok(Walked::Missed),
            Sight::Push => {
                let mate = view.mate(here);
                at = view.right(mate);
                if trace.note(Entry::branch(mark, tag, view.tag(mate)), &[], visited)? {
                    return Ok(Walked::TooFar);
                }
                match inner_reads(view, here, filter, items, next, mark, trace, bound, visited)? {
                    Walked::TooFar => return Ok(Walked::TooFar),
                    Walked::Found => next = after(items, next),
                    Walked::Missed => {}
                }
            }
            Sight::Module { name, params } => {
                at = view.right(here);
                let due = pattern_in(&items[next]);
                match meet_module(filter, due, mark, tag, name, params, trace, visited)? {
                    Meeting::Ends(walked) => return Ok(walked),
                    Meeting::Passed => {}
                    Meeting::Matched => {
                        bound.extend_from_slice(params)?;
                        next += 1;
                    }
                }
            }
        }
    }
    Ok(Walked::Found)
}

/// Tries a branch pattern in the branch that begins at a spot. Where a module pattern is wanted, it reads nothing and
/// answers [`Walked::Missed`]; where it answers that, `bound` is as it was.
///
/// # Errors
///
/// As of [`right_reads`].
#[cycle(right_reads)]
fn inner_reads<'a, W: LevelView, V: Ledger>(
    view: &W,
    spot: W::Spot,
    filter: Filter<'_>,
    items: &[Item],
    next: usize,
    mark: Mark,
    trace: &mut Reading<'a>,
    bound: &mut Vec<i64>,
    visited: &mut Counter<V>,
) -> Result<Walked, AllocError>
    requires spot { IsSpot (W.levels view.now) (W.level_of view.now spot) (W.place_of view.now spot) }
    requires within { next < length items.now }
    requires depth { mark.depth + (length items.now - next) < 256 }
    requires room { length trace.old.read ≤ most_entries }
    ensures told { WalksInner W.LevelView view spot filter mark items.now next trace bound result }
    ensures refused { BeginsInnerWalk W.LevelView view spot filter mark items.now next trace result }
    ensures branch { FoundAtBranch items.now next result }
    ensures missed { MissedAsItWas bound.old.items bound.new.items result }
    ensures few { OnErr result (length trace.new.read ≤ most_entries) }
    ensures front { take (length bound.old.items) bound.new.items ≡ bound.old.items }
    ensures same { trace.new.old ≡ trace.old.old }
    ensures counted { visited.new + length trace.old.read ≡ visited.old + length trace.new.read }
{
    let Item::Push = &items[next] else {
        return Ok(Walked::Missed);
    };
    let kept = bound.len();
    let inside = Mark {
        rule: mark.rule,
        depth: mark.depth + 1,
    };
    let first = next + 1;
    let walked = right_reads(
        view, spot, filter, items, first, inside, trace, bound, visited,
    )?;
    if let Walked::Missed = walked {
        bound.truncate(kept);
    }
    Ok(walked)
}
