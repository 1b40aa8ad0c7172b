//! The walk to the left.
ghost use Rattle.std.specs.Prelude.{◌≡◌, ◌+◌, ◌≤◌, ◌++◌, length, reverse, OnOk, OnErr};
ghost use Rattle.lsys_spec.specs.Meaning.{most_entries};
ghost use Rattle.lsys_level.specs.Spots.{IsSpot};
ghost use Rattle.lsys_walks.specs.SpotReads.{WalksLeft, BeginsLeftWalk};

use crate::counter::Counter;
use crate::entry::Entry;
use crate::mark::Mark;
use crate::meeting::{Meeting, meet_module};
use crate::reading::Reading;
use crate::walked::Walked;
use lsys_bodies::{Filter, Pattern};
use lsys_level::{LevelView, Sight};
use std::alloc::AllocError;
use std::sync::ledger::Ledger;

/// Reads outward from a spot to the left, for the patterns of a rule's left context, of which the last one is the nearest
/// (ABOP 1.8 and 1.10.2).
///
/// A branch that ends to the left is passed in one step, by its mate; out of its own branch the walk goes by that branch's
/// `[`. An ignored module is passed; any other one is compared with the pattern that is due, and the walk stops at the
/// entry that decides it. Each entry is added to `trace`, compared there with the old one, and counted by `visited`. Where
/// the patterns match, the parameters of the modules that they match stand after those of `bound`, the last one first.
///
/// The level has no cuts, so it takes at most as many steps as symbols stand to the left. With the 1,025th entry of the
/// trace it answers [`Walked::TooFar`].
///
/// # Errors
///
/// Out of memory, for an entry that differs from the old trace or for the parameters. What was read by then is kept: of
/// the whole trace at most 1,024 entries.
pub fn left_reads<'a, W: LevelView, V: Ledger>(
    view: &W,
    spot: W::Spot,
    filter: Filter<'_>,
    patterns: &[Pattern],
    mark: Mark,
    trace: &mut Reading<'a>,
    bound: &mut Vec<i64>,
    visited: &mut Counter<V>,
) -> Result<Walked, AllocError>
    requires spot { IsSpot (W.levels view.now) (W.level_of view.now spot) (W.place_of view.now spot) }
    requires room { length trace.old.read ≤ most_entries }
    ensures told { WalksLeft W.LevelView view spot filter mark patterns.now trace bound result }
    ensures refused { BeginsLeftWalk W.LevelView view spot filter mark patterns.now trace result }
    ensures few { OnErr result (length trace.new.read ≤ most_entries) }
    ensures same { trace.new.old ≡ trace.old.old }
    ensures counted { visited.new + length trace.old.read ≡ visited.old + length trace.new.read }
{
    let mut at = spot;
    let mut due = patterns.len();
    while due > 0 {
        let next = match view.left(at) {
            None => return Ok(Walked::Missed),
            Some(next) => next,
        };
        let tag = view.tag(next);
        match view.sight(next) {
            Sight::Push => {
                if trace.note(Entry::out(mark, tag), &[], visited)? {
                    return Ok(Walked::TooFar);
                }
                at = next;
            }
            Sight::Pop => {
                let mate = view.mate(next);
                if trace.note(Entry::branch(mark, view.tag(mate), tag), &[], visited)? {
                    return Ok(Walked::TooFar);
                }
                at = mate;
            }
            Sight::Module { name, params } => {
                let pattern = Some(&patterns[due - 1]);
                match meet_module(filter, pattern, mark, tag, name, params, trace, visited)? {
                    Meeting::Ends(walked) => return Ok(walked),
                    Meeting::Passed => {}
                    Meeting::Matched => {
                        push_reversed(bound, params)?;
                        due -= 1;
                    }
                }
                at = next;
            }
        }
    }
    Ok(Walked::Found)
}

/// Adds numbers at the end, the last one first.
fn push_reversed(list: &mut Vec<i64>, values: &[i64]) -> Result<(), AllocError>
    ensures { OnOk result (list.new.items ≡ list.old.items ++ reverse values.now) }
{
    let mut rest = values.len();
    while rest > 0 {
        rest -= 1;
        list.push(values[rest])?;
    }
    Ok(())
}
