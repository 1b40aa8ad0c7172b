//! Why a level has no next one: the leftmost of its faults.
ghost use Rattle.std.specs.Prelude.{◌≡◌, ◌⊎◌, ◌+◌, ◌<◌, ◌≤◌, ◌^◌, [], length, MatchOption};
ghost use Rattle.lsys_forest.specs.Rows.{IsAtSpot, complete_levels, level_of_node, place_of_node};
ghost use Rattle.lsys_level.specs.Spots.{IsSpot, spots_at};
ghost use Rattle.lsys_level.specs.Views.{seen_of};
ghost use Rattle.lsys_pass.specs.Leftmost.{AreOnLevel, IsLeftmost, IsLeftmostFault, is_one, modules_at};
ghost use Rattle.lsys_pass.specs.Beginnings.{RefusesLongAxiom};

use crate::fault::Faulted;
use lsys_forest::{Forest, Kept};
use lsys_level::{LevelView, Sight};
use lsys_rewrite::DeriveRefusal;

/// Why a level has no next one: the leftmost of these faults of its nodes, with the number of its module; none where there is
/// no fault.
pub(crate) fn first_fault<A: Kept>(
    forest: &Forest<A>,
    level: u32,
    faults: &[Faulted],
) -> Option<DeriveRefusal>
    requires on_level { AreOnLevel forest.now level faults.now }
    requires few { length (spots_at (complete_levels forest.now) level) < 2 ^ 32 }
    ensures { MatchOption result (faults.now ≡ []) (IsLeftmostFault forest.now level faults.now) }
{
    let first = leftmost(forest, level, faults)?;
    Some(DeriveRefusal::Fault {
        kind: first.kind,
        level,
        module: module_number(forest, first.node),
    })
}

/// Why level 0, which would have so many symbols, can't be made; none where there is room for it.
pub(crate) fn first_refusal(limit: u32, symbols: usize) -> Option<DeriveRefusal>
    ensures { RefusesLongAxiom limit symbols result }
{
    if symbols > limit as usize {
        Some(DeriveRefusal::Limit { level: 0 })
    } else {
        None
    }
}

/// Of nodes of one level that have faults the leftmost; none where there is none.
fn leftmost<A: Kept>(forest: &Forest<A>, level: u32, faults: &[Faulted]) -> Option<Faulted>
    requires { AreOnLevel forest.now level faults.now }
    ensures { MatchOption result (faults.now ≡ []) (IsLeftmost forest.now faults.now) }
{
    let mut first = *faults.first()?;
    for fault in faults {
        first = first_of(forest, first, *fault);
    }
    Some(first)
}

/// Of two nodes of one complete level the one that comes first; the first one, where they are one node.
fn first_of<A: Kept>(forest: &Forest<A>, one: Faulted, two: Faulted) -> Faulted
    requires one { IsAtSpot forest.now one.node }
    requires two { IsAtSpot forest.now two.node }
    requires level { level_of_node forest.now two.node ≡ level_of_node forest.now one.node }
    ensures either { (result ≡ one) ⊎ (result ≡ two) }
    ensures first { place_of_node forest.now result.node ≤ place_of_node forest.now one.node }
    ensures second { place_of_node forest.now result.node ≤ place_of_node forest.now two.node }
{
    if forest.is_before(two.node, one.node) {
        two
    } else {
        one
    }
}

/// The number of a module on its level: how many modules stand there up to it. It goes along the level to the left end.
fn module_number<W: LevelView>(view: &W, spot: W::Spot) -> u32
    requires spot { IsSpot (W.levels view.now) (W.level_of view.now spot) (W.place_of view.now spot) }
    requires few { W.place_of view.now spot + 1 < 2 ^ 32 }
    ensures { result ≡ modules_at W.LevelView view.now spot + 1 }
{
    let mut number = 1;
    let mut at = view.left(spot);
    while let Some(found) = at {
        number += one_if_module(&view.sight(found));
        at = view.left(found);
    }
    number
}

/// One for a module.
fn one_if_module(sight: &Sight<'_>) -> u32
    ensures one { result ≡ is_one (seen_of sight.now) }
    ensures few { result ≤ 1 }
{
    match sight {
        Sight::Module { .. } => 1,
        _ => 0,
    }
}
