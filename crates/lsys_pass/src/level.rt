//! The next level is made.
ghost use Rattle.std.specs.Prelude.{◌≡◌, ◌≤◌, ◌<◌, ◌+◌, ◌^◌, ◌++◌, ℕ, IfOk, OnOk};
ghost use Rattle.lsys_spec.specs.Rows.{In};
ghost use Rattle.lsys_forest.specs.Groves.{AreSound, IsLive, now_of, changes_in, live_nodes};
ghost use Rattle.lsys_reads.specs.Seats.{HasSeat, SameSeats, SameMarks, KeepsSeats};
ghost use Rattle.lsys_children.specs.Parents.{nodes_in, HasParents};
ghost use Rattle.lsys_children.specs.Needs.{needs};
ghost use Rattle.lsys_front.specs.Fronts.{StandOn};
ghost use Rattle.lsys_front.specs.LooksFrom.{moved_in};
ghost use Rattle.lsys_pass.specs.declared.state.PassState.TheVariants.{Failed};
ghost use Rattle.lsys_pass.specs.Sizes.{total_of};
ghost use Rattle.lsys_pass.specs.Advances.{symbols_wanted};
ghost use Rattle.lsys_pass.specs.Passes.{stage_of, now_in, AnswersStay};
ghost use Rattle.lsys_pass.specs.Moves.{SameRun};
ghost use Rattle.lsys_pass.specs.Beginnings.{KeepsNodes};
ghost use Rattle.lsys_pass.specs.Made.{KeepsAnswers, MakesBelow, IsNextFront, AddsLevel};
ghost use Rattle.lsys_pass.specs.Fresh.{WasAsked, AreNextParents, WasJustMade, Goes, SizesLevel};

use crate::keep::target;
use crate::next_level::is_asked;
use crate::pass::Pass;
use crate::room::reserve_for;
use crate::seating::make_seats;
use crate::sizes::Sizes;
use lsys_children::{Brood, Changes, Need, Parent, Wanted, make_children};
use lsys_forest::{Forest, Kept};
use lsys_front::{Front, LevelRules, law_of_forests};
use lsys_reads::{KeptAnswer, Seats};
use lsys_rules::System;
use std::alloc::{AllocError, Global};
use std::sync::ledger::Ledger;

impl<L: Ledger> Pass<L> {
    /// Makes the next level, where it is told which nodes of this one want other children, what it takes to make them, and how
    /// many symbols the next level has then. It is known afterwards how it differs from that of the last rest, and who may stand
    /// beside others; and each node has a seat.
    ///
    /// It costs steps by the parents and their children, by the nodes that came to this level, are gone from it or turned, and
    /// by how far it is to the next children beside them; and by the rules of the next level. Where that level is a busy one it
    /// costs a step for each node of the levels so far that are not linked, and no step is far then.
    ///
    /// # Errors
    ///
    /// Out of memory. The last rest stays then too.
    pub(crate) fn make_level(
        &mut self,
        alloc: Global,
        level: u32,
        parents: &[Parent],
        need: &Need,
        symbols: usize,
    ) -> Result<(), AllocError>
        requires failed { self.old.state ≡ Failed }
        requires asked { WasAsked self.old level }
        requires found { AreNextParents self.old level parents.now }
        requires need { need.now ≡ needs self.old.next.numbering (now_in self.old) parents.now }
        requires symbols { symbols ≡ symbols_wanted (stage_of self.old) level }
        requires within { total_of self.old.made + symbols ≤ self.old.limit }
        requires below { level < self.old.next.depth }
        ensures fresh { OnOk result (WasJustMade self.new (level + 1)) }
        ensures goes { OnOk result (Goes (stage_of self.old) (stage_of self.new) (level + 1)) }
        ensures made { OnOk result (SizesLevel self.old self.new (level + 1)) }
        ensures answers { OnOk result (AnswersStay self.old self.new) }
        ensures run { SameRun self.old self.new }
        ensures state { self.new.state ≡ Failed }
    {
        let system = target(&self.next, &self.system);
        let next = level.saturating_add(1);
        let told = make_below(
            alloc,
            &mut self.forest,
            system,
            parents,
            need,
            &mut self.wanted,
            &mut self.brood,
        )?;
        let climbs = climbs_below(parents, &self.work.front, &told, next);
        let unlinked = unlinked_symbols(&self.forest, &self.sizes, symbols);
        let pays = climbs >= unlinked;
        let is_busy = is_busy(alloc, &self.system, system, next, symbols, pays)?;
        link_busy(&mut self.forest, next, is_busy);
        let was_there = is_asked(level, self.system.depth());
        let front = next_front(alloc, &self.forest, &self.work.front, &told, was_there)?;
        come_below(
            &self.forest,
            front,
            symbols,
            &mut self.work.front,
            &mut self.seats,
            &mut self.sizes,
        )?;
        Ok(())
    }
}

/// Makes the children of these parents, as many as were counted, those that are wanted of them, and tells what differs.
///
/// # Errors
///
/// Out of memory. The last rest, and who keeps which answer, stay then too.
fn make_below<L: Ledger>(
    alloc: Global,
    forest: &mut Forest<KeptAnswer<L>>,
    system: &System,
    parents: &[Parent],
    need: &Need,
    wanted: &mut Wanted,
    brood: &mut Brood,
) -> Result<Changes, AllocError>
    requires sound { AreSound forest.old.root (changes_in forest.old) (now_of forest.old) }
    requires few { live_nodes forest.old < 2 ^ 32 }
    requires parents { HasParents (now_of forest.old) forest.old.root (nodes_in parents.now) }
    requires need { need.now ≡ needs system.now.numbering (now_of forest.old) parents.now }
    ensures made { IfOk result (MakesBelow system.now.numbering forest.old forest.new parents.now) }
    ensures keeps { KeepsAnswers forest.old forest.new }
{
    let mut told = Changes::new(alloc);
    reserve_for(forest, &mut told, need)?;
    let made = make_children(forest, system.lineage(), parents, wanted, brood, &mut told);
    law_of_forests(forest);
    made?;
    Ok(told)
}

/// What differs on the next level, of whose nodes it was told what became of them, by what differs on this one.
///
/// # Errors
///
/// Out of memory.
fn next_front<L: Ledger>(
    alloc: Global,
    forest: &Forest<KeptAnswer<L>>,
    front: &Front,
    told: &Changes,
    was_there: bool,
) -> Result<Front, AllocError>
    requires lives { (k : ℕ) → In k front.now.changes.gone → IsLive forest.now k }
    requires level { (t : ℕ) × StandOn forest.now t (told.now.touched ++ moved_in front.now) }
    ensures { IfOk result (IsNextFront was_there forest.now front.now told.now) }
{
    let next = front.next(alloc, forest, told, was_there)?;
    Ok(next)
}

/// Comes from a level to the next one, which has so many symbols: what differs there takes the place of what differs on the level, each
/// node has a seat, and the next level is counted.
///
/// # Errors
///
/// Out of memory. What the seats tell, the marks, and the sizes of the last rest stay then too.
fn come_below<A: Kept>(
    forest: &Forest<A>,
    next: Front,
    symbols: usize,
    front: &mut Front,
    seats: &mut Seats,
    sizes: &mut Sizes,
) -> Result<(), AllocError>
    ensures next { OnOk result (front.new ≡ next) }
    ensures seats { SameSeats seats.old seats.new }
    ensures marks { SameMarks seats.old seats.new }
    ensures keeps { KeepsSeats seats.old seats.new }
    ensures room { OnOk result ((k : ℕ) → IsLive forest.now k → HasSeat seats.new k) }
    ensures rest { sizes.new.rest.items ≡ sizes.old.rest.items }
    ensures made { OnOk result (AddsLevel sizes.old sizes.new symbols) }
{
    make_seats(seats, forest)?;
    sizes.add(symbols)?;
    *front = next;
    Ok(())
}

/// Whether a level of so many symbols is linked: where it is known that it pays, since that takes no more steps than climbs do; and where the
/// level is walked along, since it is asked and was not, or was asked and is not, or has other rules than at the last rest. It costs steps by
/// the number of rules, which aren't compared for a level that is shorter. The choice is free: whichever it is, the forest tells the same.
///
/// # Errors
///
/// Out of memory.
fn is_busy(
    alloc: Global,
    old: &System,
    new: &System,
    level: u32,
    symbols: usize,
    pays: bool,
) -> Result<bool, AllocError> {
    let is_asked_now = is_asked(level, new.depth());
    if pays || is_asked_now != is_asked(level, old.depth()) {
        return Ok(true);
    }
    if !is_asked_now || symbols < new.rules().len() {
        return Ok(false);
    }
    Ok(!have_same_rules(alloc, old, new, level)?)
}

/// Whether a level has the same rules by two systems, for that choice. It costs steps by their number.
///
/// # Errors
///
/// Out of memory.
fn have_same_rules(
    alloc: Global,
    old: &System,
    new: &System,
    level: u32,
) -> Result<bool, AllocError> {
    let mut rules = LevelRules::new(alloc, old, new, level)?;
    rules.are_all_alike()
}

/// How many steps it takes at most to find who stands beside the nodes of a level that were told to be new, and beside the children of those
/// of the level above that have other children or turned: where no level is linked such a node may lead to a climb there and back.
fn climbs_below(parents: &[Parent], front: &Front, told: &Changes, level: u32) -> usize {
    let turned = parents.len().saturating_add(front.turned.len());
    let far = turned.saturating_mul(2).saturating_mul(level as usize);
    told.added()
        .len()
        .saturating_mul(STEPS_A_NODE)
        .saturating_add(far)
}

/// In how many steps along links, about, the neighbours of a new node are found among the children of its parent and of those beside it.
const STEPS_A_NODE: usize = 8;

/// How many symbols the levels have that are not linked, of those that were made and a next one of so many: so many steps it takes to
/// link them.
fn unlinked_symbols<A: Kept>(forest: &Forest<A>, sizes: &Sizes, symbols: usize) -> usize {
    let mut unlinked = symbols;
    for size in sizes.made.iter().skip(forest.linked() as usize) {
        unlinked = unlinked.saturating_add(size.symbols);
    }
    unlinked
}

/// Links the nodes of the levels up to this one to their neighbours, where it is a busy one, so that it pays: who stands beside a node
/// is one look then. It takes no memory.
fn link_busy<A: Kept>(forest: &mut Forest<A>, level: u32, busy: bool)
    ensures { KeepsNodes forest.old forest.new }
{
    if busy {
        forest.link(level);
    }
}
