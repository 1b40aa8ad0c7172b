//! The first level of another system.
ghost use Rattle.std.specs.Prelude.{◌≡◌, ◌<◌, ◌≤◌, ◌^◌, ℕ, [], length, IfOk, IfErr, OnOk, OnErr};
ghost use Rattle.lsys_spec.specs.Meaning.{first_level};
ghost use Rattle.lsys_match.specs.Derivations.{IsLevelRefusal};
ghost use Rattle.lsys_laws.specs.Nodes.{AreOnce};
ghost use Rattle.lsys_forest.specs.Groves.{AreSound, IsLive, now_of, rest_of, changes_in, kept_in, live_nodes};
ghost use Rattle.lsys_reads.specs.Lineages.{kins};
ghost use Rattle.lsys_reads.specs.Seats.{HasSeat, SameSeats, SameMarks, KeepsSeats};
ghost use Rattle.lsys_children.specs.Renewals.{AreSmall, AreAllUnder};
ghost use Rattle.lsys_front.specs.LooksFrom.{first_nodes};
ghost use Rattle.lsys_pass.specs.declared.state.PassState.TheVariants.{Rest, Failed};
ghost use Rattle.lsys_pass.specs.Sizes.{with_level};
ghost use Rattle.lsys_pass.specs.Passes.{stage_of, HasOwnRuns};
ghost use Rattle.lsys_pass.specs.Moves.{SameRun, ArrivesAt, IsBack};
ghost use Rattle.lsys_pass.specs.Fresh.{row_of, Goes, WasJustMade};
ghost use Rattle.lsys_pass.specs.Beginnings.{Begun, KeepsNodes, WasStill, MakesFirstIn, MakesFirstUnder, need_for_axiom};
ghost use Rattle.lsys_pass.specs.Made.{IsFirstFront, AddsLevel};
ghost use Rattle.lsys_pass.specs.Spent.{AllPending};
ghost use Rattle.lsys_pass.specs.Refusals.{RefusesFirst, IsFirstRefusal};

use crate::keep::target;
use crate::pass::Pass;
use crate::refusal::first_refusal;
use crate::room::reserve_for;
use crate::seating::make_seats;
use crate::sizes::Sizes;
use crate::state::PassState;
use lsys_children::{Brood, Changes, Need, Wanted, count_first, make_first};
use lsys_forest::{Forest, Kept};
use lsys_front::Front;
use lsys_reads::{KeptAnswer, Seats};
use lsys_rewrite::DeriveRefusal;
use lsys_rules::System;
use std::alloc::{AllocError, Global};
use std::sync::ledger::Ledger;

impl<L: Ledger> Pass<L> {
    /// Begins to make the levels of another system, from rest: its first level is made, and those of its nodes that are to be
    /// asked are found. It costs the nodes of that level, and of the one that was there. After a first derivation it isn't listed
    /// yet who read what: then it costs the nodes of all levels too, and what their answers read.
    ///
    /// # Errors
    ///
    /// The limit, or lack of memory. The pass is at rest again then, as it was, and the system is dropped.
    pub fn begin(&mut self, alloc: Global, system: System) -> Result<(), DeriveRefusal>
        requires state { self.old.state ≡ Rest }
        ensures begins { OnOk result (Begun self.old self.new system) }
        ensures all { OnOk result (AllPending self.new self.new.state) }
        ensures back { OnErr result (IsBack self.old self.new) }
        ensures runs { OnErr result (HasOwnRuns self.new) }
        ensures refusal { IfErr result (IsLevelRefusal system self.old.limit) }
        ensures exact { RefusesFirst system self.old.limit result }
    {
        self.list_readers(alloc, &system)?;
        self.next = Some(system);
        self.state = PassState::Failed;
        let begun = self.come_to_first(alloc);
        if begun.is_err() {
            self.abandon();
        }
        begun
    }

    /// Makes the first level of the system that is being made, and finds those of its nodes that are to be asked.
    ///
    /// # Errors
    ///
    /// The limit, or lack of memory. The last rest stays then too.
    fn come_to_first(&mut self, alloc: Global) -> Result<(), DeriveRefusal>
        requires failed { self.old.state ≡ Failed }
        requires still { WasStill self.old }
        ensures comes { OnOk result (ArrivesAt self.old.next 0 self.new.state) }
        ensures all { OnOk result (AllPending self.new self.new.state) }
        ensures renewed { OnOk result (self.new.renewed ≡ []) }
        ensures fails { OnErr result (self.new.state ≡ Failed) }
        ensures within { OnOk result (length (first_level self.old.next) ≤ self.old.limit) }
        ensures refusal { IfErr result (IsFirstRefusal self.old.next self.old.limit) }
        ensures run { SameRun self.old self.new }
    {
        let depth = self.depth();
        self.make_first_level(alloc)?;
        Ok(self.come_to(alloc, 0, depth)?)
    }

    /// Makes the first level of the system that is being made: the children of the root. It costs these, and those that were
    /// there.
    ///
    /// # Errors
    ///
    /// The limit, or lack of memory. The last rest stays then too.
    fn make_first_level(&mut self, alloc: Global) -> Result<(), DeriveRefusal>
        requires failed { self.old.state ≡ Failed }
        requires still { WasStill self.old }
        ensures fresh { OnOk result (WasJustMade self.new 0) }
        ensures goes { OnOk result (Goes (stage_of self.old) (stage_of self.new) 0) }
        ensures made { OnOk result
            (self.new.made ≡ with_level [] (length (row_of self.new 0))) }
        ensures within { OnOk result (length (first_level self.old.next) ≤ self.old.limit) }
        ensures refusal { IfErr result (IsFirstRefusal self.old.next self.old.limit) }
        ensures run { SameRun self.old self.new }
        ensures state { self.new.state ≡ Failed }
    {
        let told = make_first_nodes(
            alloc,
            &mut self.forest,
            target(&self.next, &self.system),
            self.limit,
            &mut self.wanted,
            &mut self.brood,
        )?;
        come_first(
            alloc,
            &self.forest,
            &told,
            &mut self.work.front,
            &mut self.seats,
            &mut self.sizes,
        )?;
        Ok(())
    }
}

/// Comes to the first level, of whose nodes it was told what became of them: it is told what differs there, each node has a seat,
/// and the level is counted. The forest is sound.
///
/// # Errors
///
/// Out of memory. What the seats tell, the marks, and the sizes of the last rest stay then too.
fn come_first<A: Kept>(
    alloc: Global,
    forest: &Forest<A>,
    told: &Changes,
    front: &mut Front,
    seats: &mut Seats,
    sizes: &mut Sizes,
) -> Result<(), AllocError>
    ensures first { OnOk result (IsFirstFront forest.now told.now front.new) }
    ensures sound { AreSound forest.now.root (changes_in forest.now) (now_of forest.now) }
    ensures seats { SameSeats seats.old seats.new }
    ensures marks { SameMarks seats.old seats.new }
    ensures keeps { KeepsSeats seats.old seats.new }
    ensures room { OnOk result ((k : ℕ) → IsLive forest.now k → HasSeat seats.new k) }
    ensures rest { sizes.new.rest.items ≡ sizes.old.rest.items }
    ensures made { OnOk result (AddsLevel sizes.old sizes.new (length (first_nodes forest.now))) }
{
    take_first(front, alloc, forest, told)?;
    make_seats(seats, forest)?;
    sizes.add(front.changes.looked.len())?;
    Ok(())
}

/// What differs on the first level, of whose nodes it was told what became of them, takes the place of what differed. The forest is
/// sound.
///
/// # Errors
///
/// Out of memory.
fn take_first<A: Kept>(
    front: &mut Front,
    alloc: Global,
    forest: &Forest<A>,
    told: &Changes,
) -> Result<(), AllocError>
    ensures first { OnOk result (IsFirstFront forest.now told.now front.new) }
    ensures sound { AreSound forest.now.root (changes_in forest.now) (now_of forest.now) }
{
    *front = Front::first(alloc, forest, told)?;
    Ok(())
}

/// Makes the children of the root of a forest those of the axiom of a system, where these are no more than the limit, and
/// tells what differs. Then their level is linked: it is gone along whole here in any case, and by links a bracket of the axiom
/// finds its mate in one look, so brackets in brackets cost no square.
///
/// # Errors
///
/// The limit, or lack of memory. The nodes stay then.
fn make_first_nodes<L: Ledger>(
    alloc: Global,
    forest: &mut Forest<KeptAnswer<L>>,
    system: &System,
    limit: u32,
    wanted: &mut Wanted,
    brood: &mut Brood,
) -> Result<Changes, DeriveRefusal>
    requires once { AreOnce (kins (now_of forest.old)) forest.old.root }
    requires small { AreSmall (now_of forest.old) }
    requires under { AreAllUnder (now_of forest.old) forest.old.root forest.old.root }
    requires few { live_nodes forest.old < 2 ^ 32 }
    ensures made { IfOk result (MakesFirstIn system.now limit forest.old forest.new) }
    ensures refusal { IfErr result (IsFirstRefusal system.now limit) }
    ensures stays { OnErr result (KeepsNodes forest.old forest.new) }
    ensures few { live_nodes forest.new < 2 ^ 32 }
    ensures rest { rest_of forest.new ≡ rest_of forest.old }
    ensures root { forest.new.root ≡ forest.old.root }
    ensures kept { kept_in forest.new ≡ kept_in forest.old }
{
    let numbering = system.lineage();
    let seed = system.seed();
    let axiom = system.axiom().symbols();
    let count = count_first(forest, numbering, seed, axiom, wanted, brood)?;
    if let Some(refusal) = first_refusal(limit, count.wanted) {
        return Err(refusal);
    }
    let told = make_counted(alloc, forest, system, &count.need, wanted, brood)?;
    forest.link(0);
    Ok(told)
}

/// Makes the children of the root of a forest those of the axiom of a system, as many as were counted, and tells what differs.
///
/// # Errors
///
/// Out of memory. The nodes stay then.
fn make_counted<L: Ledger>(
    alloc: Global,
    forest: &mut Forest<KeptAnswer<L>>,
    system: &System,
    need: &Need,
    wanted: &mut Wanted,
    brood: &mut Brood,
) -> Result<Changes, AllocError>
    requires once { AreOnce (kins (now_of forest.old)) forest.old.root }
    requires small { AreSmall (now_of forest.old) }
    requires under { AreAllUnder (now_of forest.old) forest.old.root forest.old.root }
    requires few { live_nodes forest.old < 2 ^ 32 }
    requires need { need.now ≡ need_for_axiom system.now forest.old }
    ensures made { IfOk result (MakesFirstUnder system.now forest.old forest.new) }
    ensures stays { OnErr result (KeepsNodes forest.old forest.new) }
    ensures few { live_nodes forest.new < 2 ^ 32 }
    ensures rest { rest_of forest.new ≡ rest_of forest.old }
    ensures root { forest.new.root ≡ forest.old.root }
    ensures kept { kept_in forest.new ≡ kept_in forest.old }
{
    let numbering = system.lineage();
    let seed = system.seed();
    let axiom = system.axiom().symbols();
    let mut told = Changes::new(alloc);
    reserve_for(forest, &mut told, need)?;
    make_first(forest, numbering, seed, axiom, wanted, brood, &mut told)?;
    Ok(told)
}
