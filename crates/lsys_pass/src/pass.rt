//! The pass.
ghost use Rattle.std.specs.Prelude.{◌≡◌, ◌+◌, ◌-◌, ◌<◌, ◌≢◌, [], ℕ, false, length, slice_get, Some, MatchOption, IfOk, OnOk, OnErr};
ghost use Rattle.lsys_reads.specs.Seats.{HasSeat, is_marked};
ghost use Rattle.lsys_spec.specs.Rows.{In};
ghost use Rattle.lsys_spec.specs.Systems.{opening};
ghost use Rattle.lsys_spec.specs.Questions.{questions};
ghost use Rattle.lsys_match.specs.Derivations.{Rises, most_read};
ghost use Rattle.lsys_pass.specs.declared.state.PassState.TheVariants.{Rest, Level, Done, Failed};
ghost use Rattle.lsys_pass.specs.Beginnings.{IsGrown};
ghost use Rattle.lsys_pass.specs.Passes.{HasOwnRuns, IsPass};
ghost use Rattle.lsys_pass.specs.Works.{IsCleared};
ghost use Rattle.lsys_pass.specs.Moves.{AtLevel, Fails, IsBack, StepsOver, Waits, ComesToRest, CountsBoth, MovesBoth};
ghost use Rattle.lsys_pass.specs.Spent.{AsksRenewed};
ghost use Rattle.lsys_pass.specs.Refusals.{IsFaultOn};

use crate::keep::{answer_of, drop_next, take_over, target};
use crate::outcome::keep_outcome;
use crate::read::{Readers, settle_readers};
use crate::refusal::first_fault;
use crate::seating::seat_all;
use crate::sizes::Sizes;
use crate::state::PassState;
use crate::work::Work;
use lsys_children::{Brood, Wanted};
use lsys_forest::{Forest, NodeId};
use lsys_match::{AnswerStore, Steps, ask};
use lsys_reads::{KeptAnswer, Seats};
use lsys_rewrite::{DeriveRefusal, EditCount};
use lsys_rules::System;
use std::alloc::{AllocError, Global};
use std::marker::Model;
use std::sync::ledger::Ledger;

/// A forest with the levels of a system, which an edit makes those of another system, level by level.
#[derive(Drop)]
pub struct Pass<L: Ledger> {
    pub(crate) forest: Forest<KeptAnswer<L>>,
    pub(crate) store: AnswerStore,
    pub(crate) readers: Readers,
    pub(crate) seats: Seats,
    pub(crate) sizes: Sizes,
    pub(crate) system: System,
    pub(crate) next: Option<System>,
    pub(crate) limit: u32,
    pub(crate) state: PassState,
    pub(crate) answers: usize,
    pub(crate) work: Work,
    pub(crate) wanted: Wanted,
    pub(crate) brood: Brood,
}

impl<L: Ledger> Model for Pass<L> {
    ghost use Rattle.std.specs.Option.{unwrap_or};
    ghost use Rattle.std.specs.Coded.{codes};
    ghost use Rattle.lsys_expr.specs.Codes.{expression_code};
    ghost use Rattle.lsys_rules.specs.Codes.{expr_code};
    ghost use Rattle.lsys_reads.specs.Relations.{relations_code};
    ghost use Rattle.lsys_pass.specs.Passes.{PassView, IsPass};

    ghost Value = { PassView };

    ghost coded = { Prim.hlevel (codes, expression_code, expr_code, relations_code) };

    ghost view = { λ a. record {
      forest = a.forest;
      store = a.store;
      reads = a.readers.reads;
      listed = a.readers.is_listed;
      seats = a.seats;
      sizes = a.sizes.rest.items;
      made = a.sizes.made.items;
      system = a.system;
      next = unwrap_or a.next a.system;
      limit = a.limit;
      state = a.state;
      pending = a.work.pending;
      faults = a.work.faults.items;
      renewed = a.work.renewed.items;
      born = a.work.born;
      first_renewed = a.work.first_renewed;
      dropped = a.work.dropped.items;
      moved = a.work.moved.items;
      front = a.work.front;
      answers = a.answers;
    } };

    ghost invariant = { λ a. IsPass (record {
      forest = a.forest;
      store = a.store;
      reads = a.readers.reads;
      listed = a.readers.is_listed;
      seats = a.seats;
      sizes = a.sizes.rest.items;
      made = a.sizes.made.items;
      system = a.system;
      next = unwrap_or a.next a.system;
      limit = a.limit;
      state = a.state;
      pending = a.work.pending;
      faults = a.work.faults.items;
      renewed = a.work.renewed.items;
      born = a.work.born;
      first_renewed = a.work.first_renewed;
      dropped = a.work.dropped.items;
      moved = a.work.moved.items;
      front = a.work.front;
      answers = a.answers;
    }) };
}

impl<L: Ledger> Pass<L> {
    /// A pass at rest, with the levels of the opening system.
    ///
    /// # Errors
    ///
    /// Out of memory.
    pub fn new(alloc: Global, limit: u32) -> Result<Pass<L>, AllocError>
        ensures state { IfOk result (λ p. p.state ≡ Rest) }
        ensures system { IfOk result (λ p. p.system ≡ opening) }
        ensures limit { IfOk result (λ p. p.limit ≡ limit) }
        ensures runs { IfOk result (λ p. HasOwnRuns p) }
    {
        let system = System::opening(alloc)?;
        let (forest, seats) = grown(alloc)?;
        Ok(Pass {
            forest,
            store: AnswerStore::new(alloc),
            readers: Readers::new(alloc, true),
            seats,
            sizes: Sizes::new(alloc),
            system,
            next: None,
            limit,
            state: PassState::Rest,
            answers: 0,
            work: Work::new(alloc),
            wanted: Wanted::new(alloc),
            brood: Brood::new(alloc),
        })
    }

    /// Where it stands.
    pub fn state(&self) -> PassState
        ensures state { result ≡ self.now.state }
        ensures pass { IsPass self.now }
    {
        self.state
    }

    /// Why its level has no next one, where faults were noted: the leftmost of them.
    pub(crate) fn fault_refusal(&self, level: u32) -> Option<DeriveRefusal>
        requires state { self.now.state ≡ Level level }
        requires pending { self.now.pending ≡ [] }
        ensures { MatchOption result (self.now.faults ≡ [])
            (IsFaultOn self.now.next self.now.limit level) }
    {
        first_fault(&self.forest, level, &self.work.faults)
    }

    /// The new system has no levels, or memory was wanted: only to abandon it is left. It takes no memory.
    pub(crate) fn fail(&mut self)
        requires { AtLevel self.old.state }
        ensures fails { Fails self.old self.new }
        ensures same { self.new ≡ record self.old { state = Failed } }
    {
        self.state = PassState::Failed;
    }

    /// How many nodes of the level are still to be asked.
    pub fn pending(&self) -> usize
        ensures { result ≡ length self.now.pending }
    {
        self.work.pending.len()
    }

    /// One of them, counted from the left. It costs a logarithm.
    pub fn nth_pending(&self, place: usize) -> NodeId
        requires { place < length self.now.pending }
        ensures { slice_get self.now.pending place ≡ Some result }
    {
        self.work.pending.nth(place)
    }

    /// Asks a node that is pending: its answer is kept, or its fault is noted. Then it is pending no more. Nodes may be asked in
    /// any order: one costs what is read for it, and to be found among those that are pending, where as many nodes as a logarithm
    /// are looked up and compared; to take it off costs a logarithm, wherever it stands, and for the first one of a level that isn't
    /// the first pending one a step for each node that the level had pending.
    ///
    /// # Errors
    ///
    /// Out of memory. The node stays pending, with the answer that it had.
    pub fn step<V: Ledger>(
        &mut self,
        alloc: Global,
        node: NodeId,
        asked: &mut Steps<L>,
        visited: &mut Steps<V>,
    ) -> Result<(), AllocError>
        requires state { AtLevel self.old.state }
        requires pending { In node self.old.pending }
        ensures steps { OnOk result (StepsOver self.old self.new node) }
        ensures renewed { OnOk result (AsksRenewed self.old self.new asked.old asked.new) }
        ensures moves { OnOk result (MovesBoth self.old node asked.old asked.new visited.old visited.new) }
        ensures waits { OnErr result (Waits self.old self.new) }
        ensures few_asked { Rises 0 1 asked.old asked.new }
        ensures few_read { Rises 0 most_read visited.old visited.new }
    {
        let level = match self.state {
            PassState::Level(level) => level,
            _ => unreachable!(),
        };
        self.forest.reserve(0, 0, 0, 1)?;
        self.work.reserve()?;
        let place = self.work.pending.place_of(&self.forest, node);
        let system = target(&self.next, &self.system);
        let old = answer_of(&self.forest, node);
        let is_born = old.is_none();
        let store = &mut self.store;
        let forest = &self.forest;
        let outcome = ask(
            alloc, store, forest, node, system, level, old, asked, visited,
        );
        keep_outcome(
            &mut self.forest,
            &mut self.store,
            &mut self.readers,
            &mut self.work,
            node,
            is_born,
            outcome,
        )?;
        self.work.pending.take(place);
        Ok(())
    }

    /// Keeps the new levels, as those of the last rest, and tells how many questions were new, and how many there are. What no
    /// answer of a node holds is given back. It takes no memory.
    pub fn close(&mut self) -> EditCount
        requires { self.old.state ≡ Done }
        ensures closes { ComesToRest self.old self.new }
        ensures counts { CountsBoth self.old result }
        ensures asked { result.asked ≡ length self.old.renewed }
        ensures runs { HasOwnRuns self.new }
    {
        let asked = self.work.renewed.len();
        self.answers = self.answers - self.work.dropped.len() + self.work.born;
        self.forest.commit(&mut self.store);
        settle_readers(&mut self.readers, &mut self.work);
        seat_all(&mut self.seats, &self.forest, &self.work.moved);
        self.sizes.keep();
        take_over(&mut self.next, &mut self.system);
        Self::come_to_rest(&mut self.work, &mut self.state);
        EditCount {
            asked: asked as u64,
            questions: self.answers as u64,
        }
    }

    /// Goes back to the last rest, node for node; the new system is dropped, and the new answers are given back. It takes no
    /// memory.
    pub fn abandon(&mut self)
        requires { self.old.state ≢ Rest }
        ensures back { IsBack self.old self.new }
        ensures runs { HasOwnRuns self.new }
    {
        self.forest.rollback(&mut self.store);
        self.readers.reads.retract();
        self.sizes.forget();
        drop_next(&mut self.next);
        Self::come_to_rest(&mut self.work, &mut self.state);
    }

    /// Forgets what was worked on, and comes to rest. It takes no memory.
    fn come_to_rest(work: &mut Work, state: &mut PassState)
        ensures cleared { IsCleared work.new }
        ensures rest { state.new ≡ Rest }
    {
        work.clear();
        *state = PassState::Rest;
    }
}

/// A forest of its root alone, and seats with one for the root, which tells of nobody.
///
/// # Errors
///
/// Out of memory.
fn grown<L: Ledger>(alloc: Global) -> Result<(Forest<KeptAnswer<L>>, Seats), AllocError>
    ensures { IfOk result (λ p. IsGrown p.0 p.1) }
{
    let forest = Forest::new(alloc)?;
    let seats = seat_alone(alloc, forest.root())?;
    Ok((forest, seats))
}

/// Seats with one for this node, which tells of nobody.
///
/// # Errors
///
/// Out of memory.
fn seat_alone(alloc: Global, node: NodeId) -> Result<Seats, AllocError>
    ensures clear { IfOk result (λ seats. (k : ℕ) → is_marked seats k ≡ false) }
    ensures seat { IfOk result (λ seats. HasSeat seats node) }
{
    let mut seats = Seats::new(alloc);
    seats.make_room(node)?;
    Ok(seats)
}
