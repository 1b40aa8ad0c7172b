//! Lists in one region, whose runs are held here and at nodes.
ghost use Rattle.std.specs.Prelude.{◌≡◌, ◌+◌, ◌<◌, ◌≤◌, ◌++◌, ◌∷◌, [], ℕ, length, List, Some, IfSome, IfNone, Option, OnOk};
ghost use Rattle.lsys_region.specs.Pool.{list_of, IsLiveRun};
ghost use Rattle.lsys_region.specs.Rooms.{list_room};
ghost use Rattle.lsys_forest.specs.Shelves.{run_list, IsOwner, IsListPlaced, IsFreed, OnShelf, KeepsPastAndHand, PutsAfterPast};
ghost use Rattle.lsys_forest.specs.Stocks.{DropsLast, TakesLastUp, PutsDown};

use lsys_region::{Region, Run};
use std::alloc::{AllocError, Global};
use std::marker::Model;
use std::mem;

/// Lists, each in a run of one region. The nodes hold the runs of the lists that they have; here are those of past lists, of
/// which the last one is taken back first, and that of one list in hand.
#[derive(Drop)]
pub(crate) struct Lists<T: Copy> {
    region: Region<T>,
    past: Vec<Run>,
    hand: Run,
}

impl<T: Copy> Model for Lists<T> {
    ghost use Rattle.std.specs.Prelude.{vec_capacity};
    ghost use Rattle.lsys_forest.specs.Shelves.{Hoard};

    ghost Value = { Hoard T };

    ghost view = { λ a. record {
      pool = a.region;
      past = a.past.items;
      hand = a.hand;
      past_places = vec_capacity a.past;
    } };
}

impl<T: Copy> Lists<T> {
    /// No lists. It takes no memory.
    pub(crate) fn new(alloc: Global) -> Lists<T>
        ensures owned { IsOwner result [] }
        ensures past { result.past ≡ [] }
    {
        let mut region = Region::new(alloc);
        let hand = region.place(&[]);
        Lists {
            region,
            past: Vec::new(alloc),
            hand,
        }
    }

    /// Makes room for so many past lists more, and for so many cells of lists more.
    ///
    /// # Errors
    ///
    /// Out of memory. The lists stay.
    pub(crate) fn reserve(&mut self, past: usize, cells: usize) -> Result<(), AllocError>
        ensures kept { KeepsPastAndHand self.old self.new }
        ensures pool { self.new.pool ≡ record self.old.pool { spare = self.new.pool.spare } }
        ensures spare { OnOk result (cells ≤ self.new.pool.spare) }
        ensures places { OnOk result (length self.new.past + past ≤ self.new.past_places) }
        ensures more_spare { self.old.pool.spare ≤ self.new.pool.spare }
        ensures more_places { self.old.past_places ≤ self.new.past_places }
    {
        self.region.reserve(cells)?;
        self.past.reserve(past)
    }

    /// The region.
    pub(crate) fn region(&self) -> &Region<T>
        ensures { result.now ≡ self.now.pool }
    {
        &self.region
    }

    /// The list of a live run.
    pub(crate) fn read(&self, run: &Run) -> &[T]
        requires { IsLiveRun self.now.pool run.now }
        ensures { list_of self.now.pool run.now ≡ Some result.now }
    {
        self.region.read(run)
    }

    /// The list in hand.
    pub(crate) fn in_hand(&self) -> &[T]
        requires { IsLiveRun self.now.pool self.now.hand }
        ensures { result.now ≡ run_list self.now.pool self.now.hand }
    {
        self.region.read(&self.hand)
    }

    /// Places a list in a new run. It takes no memory.
    pub(crate) fn place(&mut self, list: &[T]) -> Run
        requires { list_room list.now ≤ self.old.pool.spare }
        ensures placed { IsListPlaced self.old.pool self.new.pool result list.now }
        ensures kept { self.new ≡ record self.old { pool = self.new.pool } }
        ensures spare { self.old.pool.spare ≤ self.new.pool.spare + list_room list.now }
    {
        self.region.place(list)
    }

    /// Frees a live run. It takes no memory.
    pub(crate) fn free(&mut self, run: Run)
        requires { IsLiveRun self.old.pool run }
        ensures freed { IsFreed self.old.pool self.new.pool run }
        ensures kept { self.new ≡ record self.old { pool = self.new.pool } }
        ensures spare { self.new.pool.spare ≡ self.old.pool.spare }
    {
        self.region.free(run);
    }

    /// Puts a run after the past ones. It takes no memory.
    pub(crate) fn push(&mut self, run: Run)
        requires { length self.old.past < self.old.past_places }
        ensures pushed { PutsAfterPast run self.old self.new }
        ensures places { self.old.past_places ≤ self.new.past_places }
    {
        match self.past.push(run) {
            Ok(()) => {}
            Err(_) => unreachable!(),
        }
    }

    /// Takes the last of the past runs, if there is one.
    pub(crate) fn pop(&mut self) -> Option<Run>
        ensures some { IfSome result (λ run. self.old.past ≡ self.new.past ++ run ∷ []) }
        ensures none { IfNone result ((self.old.past ≡ []) × (self.new ≡ self.old)) }
        ensures popped { self.new ≡ record self.old { past = self.new.past } }
    {
        self.past.pop()
    }

    /// Frees the last of the past lists. It takes no memory.
    #[inline(never)]
    pub(crate) fn drop_past(&mut self)
        requires owned { (now : List (Option ℕ)) × IsOwner self.old now }
        ensures owned { (now : List (Option ℕ)) → IsOwner self.old now → IsOwner self.new now }
        ensures dropped { OnShelf DropsLast self.old self.new }
    {
        if let Some(run) = self.past.pop() {
            self.region.free(run);
        }
    }

    /// Takes the last of the past lists in hand, and frees the one that was there. It takes no memory.
    #[inline(never)]
    pub(crate) fn take_up(&mut self)
        requires owned { (now : List (Option ℕ)) × IsOwner self.old now }
        ensures owned { (now : List (Option ℕ)) → IsOwner self.old now → IsOwner self.new now }
        ensures taken { OnShelf TakesLastUp self.old self.new }
    {
        if let Some(run) = self.past.pop() {
            let before = mem::replace(&mut self.hand, run);
            self.region.free(before);
        }
    }

    /// Frees the list in hand. It takes no memory.
    pub(crate) fn put_down(&mut self)
        requires owned { (now : List (Option ℕ)) × IsOwner self.old now }
        ensures owned { (now : List (Option ℕ)) → IsOwner self.old now → IsOwner self.new now }
        ensures put { OnShelf PutsDown self.old self.new }
    {
        let run = self.region.place(&[]);
        let before = mem::replace(&mut self.hand, run);
        self.region.free(before);
    }
}
