//! The worked calls of a region, and a mixed run against a plain list of lists.
ghost use Rattle.std.specs.Prelude.{◌≡◌, ◌+◌, ◌<◌, ◌≤◌, List, ℕ, length, vec_len, IfOk, OnOk};
ghost use Rattle.lsys_region.specs.Pool.{list_of, IsLiveRun};
ghost use Rattle.lsys_region.specs.Rooms.{HaveOneRoom};

use crate::{Region, Run, room};
use std::alloc::{AllocError, Global};
use std::fmt::Debug;
use std::marker::Model;
use std::process::Abort;

/// A value is this one.
fn is_same<T: PartialEq + Debug>(rt: &impl Abort, found: &T, want: &T) {
    assert_eq!(rt; *found, *want);
}

/// A run has this list.
fn is_read(rt: &impl Abort, region: &Region<u8>, run: &Run, list: &[u8])
    requires { IsLiveRun region.now run.now }
{
    is_same(rt, &region.read(run), &list);
}

/// The vector of a region has so many cells.
fn has_cells(rt: &impl Abort, region: &Region<u8>, count: usize) {
    is_same(rt, &region.cells.len(), &count);
}

#[test]
#[tactic(auto, unfolding(crate::specs::Rooms::room_of))]
fn an_empty_list_needs_no_room(rt: HostRuntime) {
    let mut region = Region::<u8>::new(rt.alloc());
    let none = region.place(&[]);
    is_read(&rt, &region, &none, &[]);
}

#[test]
fn freed_room_is_placed_again(rt: HostRuntime) {
    let mut region = Region::<u8>::new(rt.alloc());
    place_two_and_one_again(&rt, &mut region);
}

/// Places two lists, and a third one in the room that the first had.
#[tactic(auto, unfolding(crate::specs::Rooms::room_of))]
fn place_two_and_one_again(rt: &impl Abort, region: &mut Region<u8>) {
    region.reserve(8).expect(rt, "memory");
    let a = region.place(&[1, 2, 3]);
    let b = region.place(&[4, 5, 6, 7]);
    is_read(rt, region, &a, &[1, 2, 3]);
    is_read(rt, region, &b, &[4, 5, 6, 7]);

    region.free(a);
    region.reserve(4).expect(rt, "memory");
    let c = region.place(&[8]);
    is_read(rt, region, &c, &[8]);
    is_read(rt, region, &b, &[4, 5, 6, 7]);
}

/// Frees a run, makes room anew, and places a list with the same room: the vector does not grow.
fn replaced(region: &mut Region<u8>, run: Run, list: &[u8]) -> Result<Run, AllocError>
    requires live { IsLiveRun region.old run }
    requires room { (was : List ℕ) → list_of region.old run ≡ Some was → HaveOneRoom was list.now }
    requires bound { length list.now ≤ 1000 }
    ensures placed { IfOk result (λ made. list_of region.new made ≡ Some list.now) }
    ensures size { OnOk result (region.new.size ≡ region.old.size) }
{
    region.free(run);
    region.reserve(room(list.len()))?;
    Ok(region.place(list))
}

#[test]
fn a_list_replaces_one_of_the_same_room(rt: HostRuntime) {
    let mut region = Region::<u8>::new(rt.alloc());
    place_and_replace(&rt, &mut region);
}

/// A list is replaced by one of the same room.
#[tactic(auto, unfolding(crate::specs::Rooms::room_of))]
fn place_and_replace(rt: &impl Abort, region: &mut Region<u8>) {
    region.reserve(4).expect(rt, "memory");
    let first = region.place(&[1, 2, 3]);
    let second = replaced(region, first, &[4, 5, 6, 7]).expect(rt, "memory");
    is_read(rt, region, &second, &[4, 5, 6, 7]);
    has_cells(rt, region, 4);
}

/// A run, and the list that it should have.
#[derive(Drop)]
struct KeptList {
    run: Run,
    list: Vec<u8>,
}

/// A region beside a plain list of what it should hold.
#[derive(Drop)]
struct Shelf {
    region: Region<u8>,
    kept: Vec<KeptList>,
}

impl Model for Shelf {
    ghost use Rattle.std.specs.Prelude.{ℕ, map, length};
    ghost use Rattle.lsys_region.specs.Held.{AreHeld};

    ghost Value = { ℕ };

    ghost view = { λ a. length a.kept.items };

    ghost invariant = { λ a. AreHeld a.region (map (λ k. (k.run, k.list.items)) a.kept.items) };
}

impl Shelf {
    fn new(alloc: Global) -> Shelf
        ensures { result ≡ 0 }
    {
        Shelf {
            region: Region::new(alloc),
            kept: Vec::new(alloc),
        }
    }

    fn put(&mut self, alloc: Global, list: &[u8]) -> Result<(), AllocError>
        requires { length list.now ≤ 1000 }
        ensures { OnOk result (self.new ≡ self.old + 1) }
    {
        let copy = Vec::from_slice(alloc, list)?;
        self.kept.reserve(1)?;
        self.region.reserve(room(list.len()))?;
        let run = self.region.place(list);
        match self.kept.push(KeptList { run, list: copy }) {
            Ok(()) => Ok(()),
            Err(_) => unreachable!(),
        }
    }

    fn take(&mut self, at: usize)
        requires { at < self.old }
        ensures { self.new + 1 ≡ self.old }
    {
        let KeptList { run, list: _ } = self.kept.remove(at);
        self.region.free(run);
    }

    /// Has the entries of the lists tell of more places than small ones can.
    fn widen(&mut self) -> Result<(), AllocError>
        ensures { self.new ≡ self.old }
    {
        widen(&mut self.region)
    }

    fn len(&self) -> usize
        ensures { result ≡ self.now }
    {
        self.kept.len()
    }

    fn agrees(&self) -> bool {
        for kept in &self.kept {
            if self.region.read(&kept.run) != kept.list.as_slice() {
                return false;
            }
        }
        true
    }
}

/// Has the entries of a region's lists tell of more places than small ones can.
fn widen(region: &mut Region<u8>) -> Result<(), AllocError>
    ensures { region.new ≡ region.old }
{
    region.table.reserve(0, 0x8000_0000)
}

/// A list of this length, told from others by its first byte.
fn list_of(alloc: Global, first: u8, len: u8) -> Result<Vec<u8>, AllocError>
    ensures { IfOk result (λ list. vec_len list ≤ 255) }
{
    (0..len).map(|at| first.wrapping_add(at)).collect(alloc)
}

/// Each run of a shelf has the list beside it.
fn has_its_lists(rt: &impl Abort, shelf: &Shelf) {
    assert!(rt; shelf.agrees());
}

/// Puts a list that was made.
fn put(rt: &impl Abort, alloc: Global, shelf: &mut Shelf, list: Result<Vec<u8>, AllocError>)
    requires { IfOk list (λ made. vec_len made ≤ 255) }
    ensures { shelf.new ≡ shelf.old + 1 }
{
    let list = list.expect(rt, "memory");
    shelf.put(alloc, list.as_slice()).expect(rt, "memory");
}

/// Puts a list of a round, and takes one in three rounds of five.
fn play(rt: &impl Abort, alloc: Global, shelf: &mut Shelf, round: u64)
    requires { round < 600 }
{
    let list = list_of(alloc, (round % 251) as u8, (round * 37 % 101) as u8);
    put(rt, alloc, shelf, list);
    if round % 5 > 1 {
        let at = round as usize * 13 % shelf.len();
        shelf.take(at);
    }
}

#[test]
fn runs_of_many_sizes_agree_with_a_plain_list(rt: HostRuntime) {
    let mut shelf = Shelf::new(rt.alloc());
    play_all(&rt, rt.alloc(), &mut shelf);
}

/// Plays 600 rounds, after each of which a shelf has its lists.
fn play_all(rt: &impl Abort, alloc: Global, shelf: &mut Shelf) {
    for round in 0..600u64 {
        play(rt, alloc, shelf, round);
        has_its_lists(rt, shelf);
    }
    is_same(rt, &shelf.len(), &240);
}

/// Puts a list of each length below 60.
fn fill(rt: &impl Abort, alloc: Global, shelf: &mut Shelf) {
    for len in 0..60u8 {
        put(rt, alloc, shelf, list_of(alloc, len, len));
    }
}

/// Takes all lists, beginning at a place that goes by the cycle.
fn empty(shelf: &mut Shelf, cycle: usize) {
    'all: while shelf.len() > 0 {
        let at = cycle % shelf.len();
        shelf.take(at);
    }
}

#[test]
fn cycles_run_in_bounded_memory(rt: HostRuntime) {
    let mut shelf = Shelf::new(rt.alloc());
    run_cycles(&rt, rt.alloc(), &mut shelf);
}

/// Fills a shelf, which then has its lists and so many cells, and empties it, time and again.
fn run_cycles(rt: &impl Abort, alloc: Global, shelf: &mut Shelf) {
    for cycle in 0..20usize {
        fill(rt, alloc, shelf);
        has_its_lists(rt, shelf);
        // 1 + 2 + 2 * 4 + 4 * 8 + 8 * 16 + 16 * 32 + 27 * 64
        has_cells(rt, &shelf.region, 2411);
        empty(shelf, cycle);
    }
}

#[test]
fn lists_stay_when_their_entries_grow(rt: HostRuntime) {
    let mut shelf = Shelf::new(rt.alloc());
    grow_between(&rt, rt.alloc(), &mut shelf);
}

/// Fills a shelf, has its entries grow, and fills it once more in the room that was freed.
fn grow_between(rt: &impl Abort, alloc: Global, shelf: &mut Shelf) {
    fill(rt, alloc, shelf);
    shelf.widen().expect(rt, "memory");
    has_its_lists(rt, shelf);
    empty(shelf, 7);
    fill(rt, alloc, shelf);
    has_its_lists(rt, shelf);
    has_cells(rt, &shelf.region, 2411);
}
