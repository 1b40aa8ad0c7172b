//! A pool of lists: each list stands in one run of one vector, whose room is a power of two, and freed runs are kept
//! by their room and used again.
//!
//! After one [`Region::reserve`] lists are placed without a refusal. What contracts see of a region (a finite map from
//! live runs to lists, the size of the vector, and the spare) is in `specs/Pool.antt`, and the room of a list in
//! `specs/Rooms.antt`. The spare is for any lists whose rooms are together at most so much, of whatever sizes. It is
//! not lowered where a free run is used, so the vector is never longer than the most that was live of each room.
//!
//! A holder of many runs keeps `AreHeld` of `specs/Held.antt` true, by the lemmas of `proofs/HeldLemmas.antt`.
#![tactic(auto)]

mod class;
mod packed;
mod rows;
mod table;

ghost use Rattle.std.specs.Prelude.{◌≡◌, ℕ, ◌+◌, ◌<◌, ◌≤◌, length, max, Some, None, IfSome, IsOk, OnOk, OnErr, vec_capacity};
ghost use Rattle.lsys_region.specs.Pool.{empty_pool, list_at, list_of, IsLiveRun, IsFresh, OthersStay, OtherRoomsStay, free_for, Reuses, Grows, GivesBackRun};
ghost use Rattle.lsys_region.specs.Layout.{IsAppended, IsWritten};
ghost use Rattle.lsys_region.specs.Rooms.{list_room};

use class::class_of;
pub use class::room;
use packed::Link;
use std::alloc::{AllocError, Global};
use std::marker::Model;
use std::mem::size_of;
use table::PartTable;

/// The name of a list that stands in a region, made by [`Region::place`].
///
/// It can't be copied, and [`Region::free`] takes it away. It may be read only in a region where it is live.
#[derive(Debug, Drop)]
pub struct Run {
    part: Link,
}

const _: () = prove!(size_of::<Run>() == 8);

impl Model for Run {
    ghost use Rattle.std.specs.Prelude.{ℕ, Option};

    ghost Value = { Option ℕ };

    ghost view = { λ r. r.part };
}

/// A pool of lists over one vector.
#[derive(Drop)]
pub struct Region<T: Copy> {
    cells: Vec<T>,
    table: PartTable,
    spare: usize,
}

impl<T: Copy> Model for Region<T> {
    ghost use Rattle.std.specs.Prelude.{map, length, vec_capacity};
    ghost use Rattle.lsys_region.specs.Pool.{Pool, pool_code};

    ghost Value = { Pool T };

    ghost coded = { pool_code T.code };

    ghost use Rattle.lsys_region.specs.Layout.{slot_of, IsSoundLayout};

    ghost view = { λ a. record {
      slots = map (slot_of a.cells.items) a.table.parts;
      size = length a.cells.items;
      spare = a.spare;
    } };

    ghost invariant = { λ a. IsSoundLayout a.table.parts (length a.cells.items) a.spare (vec_capacity a.cells) a.table.capacity a.table.end a.table.most };
}

impl<T: Copy> Region<T> {
    /// A region with no runs and no spare. It takes no memory.
    pub fn new(alloc: Global) -> Region<T>
        ensures { result ≡ empty_pool }
    {
        Region {
            cells: Vec::new(alloc),
            table: PartTable::new(alloc),
            spare: 0,
        }
    }

    /// Makes the spare at least `n`, so that lists whose rooms are together at most `n` can be placed. Runs stay.
    ///
    /// # Errors
    ///
    /// Out of memory, and only where the spare was less than `n`. Then all stays as it was.
    pub fn reserve(&mut self, n: usize) -> Result<(), AllocError>
        ensures spare { OnOk result (n ≤ self.new.spare) }
        ensures runs { OnOk result (self.new ≡ record self.old { spare = max self.old.spare n }) }
        ensures err { OnErr result (self.new ≡ self.old) }
        ensures enough { n ≤ self.old.spare → IsOk result }
    {
        if n <= self.spare {
            return Ok(());
        }
        self.cells.reserve(n)?;
        self.table.reserve(n, self.cells.len() + n)?;
        self.spare = n;
        Ok(())
    }

    /// Places a list whose room is at most the spare in a new run. It takes no memory.
    ///
    /// A free run with the list's room is used first, and then neither the vector nor the spare changes. Else the
    /// vector grows by the room, out of the spare. The run of the empty list takes no room, and is live in every region.
    #[inline]
    pub fn place(&mut self, list: &[T]) -> Run
        requires { list_room list.now ≤ self.old.spare }
        ensures placed { list_of self.new result ≡ Some list.now }
        ensures fresh { IsFresh self.old result list.now }
        ensures others { OthersStay self.old self.new result }
        ensures spare { self.old.spare ≤ self.new.spare + list_room list.now }
        ensures reuses { 0 < free_for self.old list.now → Reuses self.old self.new list.now }
        ensures grows { free_for self.old list.now ≡ 0 → Grows self.old self.new list.now }
        ensures other_rooms { OtherRoomsStay self.old self.new list.now }
    {
        // The type's invariant is known where a field is named.
        let _ = &self.spare;
        match list.last() {
            Some(last) => self.place_some(list, *last),
            None => Run { part: Link::none() },
        }
    }

    // The same for a list that isn't empty: where its room is longer, it is filled up with `filler`.
    #[inline(never)]
    fn place_some(&mut self, list: &[T], filler: T) -> Run
        requires some { 0 < length list.now }
        requires room { list_room list.now ≤ self.old.spare }
        ensures placed { list_of self.new result ≡ Some list.now }
        ensures fresh { IsFresh self.old result list.now }
        ensures others { OthersStay self.old self.new result }
        ensures spare { self.old.spare ≤ self.new.spare + list_room list.now }
        ensures reuses { 0 < free_for self.old list.now → Reuses self.old self.new list.now }
        ensures grows { free_for self.old list.now ≡ 0 → Grows self.old self.new list.now }
        ensures other_rooms { OtherRoomsStay self.old self.new list.now }
    {
        // The type's invariant is known where a field is named.
        let _ = &self.spare;
        let class = class_of(list.len());
        if let Some(number) = self.table.take(class.number, list.len()) {
            overwrite(&mut self.cells, self.table.span(number).start, list);
            return Run {
                part: Link::to(number),
            };
        }
        append(&mut self.cells, list, filler, class.room);
        self.spare -= class.room;
        let number = self.table.add(class, list.len());
        Run {
            part: Link::to(number),
        }
    }

    /// The list of a live run.
    pub fn read(&self, run: &Run) -> &[T]
        requires { IsLiveRun self.now run.now }
        ensures { list_of self.now run.now ≡ Some result.now }
    {
        match run.part.number() {
            Some(number) => {
                let span = self.table.span(number);
                &self.cells[span.start..span.start + span.len]
            }
            None => &self.cells[..0],
        }
    }

    /// Frees a live run: its room is kept for the next list with the same room. It takes no memory.
    pub fn free(&mut self, run: Run)
        requires { IsLiveRun self.old run }
        ensures gone { IfSome run (λ number. list_at self.new number ≡ None) }
        ensures others { OthersStay self.old self.new run }
        ensures size { self.new.size ≡ self.old.size }
        ensures spare { self.new.spare ≡ self.old.spare }
        ensures given_back { GivesBackRun run self.old self.new }
    {
        if let Some(number) = run.part.number() {
            self.table.release(number);
        }
    }
}

/// Writes the list over the places from `start` on.
fn overwrite<T: Copy>(cells: &mut Vec<T>, start: usize, list: &[T])
    requires { start + length list.now ≤ length cells.old.items }
    ensures written { IsWritten cells.old.items cells.new.items start list.now }
    ensures capacity { vec_capacity cells.new ≡ vec_capacity cells.old }
{
    cells[start..start + list.len()].copy_from_slice(list);
}

/// Writes the list at the end of the vector, and fills up its room. It takes no memory.
fn append<T: Copy>(cells: &mut Vec<T>, list: &[T], filler: T, room: usize)
    requires fits { length list.now ≤ room }
    requires capacity { length cells.old.items + room ≤ vec_capacity cells.old }
    ensures appended { IsAppended cells.old.items cells.new.items list.now room }
    ensures capacity { vec_capacity cells.old ≤ vec_capacity cells.new }
{
    let end = cells.len() + room;
    match cells.extend_from_slice(list) {
        Ok(()) => {}
        Err(_) => unreachable!(),
    }
    match cells.resize(end, filler) {
        Ok(()) => {}
        Err(_) => unreachable!(),
    }
}

#[cfg(test)]
mod tests;
