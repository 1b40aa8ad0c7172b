//! The table of the parts of a region's vector. The free parts of each size class are linked, the last freed first.
ghost use Rattle.std.specs.Prelude.{◌≡◌, ℕ, ◌+◌, ◌<◌, ◌≤◌, [], ◌∷◌, ◌++◌, length, Some, None, IfNone, IfSome, OnOk, OnErr, slice_get, slice_set};
ghost use Rattle.lsys_region.specs.Parts.{AllTaken, IsTakenPart, IsPartSpan, AddsPart, TakesPart, FreesPart};
ghost use Rattle.lsys_region.specs.Layout.{all_places, HaveRooms};

use crate::class::{CLASSES, Class, class_of};
use crate::packed::{Link, PackedPart, State};
use crate::rows::Rows;
use std::alloc::{AllocError, Global};
use std::marker::Model;

/// Where a list stands in the vector.
#[derive(Clone, Copy)]
pub(crate) struct ListSpan {
    pub(crate) start: usize,
    pub(crate) len: usize,
}

/// The parts by their numbers, the first free part of each size class, and where the last part ends.
#[derive(Drop)]
pub(crate) struct PartTable {
    rows: Rows,
    heads: [Link; CLASSES],
    end: usize,
}

impl Model for PartTable {
    ghost use Rattle.lsys_region.specs.Parts.{Parts};

    ghost Value = { Parts };

    ghost use Rattle.lsys_region.specs.Entries.{sized_parts, IsSoundTable};
    ghost use Rattle.lsys_region.specs.Rows.{entries_of_rows, capacity_of, most_of};

    ghost view = { λ a. record {
      parts = sized_parts (entries_of_rows a.rows) a.end;
      capacity = capacity_of a.rows;
      end = a.end;
      most = most_of a.rows;
    } };

    ghost invariant = { λ a. IsSoundTable (entries_of_rows a.rows) a.heads a.end (most_of a.rows) };
}

impl PartTable {
    /// A table with no parts.
    pub(crate) fn new(alloc: Global) -> PartTable
        ensures parts { result.parts ≡ [] }
        ensures end { result.end ≡ 0 }
    {
        let none = Link::none();
        PartTable {
            rows: Rows::new(alloc),
            heads: [none; CLASSES],
            end: 0,
        }
    }

    /// Makes room for `n` parts more, which reach no further than `places`.
    ///
    /// # Errors
    ///
    /// Out of memory. The parts stay.
    pub(crate) fn reserve(&mut self, n: usize, places: usize) -> Result<(), AllocError>
        ensures parts { self.new.parts ≡ self.old.parts }
        ensures end { self.new.end ≡ self.old.end }
        ensures ok { OnOk result (length self.new.parts + n ≤ self.new.capacity) }
        ensures fits { OnOk result (places ≤ self.new.most) }
        ensures capacity { self.old.capacity ≤ self.new.capacity }
        ensures most { self.old.most ≤ self.new.most }
    {
        self.rows.reserve(n, places)
    }

    /// Takes a free part of the class for a list of this length, if there is one, and answers its number.
    pub(crate) fn take(&mut self, class: usize, len: usize) -> Option<usize>
        requires class { class < 64 }
        requires len { len ≤ self.old.most }
        ensures none { IfNone result (AllTaken self.old.parts class) }
        ensures same { IfNone result (self.new ≡ self.old) }
        ensures taken { IfSome result (λ number. TakesPart self.old.parts self.new.parts number class len) }
        ensures number { IfSome result (λ number. number < all_places) }
        ensures end { self.new.end ≡ self.old.end }
        ensures capacity { self.old.capacity ≤ self.new.capacity }
        ensures most { self.new.most ≡ self.old.most }
    {
        let Some(number) = self.heads[class].number() else {
            return None;
        };
        let state = self.rows.get(number).state;
        let State::Free(next) = state else {
            unreachable!()
        };
        self.rows.set_state(number, State::Taken(len));
        self.heads[class] = next;
        Some(number)
    }

    /// Adds a part that holds a list of this length, and answers its number. It takes no memory.
    pub(crate) fn add(&mut self, class: Class, len: usize) -> usize
        requires room { length self.old.parts < self.old.capacity }
        requires places { self.old.end + class.room ≤ self.old.most }
        requires len { len ≤ self.old.most }
        ensures added { AddsPart self.old.parts self.new.parts result self.old.end class.number len }
        ensures number { result < all_places }
        ensures end { self.new.end ≡ self.old.end + class.room }
        ensures capacity { self.old.capacity ≤ self.new.capacity }
        ensures most { self.new.most ≡ self.old.most }
    {
        let number = self.rows.len();
        self.rows.push(PackedPart {
            start: self.end,
            state: State::Taken(len),
        });
        self.end += class.room;
        number
    }

    /// Frees a part that holds a list. It takes no memory.
    pub(crate) fn release(&mut self, number: usize)
        requires taken { IsTakenPart self.old.parts number }
        requires rooms { HaveRooms self.old.parts }
        ensures freed { FreesPart self.old.parts self.new.parts number }
        ensures end { self.new.end ≡ self.old.end }
        ensures capacity { self.old.capacity ≤ self.new.capacity }
        ensures most { self.new.most ≡ self.old.most }
    {
        let span = self.span(number);
        let class = class_of(span.len);
        let next = self.heads[class.number];
        self.rows.set_state(number, State::Free(next));
        self.heads[class.number] = Link::to(number);
    }

    /// Where the list stands that this part holds.
    pub(crate) fn span(&self, number: usize) -> ListSpan
        requires { IsTakenPart self.now.parts number }
        ensures { IsPartSpan self.now.parts number result.start result.len }
    {
        let entry = self.rows.get(number);
        match entry.state {
            State::Taken(len) => ListSpan {
                start: entry.start,
                len,
            },
            State::Free(_) => unreachable!(),
        }
    }
}
