//! The rows by their tags.
//!
//! All rows stand in one vector of cells. A row is placed when it gets tags that its cells have no room for: at the end,
//! with as many cells as it has tags and is owed.
ghost use Rattle.std.specs.Prelude.{◌≡◌, ◌<◌, ◌≤◌, ◌+◌, ℕ, List, [], length, OnOk, OnErr, false};
ghost use Rattle.lsys_reads.specs.Rows.{Row, tag_row, few, IsRising, SameRows, SweepsRow, PutsTag, Reserves};

use crate::head::{Head, kept_for};
use crate::pack::{placed, provide};
use crate::row;
use lsys_level::Tag;
use std::alloc::{AllocError, Global};
use std::marker::Model;

/// A row for each tag, and how many cells are kept after all rows for those that are to be placed.
#[derive(Drop)]
pub(crate) struct ReaderRows {
    alloc: Global,
    heads: Vec<Head>,
    cells: Vec<Tag>,
    kept: usize,
}

impl Model for ReaderRows {
    ghost use Rattle.std.specs.Prelude.{List, length, vec_capacity};
    ghost use Rattle.lsys_reads.specs.Rows.{Row, rows_code};
    ghost use Rattle.lsys_reads.specs.Layout.{rows_of, AreSoundRows};

    ghost Value = { List Row };

    ghost coded = { rows_code };

    ghost view = { λ t. rows_of t.cells.items t.heads.items };

    ghost invariant = { λ t. AreSoundRows t.heads.items (length t.cells.items) t.kept (vec_capacity t.cells) };
}

impl ReaderRows {
    /// A table with no rows. It takes no memory.
    pub(crate) fn new(alloc: Global) -> ReaderRows
        ensures { result ≡ [] }
    {
        ReaderRows {
            alloc,
            heads: Vec::new(alloc),
            cells: Vec::new(alloc),
            kept: 0,
        }
    }

    /// Makes the table reach to the tag.
    #[inline]
    fn reach(&mut self, tag: Tag) -> Result<(), AllocError>
        ensures rows { SameRows self.old self.new }
        ensures reach { OnOk result (tag < length self.new) }
    {
        let last = tag.0 as usize;
        while self.heads.len() <= last {
            self.heads.push(Head::new())?;
        }
        Ok(())
    }

    /// Keeps room for one tag more in the row of this tag.
    #[inline]
    pub(crate) fn reserve(&mut self, tag: Tag) -> Result<(), AllocError>
        ensures ok { OnOk result (Reserves self.old self.new tag) }
        ensures err { OnErr result (SameRows self.old self.new) }
    {
        self.reach(tag)?;
        self.owe(tag)
    }

    /// Keeps room for one tag more in a row that is there.
    #[inline]
    fn owe(&mut self, tag: Tag) -> Result<(), AllocError>
        requires { tag < length self.old }
        ensures ok { OnOk result (Reserves self.old self.new tag) }
        ensures err { OnErr result (SameRows self.old self.new) }
    {
        let place = tag.0 as usize;
        let head = self.heads[place];
        let due = head.len + head.owed;
        let kept = self.kept - kept_for(due, head.room) + kept_for(due + 1, head.room);
        provide(self.alloc, &mut self.heads, &mut self.cells, kept)?;
        self.heads[place].owed += 1;
        self.kept = kept;
        Ok(())
    }

    /// Gives back the room for one tag in the row of this tag.
    pub(crate) fn release(&mut self, tag: Tag)
        requires { 0 < (tag_row self.old tag).owed }
        ensures { Reserves self.new self.old tag }
    {
        let place = tag.0 as usize;
        let head = self.heads[place];
        let owed = head.owed - 1;
        let less = Head { owed, ..head };
        self.heads[place] = less.trimmed();
        self.kept = self.kept - head.wanted() + less.wanted();
    }

    /// Puts `other` into the row of this tag. With the last few that are owed the row rises. It takes no memory.
    #[inline]
    pub(crate) fn put(&mut self, tag: Tag, other: Tag)
        requires owed { 0 < (tag_row self.old tag).owed }
        requires rising { (tag_row self.old tag).owed ≤ few → IsRising (tag_row self.old tag).tags }
        ensures puts { PutsTag self.old self.new tag other }
        ensures rising { (tag_row self.new tag).owed ≤ few → IsRising (tag_row self.new tag).tags }
    {
        let place = tag.0 as usize;
        let was = self.heads[place];
        let room = was.wanted();
        let head = placed(&mut self.cells, was, room);
        let cells = &mut self.cells[head.start..head.start + head.room];
        let len = row::put(cells, head.len, head.owed, other);
        let owed = head.owed - 1;
        self.heads[place] = Head { len, owed, ..head };
        self.kept -= room;
    }

    /// Takes `other` out of the row of this tag, if it is there, and maybe others of `gone`.
    pub(crate) fn sweep(&mut self, tag: Tag, other: Tag, gone: &[Tag])
        requires rising { IsRising (tag_row self.old tag).tags }
        ensures { SweepsRow self.old self.new tag other gone.now }
    {
        let place = tag.0 as usize;
        if self.heads.len() <= place {
            return;
        }
        let head = self.heads[place];
        let cells = &mut self.cells[head.start..head.start + head.room];
        let len = row::sweep(cells, head.len, other, gone);
        let less = Head { len, ..head };
        self.heads[place] = less.trimmed();
        self.kept = self.kept - head.wanted() + less.wanted();
    }

    /// Whether any row has cells: where none has, no tag has a row.
    pub(crate) fn has_cells(&self) -> bool
        ensures { result ≡ false → (tag : ℕ) → (tag_row self.now tag).tags ≡ [] }
    {
        !self.cells.is_empty()
    }

    /// The row of this tag.
    pub(crate) fn tags(&self, tag: Tag) -> &[Tag]
        ensures { result.now ≡ (tag_row self.now tag).tags }
    {
        match self.heads.get(tag.0 as usize) {
            Some(head) => &self.cells[head.start..head.start + head.len],
            None => &[],
        }
    }
}
