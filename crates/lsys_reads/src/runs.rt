//! What each reader saw.
//!
//! All of it stands in one vector of cells, that of a reader as one run of them. What comes is put after all runs, so a
//! reader whose pairs come together has them alone in its run; else its run reaches over what came between. A run that
//! is given up leaves its cells; they are got back when room runs out.
ghost use Rattle.std.specs.Prelude.{◌≡◌, ◌<◌, ◌≤◌, ◌+◌, ◌^◌, ◌++◌, [], length, IfOk, OnOk, OnErr, vec_capacity};
ghost use Rattle.lsys_reads.specs.Runs.{run_in_cells, runs_in, empty_run, sights_by, LieWithin, SightsStay, NotesSight, ClearsSights};

use lsys_level::Tag;
use std::alloc::{AllocError, Global};
use std::marker::Model;

/// A run of cells: so many from `start` on.
#[derive(Clone, Copy, Drop)]
pub(crate) struct Stretch {
    pub(crate) start: usize,
    pub(crate) len: usize,
}

impl Stretch {
    /// The run of a reader that saw nothing.
    pub(crate) fn new() -> Stretch
        ensures { result ≡ empty_run }
    {
        Stretch { start: 0, len: 0 }
    }

    /// The run that has the cell with this number too, which is after it: it ends there, and begins where it began.
    #[inline]
    fn up_to(self, last: usize) -> Stretch
        requires after { self.start + self.len ≤ last }
        requires number { last < 2 ^ 63 }
        ensures start { 0 < self.len → result.start ≡ self.start }
        ensures end { result.start + result.len ≡ last + 1 }
        ensures some { 0 < result.len }
    {
        let start = if self.len == 0 { last } else { self.start };
        Stretch {
            start,
            len: last + 1 - start,
        }
    }
}

/// A run for each reader.
#[derive(Drop)]
pub(crate) struct Runs {
    alloc: Global,
    runs: Vec<Stretch>,
    cells: Vec<Tag>,
}

impl Model for Runs {
    ghost use Rattle.std.specs.Prelude.{◌-◌, length, vec_capacity};
    ghost use Rattle.lsys_reads.specs.Runs.{Sights, sights_code, runs_in, LieWithin};

    ghost Value = { Sights };

    ghost coded = { sights_code };

    ghost view = { λ r. record { rows = runs_in r.cells.items r.runs.items; room = vec_capacity r.cells - length r.cells.items } };

    ghost invariant = { λ r. LieWithin r.runs.items (length r.cells.items) };
}

impl Runs {
    /// No runs. It takes no memory.
    pub(crate) fn new(alloc: Global) -> Runs
        ensures { result.rows ≡ [] }
    {
        Runs {
            alloc,
            runs: Vec::new(alloc),
            cells: Vec::new(alloc),
        }
    }

    /// Makes the runs reach to the reader, with room for so many tags more in all.
    ///
    /// # Errors
    ///
    /// Out of memory.
    #[inline]
    pub(crate) fn reserve(&mut self, reader: Tag, many: usize) -> Result<(), AllocError>
        ensures stay { SightsStay self.old self.new }
        ensures longer { length self.old.rows ≤ length self.new.rows }
        ensures reach { OnOk result (reader < length self.new.rows) }
        ensures room { OnOk result (many ≤ self.new.room) }
        ensures err { OnErr result (self.old.room ≤ self.new.room) }
    {
        self.reach(reader)?;
        provide(self.alloc, &mut self.runs, &mut self.cells, many)
    }

    /// Makes the runs reach to the reader.
    #[inline]
    fn reach(&mut self, reader: Tag) -> Result<(), AllocError>
        ensures stay { SightsStay self.old self.new }
        ensures longer { length self.old.rows ≤ length self.new.rows }
        ensures reach { OnOk result (reader < length self.new.rows) }
        ensures room { self.old.room ≤ self.new.room }
    {
        let last = reader.0 as usize;
        while self.runs.len() <= last {
            self.runs.push(Stretch::new())?;
        }
        Ok(())
    }

    /// Adds that the reader saw the tag. It takes no memory.
    #[inline]
    pub(crate) fn put(&mut self, reader: Tag, seen: Tag)
        requires reach { reader < length self.old.rows }
        requires room { 0 < self.old.room }
        ensures { NotesSight self.old self.new reader seen }
    {
        let place = reader.0 as usize;
        let run = self.runs[place];
        let last = self.cells.len();
        let next = run.up_to(last);
        self.runs[place] = next;
        match self.cells.push(seen) {
            Ok(()) => {}
            Err(_) => unreachable!(),
        }
    }

    /// Gives up the run of the reader.
    pub(crate) fn clear(&mut self, reader: Tag)
        ensures { ClearsSights self.old self.new reader }
    {
        let place = reader.0 as usize;
        if place < self.runs.len() {
            self.runs[place] = Stretch::new();
        }
    }

    /// The run of the reader.
    pub(crate) fn run(&self, reader: Tag) -> &[Tag]
        ensures { result.now ≡ sights_by self.now reader }
    {
        match self.runs.get(reader.0 as usize) {
            Some(run) => &self.cells[run.start..run.start + run.len],
            None => &[],
        }
    }
}

/// Makes room for so many cells after all runs.
#[inline]
fn provide(
    alloc: Global,
    runs: &mut Vec<Stretch>,
    cells: &mut Vec<Tag>,
    many: usize,
) -> Result<(), AllocError>
    requires { LieWithin runs.old.items (length cells.old.items) }
    ensures rows { runs_in cells.new.items runs.new.items ≡ runs_in cells.old.items runs.old.items }
    ensures within { LieWithin runs.new.items (length cells.new.items) }
    ensures ok { OnOk result (length cells.new.items + many ≤ vec_capacity cells.new) }
    ensures err { OnErr result (vec_capacity cells.new ≡ vec_capacity cells.old) }
    ensures size { OnErr result (length cells.new.items ≡ length cells.old.items) }
{
    if many <= cells.capacity() - cells.len() {
        return Ok(());
    }
    grow(alloc, runs, cells, many)
}

/// Makes room for so many cells after all runs, and half as many again as there are: in a new vector if less than half
/// of the cells stand in runs.
#[cold]
#[inline(never)]
fn grow(
    alloc: Global,
    runs: &mut Vec<Stretch>,
    cells: &mut Vec<Tag>,
    many: usize,
) -> Result<(), AllocError>
    requires { LieWithin runs.old.items (length cells.old.items) }
    ensures rows { runs_in cells.new.items runs.new.items ≡ runs_in cells.old.items runs.old.items }
    ensures within { LieWithin runs.new.items (length cells.new.items) }
    ensures ok { OnOk result (length cells.new.items + many ≤ vec_capacity cells.new) }
    ensures err { OnErr result (vec_capacity cells.new ≡ vec_capacity cells.old) }
    ensures size { OnErr result (length cells.new.items ≡ length cells.old.items) }
{
    let live = size(runs);
    let more = many.saturating_add(live.saturating_add(many).saturating_add(runs.len()) / 2);
    if live < cells.len() / 2 {
        return pack(alloc, runs, cells, more);
    }
    cells.reserve(more)
}

/// Moves all runs to the front of a new vector, one after the other, with room for so many cells after them.
fn pack(
    alloc: Global,
    runs: &mut Vec<Stretch>,
    cells: &mut Vec<Tag>,
    more: usize,
) -> Result<(), AllocError>
    requires { LieWithin runs.old.items (length cells.old.items) }
    ensures rows { runs_in cells.new.items runs.new.items ≡ runs_in cells.old.items runs.old.items }
    ensures within { LieWithin runs.new.items (length cells.new.items) }
    ensures ok { OnOk result (length cells.new.items + more ≤ vec_capacity cells.new) }
    ensures err { OnErr result (cells.new ≡ cells.old) }
{
    let mut packed = Vec::with_capacity(alloc, size(runs).saturating_add(more))?;
    let mut moved = Vec::with_capacity(alloc, runs.len())?;
    while moved.len() < runs.len() {
        let run = runs[moved.len()];
        moved.push(append(&mut packed, cells, run)?)?;
    }
    packed.reserve(more)?;
    *runs = moved;
    *cells = packed;
    Ok(())
}

/// Appends the cells of a run, and answers where they stand then.
fn append(packed: &mut Vec<Tag>, cells: &[Tag], run: Stretch) -> Result<Stretch, AllocError>
    requires { run.start + run.len ≤ length cells.now }
    ensures run { IfOk result (λ moved. moved ≡ record run { start = length packed.old.items }) }
    ensures cells { OnOk result (packed.new.items ≡ packed.old.items ++ run_in_cells cells.now run) }
{
    let start = packed.len();
    packed.extend_from_slice(&cells[run.start..run.start + run.len])?;
    Ok(Stretch { start, ..run })
}

/// How many cells stand in runs.
fn size(runs: &[Stretch]) -> usize {
    let mut many: usize = 0;
    for run in runs {
        many = many.saturating_add(run.len);
    }
    many
}
