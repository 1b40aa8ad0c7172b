//! Room after the rows of a table.
ghost use Rattle.std.specs.Prelude.{◌+◌, ◌<◌, ◌≤◌, length, IfOk, OnOk, OnErr, true, vec_capacity, ◌≡◌, ◌++◌};
ghost use Rattle.lsys_reads.specs.Layout.{IsLaid, Packs, ComesToPlace, cells_of, wanted};

use crate::head::Head;
use lsys_level::Tag;
use std::alloc::{AllocError, Global};

/// Makes room for so many cells after all rows. Where there is none the rows are packed into a vector that has half as
/// many cells again: all that takes cells until the next time shares the steps.
///
/// # Errors
///
/// Out of memory. Then all rows stay.
#[inline]
pub(crate) fn provide(
    alloc: Global,
    heads: &mut Vec<Head>,
    cells: &mut Vec<Tag>,
    after: usize,
) -> Result<(), AllocError>
    requires { IsLaid heads.old.items (length cells.old.items) }
    ensures pack { OnOk result (Packs heads.old.items heads.new.items cells.old.items cells.new.items) }
    ensures laid { OnOk result (IsLaid heads.new.items (length cells.new.items)) }
    ensures capacity { OnOk result (length cells.new.items + after ≤ vec_capacity cells.new) }
    ensures heads { OnErr result (heads.new ≡ heads.old) }
    ensures cells { OnErr result (cells.new ≡ cells.old) }
{
    if has_room(cells, after) {
        return Ok(());
    }
    pack(alloc, heads, cells, after)
}

/// Whether there is room for so many cells after all rows.
#[inline]
fn has_room(cells: &Vec<Tag>, after: usize) -> bool
    ensures { result ≡ true → length cells.now.items + after ≤ vec_capacity cells.now }
{
    after <= cells.capacity() - cells.len()
}

/// Moves all rows to the front of a new vector, one after the other, with room for so many cells after them.
#[cold]
#[inline(never)]
fn pack(
    alloc: Global,
    heads: &mut Vec<Head>,
    cells: &mut Vec<Tag>,
    after: usize,
) -> Result<(), AllocError>
    requires { IsLaid heads.old.items (length cells.old.items) }
    ensures pack { OnOk result (Packs heads.old.items heads.new.items cells.old.items cells.new.items) }
    ensures laid { OnOk result (IsLaid heads.new.items (length cells.new.items)) }
    ensures capacity { OnOk result (length cells.new.items + after ≤ vec_capacity cells.new) }
    ensures heads { OnErr result (heads.new ≡ heads.old) }
    ensures cells { OnErr result (cells.new ≡ cells.old) }
{
    let mut packed = Vec::with_capacity(alloc, size(heads, after))?;
    let mut moved = Vec::with_capacity(alloc, heads.len())?;
    while moved.len() < heads.len() {
        let head = heads[moved.len()];
        moved.push(append(&mut packed, cells, head)?)?;
    }
    packed.reserve(after)?;
    *heads = moved;
    *cells = packed;
    Ok(())
}

/// Appends the cells of a row, and answers its head with their new place.
fn append(packed: &mut Vec<Tag>, cells: &[Tag], head: Head) -> Result<Head, AllocError>
    requires { head.start + head.room ≤ length cells.now }
    ensures start { IfOk result (λ moved. moved ≡ record head { start = length packed.old.items }) }
    ensures cells { OnOk result (packed.new.items ≡ packed.old.items ++ cells_of cells.now head) }
{
    let start = packed.len();
    packed.extend_from_slice(&cells[head.start..head.start + head.room])?;
    Ok(Head { start, ..head })
}

/// The head of the row with room for all that it is owed: its own, or one after all rows, where the tags stand now. It
/// takes no memory.
#[inline]
pub(crate) fn placed(cells: &mut Vec<Tag>, head: Head, room: usize) -> Head
    requires wanted { room ≡ wanted head }
    requires inside { head.start + head.room ≤ length cells.old.items }
    requires fits { head.len ≤ head.room }
    requires capacity { length cells.old.items + wanted head ≤ vec_capacity cells.old }
    ensures placed { ComesToPlace cells.old.items cells.new.items head result }
    ensures capacity { vec_capacity cells.old ≤ vec_capacity cells.new }
{
    if room == 0 {
        head
    } else {
        moved(cells, head, room)
    }
}

/// The same, where so many cells are kept for it after all rows.
#[cold]
#[inline(never)]
fn moved(cells: &mut Vec<Tag>, head: Head, room: usize) -> Head
    requires wanted { room ≡ wanted head }
    requires some { 0 < room }
    requires inside { head.start + head.room ≤ length cells.old.items }
    requires fits { head.len ≤ head.room }
    requires capacity { length cells.old.items + wanted head ≤ vec_capacity cells.old }
    ensures placed { ComesToPlace cells.old.items cells.new.items head result }
    ensures capacity { vec_capacity cells.old ≤ vec_capacity cells.new }
{
    let start = cells.len();
    match cells.extend_from_within(head.start..head.start + head.len) {
        Ok(()) => {}
        Err(_) => unreachable!(),
    }
    match cells.resize(start + room, Tag(0)) {
        Ok(()) => {}
        Err(_) => unreachable!(),
    }
    Head {
        start,
        room,
        ..head
    }
}

/// How many cells a packed vector gets.
fn size(heads: &[Head], after: usize) -> usize {
    let mut rows: usize = after;
    for head in heads {
        rows = rows.saturating_add(head.room);
    }
    rows.saturating_add(rows.saturating_add(heads.len()) / 2)
}
