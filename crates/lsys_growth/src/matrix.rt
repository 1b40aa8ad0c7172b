//! Square matrices of counts that stop at 2^128.

ghost use Rattle.std.specs.Prelude.{◌≡◌, ℕ, ◌+◌, ◌*◌, ◌<◌, length, IfOk, OnOk};
ghost use Rattle.lsys_growth.specs.Capped.{capped, value_of};
ghost use Rattle.lsys_growth.specs.Sums.{row_by};
ghost use Rattle.lsys_growth.specs.Matrices.{Square, place, entry, AreNeeded, AddsRow, IsProduct};

use crate::capped::{is_zero, plus_times};
use crate::steps::Steps;
use std::alloc::{AllocError, Global};
use std::marker::Model;
use std::sync::ledger::Ledger;

/// A square matrix, row by row. An entry is None where it is past 128 bits.
#[derive(Drop)]
pub struct Matrix {
    size: usize,
    entries: Vec<Option<u128>>,
}

impl Model for Matrix {
    ghost Value = { Square };

    ghost view = { λ m. record { size = m.size; entries = m.entries.items } };

    ghost invariant = { λ m. length m.entries.items ≡ m.size * m.size };
}

impl Matrix {
    // The matrix with these entries, row by row.
    pub(crate) fn of_entries(size: usize, entries: Vec<Option<u128>>) -> Matrix
        requires { length entries.items ≡ size * size }
        ensures size { result.size ≡ size }
        ensures entries { result.entries ≡ entries.items }
    {
        Matrix { size, entries }
    }

    // How many rows it has, and columns.
    pub(crate) fn size(&self) -> usize
        ensures { result ≡ self.now.size }
    {
        self.size
    }
}

// The places of a row that aren't 0.
fn needed_places(alloc: Global, row: &[Option<u128>]) -> Result<Vec<usize>, AllocError>
    ensures { IfOk result (λ places. AreNeeded row.now places.items) }
{
    let mut places = Vec::new(alloc);
    for (i, x) in row.iter().enumerate() {
        if !is_zero(*x) {
            places.push(i)?;
        }
    }
    Ok(places)
}

// A row times a column. A sum that is past 128 bits stays so.
fn cell(row: &[Option<u128>], places: &[usize], m: &Matrix, column: usize) -> Option<u128>
    requires size { length row.now ≡ m.now.size }
    requires within { column < m.now.size }
    requires needed { AreNeeded row.now places.now }
    ensures { value_of result ≡ capped (row_by m.now.size (place row.now) (entry m.now) column) }
{
    let mut sum = 0;
    for i in places.iter() {
        match plus_times(sum, row[*i], m.entries[*i * m.size + column]) {
            Some(more) => sum = more,
            None => return None,
        }
    }
    Some(sum)
}

// Puts the row times the matrix after some entries.
pub(crate) fn push_row(
    alloc: Global,
    entries: &mut Vec<Option<u128>>,
    row: &[Option<u128>],
    m: &Matrix,
) -> Result<(), AllocError>
    requires { length row.now ≡ m.now.size }
    ensures { OnOk result (AddsRow row.now m.now entries.old.items entries.new.items) }
{
    let places = needed_places(alloc, row)?;
    for column in 0..m.size {
        entries.push(cell(row, &places, m, column))?;
    }
    Ok(())
}

/// The product of two matrices of one size, each entry the lesser of the true sum and 2^128. The counter rises by one.
///
/// # Errors
///
/// Out of memory.
pub fn multiply<P: Ledger>(
    alloc: Global,
    a: &Matrix,
    b: &Matrix,
    products: &mut Steps<P>,
) -> Result<Matrix, AllocError>
    requires { a.now.size ≡ b.now.size }
    ensures product { IfOk result (λ m. IsProduct a.now b.now m) }
    ensures count { products.new ≡ products.old + 1 }
{
    products.tick();
    let mut entries = Vec::new(alloc);
    for i in 0..a.size {
        let row = &a.entries[i * a.size..i * a.size + a.size];
        push_row(alloc, &mut entries, row, b)?;
    }
    Ok(Matrix {
        size: a.size,
        entries,
    })
}
