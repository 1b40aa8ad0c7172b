//! One step, and many at once.

ghost use Rattle.std.specs.Prelude.{◌≡◌, ◌<◌, ◌≤◌, ◌+◌, ◌*◌, ◌^◌, ℕ, length, IfOk};
ghost use Rattle.lsys_growth.specs.Matrices.{IsRowAfter, IsRowTimes};

use crate::matrix::{Matrix, multiply, push_row};
use crate::steps::Steps;
use std::alloc::{AllocError, Global};
use std::sync::ledger::Ledger;

// A row times a matrix, each place the lesser of the true sum and 2^128. The counter rises by one.
pub(crate) fn row_times<P: Ledger>(
    alloc: Global,
    row: &[Option<u128>],
    m: &Matrix,
    products: &mut Steps<P>,
) -> Result<Vec<Option<u128>>, AllocError>
    requires { length row.now ≡ m.now.size }
    ensures product { IfOk result (λ r. IsRowTimes row.now m.now r.items) }
    ensures count { products.new ≡ products.old + 1 }
{
    products.tick();
    let mut sums = Vec::new(alloc);
    push_row(alloc, &mut sums, row, m)?;
    Ok(sums)
}

// The row after so many times the same matrix, by squaring: the row is taken times the powers whose exponents add up to
// the number, so the counter rises by at most two for each bit of it.
pub(crate) fn power_times<P: Ledger>(
    alloc: Global,
    first: Vec<Option<u128>>,
    matrix: Matrix,
    times: u64,
    products: &mut Steps<P>,
) -> Result<Vec<Option<u128>>, AllocError>
    requires { length first.items ≡ matrix.size }
    ensures row { IfOk result (λ r. IsRowAfter first.items matrix times r.items) }
    ensures count { (k : ℕ) → times < 2 ^ k → products.new ≤ products.old + 2 * k }
{
    let mut row = first;
    let mut power = matrix;
    let mut rest = times;
    while rest > 0 {
        let half = rest / 2;
        if rest % 2 == 1 {
            row = row_times(alloc, &row, &power, products)?;
        }
        if half > 0 {
            power = multiply(alloc, &power, &power, products)?;
        }
        rest = half;
    }
    Ok(row)
}
