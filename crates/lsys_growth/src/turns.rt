//! Many steps.
ghost use Rattle.std.specs.Prelude.{◌≡◌, ◌≤◌, ◌<◌, ◌+◌, ◌/◌, IfOk, length, map};
ghost use Rattle.lsys_module.specs.Views.{module_name};
ghost use Rattle.lsys_growth.specs.Steps.{IsAxiomRow, IsLevelRow, IsTurn, width, AfterTurnsOf, FewProductsForLevel, FewProductsForTurns, AfterStepsOf};

use crate::counting::push_axiom;
use crate::matrix::{Matrix, multiply};
use crate::power::{power_times, row_times};
use crate::steps::Steps;
use crate::tables::step;
use lsys_rules::System;
use lsys_text::Name;
use std::alloc::{AllocError, Global};
use std::sync::ledger::Ledger;

// The counts of a level: of each letter, and of `[`.
pub(crate) fn level_row<P: Ledger>(
    alloc: Global,
    system: &System,
    letters: &[Name],
    level: u64,
    products: &mut Steps<P>,
) -> Result<Vec<Option<u128>>, AllocError>
    ensures row { IfOk result (λ r.
        IsLevelRow system.now (map module_name letters.now) level r.items) }
    ensures count { FewProductsForLevel system.now level products.old products.new }
{
    let turn_length = system.schedule().len() as u64;
    let first = axiom_row(alloc, system, letters)?;
    let row = after_turns(alloc, system, letters, first, level / turn_length, products)?;
    after_steps(
        alloc,
        system,
        letters,
        row,
        (level % turn_length) as u32,
        products,
    )
}

fn axiom_row(
    alloc: Global,
    system: &System,
    letters: &[Name],
) -> Result<Vec<Option<u128>>, AllocError>
    ensures { IfOk result (λ r. IsAxiomRow system.now (map module_name letters.now) r.items) }
{
    let mut row = Vec::new(alloc);
    push_axiom(&mut row, letters, system.axiom().symbols())?;
    Ok(row)
}

// The row after so many turns through the schedule.
fn after_turns<P: Ledger>(
    alloc: Global,
    system: &System,
    letters: &[Name],
    first: Vec<Option<u128>>,
    turns: u64,
    products: &mut Steps<P>,
) -> Result<Vec<Option<u128>>, AllocError>
    requires { length first.items ≡ width (map module_name letters.now) }
    ensures row { IfOk result (AfterTurnsOf system.now letters.now turns first) }
    ensures count { FewProductsForTurns system.now turns products.old products.new }
{
    if turns == 0 {
        return Ok(first);
    }
    let turn = turn(alloc, system, letters, products)?;
    power_times(alloc, first, turn, turns, products)
}

// The matrix of a turn through the schedule: the product of those of its steps. The last is taken first, so that the matrix
// of a step, which has few counts that aren't 0, stands in front of each product.
fn turn<P: Ledger>(
    alloc: Global,
    system: &System,
    letters: &[Name],
    products: &mut Steps<P>,
) -> Result<Matrix, AllocError>
    ensures product { IfOk result (IsTurn system.now (map module_name letters.now)) }
    ensures count { products.new ≤ products.old + length system.now.schedule }
{
    let mut level = system.schedule().len() as u32 - 1;
    let mut turn = step(alloc, system, letters, level)?;
    'back: while level > 0 {
        level -= 1;
        let step = step(alloc, system, letters, level)?;
        turn = multiply(alloc, &step, &turn, products)?;
    }
    Ok(turn)
}

// The row after so many steps from level 0.
fn after_steps<P: Ledger>(
    alloc: Global,
    system: &System,
    letters: &[Name],
    first: Vec<Option<u128>>,
    steps: u32,
    products: &mut Steps<P>,
) -> Result<Vec<Option<u128>>, AllocError>
    requires { length first.items ≡ width (map module_name letters.now) }
    ensures row { IfOk result (AfterStepsOf system.now letters.now steps first) }
    ensures count { products.new ≤ products.old + steps }
{
    let mut row = first;
    for level in 0..steps {
        let step = step(alloc, system, letters, level)?;
        row = row_times(alloc, &row, &step, products)?;
    }
    Ok(row)
}
