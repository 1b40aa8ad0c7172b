//! The letters of a level, counted.
ghost use Rattle.std.specs.Prelude.{◌≡◌, ◌<◌, ◌*◌, suc, Some, IfOk, OnOk, length, map};
ghost use Rattle.lsys_module.specs.Views.{module_name};
ghost use Rattle.lsys_growth.specs.Capped.{cap, capped, value_of};
ghost use Rattle.lsys_growth.specs.Matrices.{place};
ghost use Rattle.lsys_growth.specs.Growth.{growth_at};
ghost use Rattle.lsys_growth.specs.Counts.{told_length};
ghost use Rattle.lsys_growth.specs.Views.{IsGrowthAnswer};
ghost use Rattle.lsys_growth.specs.Census.{AddsCount, IsCensus};
ghost use Rattle.lsys_growth.specs.Steps.{FewProductsForLevel};

use crate::answer::{Count, Growth};
use crate::capped::plus;
use crate::class::is_in_class;
use crate::letters::letters;
use crate::refusal::GrowthRefusal;
use crate::steps::Steps;
use crate::turns::level_row;
use lsys_rules::System;
use lsys_text::Name;
use std::alloc::{AllocError, Global};
use std::sync::ledger::Ledger;

/// The letters of a level, counted, however deep it is: the levels go on past the depth, and the limit of modules plays no
/// part. It takes at most two products, of rows or of matrices, for each bit of the level's number, and two for each word of the
/// schedule.
///
/// # Errors
///
/// `Class` where the modules of a letter aren't rewritten alike, else `Letters` where there are more than 63, else `Overflow`
/// where the level's length is past 128 bits, each exactly there; or out of memory.
pub fn growth<P: Ledger>(
    alloc: Global,
    system: &System,
    level: u64,
    products: &mut Steps<P>,
) -> Result<Growth, GrowthRefusal>
    ensures answer { IsGrowthAnswer result (growth_at system.now level) }
    ensures count { FewProductsForLevel system.now level products.old products.new }
{
    if !is_in_class(system) {
        return Err(GrowthRefusal::Class);
    }
    let Some(letters) = letters(alloc, system)? else {
        return Err(GrowthRefusal::Letters);
    };
    let row = level_row(alloc, system, &letters, level, products)?;
    match census(alloc, &letters, &row)? {
        Some(growth) => Ok(growth),
        None => Err(GrowthRefusal::Overflow),
    }
}

// What the counts of the letters, and of `[`, tell of a level. None where its length is past 128 bits.
fn census(
    alloc: Global,
    letters: &[Name],
    row: &[Option<u128>],
) -> Result<Option<Growth>, AllocError>
    requires { length row.now ≡ suc (length letters.now) }
    ensures { IfOk result (λ told. IsCensus (map module_name letters.now) (place row.now) told) }
{
    match told_length(row, letters.len()) {
        Some(symbols) => Ok(Some(counts_of(alloc, letters, row, symbols)?)),
        None => Ok(None),
    }
}

// The counts of the letters that stand in a level of so many symbols.
fn counts_of(
    alloc: Global,
    letters: &[Name],
    row: &[Option<u128>],
    symbols: u128,
) -> Result<Growth, AllocError>
    requires row { length row.now ≡ suc (length letters.now) }
    requires told { symbols ≡ capped (told_length (length letters.now) (place row.now)) }
    ensures { IfOk result (λ told.
        IsCensus (map module_name letters.now) (place row.now) (Some told)) }
{
    let mut counts = Vec::new(alloc);
    for (place, letter) in letters.iter().enumerate() {
        push_count(&mut counts, *letter, row[place])?;
    }
    Ok(Growth {
        length: symbols,
        counts,
    })
}

// Puts a letter that stands in the level after the others.
fn push_count(counts: &mut Vec<Count>, name: Name, times: Option<u128>) -> Result<(), AllocError>
    requires { value_of times < cap }
    ensures { OnOk result (AddsCount (module_name name) (value_of times) counts.old counts.new) }
{
    if let Some(count) = times {
        if count > 0 {
            counts.push(Count { name, count })?;
        }
    }
    Ok(())
}

// The length of a level: each letter once, and each branch's two brackets.
fn told_length(row: &[Option<u128>], letters: usize) -> Option<u128>
    requires { length row.now ≡ suc letters }
    ensures { value_of result ≡ capped (told_length letters (place row.now)) }
{
    let mut symbols = Some(0);
    for count in &row[..letters] {
        symbols = plus(symbols, *count);
    }
    let branches = row[letters];
    plus(symbols, plus(branches, branches))
}
