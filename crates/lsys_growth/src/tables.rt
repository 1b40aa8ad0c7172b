//! The matrices of steps.
ghost use Rattle.std.specs.Prelude.{◌≡◌, ◌≤◌, ◌<◌, true, IfOk, OnOk, length, map};
ghost use Rattle.lsys_module.specs.Views.{module_name};
ghost use Rattle.lsys_bodies.specs.Views.{as_production};
ghost use Rattle.lsys_growth.specs.Growth.{in_class, letters, most_letters};
ghost use Rattle.lsys_growth.specs.Counting.{AddsGiven, letter_rules};
ghost use Rattle.lsys_growth.specs.Steps.{IsStepMatrix};

use crate::counting::{letter_at, push_alone, push_successor};
use crate::letters::letters;
use crate::matrix::Matrix;
use lsys_bodies::Rule;
use lsys_rules::System;
use lsys_text::Name;
use std::alloc::{AllocError, Global};

impl Matrix {
    /// The matrix of a step by the table at a place of the schedule, from 0: how often each letter, and after the letters `[`,
    /// stands in the first successor of each letter, and of `[`. Letters without a rule there give themselves, and so does
    /// `[`. The letters stand in the order of the bytes of their names.
    ///
    /// # Errors
    ///
    /// Out of memory.
    pub fn of_table(
        alloc: Global,
        system: &System,
        schedule_place: usize,
    ) -> Result<Matrix, AllocError>
        requires class { in_class system.now ≡ true }
        requires letters { length (letters system.now) ≤ most_letters }
        requires place { schedule_place < length system.now.schedule }
        ensures { IfOk result (IsStepMatrix system.now (letters system.now) schedule_place) }
    {
        let words = system.schedule();
        prove!(schedule_place < words.len());
        match letters(alloc, system)? {
            Some(letters) => step(alloc, system, &letters, schedule_place as u32),
            None => unreachable!(),
        }
    }
}

// The matrix of the step from a level: how often each letter, and `[`, stands in the successor of each letter, and of `[`.
pub(crate) fn step(
    alloc: Global,
    system: &System,
    letters: &[Name],
    level: u32,
) -> Result<Matrix, AllocError>
    ensures { IfOk result (IsStepMatrix system.now (map module_name letters.now) level) }
{
    let size = letters.len() + 1;
    let mut entries = Vec::new(alloc);
    for row in 0..size {
        push_given(
            &mut entries,
            letters,
            system,
            level,
            letter_at(letters, row),
        )?;
    }
    Ok(Matrix::of_entries(size, entries))
}

// Puts the counts of what is given for a letter in the step from a level after some entries: of the first successor for
// it, or of itself. A `[` is given for itself.
fn push_given(
    entries: &mut Vec<Option<u128>>,
    letters: &[Name],
    system: &System,
    level: u32,
    letter: Option<Name>,
) -> Result<(), AllocError>
    ensures { OnOk result (AddsGiven letters.now system.now level letter entries.old entries.new) }
{
    let Some(name) = letter else {
        return push_alone(entries, letters, &None);
    };
    match rules_for(system, level, name).first() {
        Some(rule) => push_successor(entries, letters, &rule.body.get().successor),
        None => push_alone(entries, letters, &Some(name)),
    }
}

// The rules of a level's table for a letter without parameters, in the order in which they are tried.
fn rules_for<'a>(system: &'a System, level: u32, name: Name) -> &'a [Rule]
    ensures { map as_production result.now ≡ letter_rules system.now level name }
{
    match system.group(level, name, 0) {
        Some(group) => group.rules(),
        None => &[],
    }
}
