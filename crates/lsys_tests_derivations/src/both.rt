//! Scripts over both derivations.
ghost use Rattle.std.specs.Prelude.{◌≤◌};

use crate::same::is_same;
use crate::writing::{written_over_a_forest, written_over_lists};
use lsys_cli::sample;
use lsys_tests_scripts::{
    Script, algae, edits, limited, long_lines, pictures, refusals, script_of_images, steps,
    versions,
};
use std::alloc::{AllocError, Global};
use std::marker::Brand;
use std::process::Abort;
use std::sync::ledger::Blank;
use std::test::Fail;

/// What is written for a script over lists.
fn over_lists(alloc: Global, limit: u32, room: usize, script: &[u8]) -> Result<Vec<u8>, AllocError>
    requires { limit ≤ 1000000 }
{
    written_over_lists::<Brand, Brand>(alloc, limit, room, script, Blank::new(1), Blank::new(1))
}

/// What is written for a script over a forest.
fn over_a_forest(
    alloc: Global,
    limit: u32,
    room: usize,
    script: &[u8],
) -> Result<Vec<u8>, AllocError>
    requires { limit ≤ 1000000 }
{
    written_over_a_forest::<Brand, Brand>(alloc, limit, room, script, Blank::new(1), Blank::new(1))
}

/// A script is answered with the same bytes over both, at most so many.
fn is_the_same(
    rt: &impl Abort,
    alloc: Global,
    limit: u32,
    room: usize,
    name: &str,
    script: &[u8],
) -> Result<(), Fail>
    requires { limit ≤ 1000000 }
{
    let lists = over_lists(alloc, limit, room, script)?;
    let forest = over_a_forest(alloc, limit, room, script)?;
    is_same(rt, name, &lists, &forest);
    Ok(())
}

/// A script that is made is answered with the same bytes over both, under the program's own limit.
fn is_the_same_if_made(
    rt: &impl Abort,
    alloc: Global,
    room: usize,
    name: &str,
    script: Result<Vec<u8>, AllocError>,
) -> Result<(), Fail> {
    let script = script?;
    is_the_same(rt, alloc, 200_000, room, name, &script)
}

/// Scripts are answered with the same bytes over both, under the program's own limit.
fn are_the_same(rt: &impl Abort, alloc: Global, scripts: &[Script]) -> Result<(), Fail> {
    for script in scripts {
        is_the_same(
            rt,
            alloc,
            200_000,
            65_536,
            script.name,
            script.text.as_bytes(),
        )?;
    }
    Ok(())
}

#[test]
fn systems_that_are_edited(rt: HostRuntime) -> Result<(), Fail> {
    are_the_same(&rt, rt.alloc(), &[algae()])?;
    are_the_same(&rt, rt.alloc(), edits())
}

#[test]
fn derivation_steps(rt: HostRuntime) -> Result<(), Fail> {
    are_the_same(&rt, rt.alloc(), steps())
}

#[test]
fn refused_lines(rt: HostRuntime) -> Result<(), Fail> {
    are_the_same(&rt, rt.alloc(), refusals())
}

#[test]
fn own_lists_and_lineages_by_names(rt: HostRuntime) -> Result<(), Fail> {
    are_the_same(&rt, rt.alloc(), versions())
}

#[test]
fn pictures_and_refused_ones(rt: HostRuntime) -> Result<(), Fail> {
    are_the_same(&rt, rt.alloc(), pictures())
}

#[test]
fn limits_and_their_boundaries(rt: HostRuntime) -> Result<(), Fail> {
    for (limit, name, text, _) in limited() {
        let limit = (*limit).min(1_000_000);
        is_the_same(&rt, rt.alloc(), limit, 65_536, *name, text.as_bytes())?;
    }
    Ok(())
}

#[test]
fn long_lines_and_samples(rt: HostRuntime) -> Result<(), Fail> {
    let alloc = rt.alloc();
    is_the_same_if_made(&rt, alloc, 65_536, "long lines", long_lines(alloc))?;
    is_the_same_if_made(&rt, alloc, 65_536, "a sample", sample(alloc, 0))?;
    is_the_same_if_made(&rt, alloc, 65_536, "another sample", sample(alloc, 7))
}

#[test]
fn the_largest_image_and_a_larger_one(rt: HostRuntime) -> Result<(), Fail> {
    let alloc = rt.alloc();
    is_the_same_if_made(
        &rt,
        alloc,
        65_536,
        "too large",
        script_of_images(alloc, 126),
    )?;
    is_the_same_if_made(
        &rt,
        alloc,
        33_554_432,
        "the largest",
        script_of_images(alloc, 125),
    )
}
