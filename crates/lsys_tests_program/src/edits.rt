//! Scripts are answered as they should be.
use crate::runs::ran_by;
use crate::same::{is_status, is_written};
use lsys_cli::Status;
use lsys_tests_scripts::{
    Script, algae, bounds_and_places, edits, growths, hostile_lines, limited, pictures, refusals,
    steps, versions,
};
use std::alloc::Global;
use std::process::Abort;
use std::test::Fail;

/// How a run ends by its replies: as refused where one of them is a refusal.
fn end_of(replies: &str) -> Status {
    if replies.contains("refused") {
        Status::Refused
    } else {
        Status::Done
    }
}

/// A run with these words on a script ends so, and writes these replies.
fn is_ended(
    rt: &impl Abort,
    alloc: Global,
    words: &[&str],
    script: &[u8],
    expected: (&str, Status, &str),
) -> Result<(), Fail> {
    let (name, end, replies) = expected;
    let (status, written) = ran_by(alloc, words, script)?;
    is_written(rt, name, &written, replies.as_bytes());
    is_status(rt, name, status, end);
    Ok(())
}

/// A run with these words writes the script's replies, and ends as refused where one of them is a refusal.
fn is_answered(
    rt: &impl Abort,
    alloc: Global,
    words: &[&str],
    script: &Script,
) -> Result<(), Fail> {
    let expected = (script.name, end_of(script.replies), script.replies);
    is_ended(rt, alloc, words, script.text.as_bytes(), expected)
}

/// Runs without words are answered so.
fn are_answered(rt: &impl Abort, alloc: Global, scripts: &[Script]) -> Result<(), Fail> {
    for script in scripts {
        is_answered(rt, alloc, &[], script)?;
    }
    Ok(())
}

#[test]
fn systems_that_are_edited(rt: HostRuntime) -> Result<(), Fail> {
    is_answered(&rt, rt.alloc(), &[], &algae())?;
    are_answered(&rt, rt.alloc(), edits())
}

#[test]
fn derivation_steps(rt: HostRuntime) -> Result<(), Fail> {
    are_answered(&rt, rt.alloc(), steps())
}

#[test]
fn refused_lines(rt: HostRuntime) -> Result<(), Fail> {
    are_answered(&rt, rt.alloc(), refusals())
}

#[test]
fn hostile_lines_are_refused(rt: HostRuntime) -> Result<(), Fail> {
    for (line, reply) in hostile_lines() {
        is_ended(
            &rt,
            rt.alloc(),
            &[],
            line,
            (*reply, Status::Refused, *reply),
        )?;
    }
    Ok(())
}

#[test]
fn own_lists_and_lineages_by_names(rt: HostRuntime) -> Result<(), Fail> {
    are_answered(&rt, rt.alloc(), versions())
}

#[test]
fn pictures_and_refused_ones(rt: HostRuntime) -> Result<(), Fail> {
    are_answered(&rt, rt.alloc(), pictures())
}

#[test]
fn bounds_and_places_of_pictures(rt: HostRuntime) -> Result<(), Fail> {
    are_answered(&rt, rt.alloc(), bounds_and_places())
}

#[test]
fn growth_of_systems(rt: HostRuntime) -> Result<(), Fail> {
    are_answered(&rt, rt.alloc(), growths())
}

/// A script is answered so under a limit.
fn is_answered_under(
    rt: &impl Abort,
    alloc: Global,
    limit: u32,
    script: &Script,
) -> Result<(), Fail> {
    let limit = format!(in alloc; "{limit}")?;
    is_answered(rt, alloc, &["--limit", limit.as_str()], script)
}

#[test]
fn limits_and_their_boundaries(rt: HostRuntime) -> Result<(), Fail> {
    for (limit, name, text, replies) in limited() {
        let script = Script {
            name: *name,
            text: *text,
            replies: *replies,
        };
        is_answered_under(&rt, rt.alloc(), *limit, &script)?;
    }
    Ok(())
}
