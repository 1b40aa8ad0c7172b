//! Words of the command line, and scripts that come from elsewhere than a source, or are too long.
use crate::runs::ran_by;
use crate::same::{is_status, is_written};
use lsys_cli::Status;
use std::alloc::{AllocError, Global};
use std::process::Abort;
use std::test::Fail;

/// A run with these words on this script ends so, and writes these replies.
fn is_ended_by(
    rt: &impl Abort,
    alloc: Global,
    words: &[&str],
    script: &[u8],
    (end, replies): (Status, &[u8]),
) -> Result<(), Fail> {
    let (status, written) = ran_by(alloc, words, script)?;
    is_written(rt, "words", &written, replies);
    is_status(rt, "words", status, end);
    Ok(())
}

/// Words outside of the grammar.
fn refused_words() -> &'static [&'static [&'static str]] {
    &[
        &["x"],
        &[""],
        &["-"],
        &["--"],
        &["-h"],
        &["--help"],
        &["--version"],
        &["5"],
        &["--lim", "5"],
        &["--limit"],
        &["--limit="],
        &["--limit", "0"],
        &["--limit", "+5"],
        &["--limit", " 5"],
        &["--limit", "1000001"],
        &["--limit", "000000000000000000005"],
        &["--limit", "5", "x"],
        &["--limit", "5", "--limit=5"],
        &["--limit", "--sample"],
        &["--sample", "-1"],
        &["--sample", "18446744073709551616"],
        &["--sample", "1", "--sample", "1"],
    ]
}

#[test]
fn words_outside_of_the_grammar(rt: HostRuntime) -> Result<(), Fail> {
    for words in refused_words() {
        is_ended_by(&rt, rt.alloc(), *words, b"axiom A\n", (Status::Usage, b""))?;
    }
    Ok(())
}

#[test]
fn replies_to_a_sample(rt: HostRuntime) -> Result<(), Fail> {
    let replies = b"ok 0/0\nok 0/0\nok 0/0\nok 3620/3620\nok 40/3581\nok 0/3581\nok 0/3581\n";
    is_ended_by(
        &rt,
        rt.alloc(),
        &["--sample", "0"],
        b"string\n",
        (Status::Done, replies),
    )
}

/// 256 comments of 65,535 bytes, each with its LF: as many bytes as a script may have.
fn longest_script(alloc: Global) -> Result<Vec<u8>, AllocError> {
    let letters = vec![in alloc; b'c'; 65_534]?;
    let mut script = Vec::with_capacity(alloc, 16_777_217)?;
    for _ in 0..256 {
        script.push(b';')?;
        script.extend_from_slice(&letters)?;
        script.push(b'\n')?;
    }
    Ok(script)
}

#[test]
fn a_script_of_as_many_bytes_as_it_may_have_and_one_more(rt: HostRuntime) -> Result<(), Fail> {
    let mut script = longest_script(rt.alloc())?;
    is_ended_by(&rt, rt.alloc(), &[], &script, (Status::Done, b""))?;
    script.push(b'\n')?;
    is_ended_by(&rt, rt.alloc(), &[], &script, (Status::TooLong, b""))
}
