//! Runs of the program for tests: over a source and a sink that are given, and over memory.

ghost use Rattle.std.specs.Prelude.{◌≡◌, ◌<◌, ◌≤◌};

use lsys_cli::{Status, lsys};
use lsys_io::{MemorySink, MemorySource, Sink, Source};
use lsys_match::Steps;
use std::alloc::{AllocError, Global};
use std::marker::Brand;
use std::sync::ledger::{Blank, Ledger};

/// The status of a run on ledgers that have no counter yet.
fn counted<S: Source, K: Sink, L: Ledger, V: Ledger>(
    alloc: Global,
    words: &[String],
    source: &mut S,
    sink: &mut K,
    asked: Blank,
    visited: Blank,
) -> Status
    requires name { asked.name ≡ L.name }
    requires parts { asked.parts ≡ L.parts }
    requires some { 0 < asked.parts }
    requires other_name { visited.name ≡ V.name }
    requires other_parts { visited.parts ≡ V.parts }
    requires other_some { 0 < visited.parts }
{
    let mut asked = Steps::<L>::open(asked);
    let mut visited = Steps::<V>::open(visited);
    lsys(alloc, words, source, sink, &mut asked, &mut visited)
}

/// The status of a run, with counters of its own.
fn run<S: Source, K: Sink>(
    alloc: Global,
    words: &[String],
    source: &mut S,
    sink: &mut K,
) -> Status {
    counted::<S, K, Brand, Brand>(alloc, words, source, sink, Blank::new(1), Blank::new(1))
}

/// Words that are owned.
fn owned(alloc: Global, words: &[&str]) -> Result<Vec<String>, AllocError> {
    let mut owned = Vec::new(alloc);
    for word in words {
        owned.push(String::from_str(alloc, *word)?)?;
    }
    Ok(owned)
}

/// The status of a run with these words.
pub(crate) fn status_of<S: Source, K: Sink>(
    alloc: Global,
    words: &[&str],
    source: &mut S,
    sink: &mut K,
) -> Result<Status, AllocError> {
    let words = owned(alloc, words)?;
    Ok(run(alloc, words.as_slice(), source, sink))
}

/// What a run with these words over a source and a sink ends with, and what it writes.
pub(crate) fn ran_over(
    alloc: Global,
    words: &[&str],
    source: &mut MemorySource,
    sink: &mut MemorySink,
) -> Result<(Status, Vec<u8>), AllocError> {
    let status = status_of(alloc, words, source, sink)?;
    let written = Vec::from_slice(alloc, sink.bytes())?;
    Ok((status, written))
}

/// What a run with these words on a script ends with, and what it writes, of which there is room for 65,536 bytes.
pub(crate) fn ran_by(
    alloc: Global,
    words: &[&str],
    script: &[u8],
) -> Result<(Status, Vec<u8>), AllocError> {
    let bytes = Vec::from_slice(alloc, script)?;
    let mut source = MemorySource::new(bytes, 4096, Vec::new(alloc));
    let mut sink = MemorySink::new(alloc, 65_536, 4096, Vec::new(alloc))?;
    ran_over(alloc, words, &mut source, &mut sink)
}
