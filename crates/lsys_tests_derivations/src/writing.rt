//! What sessions over given derivations write.
ghost use Rattle.std.specs.Prelude.{◌≡◌, ◌<◌, ◌≤◌, []};

use lsys_flat::Levels;
use lsys_io::{Buffered, Failed, LineRead, LineReader, MemorySink, NeverSource};
use lsys_match::{Derivation, Steps};
use lsys_pass::ForestDerivation;
use lsys_rules::Refusal;
use lsys_session::{Outcome, Session, refuse};
use std::alloc::{AllocError, Global};
use std::sync::ledger::{Blank, Ledger};

/// Puts the reply to a line that was read.
fn put_answer<L: Ledger, V: Ledger, D: Derivation<L> + Drop>(
    alloc: Global,
    session: &mut Session<L, D>,
    read: LineRead,
    line: &[u8],
    out: &mut Buffered,
    sink: &mut MemorySink,
    asked: &mut Steps<L>,
    visited: &mut Steps<V>,
) -> Result<Outcome, Failed>
    requires { out.old ≡ [] }
{
    match read {
        LineRead::Line => session.command(alloc, line, out, sink, asked, visited),
        LineRead::Long => refuse(out, sink, Refusal::LongLine),
        LineRead::End => Ok(Outcome::Quit),
    }
}

/// Answers a line that was read.
fn answer_line<L: Ledger, V: Ledger, D: Derivation<L> + Drop>(
    alloc: Global,
    session: &mut Session<L, D>,
    read: LineRead,
    line: &[u8],
    sink: &mut MemorySink,
    asked: &mut Steps<L>,
    visited: &mut Steps<V>,
) -> Result<Outcome, AllocError> {
    let mut out = Buffered::new(alloc)?;
    put_answer(alloc, session, read, line, &mut out, sink, asked, visited).map_err(|_| AllocError)
}

/// Answers the next line of a source.
fn answer_next<L: Ledger, V: Ledger, D: Derivation<L> + Drop>(
    alloc: Global,
    session: &mut Session<L, D>,
    reader: &mut LineReader,
    source: &mut NeverSource,
    sink: &mut MemorySink,
    asked: &mut Steps<L>,
    visited: &mut Steps<V>,
) -> Result<Outcome, AllocError> {
    match reader.next_line(source) {
        Ok(read) => answer_line(alloc, session, read, reader.line(), sink, asked, visited),
        Err(_) => Err(AllocError),
    }
}

/// Answers the lines of a source to its end or to a `quit`, at most so many.
fn answer_lines<L: Ledger, V: Ledger, D: Derivation<L> + Drop>(
    alloc: Global,
    session: &mut Session<L, D>,
    lines: usize,
    reader: &mut LineReader,
    source: &mut NeverSource,
    sink: &mut MemorySink,
    asked: &mut Steps<L>,
    visited: &mut Steps<V>,
) -> Result<(), AllocError> {
    for _line in 0..lines {
        if answer_next(alloc, session, reader, source, sink, asked, visited)? == Outcome::Quit {
            return Ok(());
        }
    }
    Ok(())
}

/// Answers the lines of a script to its end or to a `quit`.
fn answer_script<L: Ledger, V: Ledger, D: Derivation<L> + Drop>(
    alloc: Global,
    session: &mut Session<L, D>,
    script: &[u8],
    sink: &mut MemorySink,
    asked: &mut Steps<L>,
    visited: &mut Steps<V>,
) -> Result<(), AllocError> {
    let lines = script.len();
    let mut source = NeverSource::new(Vec::from_slice(alloc, script)?);
    let mut reader = LineReader::new(alloc)?;
    answer_lines(
        alloc,
        session,
        lines,
        &mut reader,
        &mut source,
        sink,
        asked,
        visited,
    )
}

/// What a session writes for a script, of which there is room for so many bytes.
pub(crate) fn written_by<L: Ledger, V: Ledger, D: Derivation<L> + Drop>(
    alloc: Global,
    session: &mut Session<L, D>,
    room: usize,
    script: &[u8],
    asked: &mut Steps<L>,
    visited: &mut Steps<V>,
) -> Result<Vec<u8>, AllocError> {
    let mut sink = MemorySink::new(alloc, room, 4096, Vec::new(alloc))?;
    answer_script(alloc, session, script, &mut sink, asked, visited)?;
    Vec::from_slice(alloc, sink.bytes())
}

/// What a session over a derivation writes for a script, of which there is room for so many bytes.
fn written_over<L: Ledger, V: Ledger, D: Derivation<L> + Drop>(
    alloc: Global,
    limit: u32,
    room: usize,
    script: &[u8],
    asked: Blank,
    visited: Blank,
) -> Result<Vec<u8>, AllocError>
    requires limit { limit ≤ 1000000 }
    requires name { asked.name ≡ L.name }
    requires parts { asked.parts ≡ L.parts }
    requires some { 0 < asked.parts }
    requires other_name { visited.name ≡ V.name }
    requires other_parts { visited.parts ≡ V.parts }
    requires other_some { 0 < visited.parts }
{
    let mut asked = Steps::<L>::open(asked);
    let mut visited = Steps::<V>::open(visited);
    let mut session = Session::<L, D>::start(alloc, limit)?;
    written_by(alloc, &mut session, room, script, &mut asked, &mut visited)
}

/// The same over levels in lists.
pub(crate) fn written_over_lists<L: Ledger, V: Ledger>(
    alloc: Global,
    limit: u32,
    room: usize,
    script: &[u8],
    asked: Blank,
    visited: Blank,
) -> Result<Vec<u8>, AllocError>
    requires limit { limit ≤ 1000000 }
    requires name { asked.name ≡ L.name }
    requires parts { asked.parts ≡ L.parts }
    requires some { 0 < asked.parts }
    requires other_name { visited.name ≡ V.name }
    requires other_parts { visited.parts ≡ V.parts }
    requires other_some { 0 < visited.parts }
{
    written_over::<L, V, Levels<L>>(alloc, limit, room, script, asked, visited)
}

/// The same over levels in a forest.
pub(crate) fn written_over_a_forest<L: Ledger, V: Ledger>(
    alloc: Global,
    limit: u32,
    room: usize,
    script: &[u8],
    asked: Blank,
    visited: Blank,
) -> Result<Vec<u8>, AllocError>
    requires limit { limit ≤ 1000000 }
    requires name { asked.name ≡ L.name }
    requires parts { asked.parts ≡ L.parts }
    requires some { 0 < asked.parts }
    requires other_name { visited.name ≡ V.name }
    requires other_parts { visited.parts ≡ V.parts }
    requires other_some { 0 < visited.parts }
{
    written_over::<L, V, ForestDerivation<L>>(alloc, limit, room, script, asked, visited)
}
