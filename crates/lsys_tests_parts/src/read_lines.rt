//! Lines of a source in memory.
ghost use Rattle.std.specs.Prelude.{◌<◌};

use crate::same::is_same_at;
use lsys_io::{LineRead, LineReader, LineRefusal, MemorySource, Source};
use std::alloc::{AllocError, Global};
use std::process::Abort;

/// What so many calls of a reader answer, in text.
pub(crate) fn answers<S: Source>(
    rt: &impl Abort,
    alloc: Global,
    source: &mut S,
    calls: usize,
) -> Vec<u8> {
    let mut reader = LineReader::new(alloc).expect(rt, "memory");
    let mut text = Vec::new(alloc);
    for _ in 0..calls {
        add_answer(&mut text, &mut reader, source).expect(rt, "memory");
    }
    text
}

/// Adds what the next call of a reader answers.
fn add_answer<S: Source>(
    text: &mut Vec<u8>,
    reader: &mut LineReader,
    source: &mut S,
) -> Result<(), AllocError> {
    let word: &[u8] = match reader.next_line(source) {
        Ok(LineRead::Line) => return add_line(text, reader.line()),
        Ok(LineRead::Long) => b"long ",
        Ok(LineRead::End) => b"end ",
        Err(LineRefusal::ReadFault) => b"fault ",
        Err(LineRefusal::TooLong) => b"too-long ",
    };
    text.extend_from_slice(word)
}

/// Adds a line.
fn add_line(text: &mut Vec<u8>, line: &[u8]) -> Result<(), AllocError> {
    text.push(b'<')?;
    text.extend_from_slice(line)?;
    text.extend_from_slice(b">")
}

/// Three calls of a reader are answered so, where the bytes come in such pieces and the source fails at these calls.
fn is_read(
    rt: &impl Abort,
    alloc: Global,
    bytes: &[u8],
    piece: usize,
    failing: Vec<u64>,
    expected: &str,
)
    requires { 0 < piece }
{
    let bytes = Vec::from_slice(alloc, bytes).expect(rt, "memory");
    let mut source = MemorySource::new(bytes, piece, failing);
    let text = answers(rt, alloc, &mut source, 3);
    is_same_at(rt, &text.as_slice(), &expected.as_bytes(), &piece);
}

fn scripts_by_lines() -> &'static [(&'static str, &'static str)] {
    &[
        ("", "end end end "),
        ("a", "<a>end end "),
        ("a\n", "<a>end end "),
        ("a\r\nbc", "<a><bc>end "),
        ("a\n\n", "<a><>end "),
        ("\n\na", "<><><a>"),
        ("a\rb\r\r\n\r", "<a\rb\r><>end "),
        ("\r\n\r\r", "<><\r>end "),
    ]
}

#[test]
fn lines_and_their_ends(rt: HostRuntime) {
    for (script, expected) in scripts_by_lines() {
        is_read_whole(&rt, rt.alloc(), script.as_bytes(), *expected);
    }
}

/// Three calls of a reader are answered so, however small the pieces are in which the bytes come.
fn is_read_whole(rt: &impl Abort, alloc: Global, bytes: &[u8], expected: &str) {
    is_read(rt, alloc, bytes, 1, Vec::new(alloc), expected);
    is_read(rt, alloc, bytes, 2, Vec::new(alloc), expected);
    is_read(rt, alloc, bytes, 5000, Vec::new(alloc), expected);
}

fn calls_that_fail() -> &'static [(u64, &'static str)] {
    &[
        (1, "fault fault fault "),
        (2, "<axiom A>fault fault "),
        (3, "<axiom A><string>fault "),
    ]
}

#[test]
fn a_read_fault_stays_and_is_no_end(rt: HostRuntime) {
    for (call, expected) in calls_that_fail() {
        fails_at(&rt, rt.alloc(), *call, *expected);
    }
}

/// Three calls of a reader are answered so, where the source fails at this call.
fn fails_at(rt: &impl Abort, alloc: Global, call: u64, expected: &str) {
    let failing = vec![in alloc; call].expect(rt, "memory");
    is_read(rt, alloc, b"axiom A\nstring\n", 8, failing, expected);
}
