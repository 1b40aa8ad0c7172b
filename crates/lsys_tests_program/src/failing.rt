//! Runs whose ends fail, and on ends that never do.
use crate::runs::{ran_over, status_of};
use crate::same::{is_status, is_written};
use lsys_cli::Status;
use lsys_io::{MemorySink, MemorySource, NeverSink, NeverSource};
use lsys_tests_scripts::{algae, hostile_lines};
use std::alloc::{AllocError, Global};
use std::process::Abort;
use std::test::Fail;

/// What a run on a script ends with, and what it writes, where the source gives pieces of 8 bytes and the sink takes 4 at
/// most, and they fail at these calls; at a call 0 neither fails.
fn ran_failing(
    alloc: Global,
    script: &[u8],
    read: u64,
    write: u64,
) -> Result<(Status, Vec<u8>), AllocError> {
    let mut source = source_failing(alloc, script, read)?;
    let mut sink = sink_failing(alloc, write)?;
    ran_over(alloc, &[], &mut source, &mut sink)
}

/// A source of a script that gives pieces of 8 bytes and fails at this call.
fn source_failing(alloc: Global, script: &[u8], read: u64) -> Result<MemorySource, AllocError> {
    let failing = vec![in alloc; read]?;
    let bytes = Vec::from_slice(alloc, script)?;
    Ok(MemorySource::new(bytes, 8, failing))
}

/// A sink that takes 4 bytes at most and fails at this call.
fn sink_failing(alloc: Global, write: u64) -> Result<MemorySink, AllocError> {
    let failing = vec![in alloc; write]?;
    MemorySink::new(alloc, 4096, 4, failing)
}

/// A run whose ends fail at these calls ends so, and writes these replies.
fn is_failing(
    rt: &impl Abort,
    alloc: Global,
    script: &str,
    calls: (u64, u64),
    expected: Status,
    replies: &str,
) -> Result<(), Fail> {
    let (status, written) = ran_failing(alloc, script.as_bytes(), calls.0, calls.1)?;
    is_status(rt, script, status, expected);
    is_written(rt, script, &written, replies.as_bytes());
    Ok(())
}

/// Scripts with the calls of the source and of the sink that fail, how a run ends and what it writes. Where the first read
/// gives the last bytes and the second one nothing, the third isn't made; nor is one made after a `quit`.
fn failing_calls() -> &'static [(&'static str, (u64, u64), Status, &'static str)] {
    &[
        ("axiom A\nstring\n", (2, 0), Status::ReadFault, "ok 0/0\n"),
        ("axiom A", (0, 1), Status::WriteFault, ""),
        ("axiom A\nquit\nstring\n", (3, 0), Status::Done, "ok 0/0\n"),
        ("axiom A", (3, 0), Status::Done, "ok 0/0\n"),
        ("axiom A\n", (3, 0), Status::Done, "ok 0/0\n"),
    ]
}

#[test]
fn failing_ends(rt: HostRuntime) -> Result<(), Fail> {
    for (script, calls, expected, replies) in failing_calls() {
        is_failing(&rt, rt.alloc(), *script, *calls, *expected, *replies)?;
    }
    Ok(())
}

/// Where these calls fail, a run ends so, and so many bytes of the replies are written.
fn is_front(
    rt: &impl Abort,
    calls: (u64, u64),
    (status, written): (Status, &[u8]),
    (expected, count): (Status, usize),
    replies: &[u8],
) {
    assert_eq!(rt; status, expected, "{calls:?}");
    assert_eq!(rt; written.len(), count, "{calls:?}");
    assert!(rt; replies.starts_with(written), "{calls:?}");
}

/// A run on a script whose ends fail at these calls ends so, and writes so many bytes of the replies.
fn is_cut_off(
    rt: &impl Abort,
    alloc: Global,
    script: &[u8],
    replies: &[u8],
    calls: (u64, u64),
    expected: (Status, usize),
) -> Result<(), Fail> {
    let (status, written) = ran_failing(alloc, script, calls.0, calls.1)?;
    is_front(rt, calls, (status, &written), expected, replies);
    Ok(())
}

/// The calls that fail where this one of the source does, for a read fault, or this one of the sink.
fn calls_at(fault: Status, call: u64) -> (u64, u64) {
    if fault == Status::ReadFault {
        (call, 0)
    } else {
        (0, call)
    }
}

/// An end fails with this fault at one call after another, until a run ends as without a fault: so many bytes are written
/// each time. The source gives 8 bytes a call, and what is written before it fails are the replies to the whole lines
/// before. The sink takes 4 bytes a call at most.
fn fails_at_each_call(
    rt: &impl Abort,
    alloc: Global,
    script: &[u8],
    replies: &[u8],
    (fault, counts): (Status, &[usize]),
    end: Status,
) -> Result<(), Fail> {
    for (place, count) in counts.iter().enumerate() {
        let calls = calls_at(fault, place as u64 + 1);
        is_cut_off(rt, alloc, script, replies, calls, (fault, *count))?;
    }
    let calls = calls_at(fault, counts.len() as u64 + 1);
    is_cut_off(rt, alloc, script, replies, calls, (end, replies.len()))
}

/// The same for each of the two ends.
fn fails_at_each_end(
    rt: &impl Abort,
    alloc: Global,
    script: &[u8],
    replies: &[u8],
    (reads, writes): (&[usize], &[usize]),
    end: Status,
) -> Result<(), Fail> {
    fails_at_each_call(rt, alloc, script, replies, (Status::ReadFault, reads), end)?;
    fails_at_each_call(
        rt,
        alloc,
        script,
        replies,
        (Status::WriteFault, writes),
        end,
    )
}

/// How many bytes of the replies to algae are written before each read.
fn algae_by_reads() -> &'static [usize] {
    &[0, 7, 7, 7, 14, 14, 14, 21, 30, 44]
}

/// How many bytes of the replies to algae are written before each write.
fn algae_by_writes() -> &'static [usize] {
    &[0, 4, 7, 11, 14, 18, 21, 25, 29, 30, 34, 38, 42]
}

#[test]
fn algae_with_an_end_that_fails_at_each_call(rt: HostRuntime) -> Result<(), Fail> {
    let script = algae().text.as_bytes();
    let replies = algae().replies.as_bytes();
    let counts = (algae_by_reads(), algae_by_writes());
    fails_at_each_end(&rt, rt.alloc(), script, replies, counts, Status::Done)
}

/// How many bytes of the replies to the hostile lines are written before each read.
fn hostile_by_reads() -> &'static [usize] {
    &[0, 22, 22, 44, 44, 68, 91, 114, 114, 137, 137, 137, 160]
}

/// How many bytes of the replies to the hostile lines are written before each write.
fn hostile_by_writes() -> &'static [usize] {
    &[
        0, 4, 8, 12, 16, 20, 22, 26, 30, 34, 38, 42, 44, 48, 52, 56, 60, 64, 68, 72, 76, 80, 84,
        88, 91, 95, 99, 103, 107, 111, 114, 118, 122, 126, 130, 134, 137, 141, 145, 149, 153, 157,
    ]
}

/// The hostile lines as a script.
fn hostile_script(alloc: Global) -> Result<Vec<u8>, AllocError> {
    let mut script = Vec::new(alloc);
    for (line, _) in hostile_lines() {
        script.extend_from_slice(line)?;
        script.push(b'\n')?;
    }
    Ok(script)
}

/// The replies to the hostile lines.
fn hostile_replies(alloc: Global) -> Result<Vec<u8>, AllocError> {
    let mut replies = Vec::new(alloc);
    for (_, reply) in hostile_lines() {
        replies.extend_from_slice(reply.as_bytes())?;
    }
    Ok(replies)
}

#[test]
fn hostile_lines_with_an_end_that_fails_at_each_call(rt: HostRuntime) -> Result<(), Fail> {
    let script = hostile_script(rt.alloc())?;
    let replies = hostile_replies(rt.alloc())?;
    let counts = (hostile_by_reads(), hostile_by_writes());
    fails_at_each_end(&rt, rt.alloc(), &script, &replies, counts, Status::Refused)
}

/// A sink that never fails has taken so many bytes.
fn has_taken(rt: &impl Abort, sink: &NeverSink, count: u64) {
    assert_eq!(rt; sink.count(), count);
}

#[test]
fn ends_that_never_fail(rt: HostRuntime) -> Result<(), Fail> {
    let mut source = NeverSource::new(Vec::from_slice(rt.alloc(), algae().text.as_bytes())?);
    let mut sink = NeverSink::new();
    let status = status_of(rt.alloc(), &[], &mut source, &mut sink)?;
    is_status(&rt, "algae", status, Status::Done);
    has_taken(&rt, &sink, 44);
    Ok(())
}

fn status_codes() -> &'static [(Status, u8)] {
    &[
        (Status::Done, 0),
        (Status::Refused, 1),
        (Status::Usage, 2),
        (Status::ReadFault, 3),
        (Status::WriteFault, 4),
        (Status::Memory, 5),
        (Status::TooLong, 6),
    ]
}

#[test]
fn exit_codes(rt: HostRuntime) {
    for (status, code) in status_codes() {
        assert_eq!(rt; status.code(), *code);
    }
}
