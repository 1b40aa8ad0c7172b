//! Sinks in memory, and what is buffered before them.
use crate::same::is_same;
use lsys_io::{Buffered, Failed, MemorySink, NeverSink, Sink, send_all};
use std::alloc::Global;
use std::process::Abort;

/// A sink answers so where it is sent these bytes.
fn is_sent<S: Sink>(rt: &impl Abort, sink: &mut S, bytes: &[u8], want: Result<(), Failed>) {
    is_same(rt, &send_all(sink, bytes), &want);
}

/// A sink has taken these bytes in all.
fn has_taken(rt: &impl Abort, sink: MemorySink, want: &[u8]) {
    is_same(rt, &sink.bytes(), &want);
}

#[test]
fn a_sink_takes_what_it_has_room_for(rt: HostRuntime) {
    let mut sink = MemorySink::new(rt.alloc(), 10, 3, Vec::new(rt.alloc())).expect(&rt, "memory");
    is_sent(&rt, &mut sink, b"abcdefgh", Ok(()));
    is_same(&rt, &sink.bytes(), &b"abcdefgh".as_slice());
    is_sent(&rt, &mut sink, b"ijk", Err(Failed));
    has_taken(&rt, sink, b"abcdefghij");
}

#[test]
fn a_sink_fails_at_the_call_that_it_is_told(rt: HostRuntime) {
    let failing = vec![in rt.alloc(); 1].expect(&rt, "memory");
    let mut sink = MemorySink::new(rt.alloc(), 10, 10, failing).expect(&rt, "memory");
    is_sent(&rt, &mut sink, b"ab", Err(Failed));
    is_sent(&rt, &mut sink, b"cd", Ok(()));
    has_taken(&rt, sink, b"cd");
}

#[test]
fn a_sink_that_never_fails_counts(rt: HostRuntime) {
    let mut sink = NeverSink::new();
    is_sent(&rt, &mut sink, b"abc", Ok(()));
    is_same(&rt, &sink.count(), &3);
}

/// Puts bytes by `out`, which takes them, and keeps them in `expected`.
fn is_put(
    rt: &impl Abort,
    out: &mut Buffered,
    sink: &mut MemorySink,
    expected: &mut Vec<u8>,
    bytes: &[u8],
) {
    is_same(rt, &out.put(sink, bytes), &Ok(()));
    expected.extend_from_slice(bytes).expect(rt, "memory");
}

fn numbers_in_text() -> &'static [(i128, &'static str)] {
    &[
        (0, "0"),
        (-1, "-1"),
        (i128::MAX, "170141183460469231731687303715884105727"),
        (i128::MIN, "-170141183460469231731687303715884105728"),
    ]
}

/// Puts numbers by `out`, which takes them, and keeps their texts in `expected`.
fn numbers_are_put(
    rt: &impl Abort,
    out: &mut Buffered,
    sink: &mut MemorySink,
    expected: &mut Vec<u8>,
) {
    for (number, text) in numbers_in_text() {
        is_same(rt, &out.put_number(sink, *number), &Ok(()));
        expected
            .extend_from_slice(text.as_bytes())
            .expect(rt, "memory");
    }
}

/// Puts words, more bytes than are buffered, and numbers by `out`, which takes them, and keeps them in `expected`.
fn all_are_put(rt: &impl Abort, out: &mut Buffered, sink: &mut MemorySink, expected: &mut Vec<u8>) {
    for _ in 0..1000 {
        is_put(rt, out, sink, expected, b"lines");
    }
    is_put(rt, out, sink, expected, &[b'x'; 5000]);
    numbers_are_put(rt, out, sink, expected);
}

#[test]
fn buffered_bytes_come_in_order(rt: HostRuntime) {
    let mut sink = MemorySink::new(rt.alloc(), 20_000, 1000, Vec::new(rt.alloc())).expect(
        &rt, "memory",
    );
    let mut expected = Vec::new(rt.alloc());
    let mut out = Buffered::new(rt.alloc()).expect(&rt, "memory");
    all_are_put(&rt, &mut out, &mut sink, &mut expected);
    is_flushed(&rt, &mut out, sink, &expected);
    fails_at_its_flush(&rt, rt.alloc(), &mut out);
}

/// What was put is written at a flush.
fn is_flushed(rt: &impl Abort, out: &mut Buffered, mut sink: MemorySink, expected: &[u8]) {
    is_same(rt, &out.flush(&mut sink), &Ok(()));
    has_taken(rt, sink, expected);
}

/// A sink that fails at its first call is told of where what is buffered is flushed.
fn fails_at_its_flush(rt: &impl Abort, alloc: Global, out: &mut Buffered) {
    let failing = vec![in alloc; 1].expect(rt, "memory");
    let mut sink = MemorySink::new(alloc, 20_000, 1000, failing).expect(rt, "memory");
    takes_nothing(rt, out, &mut sink);
}

/// A byte is buffered; then the flush fails, and nothing is written.
fn takes_nothing(rt: &impl Abort, out: &mut Buffered, sink: &mut MemorySink) {
    is_same(rt, &out.put(sink, b"a"), &Ok(()));
    is_same(rt, &out.flush(sink), &Err(Failed));
    assert!(rt; sink.bytes().is_empty());
}
