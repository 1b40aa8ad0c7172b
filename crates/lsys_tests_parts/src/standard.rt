//! The ends of std's readers and writers.
use crate::read_lines::answers;
use crate::same::is_same;
use lsys_io::{Failed, Sink, Source, StdSink, StdSource, send_all};
use std::alloc::Global;
use std::io;
use std::io::{Read, Write};
use std::process::Abort;

/// A reader that always fails.
#[derive(Drop)]
struct Broken;

impl Read for Broken {
    fn read(&mut self, _into: &mut [u8]) -> io::Result<usize> {
        Err(io::Error::from(io::ErrorKind::Other))
    }
}

/// So many calls of a reader of lines are answered so.
fn is_read<S: Source>(rt: &impl Abort, alloc: Global, source: &mut S, calls: usize, want: &str) {
    let text = answers(rt, alloc, source, calls);
    is_same(rt, &text.as_slice(), &want.as_bytes());
}

#[test]
fn lines_of_a_reader(rt: HostRuntime) {
    let mut source = StdSource::new(b"a\nb".as_slice());
    is_read(&rt, rt.alloc(), &mut source, 3, "<a><b>end ");
    let mut source = StdSource::new(Broken);
    is_read(&rt, rt.alloc(), &mut source, 2, "fault fault ");
}

#[test]
fn bytes_into_a_writer(rt: HostRuntime) {
    let mut written = [0u8; 4];
    let mut sink = StdSink::new(written.as_mut_slice());
    is_same(&rt, &send_all(&mut sink, b"abc"), &Ok(()));
    is_same(&rt, &send_all(&mut sink, b"de"), &Err(Failed));
    drop(sink);
    is_same(&rt, &written, b"abcd");
}

/// A writer that takes two bytes a call, counts its flushes, and fails at each of them from the second on.
#[derive(Drop)]
struct Counting<'a> {
    flushes: &'a mut u32,
}

impl Write for Counting<'_> {
    fn write(&mut self, bytes: &[u8]) -> io::Result<usize> {
        Ok(bytes.len().min(2))
    }

    fn flush(&mut self) -> io::Result<()> {
        *self.flushes = self.flushes.saturating_add(1);
        if *self.flushes < 2 {
            Ok(())
        } else {
            Err(io::Error::from(io::ErrorKind::Other))
        }
    }
}

#[test]
fn each_write_is_flushed_and_a_flush_that_fails_is_a_fault(rt: HostRuntime) {
    let mut flushes = 0;
    let mut sink = StdSink::new(Counting {
        flushes: &mut flushes,
    });
    is_same(&rt, &sink.write(b"abc"), &Ok(2));
    is_same(&rt, &send_all(&mut sink, b"abc"), &Err(Failed));
    drop(sink);
    is_same(&rt, &flushes, &2);
}

/// A reader that fails once and then gives a byte at each call.
#[derive(Drop)]
struct Recovering {
    failed: bool,
}

impl Read for Recovering {
    fn read(&mut self, into: &mut [u8]) -> io::Result<usize> {
        if !self.failed {
            self.failed = true;
            return Err(io::Error::from(io::ErrorKind::Other));
        }
        match into.first_mut() {
            Some(first) => {
                *first = b'a';
                Ok(1)
            }
            None => Ok(0),
        }
    }
}

#[test]
fn a_read_that_failed_is_told_and_not_tried_again(rt: HostRuntime) {
    let mut source = StdSource::new(Recovering { failed: false });
    let mut bytes = [0u8; 2];
    is_same(&rt, &source.read(bytes.as_mut_slice()), &Err(Failed));
    is_same(&rt, &source.read(bytes.as_mut_slice()), &Ok(1));
    is_same(&rt, &bytes, &[b'a', 0]);
    let mut source = StdSource::new(Recovering { failed: false });
    is_read(&rt, rt.alloc(), &mut source, 2, "fault fault ");
}
