// Ends over std's reader and writer: the trusted edge.
ghost use Rattle.std.specs.Prelude.{◌≡◌, ℕ, ◌<◌, ◌≤◌, length, take, IfOk, OnOk, OnErr};
ghost use Rattle.std.specs.Io.KnownBytes.{Appends, Consumes, IsAtEnd, Keeps};
ghost use Rattle.lsys_io.specs.Causes.{counted};
ghost use Rattle.lsys_io.specs.Writes.{AppendsFront};

use super::{Failed, Sink, Source};
use std::io::{Read, Write};
use std::marker::Model;

/// A source over a reader of std. Contracts see what the reader has left, where std tells it, and the count of faults, which
/// each error raises. As a source it doesn't tell what is left: what a file, a pipe or a terminal holds isn't known.
#[derive(Drop)]
pub struct StdSource<R: Read> {
    reader: R,
    faults: u64,
}

impl<R: Read> Model for StdSource<R> {
    ghost use Rattle.lsys_io.specs.Standard.{End};

    ghost Value = { End };

    ghost view = { λ s. record { bytes = R.remaining s.reader; faults = s.faults } };
}

impl<R: Read> StdSource<R> {
    /// The source over this reader, with count 0.
    pub fn new(reader: R) -> StdSource<R>
        ensures { result ≡ record { bytes = R.remaining reader; faults = 0 } }
    {
        StdSource { reader, faults: 0 }
    }
}

impl<R: Read> Source for StdSource<R> {
    ghost use Rattle.std.specs.Prelude.{None};

    ghost left = { λ _. None };

    ghost faults = { λ end. end.faults };

    fn read(&mut self, into: &mut [u8]) -> Result<usize, Failed>
        requires { 0 < length into.old }
        ensures bound { IfOk result (λ n. n ≤ length into.new) }
        ensures given { IfOk result (λ n. Consumes self.old.bytes self.new.bytes (take n into.new)) }
        ensures none_at_end { IfOk result (λ n. n ≡ 0 → IsAtEnd self.new.bytes) }
        ensures failed_takes_nothing { OnErr result (Keeps self.old.bytes self.new.bytes) }
        ensures never_falls { self.old.faults ≤ self.new.faults }
        ensures fault_counted { OnErr result (self.new.faults ≡ counted self.old.faults) }
        ensures ok_leaves_count { OnOk result (self.new.faults ≡ self.old.faults) }
    {
        match self.reader.read(into) {
            Ok(count) => Ok(count),
            Err(_) => {
                self.faults = self.faults.saturating_add(1);
                Err(Failed)
            }
        }
    }
}

/// A sink over a writer of std, which it flushes after each write. Contracts see what the writer holds, where std tells it,
/// and the count of faults, which each error, each flush that fails and each write that takes nothing raises. As a sink it
/// doesn't tell what was written.
#[derive(Drop)]
pub struct StdSink<W: Write> {
    writer: W,
    faults: u64,
}

impl<W: Write> Model for StdSink<W> {
    ghost use Rattle.lsys_io.specs.Standard.{End};

    ghost Value = { End };

    ghost view = { λ s. record { bytes = W.contents s.writer; faults = s.faults } };
}

impl<W: Write> StdSink<W> {
    /// The sink over this writer, with count 0.
    pub fn new(writer: W) -> StdSink<W>
        ensures { result ≡ record { bytes = W.contents writer; faults = 0 } }
    {
        StdSink { writer, faults: 0 }
    }
}

impl<W: Write> Sink for StdSink<W> {
    ghost use Rattle.std.specs.Prelude.{None};

    ghost written = { λ _. None };

    ghost faults = { λ end. end.faults };

    // Where the flush fails, a front of the piece is with the writer already.
    fn write(&mut self, piece: &[u8]) -> Result<usize, Failed>
        requires { 0 < length piece.now }
        ensures bound { IfOk result (λ n. n ≤ length piece.now) }
        ensures some { IfOk result (λ n. 0 < n) }
        ensures appends { IfOk result (λ n. Appends self.old.bytes self.new.bytes (take n piece.now)) }
        ensures failed_writes_front { OnErr result (AppendsFront self.old.bytes self.new.bytes piece.now) }
        ensures never_falls { self.old.faults ≤ self.new.faults }
        ensures fault_counted { OnErr result (self.new.faults ≡ counted self.old.faults) }
        ensures ok_leaves_count { OnOk result (self.new.faults ≡ self.old.faults) }
    {
        match self.writer.write(piece) {
            Ok(count) if count > 0 => match self.writer.flush() {
                Ok(()) => Ok(count),
                Err(_) => {
                    self.faults = self.faults.saturating_add(1);
                    Err(Failed)
                }
            },
            _ => {
                self.faults = self.faults.saturating_add(1);
                Err(Failed)
            }
        }
    }
}
