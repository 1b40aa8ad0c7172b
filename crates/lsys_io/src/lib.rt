//! The outside of the program: where bytes come from and where they go.
//!
//! A source and a sink each have a count of faults that never falls. A call fails only where its count rose, and a call
//! that answers Ok leaves its count as it was, so no failure is passed over. A source may tell the bytes that it has
//! left, and a sink those that were written. Clauses on content say something only where they are told.
#![tactic(auto)]

ghost use Rattle.std.specs.Prelude.{◌≡◌, ℕ, List, ◌<◌, ◌≤◌, length, take, IfOk, OnOk, OnErr};
ghost use Rattle.std.specs.declared.option.Option.{Option};
ghost use Rattle.std.specs.Io.KnownBytes.{Consumes, Appends, Keeps, IsAtEnd};
ghost use Rattle.lsys_io.specs.Causes.{Rose};
ghost use Rattle.lsys_io.specs.Writes.{WritesFront, WritesSoMany};

mod buffered;
mod gathering;
mod lines;
mod memory;
mod never;
mod pieces;
mod standard;

pub use buffered::Buffered;
pub use lines::{LineRead, LineReader, LineRefusal};
pub use memory::{MemorySink, MemorySource};
pub use never::{NeverSink, NeverSource};
pub use standard::{StdSink, StdSource};
use thiserror::Error;

/// A source or a sink failed.
#[derive(Clone, Copy, Debug, PartialEq, Eq, Error)]
#[error("an input or output failed")]
pub struct Failed;

/// Where bytes come from.
pub trait Source {
    ghost left: { Self → Option (List ℕ) };

    ghost faults: { Self → ℕ };

    /// Puts bytes at the buffer's front and answers how many. None is the end of the input.
    fn read(&mut self, into: &mut [u8]) -> Result<usize, Failed>
        requires { 0 < length into.old }
        ensures bound { IfOk result (λ n. n ≤ length into.new) }
        ensures gives { IfOk result (λ n. Consumes (left self.old) (left self.new) (take n into.new)) }
        ensures none_at_end { IfOk result (λ n. n ≡ 0 → IsAtEnd (left self.new)) }
        ensures failed_takes_nothing { OnErr result (Keeps (left self.old) (left self.new)) }

        ensures never_falls { faults self.old ≤ faults self.new }
        ensures failed_only_where_rose { OnErr result (Rose (faults self.old) (faults self.new)) }
        ensures ok_leaves_count { OnOk result (faults self.new ≡ faults self.old) };
}

/// Where bytes go.
pub trait Sink {
    ghost written: { Self → Option (List ℕ) };

    ghost faults: { Self → ℕ };

    /// Takes bytes from the piece's front and answers how many, at least one.
    fn write(&mut self, piece: &[u8]) -> Result<usize, Failed>
        requires { 0 < length piece.now }
        ensures bound { IfOk result (λ n. n ≤ length piece.now) }
        ensures some { IfOk result (λ n. 0 < n) }
        ensures appends { IfOk result (WritesSoMany written self piece.now) }
        ensures failed_writes_nothing { OnErr result (Keeps (written self.old) (written self.new)) }

        ensures never_falls { faults self.old ≤ faults self.new }
        ensures failed_only_where_rose { OnErr result (Rose (faults self.old) (faults self.new)) }
        ensures ok_leaves_count { OnOk result (faults self.new ≡ faults self.old) };
}

/// Writes all the bytes.
pub fn send_all<K: Sink>(sink: &mut K, bytes: &[u8]) -> Result<(), Failed>
    ensures sent { OnOk result (Appends (K.written sink.old) (K.written sink.new) bytes.now) }
    ensures failed_writes_front { OnErr result (WritesFront K.written sink bytes.now) }

    ensures never_falls { K.faults sink.old ≤ K.faults sink.new }
    ensures failed_only_where_rose { OnErr result (Rose (K.faults sink.old) (K.faults sink.new)) }
    ensures ok_leaves_count { OnOk result (K.faults sink.new ≡ K.faults sink.old) }
{
    let mut at = 0;
    while at < bytes.len() {
        at += sink.write(&bytes[at..])?;
    }
    Ok(())
}
