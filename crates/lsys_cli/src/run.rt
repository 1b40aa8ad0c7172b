//! The loop over the lines of a script.
ghost use Rattle.std.specs.Prelude.{◌≡◌, [], ◌≢◌, ◌||◌, false, OnOk, OnErr};
ghost use Rattle.lsys_io.specs.declared.lines.Stage.TheVariants.{Going};
ghost use Rattle.lsys_cli.specs.Views.{desk_on};
ghost use Rattle.lsys_history.specs.Desks.{opening_desk};
ghost use Rattle.lsys_session.specs.Answers.{ends_session, refuses, lacks_memory};
ghost use Rattle.lsys_cli.specs.Runs.{status_of, unread};
ghost use Rattle.lsys_io.specs.Calls.{HasRisen, HasStayed};
ghost use Rattle.lsys_cli.specs.Calls.{RunsAt, Heeds, CountsIt};

use crate::desk::Desk;
use crate::kept_motions::HasMotions;
use crate::status::Status;
use lsys_io::{Buffered, Failed, LineRead, LineReader, LineRefusal, Sink, Source};
use lsys_match::Steps;
use lsys_rules::Refusal;
use lsys_session::{Outcome, refuse};
use std::alloc::Global;
use std::sync::ledger::Ledger;

/// Which kinds of refusal there were so far.
#[derive(Clone, Copy)]
pub(crate) struct Tally {
    refused: bool,
    memory: bool,
}

impl Tally {
    /// Before the first line.
    pub(crate) fn new() -> Tally
        ensures refused { result.refused ≡ false }
        ensures memory { result.memory ≡ false }
    {
        Tally {
            refused: false,
            memory: false,
        }
    }

    // With one more outcome.
    fn with(self, outcome: Outcome) -> Tally
        ensures refused { result.refused ≡ self.refused || refuses outcome }
        ensures memory { result.memory ≡ self.memory || lacks_memory outcome }
    {
        let memory = outcome == Outcome::Memory;
        Tally {
            refused: self.refused || memory || outcome == Outcome::Refused,
            memory: self.memory || memory,
        }
    }

    // The status of a run that ends here.
    fn status(self) -> Status
        ensures { result ≡ status_of self.refused self.memory }
    {
        if self.memory {
            Status::Memory
        } else if self.refused {
            Status::Refused
        } else {
            Status::Done
        }
    }
}

/// Answers the lines of the source to its end or to `quit`.
pub(crate) fn run<S: Source, K: Sink, L: Ledger, V: Ledger, D: HasMotions<L> + Drop>(
    alloc: Global,
    desk: &mut Desk<L, D>,
    reader: &mut LineReader,
    out: &mut Buffered,
    source: &mut S,
    sink: &mut K,
    asked: &mut Steps<L>,
    visited: &mut Steps<V>,
) -> Status
    requires opening { desk_on D.system_of desk.old ≡ opening_desk }
    requires empty { out.old ≡ [] }
    requires fresh { reader.old ≡ record { held = []; taken = 0; line = []; stage = Going } }
    ensures ends { RunsAt D.visits D.limit_of desk S.Source source K.Sink sink asked visited result }
    ensures read_fault_only_where_rose { result ≡ Status.ReadFault → HasRisen S.faults source }
    ensures write_fault_only_where_rose { result ≡ Status.WriteFault → HasRisen K.faults sink }
    ensures no_read_fault_passed_over { result ≢ Status.ReadFault → HasStayed S.faults source }
    ensures no_write_fault_passed_over { result ≢ Status.WriteFault → HasStayed K.faults sink }
{
    let mut tally = Tally::new();
    'lines: loop {
        let read = match reader.next_line(source) {
            Ok(read) => read,
            Err(refusal) => return unread(refusal),
        };
        if read == LineRead::End {
            return tally.status();
        }
        let Ok(outcome) = answer_line(alloc, desk, read, reader.line(), out, sink, asked, visited)
        else {
            return Status::WriteFault;
        };
        tally = tally.with(outcome);
        if ends_session(outcome) {
            return tally.status();
        }
    }
}

// The status of a run whose next line can't be had.
fn unread(refusal: LineRefusal) -> Status
    ensures { result ≡ unread refusal }
{
    match refusal {
        LineRefusal::ReadFault => Status::ReadFault,
        LineRefusal::TooLong => Status::TooLong,
    }
}

// Whether the session ends with this outcome.
fn ends_session(outcome: Outcome) -> bool
    ensures { result ≡ ends_session outcome }
{
    outcome == Outcome::Quit
}

// Answers a line that was read, and puts the reply.
fn answer_line<K: Sink, L: Ledger, V: Ledger, D: HasMotions<L> + Drop>(
    alloc: Global,
    desk: &mut Desk<L, D>,
    read: LineRead,
    line: &[u8],
    out: &mut Buffered,
    sink: &mut K,
    asked: &mut Steps<L>,
    visited: &mut Steps<V>,
) -> Result<Outcome, Failed>
    requires empty { out.old ≡ [] }
    ensures heeds { Heeds read line.now K.Sink sink out D.limit_of D.system_of desk result }
    ensures counts { CountsIt read line.now D.visits D.limit_of D.system_of desk asked visited result }
    ensures limit { D.limit_of desk.new.derivation ≡ D.limit_of desk.old.derivation }
    ensures empty { out.new ≡ [] }
    ensures failed_only_where_rose { OnErr result (HasRisen K.faults sink) }
    ensures ok_leaves_count { OnOk result (HasStayed K.faults sink) }
{
    match read {
        LineRead::Line => desk.command(alloc, line, out, sink, asked, visited),
        LineRead::Long => refuse(out, sink, Refusal::LongLine),
        LineRead::End => Ok(Outcome::Skipped),
    }
}
