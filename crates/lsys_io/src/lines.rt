// Lines from a source.
ghost use Rattle.std.specs.Prelude.{◌≡◌, [], ◌<◌, ◌≤◌, true, Some, IfOk};
ghost use Rattle.std.specs.Io.KnownBytes.{IsAtEnd};
ghost use Rattle.lsys_io.specs.Feeds.{has_lf};
ghost use Rattle.lsys_syntax.specs.Limits.{most_line_bytes, most_script_bytes};
ghost use Rattle.lsys_io.specs.Reading.{remaining, IsNotRefused};
ghost use Rattle.lsys_io.specs.LineAnswers.{last_answer, OnLine, OnLong, OnTaken, OnEnd, OnNoFault, OnNoLine, OnNoEnd, OnLast};
ghost use Rattle.lsys_io.specs.LineCalls.{DropsLine, FaultLeavesNoLine, FaultWhereRose, LastAnswerStays, TellsLine, TooLongPastLimit, script_start};

use super::Source;
use crate::gathering::{LINE_LIMIT, finish, gather};
use crate::pieces::Pieces;
use std::alloc::{AllocError, Global};
use std::marker::Model;
use thiserror::Error;

/// The most bytes that the lines of a script take, each LF counted.
const SCRIPT_LIMIT: usize = 16_777_216;

/// What a reader of lines found.
#[derive(Clone, Copy, Debug, PartialEq, Eq)]
pub enum LineRead {
    /// A line of at most 65,536 bytes, which `line` tells.
    Line,
    /// A line with a 65,537th byte, which was read to its end and dropped.
    Long,
    /// The source ended, and no byte of a line is left.
    End,
}

/// Why a reader of lines stopped.
#[derive(Clone, Copy, Debug, PartialEq, Eq, Error)]
pub enum LineRefusal {
    /// The source failed.
    #[error("the source failed")]
    ReadFault,
    /// The script has a 16,777,217th byte.
    #[error("the script has more than 16,777,216 bytes")]
    TooLong,
}

/// Where a reader stands.
#[derive(Clone, Copy)]
pub enum Stage {
    /// The end of the input was not seen.
    Going,
    /// The end was seen, and all bytes are in lines.
    Ended,
    /// An earlier call refused.
    Refused(LineRefusal),
}

/// Reads a script line by line. Contracts see the bytes that were read and are in no line yet, how many bytes the lines
/// took, the line last told, and the stage. Only `new` takes memory.
#[derive(Drop)]
pub struct LineReader {
    pieces: Pieces,
    line: Vec<u8>,
    taken: usize,
    stage: Stage,
}

impl Model for LineReader {
    ghost use Rattle.std.specs.Prelude.{◌≤◌, vec_capacity};
    ghost use Rattle.lsys_syntax.specs.Limits.{most_line_bytes, most_script_bytes};
    ghost use Rattle.lsys_io.specs.Reading.{LineReading};

    ghost Value = { LineReading };

    ghost view = { λ r. record { held = r.pieces; taken = r.taken; line = r.line.items; stage = r.stage } };

    ghost invariant = { λ r. (most_line_bytes ≤ vec_capacity r.line) × (r.taken ≤ most_script_bytes) };
}

impl LineReader {
    /// A reader at the start of a script, with all its buffers.
    pub fn new(alloc: Global) -> Result<LineReader, AllocError>
        ensures { IfOk result (λ reader. reader ≡ script_start) }
    {
        Ok(LineReader {
            pieces: Pieces::new(alloc)?,
            line: Vec::with_capacity(alloc, LINE_LIMIT)?,
            taken: 0,
            stage: Stage::Going,
        })
    }

    /// The line of the last `Line`, without LF and CR; else empty.
    pub fn line(&self) -> &[u8]
        ensures { result.now ≡ self.now.line }
    {
        self.line.as_slice()
    }

    /// Reads the next line. After `End` or a refusal every later call answers the same and reads nothing.
    pub fn next_line<S: Source>(&mut self, source: &mut S) -> Result<LineRead, LineRefusal>
        ensures line { OnLine result (TellsLine S.left self source) }
        ensures long { OnLong result (DropsLine S.left self source) }
        ensures end_only_where_none_left { OnEnd result (IsAtEnd (remaining self.old (S.left source.old))) }
        ensures too_long_only_past_limit { TooLongPastLimit S.left self source result }
        ensures read_fault_leaves_no_line { FaultLeavesNoLine S.left self source result }
        ensures else_tells_no_line { OnNoLine result (self.new.line ≡ []) }

        // Each line takes a byte, and the lines together stay within the limit.
        ensures progress { OnTaken result (self.old.taken < self.new.taken) }
        ensures within { self.new.taken ≤ most_script_bytes }
        ensures else_takes_nothing { OnLast result (self.new.taken ≡ self.old.taken) }

        // The end and a refusal stay.
        ensures stops { OnLast result (last_answer self.new.stage ≡ Some result) }
        ensures stays { LastAnswerStays self source result }
        ensures was_going { IsNotRefused self.old.stage → OnNoEnd result (self.old.stage ≡ Stage.Going) }

        ensures no_read_while_line_held { has_lf self.old.held ≡ true → source.new ≡ source.old }
        ensures never_falls { S.faults source.old ≤ S.faults source.new }
        ensures read_fault_only_where_rose { FaultWhereRose S.faults self source result }
        ensures else_leaves_count { OnNoFault result (S.faults source.new ≡ S.faults source.old) }
    {
        self.line.clear();
        match self.stage {
            Stage::Going => {}
            Stage::Ended => return Ok(LineRead::End),
            Stage::Refused(refusal) => return Err(refusal),
        }
        let room = SCRIPT_LIMIT - self.taken;
        let gathered = match gather(&mut self.pieces, &mut self.line, source, room) {
            Ok(gathered) => gathered,
            Err(refusal) => {
                self.line.clear();
                self.stage = Stage::Refused(refusal);
                return Err(refusal);
            }
        };
        if gathered.whole {
            self.taken += gathered.count + 1;
            return Ok(finish(&mut self.line, gathered.count));
        }
        self.stage = Stage::Ended;
        if gathered.count == 0 {
            return Ok(LineRead::End);
        }
        self.taken += gathered.count;
        Ok(finish(&mut self.line, gathered.count))
    }
}
