// The bytes of one line, gathered piece after piece.
ghost use Rattle.std.specs.Prelude.{◌≡◌, ℕ, ◌+◌, ◌-◌, ◌^◌, [], ◌<◌, ◌≤◌, ◌≢◌, slice_index, length, true, false, IfOk, IfErr, OnOk, IfSome, IfNone, vec_len, vec_capacity};
ghost use Rattle.std.specs.Io.KnownBytes.{IsAtEnd};
ghost use Rattle.lsys_syntax.specs.Lines.{without_cr};
ghost use Rattle.lsys_io.specs.Feeds.{has_lf};
ghost use Rattle.lsys_syntax.specs.Limits.{most_line_bytes};
ghost use Rattle.lsys_io.specs.Gathering.{FinishesLine, AbsorbsFrom, CountsFault, GathersGiven, KeepsPart, PassesRoom, StopsGiven};

use super::{Failed, Source};
use crate::lines::{LineRead, LineRefusal};
use crate::pieces::Pieces;

/// The most bytes of a line without its LF. Its CR counts.
pub(crate) const LINE_LIMIT: usize = 65_536;

/// How many bytes a line has, and whether its LF was found.
#[derive(Clone, Copy)]
pub(crate) struct Gathered {
    pub(crate) count: usize,
    pub(crate) whole: bool,
}

/// The place of the first LF, or the length where there is none.
fn feed_place(bytes: &[u8]) -> usize
    ensures within { result ≤ length bytes.now }
    ensures before { (k : ℕ) → k < result → slice_index bytes.now k ≢ 10 }
    ensures found { result < length bytes.now → slice_index bytes.now result ≡ 10 }
{
    for (place, byte) in bytes.iter().enumerate() {
        if *byte == b'\n' {
            return place;
        }
    }
    bytes.len()
}

/// Keeps a part of a line that is not too long yet; `count` bytes stand before it.
fn keep(line: &mut Vec<u8>, count: usize, part: &[u8])
    requires capacity { most_line_bytes ≤ vec_capacity line.old }
    requires before { vec_len line.old ≤ count }
    requires fits { count + length part.now < 2 ^ 64 }
    ensures kept { KeepsPart count part.now line.old.items line.new.items }
    ensures before { vec_len line.new ≤ count + length part.now }
    ensures capacity { most_line_bytes ≤ vec_capacity line.new }
{
    if count + part.len() <= LINE_LIMIT {
        match line.extend_from_slice(part) {
            Ok(()) => {}
            Err(_) => unreachable!(),
        }
    }
}

/// Takes what is held to its first LF, or all of it. None where that passes the room.
fn absorb(pieces: &mut Pieces, line: &mut Vec<u8>, count: usize, room: usize) -> Option<Gathered>
    requires capacity { most_line_bytes ≤ vec_capacity line.old }
    requires before { vec_len line.old ≤ count }
    requires within { count ≤ room }
    requires fits { room < 2 ^ 63 }
    ensures absorbs { IfSome result (AbsorbsFrom pieces line.old.items line.new.items count room) }
    ensures past { IfNone result (PassesRoom (room - count) pieces.old) }
    ensures before { IfSome result (λ gathered. vec_len line.new ≤ gathered.count) }
    ensures capacity { most_line_bytes ≤ vec_capacity line.new }
{
    let held = pieces.held();
    let place = feed_place(held);
    let whole = place < held.len();
    let taken = if whole { place + 1 } else { place };
    if taken > room - count {
        return None;
    }
    keep(line, count, &held[..place]);
    pieces.skip(taken);
    Some(Gathered {
        count: count + place,
        whole,
    })
}

/// Gathers the next line, of which at most `room` bytes may be taken. Its bytes are kept where they are not too many.
/// A new piece is read only while what is held has no LF.
pub(crate) fn gather<S: Source>(
    pieces: &mut Pieces,
    line: &mut Vec<u8>,
    source: &mut S,
    room: usize,
) -> Result<Gathered, LineRefusal>
    requires empty { line.old.items ≡ [] }
    requires capacity { most_line_bytes ≤ vec_capacity line.old }
    requires fits { room < 2 ^ 63 }
    ensures gathers { IfOk result (GathersGiven S.left source pieces line.new.items room) }
    ensures ended { IfOk result (λ gathered. gathered.whole ≡ false → IsAtEnd (S.left source.new)) }
    ensures stops { IfErr result (StopsGiven S.left source pieces room) }
    ensures no_read_while_held { has_lf pieces.old ≡ true → source.new ≡ source.old }
    ensures capacity { most_line_bytes ≤ vec_capacity line.new }

    ensures never_falls { S.faults source.old ≤ S.faults source.new }
    ensures ok_leaves_count { OnOk result (S.faults source.new ≡ S.faults source.old) }
    ensures refused_count { IfErr result (CountsFault S.faults source) }
{
    let mut count = 0;
    'bytes: loop {
        match pieces.fill(source) {
            Ok(true) => {}
            Ok(false) => {
                return Ok(Gathered {
                    count,
                    whole: false,
                });
            }
            Err(Failed) => return Err(LineRefusal::ReadFault),
        }
        match absorb(pieces, line, count, room) {
            None => return Err(LineRefusal::TooLong),
            Some(gathered) if gathered.whole => return Ok(gathered),
            Some(gathered) => count = gathered.count,
        }
    }
}

/// Drops one CR at the line's end.
#[tactic(auto, using(crate::proofs::Taken::line_ends))]
fn drop_cr(line: &mut Vec<u8>)
    ensures dropped { line.new.items ≡ without_cr line.old.items }
    ensures capacity { vec_capacity line.new ≡ vec_capacity line.old }
{
    let length = line.len();
    if length == 0 {
        return;
    }
    if line[length - 1] == b'\r' {
        line.truncate(length - 1);
    }
}

/// Ends a line of `count` bytes: drops its CR, or the line where it is too long.
pub(crate) fn finish(line: &mut Vec<u8>, count: usize) -> LineRead
    requires { most_line_bytes ≤ vec_capacity line.old }
    ensures finishes { FinishesLine result count line.old.items line.new.items }
    ensures capacity { most_line_bytes ≤ vec_capacity line.new }
{
    if count > LINE_LIMIT {
        line.clear();
        return LineRead::Long;
    }
    drop_cr(line);
    LineRead::Line
}
