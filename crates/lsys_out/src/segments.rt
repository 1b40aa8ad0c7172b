//! A picture as a list of its segments.
ghost use Rattle.std.specs.Prelude.{◌≡◌, ◌≤◌, ◌+◌, ◌++◌, None, length};
ghost use Rattle.lsys_spec.specs.PictureTexts.{place_text, segment_line};
ghost use Rattle.lsys_io.specs.Putting.{Puts};
ghost use Rattle.lsys_lattice.specs.Views.{vector_of};
ghost use Rattle.lsys_turtle.specs.Ways.{segment_of};
ghost use Rattle.lsys_out.specs.Drawings.{last_drawing};
ghost use Rattle.lsys_out.specs.Lines.{segments_line};
ghost use Rattle.lsys_out.specs.Nesting.{HasLast, image_nesting};
ghost use Rattle.lsys_out.specs.LastPictures.{PutsList, WritesList};

use crate::numbers::{put_signed, put_unsigned};
use crate::refusal::PictureRefusal;
use crate::survey::survey_picture;
use crate::tail::Tail;
use crate::way::TurtleWay;
use lsys_io::{Buffered, Failed, Sink};
use lsys_lattice::{Lattice, Place};
use lsys_level::LevelView;
use lsys_rules::System;
use lsys_turtle::{Segment, Turtle};

/// Puts the segments of the last level's picture on the lattice `T`: how many there are, and then for each a line with its
/// start, its end and its width.
///
/// The turtle has room for the image's nesting, which `image_nesting` tells; where it stands doesn't matter. The image is
/// walked twice, and no memory is taken.
///
/// # Errors
///
/// `Image` and `Far`, before anything was put; `Failed` where the sink failed, and then a front of the text was put.
pub fn segments_text<T: Lattice, W: LevelView, K: Sink>(
    view: &W,
    system: &System,
    turtle: &mut Turtle<T>,
    out: &mut Buffered,
    sink: &mut K,
) -> Result<(), PictureRefusal>
    requires last { HasLast system.now (W.levels view.now) }
    requires room { image_nesting system.now (W.levels view.now) ≤ turtle.old.room }
    ensures shows { PutsList K.Sink sink out T.shape system.now (W.levels view.now) result }
    ensures room { turtle.new.room ≡ turtle.old.room }
{
    let count = survey_picture(view, system, turtle)?.count;
    match put_segments(view, system, turtle, count, out, sink) {
        Ok(()) => Ok(()),
        Err(Failed) => Err(PictureRefusal::Failed),
    }
}

// Puts the segments of a picture that isn't refused, and has so many.
fn put_segments<T: Lattice, W: LevelView, K: Sink>(
    view: &W,
    system: &System,
    turtle: &mut Turtle<T>,
    count: u32,
    out: &mut Buffered,
    sink: &mut K,
) -> Result<(), Failed>
    requires last { HasLast system.now (W.levels view.now) }
    requires room { image_nesting system.now (W.levels view.now) ≤ turtle.old.room }
    requires drawn { (last_drawing T.shape system.now (W.levels view.now)).refusal ≡ None }
    requires count { count ≡ length (last_drawing T.shape system.now (W.levels view.now)).segments }
    ensures put { WritesList K.Sink sink out T.shape system.now (W.levels view.now) result }
    ensures room { turtle.new.room ≡ turtle.old.room }
{
    put_count(out, sink, count)?;
    let mut tail = Tail::new();
    let mut way = TurtleWay::new(view, system, turtle);
    'segments: loop {
        match way.next(turtle) {
            Ok(Some(segment)) => put_segment(out, sink, &mut tail, &segment)?,
            Ok(None) => return Ok(()),
            Err(_) => unreachable!(),
        }
    }
}

// Puts the first line.
fn put_count<K: Sink>(out: &mut Buffered, sink: &mut K, count: u32) -> Result<(), Failed>
    ensures { Puts K.Sink sink out (segments_line count) result }
{
    out.put(sink, b"segments ")?;
    put_unsigned(out, sink, count)?;
    out.put(sink, b"\n")
}

// Puts the line of a segment.
fn put_segment<K: Sink>(
    out: &mut Buffered,
    sink: &mut K,
    tail: &mut Tail,
    segment: &Segment,
) -> Result<(), Failed>
    ensures { Puts K.Sink sink out (segment_line (segment_of segment.now)) result }
{
    write_segment(tail, segment);
    out.put(sink, tail.text())
}

// Writes the line of a segment.
fn write_segment(tail: &mut Tail, segment: &Segment)
    ensures { tail.new.text ≡ segment_line (segment_of segment.now) }
{
    tail.clear();
    tail.byte(b'\n');
    tail.number(i64::from(segment.width));
    tail.byte(b' ');
    write_place(tail, &segment.to);
    tail.byte(b' ');
    write_place(tail, &segment.from);
}

// Writes a place by its three coordinates.
fn write_place(tail: &mut Tail, place: &Place)
    requires { 62 ≤ tail.old.room }
    ensures text { tail.new.text ≡ place_text (vector_of place.now) ++ tail.old.text }
    ensures room { tail.old.room ≤ tail.new.room + 62 }
{
    tail.number(place.z);
    tail.byte(b' ');
    tail.number(place.y);
    tail.byte(b' ');
    tail.number(place.x);
}

/// Puts a place by its three coordinates.
///
/// # Errors
///
/// The sink failed; a front of what was held and of the text was written then.
pub fn put_place<K: Sink>(out: &mut Buffered, sink: &mut K, place: &Place) -> Result<(), Failed>
    ensures { Puts K.Sink sink out (place_text (vector_of place.now)) result }
{
    put_signed(out, sink, &place.x)?;
    out.put(sink, b" ")?;
    put_signed(out, sink, &place.y)?;
    out.put(sink, b" ")?;
    put_signed(out, sink, &place.z)
}
