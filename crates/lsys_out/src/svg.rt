//! A picture as SVG.
ghost use Rattle.std.specs.Prelude.{◌≡◌, ◌≤◌, None};
ghost use Rattle.lsys_io.specs.Putting.{Puts};
ghost use Rattle.lsys_turtle.specs.Ways.{IsReached, segment_of};
ghost use Rattle.lsys_out.specs.Boxes.{box_of};
ghost use Rattle.lsys_out.specs.Drawings.{last_drawing};
ghost use Rattle.lsys_out.specs.Lines.{drawn_line, head_line, line_between};
ghost use Rattle.lsys_out.specs.Nesting.{HasLast, image_nesting};
ghost use Rattle.lsys_out.specs.LastPictures.{DrawsSvg, WritesSvg, last_box};

use crate::extent::Extent;
use crate::numbers::{put_corner, put_side};
use crate::refusal::PictureRefusal;
use crate::survey::survey_picture;
use crate::tail::Tail;
use crate::way::TurtleWay;
use lsys_io::{Buffered, Failed, Sink};
use lsys_lattice::Lattice;
use lsys_level::LevelView;
use lsys_rules::System;
use lsys_turtle::{Segment, Turtle};

/// Puts the last level's picture on the lattice `T` as SVG: a line for each segment, in the least box that holds the
/// projected origin and all projected ends, with a margin of 10.
///
/// The turtle has room for the image's nesting, which `image_nesting` tells; where it stands doesn't matter. The image is
/// walked twice, and no memory is taken.
///
/// # Errors
///
/// `Image` and `Far`, before anything was put; `Failed` where the sink failed, and then a front of the text was put.
pub fn svg_text<T: Lattice, W: LevelView, K: Sink>(
    view: &W,
    system: &System,
    turtle: &mut Turtle<T>,
    out: &mut Buffered,
    sink: &mut K,
) -> Result<(), PictureRefusal>
    requires last { HasLast system.now (W.levels view.now) }
    requires room { image_nesting system.now (W.levels view.now) ≤ turtle.old.room }
    ensures shows { DrawsSvg K.Sink sink out T.shape system.now (W.levels view.now) result }
    ensures room { turtle.new.room ≡ turtle.old.room }
{
    let extent = survey_picture(view, system, turtle)?.extent;
    match put_svg(view, system, turtle, extent, out, sink) {
        Ok(()) => Ok(()),
        Err(Failed) => Err(PictureRefusal::Failed),
    }
}

// Puts a picture that isn't refused, and has this extent.
fn put_svg<T: Lattice, W: LevelView, K: Sink>(
    view: &W,
    system: &System,
    turtle: &mut Turtle<T>,
    extent: Extent,
    out: &mut Buffered,
    sink: &mut K,
) -> Result<(), Failed>
    requires last { HasLast system.now (W.levels view.now) }
    requires room { image_nesting system.now (W.levels view.now) ≤ turtle.old.room }
    requires drawn { (last_drawing T.shape system.now (W.levels view.now)).refusal ≡ None }
    requires framed { box_of extent ≡ last_box T.shape system.now (W.levels view.now) }
    ensures put { WritesSvg K.Sink sink out T.shape system.now (W.levels view.now) result }
    ensures room { turtle.new.room ≡ turtle.old.room }
{
    put_head(out, sink, &extent)?;
    let mut tail = Tail::new();
    let mut way = TurtleWay::new(view, system, turtle);
    'segments: loop {
        match way.next(turtle) {
            Ok(Some(segment)) => put_line::<T, K>(out, sink, &mut tail, &segment)?,
            Ok(None) => return out.put(sink, b"</svg>\n"),
            Err(_) => unreachable!(),
        }
    }
}

// Puts the first line.
fn put_head<K: Sink>(out: &mut Buffered, sink: &mut K, extent: &Extent) -> Result<(), Failed>
    ensures { Puts K.Sink sink out (head_line (box_of extent.now)) result }
{
    out.put(
        sink,
        b"<svg xmlns=\"http://www.w3.org/2000/svg\" viewBox=\"",
    )?;
    put_corner(out, sink, &extent.left)?;
    out.put(sink, b" ")?;
    put_corner(out, sink, &extent.top)?;
    out.put(sink, b" ")?;
    put_side(out, sink, &extent.left, &extent.right)?;
    out.put(sink, b" ")?;
    put_side(out, sink, &extent.top, &extent.bottom)?;
    out.put(sink, b"\">\n")
}

// Puts the line of a segment.
fn put_line<T: Lattice, K: Sink>(
    out: &mut Buffered,
    sink: &mut K,
    tail: &mut Tail,
    segment: &Segment,
) -> Result<(), Failed>
    requires { IsReached segment.now }
    ensures { Puts K.Sink sink out (drawn_line T.shape (segment_of segment.now)) result }
{
    let from = T::project(segment.from);
    let to = T::project(segment.to);
    write_line(tail, &from, &to, segment.width);
    out.put(sink, tail.text())
}

// Writes the line between two points.
fn write_line(tail: &mut Tail, from: &(i64, i64), to: &(i64, i64), width: u32)
    ensures { tail.new.text ≡ line_between from.now to.now width }
{
    tail.clear();
    tail.bytes(b"\"/>\n");
    tail.number(i64::from(width));
    tail.bytes(b"\" stroke=\"black\" stroke-width=\"");
    tail.number(to.1);
    tail.bytes(b"\" y2=\"");
    tail.number(to.0);
    tail.bytes(b"\" x2=\"");
    tail.number(from.1);
    tail.bytes(b"\" y1=\"");
    tail.number(from.0);
    tail.bytes(b"<line x1=\"");
}
