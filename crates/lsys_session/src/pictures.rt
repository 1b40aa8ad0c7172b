//! Pictures of the last level, on the lattice that the system names.
ghost use Rattle.std.specs.Prelude.{◌≡◌, ◌≤◌, [], None, Ok};
ghost use Rattle.lsys_out.specs.Drawings.{last_image};
ghost use Rattle.lsys_out.specs.Nesting.{HasLast, image_nesting};
ghost use Rattle.lsys_session.specs.declared.outcome.Outcome.TheVariants.{Memory};
ghost use Rattle.lsys_session.specs.Calls.{PrintsPicture, DrawsKind};

use crate::outcome::Outcome;
use crate::sayings::{end_print, refuse, refuse_far, refuse_image};
use lsys_io::{Buffered, Failed, Sink};
use lsys_lattice::{Cubic, Hexagonal, Lattice, Square};
use lsys_level::LevelView;
use lsys_out::{PictureRefusal, image_nesting, segments_text, svg_text};
use lsys_reading::LatticeName;
use lsys_rules::{Refusal, System};
use lsys_turtle::Turtle;
use std::alloc::Global;

/// How a picture is told.
#[derive(Clone, Copy)]
pub(crate) enum Picture {
    /// As a list of its segments.
    Segments,
    /// As SVG.
    Svg,
}

/// Answers with the last level's picture, on the lattice that the system names.
///
/// # Errors
///
/// The sink failed; a front of the reply was written then.
pub(crate) fn print_picture<W: LevelView, K: Sink>(
    alloc: Global,
    kind: Picture,
    view: &W,
    system: &System,
    out: &mut Buffered,
    sink: &mut K,
) -> Result<Outcome, Failed>
    requires empty { out.old ≡ [] }
    requires last { HasLast system.now (W.levels view.now) }
    ensures prints { PrintsPicture kind K.Sink sink out system.now (W.levels view.now) result }
    ensures memory { result ≡ Ok Memory → (last_image system.now (W.levels view.now)).refusal ≡ None }
{
    match system.lattice() {
        LatticeName::Square => print_on::<Square, W, K>(alloc, kind, view, system, out, sink),
        LatticeName::Hexagonal => print_on::<Hexagonal, W, K>(alloc, kind, view, system, out, sink),
        LatticeName::Cubic => print_on::<Cubic, W, K>(alloc, kind, view, system, out, sink),
    }
}

// Answers with the picture on the lattice `T`, which is the system's.
fn print_on<T: Lattice, W: LevelView, K: Sink>(
    alloc: Global,
    kind: Picture,
    view: &W,
    system: &System,
    out: &mut Buffered,
    sink: &mut K,
) -> Result<Outcome, Failed>
    requires empty { out.old ≡ [] }
    requires last { HasLast system.now (W.levels view.now) }
    requires lattice { T.shape ≡ system.now.lattice }
    ensures prints { PrintsPicture kind K.Sink sink out system.now (W.levels view.now) result }
    ensures memory { result ≡ Ok Memory → (last_image system.now (W.levels view.now)).refusal ≡ None }
{
    let nesting = match image_nesting(view, system) {
        Ok(nesting) => nesting,
        Err(refusal) => return refuse_image(out, sink, refusal),
    };
    let mut turtle = match Turtle::<T>::new(alloc, nesting) {
        Ok(turtle) => turtle,
        Err(_) => return refuse(out, sink, Refusal::Memory),
    };
    match put_picture(kind, view, system, &mut turtle, out, sink) {
        Ok(()) => end_print(out, sink),
        Err(PictureRefusal::Image(refusal)) => refuse_image(out, sink, refusal),
        Err(PictureRefusal::Far { module }) => refuse_far(out, sink, module),
        Err(PictureRefusal::Failed) => Err(Failed),
    }
}

// Puts the picture's text.
fn put_picture<T: Lattice, W: LevelView, K: Sink>(
    kind: Picture,
    view: &W,
    system: &System,
    turtle: &mut Turtle<T>,
    out: &mut Buffered,
    sink: &mut K,
) -> Result<(), PictureRefusal>
    requires last { HasLast system.now (W.levels view.now) }
    requires room { image_nesting system.now (W.levels view.now) ≤ turtle.old.room }
    ensures { DrawsKind kind K.Sink sink out T.shape system.now (W.levels view.now) result }
{
    match kind {
        Picture::Segments => segments_text(view, system, turtle, out, sink),
        Picture::Svg => svg_text(view, system, turtle, out, sink),
    }
}
