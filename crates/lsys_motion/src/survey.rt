//! How far a picture reaches.
ghost use Rattle.std.specs.Prelude.{◌≡◌, ◌≤◌, [], pos};
ghost use Rattle.std.specs.Int.{int_max, int_min};
ghost use Rattle.lsys_syntax.specs.Limits.{greatest_coordinate};
ghost use Rattle.lsys_spec.specs.Lattices.{IsWithin};
ghost use Rattle.lsys_spec.specs.Pictures.{origin};
ghost use Rattle.lsys_lattice.specs.Extents.{extents};
ghost use Rattle.lsys_lattice.specs.Rotations.{measures};
ghost use Rattle.lsys_lattice.specs.Motions.{each_of};
ghost use Rattle.lsys_lattice.specs.Views.{vector_of};
ghost use Rattle.lsys_lattice.specs.Wide.{extents_of, wide_of};
ghost use Rattle.lsys_turtle.specs.Ways.{IsReached, segment_of};
ghost use Rattle.lsys_out.specs.Drawings.{last_drawing};
ghost use Rattle.lsys_out.specs.Nesting.{HasLast, image_nesting};
ghost use Rattle.lsys_motion.specs.Surveys.{AreBoundsOf, with_place, with_ends};

use lsys_lattice::{Extents, Lattice, Place, Vector};
use lsys_level::LevelView;
use lsys_out::{PictureRefusal, TurtleWay};
use lsys_rules::System;
use lsys_turtle::{Segment, Turtle};

/// The measures of a place within reach.
fn measured<T: Lattice>(place: Place) -> Vector
    requires { IsWithin greatest_coordinate (vector_of place) }
    ensures { wide_of result ≡ measures T.shape (vector_of place) }
{
    T::measures(Vector {
        x: place.x as i128,
        y: place.y as i128,
        z: place.z as i128,
    })
}

/// Of the origin alone.
fn of_origin<T: Lattice>() -> Extents
    ensures { extents_of result ≡ extents T.shape origin [] }
{
    let measures = measured::<T>(Place { x: 0, y: 0, z: 0 });
    Extents {
        low: measures,
        high: measures,
    }
}

/// With one place more.
pub(crate) fn with_place<T: Lattice>(extents: Extents, place: Place) -> Extents
    requires { IsWithin greatest_coordinate (vector_of place) }
    ensures { extents_of result ≡ with_place T.shape (extents_of extents) (vector_of place) }
{
    let measures = measured::<T>(place);
    Extents {
        low: least(&extents.low, &measures),
        high: greatest(&extents.high, &measures),
    }
}

/// The lesser of each coordinate.
fn least(one: &Vector, other: &Vector) -> Vector
    ensures { wide_of result ≡ each_of int_min (wide_of one.now) (wide_of other.now) }
{
    Vector {
        x: lesser(&one.x, &other.x),
        y: lesser(&one.y, &other.y),
        z: lesser(&one.z, &other.z),
    }
}

/// The greater of each coordinate.
fn greatest(one: &Vector, other: &Vector) -> Vector
    ensures { wide_of result ≡ each_of int_max (wide_of one.now) (wide_of other.now) }
{
    Vector {
        x: greater(&one.x, &other.x),
        y: greater(&one.y, &other.y),
        z: greater(&one.z, &other.z),
    }
}

fn lesser(one: &i128, other: &i128) -> i128
    ensures { result ≡ int_min one.now other.now }
{
    (*one).min(*other)
}

fn greater(one: &i128, other: &i128) -> i128
    ensures { result ≡ int_max one.now other.now }
{
    (*one).max(*other)
}

/// With both ends of a segment more.
fn with_segment<T: Lattice>(extents: Extents, segment: &Segment) -> Extents
    requires { IsReached segment.now }
    ensures { extents_of result
        ≡ with_ends T.shape (extents_of extents) (segment_of segment.now) }
{
    with_place::<T>(with_place::<T>(extents, segment.from), segment.to)
}

/// How far the picture of the last level reaches, the origin and both ends of each segment.
///
/// # Errors
///
/// The picture's refusal, which isn't `Failed`.
pub(crate) fn survey_picture<T: Lattice, W: LevelView>(
    view: &W,
    system: &System,
    turtle: &mut Turtle<T>,
) -> Result<Extents, PictureRefusal>
    requires last { HasLast system.now (W.levels view.now) }
    requires room { image_nesting system.now (W.levels view.now) ≤ turtle.old.room }
    ensures { AreBoundsOf T.shape (last_drawing T.shape system.now (W.levels view.now)) result }
{
    let mut way = TurtleWay::new(view, system, turtle);
    let mut extents = of_origin::<T>();
    'segments: while let Some(segment) = way.next(turtle)? {
        extents = with_segment::<T>(extents, &segment);
    }
    Ok(extents)
}
