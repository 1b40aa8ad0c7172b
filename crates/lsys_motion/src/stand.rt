//! Where a turtle stands, seen from elsewhere.
ghost use Rattle.std.specs.Prelude.{◌≡◌, ◌≤◌, ◌^◌, ℤ, ◌+ℤ◌, ◌*ℤ◌, unsigned_abs, Contains};
ghost use Rattle.lsys_spec.specs.Lattices.{IsWithin, frames};
ghost use Rattle.lsys_lattice.specs.Rotations.{plus};
ghost use Rattle.lsys_lattice.specs.Effects.{steps_ahead, first_walker, done, stand_from};
ghost use Rattle.lsys_lattice.specs.Free.{pose_of};
ghost use Rattle.lsys_turtle.specs.Ways.{act_of};
ghost use Rattle.lsys_lattice.specs.Views.{vector_of};
ghost use Rattle.lsys_lattice.specs.Wide.{wide_of};
ghost use Rattle.lsys_motion.specs.Pieces.{IsNear};
ghost use Rattle.lsys_motion.specs.Keepers.{HasSmallPlace};

use crate::pose::Pose;
use lsys_lattice::{Lattice, Place, Vector, turn_by};
use lsys_turtle::Act;
use std::marker::Model;

/// Where a turtle stands, seen from where it stood elsewhere, and its width, if one was set since.
/// No coordinate is farther than 2^40.
#[derive(Drop)]
pub(crate) struct Stand<T: Lattice> {
    place: Place,
    frame: T::Frame,
    width: Option<u32>,
}

impl<T: Lattice> Model for Stand<T> {
    ghost use Rattle.std.specs.Prelude.{◌^◌};
    ghost use Rattle.lsys_spec.specs.Lattices.{IsWithin};
    ghost use Rattle.lsys_lattice.specs.Effects as E;
    ghost use Rattle.lsys_lattice.specs.Views.{vector_of};

    ghost Value = { E.Stand };

    ghost view = { λ s. record {
      place = vector_of s.place;
      frame = T.frame_of s.frame;
      width = s.width;
    } };

    ghost invariant = { λ s. IsWithin (2 ^ 40) (vector_of s.place) };
}

impl<T: Lattice> Stand<T> {
    /// Where it is seen from.
    pub(crate) fn start() -> Stand<T>
        ensures { result ≡ (first_walker T.shape).here }
    {
        Stand {
            place: Place { x: 0, y: 0, z: 0 },
            frame: T::start(),
            width: None,
        }
    }

    /// The same stand again.
    pub(crate) fn again(&self) -> Stand<T>
        ensures same { result ≡ self.now }
        ensures known { Contains (frames T.shape) self.now.frame }
        ensures small { HasSmallPlace self.now }
    {
        Stand {
            place: self.place,
            frame: self.frame,
            width: self.width,
        }
    }

    /// As a pose of a picture, whose turtle draws 1 wide where no width was set.
    pub(crate) fn pose(&self) -> Pose<T>
        requires { IsNear self.now }
        ensures { result ≡ pose_of self.now }
    {
        Pose {
            place: self.place,
            frame: self.frame,
            width: self.width.unwrap_or(1),
        }
    }

    /// After a module that has a turtle do this.
    pub(crate) fn done(&self, act: Act) -> Stand<T>
        requires { HasSmallPlace (done T.shape (act_of act) self.now) }
        ensures { result ≡ done T.shape (act_of act) self.now }
    {
        match act {
            Act::Draws(steps) => self.ahead(steps),
            Act::Moves(steps) => self.ahead(steps),
            Act::Turns(kind, count) => Stand {
                place: self.place,
                frame: turn_by::<T>(self.frame, kind, count),
                width: self.width,
            },
            Act::Widens(width) => Stand {
                place: self.place,
                frame: self.frame,
                width: Some(width),
            },
            Act::Rests => self.again(),
        }
    }

    /// So many steps ahead.
    fn ahead(&self, steps: i64) -> Stand<T>
        requires { HasSmallPlace (record self.now { place = steps_ahead steps self.now }) }
        ensures { result ≡ record self.now { place = steps_ahead steps self.now } }
    {
        let heading = T::heading(self.frame);
        Stand {
            place: Place {
                x: moved(self.place.x, steps, heading.x),
                y: moved(self.place.y, steps, heading.y),
                z: moved(self.place.z, steps, heading.z),
            },
            frame: self.frame,
            width: self.width,
        }
    }

    /// What is seen from here so, as it is seen from where this is seen from.
    pub(crate) fn beyond(&self, inner: &Stand<T>) -> Stand<T>
        requires { HasSmallPlace (stand_from T.shape self.now inner.now) }
        ensures { result ≡ stand_from T.shape self.now inner.now }
    {
        let carried = T::carry(self.frame, wide(&inner.place));
        Stand {
            place: shifted(&self.place, carried),
            frame: T::follow(self.frame, inner.frame),
            width: inner.width.or(self.width),
        }
    }
}

/// The place with wide coordinates.
fn wide(place: &Place) -> Vector
    ensures { wide_of result ≡ vector_of place.now }
{
    Vector {
        x: place.x as i128,
        y: place.y as i128,
        z: place.z as i128,
    }
}

/// A coordinate after so many steps in a direction.
fn moved(coordinate: i64, steps: i64, direction: i64) -> i64
    requires before { unsigned_abs coordinate ≤ 2 ^ 40 }
    requires after { unsigned_abs (coordinate +ℤ steps *ℤ direction) ≤ 2 ^ 40 }
    ensures { result ≡ coordinate +ℤ steps *ℤ direction }
{
    coordinate + steps * direction
}

/// A place that is so much further.
fn shifted(place: &Place, by: Vector) -> Place
    requires { IsWithin (2 ^ 40) (plus (vector_of place.now) (wide_of by)) }
    ensures { vector_of result ≡ plus (vector_of place.now) (wide_of by) }
{
    Place {
        x: further(place.x, by.x),
        y: further(place.y, by.y),
        z: further(place.z, by.z),
    }
}

/// A coordinate that is so much further.
fn further(coordinate: i64, by: i128) -> i64
    requires { unsigned_abs (coordinate +ℤ by) ≤ 2 ^ 40 }
    ensures { result ≡ coordinate +ℤ by }
{
    (coordinate as i128 + by) as i64
}
