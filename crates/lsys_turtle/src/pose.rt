//! Where a turtle stands.
ghost use Rattle.std.specs.Prelude.{◌≡◌, ◌≤◌, ◌+ℤ◌, ◌*ℤ◌, option_map, unsigned_abs};
ghost use Rattle.lsys_syntax.specs.Limits.{greatest_coordinate};
ghost use Rattle.lsys_spec.specs.Pictures.{at_start, place_ahead};
ghost use Rattle.lsys_spec.specs.Lattices.{IsWithin, turn_by};
ghost use Rattle.lsys_lattice.specs.Views.{vector_of, turn_of};
ghost use Rattle.lsys_turtle.specs.Ways.{in_reach, place_in_reach, vector_from, GoesUnlessFar, pose_turned};

use crate::segment::Far;
use lsys_lattice::{Lattice, Place, Turn, turn_by};
use std::marker::Model;

/// The greatest coordinate that a turtle reaches, in magnitude.
const REACH: u64 = 1_000_000_000;

/// A place within reach, a frame, and the width of what is drawn there.
#[derive(Drop)]
pub(crate) struct Stance<T: Lattice> {
    place: Place,
    frame: T::Frame,
    width: u32,
}

impl<T: Lattice> Model for Stance<T> {
    ghost use Rattle.lsys_syntax.specs.Limits.{greatest_coordinate};
    ghost use Rattle.lsys_spec.specs.Lattices.{IsWithin};
    ghost use Rattle.lsys_spec.specs.Pictures as P;
    ghost use Rattle.lsys_lattice.specs.Views.{vector_of};

    ghost Value = { P.Pose };

    ghost view = { λ p. record { place = vector_of p.place; frame = T.frame_of p.frame; width = p.width } };

    ghost invariant = { λ p. IsWithin greatest_coordinate (vector_of p.place) };
}

/// The coordinate so many steps on from one within reach, where it is within reach too.
fn reached(coordinate: i64, steps: i64, direction: i64) -> Option<i64>
    requires { unsigned_abs coordinate ≤ greatest_coordinate }
    ensures { result ≡ in_reach (coordinate +ℤ steps *ℤ direction) }
{
    let sum = coordinate.checked_add(steps.checked_mul(direction)?)?;
    if sum.unsigned_abs() > REACH {
        None
    } else {
        Some(sum)
    }
}

/// The place with these coordinates, where all are within reach.
fn placed(x: Option<i64>, y: Option<i64>, z: Option<i64>) -> Option<Place>
    ensures { option_map vector_of result ≡ vector_from x y z }
{
    match (x, y, z) {
        (Some(x), Some(y), Some(z)) => Some(Place { x, y, z }),
        _ => None,
    }
}

impl<T: Lattice> Stance<T> {
    /// At 0 0 0, in the lattice's first frame, with width 1.
    pub(crate) fn start() -> Stance<T>
        ensures { result ≡ (at_start T.shape).pose }
    {
        Stance {
            place: Place { x: 0, y: 0, z: 0 },
            frame: T::start(),
            width: 1,
        }
    }

    /// The same pose again.
    pub(crate) fn again(&self) -> Stance<T>
        ensures { result ≡ self.now }
    {
        Stance {
            place: self.place,
            frame: self.frame,
            width: self.width,
        }
    }

    /// Where it stands.
    pub(crate) fn place(&self) -> Place
        ensures place { vector_of result ≡ self.now.place }
        ensures reached { IsWithin greatest_coordinate (vector_of result) }
    {
        self.place
    }

    /// The width of what is drawn.
    pub(crate) fn width(&self) -> u32
        ensures { result ≡ self.now.width }
    {
        self.width
    }

    /// The place so many steps ahead, where it is within reach.
    fn ahead(&self, steps: i64) -> Option<Place>
        ensures { option_map vector_of result ≡ place_in_reach (place_ahead steps self.now) }
    {
        let heading = T::heading(self.frame);
        let x = reached(self.place.x, steps, heading.x);
        let y = reached(self.place.y, steps, heading.y);
        let z = reached(self.place.z, steps, heading.z);
        placed(x, y, z)
    }

    /// Moves so many steps ahead; where that is too far, it stays.
    pub(crate) fn go(&mut self, steps: i64) -> Result<(), Far>
        ensures gone { GoesUnlessFar steps self.old self.new result }
    {
        match self.ahead(steps) {
            Some(place) => {
                self.place = place;
                Ok(())
            }
            None => Err(Far),
        }
    }

    /// Turns so many times, the other way where the count is negative.
    pub(crate) fn turn(&mut self, kind: Turn, count: i64)
        ensures { self.new ≡ pose_turned T.shape (turn_of kind) count self.old }
    {
        self.frame = turn_by::<T>(self.frame, kind, count);
    }

    /// Draws with this width from now on.
    pub(crate) fn widen(&mut self, width: u32)
        ensures { self.new ≡ record self.old { width = width } }
    {
        self.width = width;
    }
}
