//! The frames of the cubic lattice.

ghost use Rattle.std.specs.Prelude.{◌≡◌, ◌<◌, ◌^◌, unsigned_abs};
ghost use Rattle.lsys_spec.specs.Lattices.{frame, IsUpright, opposite};
ghost use Rattle.lsys_lattice.specs.Rotations.{scaled};
ghost use Rattle.lsys_lattice.specs.Directions.{along};
ghost use Rattle.lsys_lattice.specs.Views.{vector_of};
ghost use Rattle.lsys_lattice.specs.Wide.{AreBelow, IsBelow, IsShort, extents_of, shared, wide_of};

use crate::wide::Stretched;
use crate::{Extents, Place, Vector};

/// A direction along an axis.
#[derive(Clone, Copy, PartialEq, Eq, Debug)]
pub(crate) enum Direction {
    East,
    West,
    North,
    South,
    Up,
    Down,
}

impl Direction {
    pub(crate) fn opposite(self) -> Direction
        ensures { along result ≡ opposite (along self) }
    {
        match self {
            Direction::East => Direction::West,
            Direction::West => Direction::East,
            Direction::North => Direction::South,
            Direction::South => Direction::North,
            Direction::Up => Direction::Down,
            Direction::Down => Direction::Up,
        }
    }

    pub(crate) fn place(self) -> Place
        ensures { vector_of result ≡ along self }
    {
        let (x, y, z) = match self {
            Direction::East => (1, 0, 0),
            Direction::West => (-1, 0, 0),
            Direction::North => (0, 1, 0),
            Direction::South => (0, -1, 0),
            Direction::Up => (0, 0, 1),
            Direction::Down => (0, 0, -1),
        };
        Place { x, y, z }
    }

    // So many steps in the direction; they are below 2^100 in magnitude.
    pub(crate) fn times(self, steps: i128) -> Vector
        requires { unsigned_abs steps < 2 ^ 100 }
        ensures steps { wide_of result ≡ scaled steps (along self) }
        ensures within { IsBelow 100 (wide_of result) }
    {
        let (x, y, z) = match self {
            Direction::East => (steps, 0, 0),
            Direction::West => (-steps, 0, 0),
            Direction::North => (0, steps, 0),
            Direction::South => (0, -steps, 0),
            Direction::Up => (0, 0, steps),
            Direction::Down => (0, 0, -steps),
        };
        Vector { x, y, z }
    }

    // How far places reach that lie in the direction, as many steps from the origin as the span tells.
    pub(crate) fn share(self, span: Stretched) -> Extents
        requires { IsShort span }
        ensures share { extents_of result ≡ shared (along self) span.low span.high }
        ensures within { AreBelow 100 (extents_of result) }
    {
        let none = Stretched { low: 0, high: 0 };
        match self {
            Direction::East => Extents::of(span, none, none),
            Direction::West => Extents::of(span.back(), none, none),
            Direction::North => Extents::of(none, span, none),
            Direction::South => Extents::of(none, span.back(), none),
            Direction::Up => Extents::of(none, none, span),
            Direction::Down => Extents::of(none, none, span.back()),
        }
    }
}

/// A frame in space: where a turtle heads, and what is on its left and above it.
#[derive(Clone, Copy, PartialEq, Eq, Debug)]
pub struct CubicFrame {
    pub(crate) heading: Direction,
    pub(crate) left: Direction,
    pub(crate) up: Direction,
    ghost upright: { IsUpright (frame (along heading) (along left) (along up)) },
}
