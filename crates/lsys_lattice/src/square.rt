//! The square lattice.

ghost use Rattle.std.specs.Prelude.{◌≡◌};
ghost use Rattle.lsys_spec.specs.Lattices.{square, turn_left, all_turned, quarter_left, quarter_right};
ghost use Rattle.lsys_spec.proofs.Turns.{turned_back, full_turn_back};
ghost use Rattle.lsys_lattice.specs.FlatFrames.{square_frame, square_upright, square_known, square_faithful};

use crate::{Extents, Lattice, Place, Turn, Vector};

/// The square lattice: places with two coordinates, and four headings.
#[derive(Clone, Copy, PartialEq, Eq, Debug)]
pub struct Square;

/// A heading on the square lattice.
#[derive(Clone, Copy, PartialEq, Eq, Debug)]
pub enum SquareFrame {
    North,
    West,
    South,
    East,
}

impl SquareFrame {
    fn left(self) -> SquareFrame
        ensures { square_frame result ≡ all_turned quarter_left (square_frame self) }
    {
        match self {
            SquareFrame::North => SquareFrame::West,
            SquareFrame::West => SquareFrame::South,
            SquareFrame::South => SquareFrame::East,
            SquareFrame::East => SquareFrame::North,
        }
    }

    fn right(self) -> SquareFrame
        ensures { square_frame result ≡ all_turned quarter_right (square_frame self) }
    {
        match self {
            SquareFrame::North => SquareFrame::East,
            SquareFrame::East => SquareFrame::South,
            SquareFrame::South => SquareFrame::West,
            SquareFrame::West => SquareFrame::North,
        }
    }
}

impl Lattice for Square {
    type Frame = SquareFrame;

    ghost shape = { square };

    ghost frame_of = { square_frame };

    ghost inverse_back = { λ turn f. turned_back square turn (square_frame f) };

    ghost full_back = { λ f. full_turn_back square turn_left (square_frame f) };

    ghost upright = { square_upright };

    ghost known = { square_known };

    ghost faithful = { square_faithful };

    fn full() -> u32 {
        4
    }

    fn start() -> SquareFrame {
        SquareFrame::North
    }

    fn turn(frame: SquareFrame, kind: Turn) -> SquareFrame {
        match kind {
            Turn::Left => frame.left(),
            Turn::Right => frame.right(),
            Turn::Round => frame.left().left(),
            Turn::Down | Turn::Up | Turn::RollLeft | Turn::RollRight => frame,
        }
    }

    fn heading(frame: SquareFrame) -> Place {
        match frame {
            SquareFrame::North => Place { x: 0, y: 1, z: 0 },
            SquareFrame::West => Place { x: -1, y: 0, z: 0 },
            SquareFrame::South => Place { x: 0, y: -1, z: 0 },
            SquareFrame::East => Place { x: 1, y: 0, z: 0 },
        }
    }

    fn project(place: Place) -> (i64, i64) {
        (10 * place.x, -10 * place.y)
    }

    fn carry(frame: SquareFrame, v: Vector) -> Vector {
        let Vector { x, y, z } = v;
        match frame {
            SquareFrame::North => Vector { x, y, z },
            SquareFrame::West => Vector { x: -y, y: x, z },
            SquareFrame::South => Vector { x: -x, y: -y, z },
            SquareFrame::East => Vector { x: y, y: -x, z },
        }
    }

    fn carry_extents(frame: SquareFrame, extents: Extents) -> Extents {
        let (first, second, third) = extents.spans();
        match frame {
            SquareFrame::North => Extents::of(first, second, third),
            SquareFrame::West => Extents::of(second.back(), first, third),
            SquareFrame::South => Extents::of(first.back(), second.back(), third),
            SquareFrame::East => Extents::of(second, first.back(), third),
        }
    }

    fn follow(frame: SquareFrame, inner: SquareFrame) -> SquareFrame {
        match inner {
            SquareFrame::North => frame,
            SquareFrame::West => frame.left(),
            SquareFrame::South => frame.left().left(),
            SquareFrame::East => frame.right(),
        }
    }

    fn measures(v: Vector) -> Vector {
        v
    }
}
