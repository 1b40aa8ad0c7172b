//! The hexagonal lattice.

ghost use Rattle.std.specs.Prelude.{◌≡◌};
ghost use Rattle.lsys_spec.specs.Lattices.{hexagonal, turn_left, all_turned, sixth_left, sixth_right};
ghost use Rattle.lsys_spec.proofs.Turns.{turned_back, full_turn_back};
ghost use Rattle.lsys_lattice.specs.FlatFrames.{hexagonal_frame, hexagonal_upright, hexagonal_known, hexagonal_faithful};

use crate::{Extents, Lattice, Place, Turn, Vector};

/// The hexagonal lattice: places with two axial coordinates, and six headings.
#[derive(Clone, Copy, PartialEq, Eq, Debug)]
pub struct Hexagonal;

/// A heading on the hexagonal lattice.
#[derive(Clone, Copy, PartialEq, Eq, Debug)]
pub enum HexagonalFrame {
    East,
    NorthEast,
    NorthWest,
    West,
    SouthWest,
    SouthEast,
}

impl HexagonalFrame {
    fn left(self) -> HexagonalFrame
        ensures { hexagonal_frame result ≡ all_turned sixth_left (hexagonal_frame self) }
    {
        match self {
            HexagonalFrame::East => HexagonalFrame::NorthEast,
            HexagonalFrame::NorthEast => HexagonalFrame::NorthWest,
            HexagonalFrame::NorthWest => HexagonalFrame::West,
            HexagonalFrame::West => HexagonalFrame::SouthWest,
            HexagonalFrame::SouthWest => HexagonalFrame::SouthEast,
            HexagonalFrame::SouthEast => HexagonalFrame::East,
        }
    }

    fn right(self) -> HexagonalFrame
        ensures { hexagonal_frame result ≡ all_turned sixth_right (hexagonal_frame self) }
    {
        match self {
            HexagonalFrame::East => HexagonalFrame::SouthEast,
            HexagonalFrame::SouthEast => HexagonalFrame::SouthWest,
            HexagonalFrame::SouthWest => HexagonalFrame::West,
            HexagonalFrame::West => HexagonalFrame::NorthWest,
            HexagonalFrame::NorthWest => HexagonalFrame::NorthEast,
            HexagonalFrame::NorthEast => HexagonalFrame::East,
        }
    }
}

impl Lattice for Hexagonal {
    type Frame = HexagonalFrame;

    ghost shape = { hexagonal };

    ghost frame_of = { hexagonal_frame };

    ghost inverse_back = { λ turn f. turned_back hexagonal turn (hexagonal_frame f) };

    ghost full_back = { λ f. full_turn_back hexagonal turn_left (hexagonal_frame f) };

    ghost upright = { hexagonal_upright };

    ghost known = { hexagonal_known };

    ghost faithful = { hexagonal_faithful };

    fn full() -> u32 {
        6
    }

    fn start() -> HexagonalFrame {
        HexagonalFrame::East
    }

    fn turn(frame: HexagonalFrame, kind: Turn) -> HexagonalFrame {
        match kind {
            Turn::Left => frame.left(),
            Turn::Right => frame.right(),
            Turn::Round => frame.left().left().left(),
            Turn::Down | Turn::Up | Turn::RollLeft | Turn::RollRight => frame,
        }
    }

    fn heading(frame: HexagonalFrame) -> Place {
        match frame {
            HexagonalFrame::East => Place { x: 1, y: 0, z: 0 },
            HexagonalFrame::NorthEast => Place { x: 0, y: 1, z: 0 },
            HexagonalFrame::NorthWest => Place { x: -1, y: 1, z: 0 },
            HexagonalFrame::West => Place { x: -1, y: 0, z: 0 },
            HexagonalFrame::SouthWest => Place { x: 0, y: -1, z: 0 },
            HexagonalFrame::SouthEast => Place { x: 1, y: -1, z: 0 },
        }
    }

    fn project(place: Place) -> (i64, i64) {
        (20 * place.x + 10 * place.y, -17 * place.y)
    }

    fn carry(frame: HexagonalFrame, v: Vector) -> Vector {
        let Vector { x: q, y: r, z } = v;
        match frame {
            HexagonalFrame::East => Vector { x: q, y: r, z },
            HexagonalFrame::NorthEast => Vector { x: -r, y: q + r, z },
            HexagonalFrame::NorthWest => Vector { x: -q - r, y: q, z },
            HexagonalFrame::West => Vector { x: -q, y: -r, z },
            HexagonalFrame::SouthWest => Vector { x: r, y: -q - r, z },
            HexagonalFrame::SouthEast => Vector { x: q + r, y: -q, z },
        }
    }

    fn carry_extents(frame: HexagonalFrame, extents: Extents) -> Extents {
        let (first, second, third) = extents.spans();
        match frame {
            HexagonalFrame::East => Extents::of(first, second, third),
            HexagonalFrame::NorthEast => Extents::of(second.back(), third, first),
            HexagonalFrame::NorthWest => Extents::of(third.back(), first, second.back()),
            HexagonalFrame::West => Extents::of(first.back(), second.back(), third.back()),
            HexagonalFrame::SouthWest => Extents::of(second, third.back(), first.back()),
            HexagonalFrame::SouthEast => Extents::of(third, first.back(), second),
        }
    }

    fn follow(frame: HexagonalFrame, inner: HexagonalFrame) -> HexagonalFrame {
        match inner {
            HexagonalFrame::East => frame,
            HexagonalFrame::NorthEast => frame.left(),
            HexagonalFrame::NorthWest => frame.left().left(),
            HexagonalFrame::West => frame.left().left().left(),
            HexagonalFrame::SouthWest => frame.right().right(),
            HexagonalFrame::SouthEast => frame.right(),
        }
    }

    fn measures(v: Vector) -> Vector {
        Vector { z: v.x + v.y, ..v }
    }
}
