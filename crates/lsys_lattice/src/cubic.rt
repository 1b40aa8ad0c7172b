//! The cubic lattice.

ghost use Rattle.std.specs.Prelude.{◌≡◌};
ghost use Rattle.lsys_spec.specs.Lattices.{cubic, turn_left};
ghost use Rattle.lsys_lattice.specs.Rotations.{carried, plus};
ghost use Rattle.lsys_lattice.specs.Directions.{along};
ghost use Rattle.lsys_lattice.specs.Wide.{IsBelow, wide_of};
ghost use Rattle.lsys_lattice.specs.CubicFrames.{cubic_frame, cubic_faithful};
ghost use Rattle.lsys_spec.proofs.Turns.{turned_back, full_turn_back};
ghost use Rattle.lsys_lattice.specs.CubicTable.{upright_known};

use crate::cubic_frame::{CubicFrame, Direction};
use crate::{Extents, Lattice, Place, Turn, Vector};

/// The cubic lattice: places with three coordinates, and 24 frames.
#[derive(Clone, Copy, PartialEq, Eq, Debug)]
pub struct Cubic;

impl CubicFrame {
    // The direction that lies in the frame as this one does in the first.
    fn direction(self, inner: Direction) -> Direction
        ensures { along result ≡ carried cubic (cubic_frame self) (along inner) }
    {
        match inner {
            Direction::North => self.heading,
            Direction::South => self.heading.opposite(),
            Direction::West => self.left,
            Direction::East => self.left.opposite(),
            Direction::Up => self.up,
            Direction::Down => self.up.opposite(),
        }
    }
}

impl Lattice for Cubic {
    type Frame = CubicFrame;

    ghost shape = { cubic };

    ghost frame_of = { cubic_frame };

    ghost inverse_back = { λ turn f. turned_back cubic turn (cubic_frame f) };

    ghost full_back = { λ f. full_turn_back cubic turn_left (cubic_frame f) };

    ghost upright = { λ f. f.upright };

    ghost known = { λ f. upright_known f.heading f.left f.up f.upright };

    ghost faithful = { cubic_faithful };

    fn full() -> u32 {
        4
    }

    fn start() -> CubicFrame {
        CubicFrame {
            heading: Direction::North,
            left: Direction::West,
            up: Direction::Up,
        }
    }

    fn turn(frame: CubicFrame, kind: Turn) -> CubicFrame {
        let CubicFrame { heading, left, up } = frame;
        match kind {
            Turn::Left => CubicFrame {
                heading: left,
                left: heading.opposite(),
                up,
            },
            Turn::Right => CubicFrame {
                heading: left.opposite(),
                left: heading,
                up,
            },
            Turn::Down => CubicFrame {
                heading: up.opposite(),
                left,
                up: heading,
            },
            Turn::Up => CubicFrame {
                heading: up,
                left,
                up: heading.opposite(),
            },
            Turn::RollLeft => CubicFrame {
                heading,
                left: up.opposite(),
                up: left,
            },
            Turn::RollRight => CubicFrame {
                heading,
                left: up,
                up: left.opposite(),
            },
            Turn::Round => CubicFrame {
                heading: heading.opposite(),
                left: left.opposite(),
                up,
            },
        }
    }

    fn heading(frame: CubicFrame) -> Place {
        frame.heading.place()
    }

    fn project(place: Place) -> (i64, i64) {
        (
            17 * (place.x - place.y),
            10 * (place.x + place.y) - 20 * place.z,
        )
    }

    fn carry(frame: CubicFrame, v: Vector) -> Vector {
        sum_of(
            frame.heading.times(v.y),
            frame.left.times(-v.x),
            frame.up.times(v.z),
        )
    }

    fn carry_extents(frame: CubicFrame, extents: Extents) -> Extents {
        let (first, second, third) = extents.spans();
        let ahead = frame.heading.share(second);
        let left = frame.left.share(first.back());
        let up = frame.up.share(third);
        Extents {
            low: sum_of(ahead.low, left.low, up.low),
            high: sum_of(ahead.high, left.high, up.high),
        }
    }

    fn follow(frame: CubicFrame, inner: CubicFrame) -> CubicFrame {
        CubicFrame {
            heading: frame.direction(inner.heading),
            left: frame.direction(inner.left),
            up: frame.direction(inner.up),
        }
    }

    fn measures(v: Vector) -> Vector {
        v
    }
}

// The sum of three vectors, whose coordinates are below 2^100 in magnitude.
fn sum_of(ahead: Vector, left: Vector, up: Vector) -> Vector
    requires ahead { IsBelow 100 (wide_of ahead) }
    requires left { IsBelow 100 (wide_of left) }
    requires up { IsBelow 100 (wide_of up) }
    ensures { wide_of result ≡ plus (plus (wide_of ahead) (wide_of left)) (wide_of up) }
{
    Vector {
        x: ahead.x + left.x + up.x,
        y: ahead.y + left.y + up.y,
        z: ahead.z + left.z + up.z,
    }
}
