//! The least box around points of a picture's plane.
ghost use Rattle.std.specs.Prelude.{◌≡◌};
ghost use Rattle.lsys_spec.specs.Lattices.{projected};
ghost use Rattle.lsys_spec.specs.Pictures.{origin};
ghost use Rattle.lsys_turtle.specs.Ways.{IsReached, segment_of};
ghost use Rattle.lsys_out.specs.Boxes.{extended, extended_by, extent_at};

use lsys_lattice::{Lattice, Place};
use lsys_turtle::Segment;

/// The least box with its sides along the axes that holds some points of the plane, whose second axis points down.
#[derive(Clone, Copy)]
pub(crate) struct Extent {
    pub(crate) left: i64,
    pub(crate) right: i64,
    pub(crate) top: i64,
    pub(crate) bottom: i64,
}

impl Extent {
    /// Around the origin.
    pub(crate) fn start<T: Lattice>() -> Extent
        ensures { result ≡ extent_at (projected T.shape origin) }
    {
        let (x, y) = T::project(Place { x: 0, y: 0, z: 0 });
        Extent {
            left: x,
            right: x,
            top: y,
            bottom: y,
        }
    }

    /// With a point more.
    fn and(self, point: (i64, i64)) -> Extent
        ensures { result ≡ extended self point }
    {
        let (x, y) = point;
        Extent {
            left: self.left.min(x),
            right: self.right.max(x),
            top: self.top.min(y),
            bottom: self.bottom.max(y),
        }
    }

    /// With both ends of a segment more.
    pub(crate) fn and_segment<T: Lattice>(self, segment: &Segment) -> Extent
        requires { IsReached segment.now }
        ensures { result ≡ extended_by T.shape self (segment_of segment.now) }
    {
        self.and(T::project(segment.from))
            .and(T::project(segment.to))
    }
}
