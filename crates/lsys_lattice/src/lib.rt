//! Lattices: the frames in which a turtle stands, its turns and headings, and the projection of places. Laws of what strings do to
//! turtles on them: `effects` of strings and of their parts, and `motions`, by which the turtle anywhere in a picture is told.
//!
//! A frame can hold nothing but a frame that turns lead to: 4 on the square, 6 on the hexagonal and 24 on the cubic
//! lattice.
#![tactic(auto)]

ghost use Rattle.std.specs.Prelude.{◌≡◌, Contains};
ghost use Rattle.lsys_spec.specs.Lattices.{Frame, frames, IsUpright, first_frame, full_turn, inverse, projected, times, turn_by, turned, IsWithin, turn_left};
ghost use Rattle.lsys_spec.specs.Lattices.{Lattice as Kind};
ghost use Rattle.lsys_spec.specs.Lattices.{Turn as SpecTurn};
ghost use Rattle.lsys_lattice.specs.Extents.{AreCarried};
ghost use Rattle.lsys_lattice.specs.Rotations.{carried, frame_within, measures};
ghost use Rattle.lsys_lattice.specs.Views.{turn_of, vector_of};
ghost use Rattle.lsys_lattice.specs.Wide.{AreBelow, IsBelow, extents_of, wide_of};

mod cubic;
mod cubic_frame;
mod effects;
mod hexagonal;
mod motions;
mod square;
mod wide;

pub use cubic::Cubic;
pub use cubic_frame::CubicFrame;
pub use effects::{
    law_of_bounds, law_of_carrying, law_of_effects, law_of_following, law_of_free_turtles,
    law_of_nodes, law_of_parts,
};
pub use hexagonal::{Hexagonal, HexagonalFrame};
pub use motions::{
    law_of_carried_extents, law_of_courses, law_of_descendants, law_of_far_modules, law_of_fronts,
    law_of_image_parts, law_of_motions, law_of_strides,
};
pub use square::{Square, SquareFrame};
pub use wide::{Extents, Vector};

/// A place or a direction, by its coordinates. On the hexagonal lattice `x` and `y` are the axial coordinates q and r.
#[derive(Clone, Copy, PartialEq, Eq, Debug)]
pub struct Place {
    pub x: i64,
    pub y: i64,
    pub z: i64,
}

/// A turn of a turtle.
#[derive(Clone, Copy, PartialEq, Eq, Debug)]
pub enum Turn {
    Left,
    Right,
    Down,
    Up,
    RollLeft,
    RollRight,
    Round,
}

impl Turn {
    /// The turn that gives the frame back.
    pub fn inverse(self) -> Turn
        ensures { turn_of result ≡ inverse (turn_of self) }
    {
        match self {
            Turn::Left => Turn::Right,
            Turn::Right => Turn::Left,
            Turn::Down => Turn::Up,
            Turn::Up => Turn::Down,
            Turn::RollLeft => Turn::RollRight,
            Turn::RollRight => Turn::RollLeft,
            Turn::Round => Turn::Round,
        }
    }
}

/// A lattice on which a turtle moves.
pub trait Lattice {
    /// Where a turtle heads, and what is on its left and above it.
    type Frame: Copy;

    // the lattice that is meant
    ghost shape: { Kind };

    // a frame as three directions
    ghost frame_of: { Self.Frame → Frame };

    /// How many left turns lead all the way round.
    fn full() -> u32
        ensures { result ≡ full_turn shape };

    /// The frame in which a turtle starts.
    fn start() -> Self::Frame
        ensures { frame_of result ≡ first_frame shape };

    /// The frame after one turn. Pitch and roll do nothing on the flat lattices.
    fn turn(frame: Self::Frame, kind: Turn) -> Self::Frame
        ensures { frame_of result ≡ turned shape (turn_of kind) (frame_of frame) };

    /// The direction in which a turtle moves.
    fn heading(frame: Self::Frame) -> Place
        ensures { vector_of result ≡ (frame_of frame).heading };

    /// A place in the plane of a picture, whose second axis points down.
    ///
    /// The coordinates are at most 1,000,000,000 in magnitude.
    fn project(place: Place) -> (i64, i64)
        requires { IsWithin 1000000000 (vector_of place) }
        ensures { result ≡ projected shape (vector_of place) };

    /// The vector that lies in this frame as `v` does in the first one: the rotation that takes the first frame to this one.
    ///
    /// The coordinates of `v` are below 2^100 in magnitude.
    fn carry(frame: Self::Frame, v: Vector) -> Vector
        requires { IsBelow 100 (wide_of v) }
        ensures { wide_of result ≡ carried shape (frame_of frame) (wide_of v) };

    /// The extents of places that the frame has carried, by the extents of the places.
    ///
    /// The six values are below 2^100 in magnitude.
    fn carry_extents(frame: Self::Frame, extents: Extents) -> Extents
        requires { AreBelow 100 (extents_of extents) }
        ensures { AreCarried shape (frame_of frame) (extents_of extents) (extents_of result) };

    /// The frame that lies in this one as `inner` does in the first one: it is reached from here by the turns that lead from the
    /// first frame to `inner`.
    fn follow(frame: Self::Frame, inner: Self::Frame) -> Self::Frame
        ensures { frame_of result ≡ frame_within shape (frame_of frame) (frame_of inner) };

    /// What is measured of a place: x, y and z on the square and the cubic lattice, and q, r and q + r on the hexagonal one.
    ///
    /// The coordinates of `v` are below 2^99 in magnitude.
    fn measures(v: Vector) -> Vector
        requires { IsBelow 99 (wide_of v) }
        ensures { wide_of result ≡ measures shape (wide_of v) };

    // a turn and its inverse give the frame back
    ghost inverse_back: { (turn : SpecTurn) (f : Self.Frame)
        → turned shape (inverse turn) (turned shape turn (frame_of f)) ≡ frame_of f };

    // a full turn gives the frame back
    ghost full_back: { (f : Self.Frame) → times (full_turn shape) (turned shape turn_left) (frame_of f) ≡ frame_of f };

    // what is above is the product of the heading and what is on the left
    ghost upright: { (f : Self.Frame) → IsUpright (frame_of f) };

    // a frame is one to which turns lead from the first
    ghost known: { (f : Self.Frame) → Contains (frames shape) (frame_of f) };

    // no two frames have the same directions
    ghost faithful: { (f g : Self.Frame) → frame_of f ≡ frame_of g → f ≡ g };
}

/// The frame after a turn by `count`, which is taken modulo the full turn, with a remainder from 0 up.
pub fn turn_by<T: Lattice>(frame: T::Frame, kind: Turn, count: i64) -> T::Frame
    ensures { T.frame_of result ≡ turn_by T.shape (turn_of kind) count (T.frame_of frame) }
{
    let turns = count.rem_euclid(i64::from(T::full())) as u32;
    let mut turned = frame;
    for _done in 0..turns {
        turned = T::turn(turned, kind);
    }
    turned
}
