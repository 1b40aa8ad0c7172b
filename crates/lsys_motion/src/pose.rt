//! Where a turtle of a picture stands.

use lsys_lattice::{Lattice, Place};
use std::marker::Model;

/// Where a turtle stands, how it is turned, and how wide it draws. Each coordinate of the place is
/// at most 1,000,000,000 in magnitude.
#[derive(Drop)]
pub struct Pose<T: Lattice> {
    pub place: Place,
    pub frame: T::Frame,
    pub width: u32,
}

impl<T: Lattice> Model for Pose<T> {
    ghost use Rattle.lsys_syntax.specs.Limits.{greatest_coordinate};
    ghost use Rattle.lsys_spec.specs.Lattices.{IsWithin};
    ghost use Rattle.lsys_spec.specs.Pictures as P;
    ghost use Rattle.lsys_lattice.specs.Views.{vector_of};

    ghost Value = { P.Pose };

    ghost view = { λ p. record {
      place = vector_of p.place;
      frame = T.frame_of p.frame;
      width = p.width;
    } };

    ghost invariant = { λ p. IsWithin greatest_coordinate (vector_of p.place) };
}
