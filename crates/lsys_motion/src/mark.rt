//! What is open while an image is taken.

use crate::stand::Stand;
use lsys_lattice::Lattice;
use std::marker::Model;

/// A branch, or a piece, that is open.
#[derive(Drop)]
pub(crate) struct OpenPiece<T: Lattice> {
    /// The number of the piece; None of a branch.
    pub(crate) piece: Option<usize>,
    /// How many symbols stand before the piece.
    pub(crate) before: u32,
    /// Where a turtle stands before it, seen from where the piece around it begins.
    pub(crate) stand: Stand<T>,
}

impl<T: Lattice> Model for OpenPiece<T> {
    ghost use Rattle.lsys_motion.specs.Keepers as keepers;

    ghost Value = { keepers.OpenMark };

    ghost view = { λ m. record { piece = m.piece; before = m.before; stand = m.stand } };
}
