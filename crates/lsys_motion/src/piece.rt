//! Pieces of an image.
ghost use Rattle.std.specs.Prelude.{◌≡◌, nat_lt};

use crate::stand::Stand;
use lsys_lattice::Lattice;
use std::marker::Model;

/// A part of an image. The pieces that are in it stand after it.
#[derive(Drop)]
pub(crate) struct Piece<T: Lattice> {
    /// How many symbols are in it.
    pub(crate) symbols: u32,
    /// How many pieces are in it, itself among them.
    pub(crate) pieces: usize,
    /// Where a turtle stands before it, seen from where the piece around it begins.
    pub(crate) start: Stand<T>,
}

impl<T: Lattice> Model for Piece<T> {
    ghost use Rattle.lsys_motion.specs.Pieces as shapes;

    ghost Value = { shapes.ImagePiece };

    ghost view = { λ p. record { symbols = p.symbols; pieces = p.pieces; start = p.start } };
}

impl<T: Lattice> Piece<T> {
    /// Whether this symbol is in it, where its own are counted from 0.
    pub(crate) fn holds(&self, symbol: u32) -> bool
        ensures { result ≡ nat_lt symbol self.now.symbols }
    {
        symbol < self.symbols
    }
}
