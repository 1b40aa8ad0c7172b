//! The way down to a symbol.
ghost use Rattle.std.specs.Prelude.{◌≡◌, drop};
ghost use Rattle.lsys_lattice.specs.Effects.{first_walker};
ghost use Rattle.lsys_motion.specs.Pieces.{IsNear, IsNearTo, found};

use crate::piece::Piece;
use crate::stand::Stand;
use lsys_lattice::Lattice;

/// The stand before a symbol, counted from 0.
pub(crate) fn stand_before<T: Lattice>(pieces: &[Piece<T>], symbol: u32) -> Stand<T>
    requires { IsNearTo T.shape 0 pieces.now symbol (first_walker T.shape).here }
    ensures found { result ≡ found T.shape 0 pieces.now symbol (first_walker T.shape).here }
    ensures near { IsNear result }
{
    let mut here = Stand::start();
    let mut left = symbol;
    let mut rest = pieces;
    'down: while let Some((piece, inner)) = rest.split_first() {
        if piece.holds(left) {
            here = here.beyond(&piece.start);
            if piece.pieces == 1 {
                return here;
            }
            rest = inner;
        } else {
            left -= piece.symbols;
            rest = after(inner, piece.pieces.saturating_sub(1));
        }
    }
    here
}

/// What is after so many pieces.
fn after<T: Lattice>(pieces: &[Piece<T>], count: usize) -> &[Piece<T>]
    ensures { result.now ≡ drop count pieces.now }
{
    if count < pieces.len() {
        &pieces[count..]
    } else {
        &[]
    }
}
