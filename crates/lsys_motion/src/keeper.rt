//! An image is taken symbol by symbol, and its pieces are kept.
ghost use Rattle.std.specs.Prelude.{◌≡◌, ◌<◌, ◌∷◌, [], IfOk, IsTrue, false, length, Contains};
ghost use Rattle.lsys_spec.specs.Lattices.{frames};
ghost use Rattle.lsys_module.specs.Views.{module_name, symbol_of};
ghost use Rattle.lsys_hom.specs.Parts.{IsSoundPart, symbols_of};
ghost use Rattle.lsys_motion.specs.Keepers.{CanEndPiece, EndsPiece, HasNext, HasSome, IsClear, StaysSmall, KeepsTaken, Takes, module_done, begun, branch_begun, empty, has_piece, noted, branch_ended};

use crate::mark::OpenPiece;
use crate::piece::Piece;
use crate::stand::Stand;
use lsys_hom::Part;
use lsys_lattice::Lattice;
use lsys_module::{Module, Symbol};
use lsys_turtle::Act;
use std::alloc::{AllocError, Global};
use std::marker::Model;

/// What is kept of the symbols so far.
#[derive(Drop)]
pub(crate) struct Keeper<T: Lattice> {
    pieces: Vec<Piece<T>>,
    marks: Vec<OpenPiece<T>>,
    here: Stand<T>,
    symbols: u32,
}

impl<T: Lattice> Model for Keeper<T> {
    ghost use Rattle.std.specs.Prelude.{reverse};
    ghost use Rattle.lsys_motion.specs.Keepers as keepers;

    ghost Value = { keepers.Keeper };

    ghost view = { λ k. record {
      pieces = k.pieces.items;
      marks = reverse k.marks.items;
      here = k.here;
      symbols = k.symbols;
    } };
}

impl<T: Lattice> Keeper<T> {
    /// Of no symbol.
    pub(crate) fn new(alloc: Global) -> Keeper<T>
        ensures { result ≡ empty T.shape }
    {
        Keeper {
            pieces: Vec::new(alloc),
            marks: Vec::new(alloc),
            here: Stand::start(),
            symbols: 0,
        }
    }

    /// A symbol begins here.
    fn note(&mut self) -> Result<(), AllocError>
        requires { self.old.symbols < u32.MAX }
        ensures { IfOk result (λ _. self.new ≡ noted self.old) }
    {
        let start = self.here.again();
        self.pieces.push(Piece {
            symbols: 1,
            pieces: 1,
            start,
        })?;
        self.symbols += 1;
        Ok(())
    }

    /// A piece begins here.
    fn begin(&mut self) -> Result<(), AllocError>
        ensures begun { IfOk result (λ _. self.new ≡ begun T.shape self.old) }
        ensures known { Contains (frames T.shape) self.old.here.frame }
    {
        let mark = OpenPiece {
            piece: Some(self.pieces.len()),
            before: self.symbols,
            stand: self.here.again(),
        };
        self.marks.push(mark)?;
        let start = self.here.again();
        self.pieces.push(Piece {
            symbols: 0,
            pieces: 1,
            start,
        })?;
        self.here = Stand::start();
        Ok(())
    }

    /// A branch begins here.
    fn branch(&mut self) -> Result<(), AllocError>
        ensures branched { IfOk result (λ _. self.new ≡ branch_begun self.old) }
        ensures known { Contains (frames T.shape) self.old.here.frame }
    {
        let mark = OpenPiece {
            piece: None,
            before: 0,
            stand: self.here.again(),
        };
        self.marks.push(mark)?;
        Ok(())
    }

    /// After a module.
    fn act(&mut self, symbol: &Module)
        requires { StaysSmall T.shape symbol.now self.old }
        ensures { self.new
            ≡ module_done T.shape (module_name symbol.now.name) symbol.now.params self.old }
    {
        self.here = self.here.done(Act::of(symbol));
    }

    /// After a branch, if one is open; no piece is open last.
    fn restore(&mut self)
        requires { has_piece 0 self.old.marks ≡ false }
        ensures { self.new ≡ branch_ended self.old.marks self.old }
    {
        if let Some(mark) = self.marks.pop() {
            self.here = mark.stand;
        }
    }

    /// How many branches and pieces are open.
    pub(crate) fn depth(&self) -> usize {
        self.marks.len()
    }

    /// Whether more than so many are open, and the last of them is a piece.
    fn is_in_piece(&self, depth: usize) -> bool
        ensures { result ≡ has_piece depth self.now.marks }
    {
        match self.marks.last() {
            None => false,
            Some(mark) => self.marks.len() > depth && mark.piece.is_some(),
        }
    }

    /// The piece that is open last ends.
    fn end(&mut self)
        requires { CanEndPiece T.shape self.old }
        ensures { EndsPiece T.shape self.old self.new }
    {
        let Some(mark) = self.marks.pop() else {
            unreachable!()
        };
        let Some(piece) = mark.piece else {
            unreachable!()
        };
        self.pieces[piece] = Piece {
            symbols: self.symbols - mark.before,
            pieces: self.pieces.len() - piece,
            start: mark.stand.again(),
        };
        self.here = mark.stand.beyond(&self.here);
    }

    /// Pieces end as long as more than so many are open, and the last of them is a piece.
    pub(crate) fn end_pieces(&mut self, depth: usize)
        requires busy { HasNext T.shape [] self.old }
        ensures keeps { Takes T.shape [] self.old self.new }
        ensures clear { has_piece depth self.new.marks ≡ false }
    {
        'pieces: while self.is_in_piece(depth) {
            self.end();
        }
    }

    /// Takes one symbol. At `]` no piece is open last.
    fn take(&mut self, symbol: &Symbol) -> Result<(), AllocError>
        requires busy { HasNext T.shape (symbol_of symbol.now ∷ []) self.old }
        requires clear { IsClear (symbol_of symbol.now) self.old.marks }
        ensures { IfOk result (λ _. Takes T.shape (symbol_of symbol.now ∷ []) self.old self.new) }
    {
        self.note()?;
        match symbol {
            Symbol::Push => {
                self.branch()?;
                Ok(())
            }
            Symbol::Pop => {
                self.restore();
                Ok(())
            }
            Symbol::Cut => Ok(()),
            Symbol::Module(module) => {
                self.act(module);
                Ok(())
            }
        }
    }

    /// Takes one symbol. A `]` ends the pieces that are in its branch.
    fn follow(&mut self, symbol: &Symbol) -> Result<(), AllocError>
        requires { HasNext T.shape (symbol_of symbol.now ∷ []) self.old }
        ensures { IfOk result (λ _. Takes T.shape (symbol_of symbol.now ∷ []) self.old self.new) }
    {
        match symbol {
            Symbol::Pop => {
                self.end_pieces(0);
                self.take(symbol)
            }
            _ => self.take(symbol),
        }
    }

    /// Takes all symbols of a part of the image.
    fn take_all(&mut self, part: &mut Part<'_>) -> Result<(), AllocError>
        requires sound { IsSoundPart part.old }
        requires busy { HasNext T.shape (symbols_of part.old) self.old }
        ensures { IfOk result (λ _. Takes T.shape (symbols_of part.old) self.old self.new) }
    {
        'symbols: while let Some(symbol) = part.next() {
            self.follow(&symbol)?;
        }
        Ok(())
    }

    /// A piece begins here, where one is wanted.
    pub(crate) fn begin_where(&mut self, wanted: bool) -> Result<(), AllocError>
        ensures { IfOk result (λ _. Takes T.shape [] self.old self.new) }
    {
        if wanted { self.begin() } else { Ok(()) }
    }

    /// Pieces end, where one was wanted.
    pub(crate) fn end_where(&mut self, wanted: bool, depth: usize)
        requires { HasNext T.shape [] self.old }
        ensures { Takes T.shape [] self.old self.new }
    {
        if wanted {
            self.end_pieces(depth);
        }
    }

    /// Pieces end and another begins, where a next one is wanted.
    pub(crate) fn next_where(&mut self, wanted: bool, depth: usize) -> Result<(), AllocError>
        requires { HasNext T.shape [] self.old }
        ensures { IfOk result (λ _. Takes T.shape [] self.old self.new) }
    {
        self.end_where(wanted, depth);
        self.begin_where(wanted)
    }

    /// Takes the image of one symbol of the level: a piece, if it isn't one symbol.
    pub(crate) fn take_part(&mut self, part: &mut Part<'_>) -> Result<(), AllocError>
        requires sound { IsSoundPart part.old }
        requires busy { HasNext T.shape (symbols_of part.old) self.old }
        ensures { IfOk result (λ _. Takes T.shape (symbols_of part.old) self.old self.new) }
    {
        let wanted = part.len() > 1;
        let depth = self.depth();
        self.begin_where(wanted)?;
        self.take_all(part)?;
        self.end_where(wanted, depth);
        Ok(())
    }

    /// The last that is open ends; tells whether anything was open.
    fn end_last(&mut self) -> bool
        requires { HasSome T.shape self.old }
        ensures taken { KeepsTaken T.shape self.old self.new }
        ensures none { result ≡ false → self.new.marks ≡ [] }
        ensures fewer { IsTrue result → length self.new.marks < length self.old.marks }
    {
        if self.is_in_piece(0) {
            self.end();
            return true;
        }
        self.marks.pop().is_some()
    }

    /// All that is open ends.
    pub(crate) fn finish(&mut self)
        requires { HasSome T.shape self.old }
        ensures taken { KeepsTaken T.shape self.old self.new }
        ensures none { self.new.marks ≡ [] }
    {
        'open: while self.end_last() {}
    }

    /// The pieces, how many symbols there are, and where the turtle stands.
    pub(crate) fn into_parts(self) -> (Vec<Piece<T>>, u32, Stand<T>)
        ensures pieces { result.0.items ≡ self.pieces }
        ensures symbols { result.1 ≡ self.symbols }
        ensures here { result.2 ≡ self.here }
    {
        let Keeper {
            pieces,
            marks: _,
            here,
            symbols,
        } = self;
        (pieces, symbols, here)
    }
}
