//! How symbols are printed, whatever their parameters are.
ghost use Rattle.std.specs.Prelude.{◌≡◌};
ghost use Rattle.lsys_syntax.specs.Pieces.{text_of};
ghost use Rattle.lsys_io.specs.Putting.{Puts};
ghost use Rattle.lsys_module.specs.Shapes.{NotationOf, symbol_in};

use lsys_io::{Buffered, Failed, Sink};
use lsys_text::Name;

/// A symbol as it is printed, with parameters of any type.
pub enum Shape<'a, P> {
    /// `[`, which begins a branch.
    Push,
    /// `]`, which ends one.
    Pop,
    /// `%`, which cuts the rest of its branch off.
    Cut,
    /// A module: its name, and its parameters.
    Module(Name, &'a [P]),
}

/// How symbols of a type are printed: each has a shape, and its parameters are put one by one.
pub trait Notation<S, P> {
    ghost Written: { Type 0 };

    ghost way: { NotationOf S P Written };

    /// What the symbol looks like.
    fn shape(of: &S) -> Shape<'_, P>
        ensures { symbol_in way.param result ≡ way.symbol of.now };

    /// Puts a parameter.
    ///
    /// # Errors
    ///
    /// The sink failed; a front of what was held and of the parameter was written then.
    fn put_param<K: Sink>(out: &mut Buffered, sink: &mut K, of: &P) -> Result<(), Failed>
        ensures { Puts K.Sink sink out (text_of (way.print (way.param of.now))) result };
}
