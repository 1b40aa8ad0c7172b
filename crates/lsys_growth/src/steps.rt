//! A counter of products.

ghost use Rattle.std.specs.Prelude.{◌≡◌, ℕ, ◌+◌, ◌<◌};

use std::marker::Model;
use std::sync::ledger::{Blank, Book, Ledger, Share};

/// A count of products that is kept on a ledger, of which there is one counter. A product of two matrices
/// ([`multiply`](crate::multiply)) moves it by one, and so does that of a row and a matrix; nothing else moves it.
#[derive(Drop)]
pub struct Steps<P: Ledger> {
    book: Book<P>,
    share: Share<P>,
}

impl<P: Ledger> Model for Steps<P> {
    ghost Value = { ℕ };

    ghost view = { λ s. s.book.total };

    ghost invariant = { λ s. 0 < s.share.parts };
}

impl<P: Ledger> Steps<P> {
    /// Opens the counter of a ledger that has none, at 0.
    pub fn open(blank: Blank) -> Steps<P>
        requires name { blank.name ≡ P.name }
        requires parts { blank.parts ≡ P.parts }
        requires some { 0 < blank.parts }
        ensures { result ≡ 0 }
    {
        let (book, share) = blank.open::<P>();
        Steps { book, share }
    }

    pub(crate) fn tick(&mut self)
        ensures { self.new ≡ self.old + 1 }
    {
        self.book.add(&mut self.share, 1);
    }
}
