//! The places of a line's tokens.
ghost use Rattle.std.specs.Prelude.{◌≡◌, MatchOption};
ghost use Rattle.lsys_reading.specs.Tokens.{size, column_in, HasTokenAt, EndsBy};
ghost use Rattle.lsys_reading.specs.Refusals.{refusal_in};

use crate::line_tokens::LineTokens;
use crate::refusal::{PartRefusal, ReadingRefusal};
use lsys_text::Token;

impl LineTokens {
    // The token at a place.
    pub(crate) fn at(&self, place: usize) -> Option<&Token>
        ensures { MatchOption result (EndsBy self.now place) (λ t. HasTokenAt self.now place t.now.kind) }
    {
        self.tokens.get(place)
    }

    // How many there are.
    pub(crate) fn len(&self) -> usize
        ensures { result ≡ size self.now }
    {
        self.tokens.len()
    }

    // The column of the token at a place, from 1, or of the line's end.
    fn column(&self, place: usize) -> u32
        ensures { result ≡ column_in self.now place }
    {
        match self.tokens.get(place) {
            Some(token) => token.start + 1,
            None => self.bytes + 1,
        }
    }

    // The same refusal by its column.
    pub(crate) fn refusal(&self, refusal: PartRefusal) -> ReadingRefusal
        ensures { result ≡ refusal_in (column_in self.now) refusal }
    {
        match refusal {
            PartRefusal::Token { place } => ReadingRefusal::Token {
                column: self.column(place),
            },
            PartRefusal::Deep { place } => ReadingRefusal::Deep {
                column: self.column(place),
            },
            PartRefusal::Memory => ReadingRefusal::Memory,
        }
    }
}
