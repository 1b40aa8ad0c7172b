//! Why a line, or its tokens, can't be read.

use std::alloc::AllocError;
use thiserror::Error;

/// Why a list of tokens is refused. Places are numbers of tokens from 0, and the number of tokens
/// stands for the end of the line.
#[derive(Clone, Copy, PartialEq, Eq, Debug, Error)]
pub enum PlaceRefusal {
    /// Nothing that may stand here begins with the tokens up to this one.
    #[error("no sentence goes on with token {place}")]
    Token { place: usize },
    /// As `Token`, but without the bound on nesting something does.
    #[error("token {place} nests too deep")]
    Deep { place: usize },
}

/// Why a line has no tokens.
#[derive(Clone, Copy, PartialEq, Eq, Debug, Error)]
pub enum TextRefusal {
    /// The first byte that is in no token. Columns count bytes from 1.
    #[error("column {column} is in no token")]
    Byte { column: u32 },
    /// Out of memory.
    #[error("out of memory")]
    Memory,
}

impl From<AllocError> for TextRefusal {
    ghost use Rattle.std.specs.Prelude.{◌≡◌};
    ghost use Rattle.lsys_text.specs.declared.refusals.TextRefusal.{TextRefusal};

    ghost from_gives = { λ _ e. e ≡ TextRefusal.Memory };

    fn from(_: AllocError) -> TextRefusal {
        TextRefusal::Memory
    }
}
