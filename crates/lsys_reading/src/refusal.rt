//! Why a line is refused, and at which token.
ghost use Rattle.std.specs.Prelude.{◌≡◌};
ghost use Rattle.lsys_reading.specs.Refusals.{refusal_at};

use lsys_text::PlaceRefusal;
use std::alloc::AllocError;
use thiserror::Error;

/// Why a part of a line can't be read. Places are numbers of tokens from 0, and the number of tokens stands for the end of the line.
#[derive(Clone, Copy, PartialEq, Eq, Debug, Error)]
pub(crate) enum PartRefusal {
    /// No command begins with the tokens up to this one.
    #[error("no command goes on with token {place}")]
    Token { place: usize },
    /// As `Token`, but without the bound on nesting one does.
    #[error("token {place} nests too deep")]
    Deep { place: usize },
    /// Out of memory.
    #[error("out of memory")]
    Memory,
}

impl From<AllocError> for PartRefusal {
    ghost use Rattle.std.specs.Prelude.{◌≡◌};
    ghost use Rattle.lsys_reading.specs.declared.refusal.PartRefusal.TheVariants.{Memory};

    ghost from_gives = { λ _ e. e ≡ Memory };

    fn from(_: AllocError) -> PartRefusal {
        PartRefusal::Memory
    }
}

impl PartRefusal {
    // The same, of a part that takes no memory.
    pub(crate) fn from_place(refusal: PlaceRefusal) -> PartRefusal
        ensures { result ≡ refusal_at refusal }
    {
        match refusal {
            PlaceRefusal::Token { place } => PartRefusal::Token { place },
            PlaceRefusal::Deep { place } => PartRefusal::Deep { place },
        }
    }
}

/// Why a line is no command. Columns count bytes from 1.
#[derive(Clone, Copy, PartialEq, Eq, Debug, Error)]
pub enum ReadingRefusal {
    /// No command begins with the tokens up to the one at this column; where the line ends too early it is the
    /// column after its end.
    #[error("no command goes on at column {column}")]
    Token { column: u32 },
    /// As `Token`, but without the bound on nesting one does.
    #[error("column {column} nests too deep")]
    Deep { column: u32 },
    /// Out of memory.
    #[error("out of memory")]
    Memory,
}

impl From<AllocError> for ReadingRefusal {
    ghost use Rattle.std.specs.Prelude.{◌≡◌};
    ghost use Rattle.lsys_reading.specs.declared.refusal.ReadingRefusal.TheVariants.{Memory};

    ghost from_gives = { λ _ e. e ≡ Memory };

    fn from(_: AllocError) -> ReadingRefusal {
        ReadingRefusal::Memory
    }
}
