//! Why a string can't be built.

use std::alloc::AllocError;
use thiserror::Error;

/// Why a string can't be built.
#[derive(Clone, Copy, PartialEq, Eq, Debug, Error)]
pub enum StringRefusal {
    /// The column, from 1, of the first token of a symbol or a parameter that is one too many.
    #[error("column {column} begins one too many")]
    TooMany { column: u32 },
    /// Out of memory.
    #[error("out of memory")]
    Memory,
}

impl From<AllocError> for StringRefusal {
    ghost use Rattle.std.specs.Prelude.{◌≡◌};
    ghost use Rattle.lsys_module.specs.declared.refusal.StringRefusal.{StringRefusal};

    ghost from_gives = { λ _ e. e ≡ StringRefusal.Memory };

    fn from(_: AllocError) -> StringRefusal {
        StringRefusal::Memory
    }
}
