//! Why a line is refused.

use std::alloc::AllocError;
use thiserror::Error;

/// Why a line is no command, or a command is refused. Columns count bytes from 1.
#[derive(Clone, Copy, PartialEq, Eq, Debug, Error)]
pub enum Refusal {
    /// A byte that is in no token.
    #[error("syntax byte {column}")]
    Byte { column: u32 },
    /// The line is longer than a line may be.
    #[error("syntax long")]
    LongLine,
    /// No command begins with the tokens up to this one; where the line ends too early it is the column after its end.
    #[error("syntax token {column}")]
    Token { column: u32 },
    /// As `Token`, but without the bound on nesting one does.
    #[error("syntax deep {column}")]
    Deep { column: u32 },
    /// A version that isn't or is less than the system's, or the word of a command that version 1 doesn't know.
    #[error("version {column}")]
    Version { column: u32 },
    /// A name in an expression that is no formal of its rule.
    #[error("name {column}")]
    Name { column: u32 },
    /// A formal that stands earlier in its rule.
    #[error("duplicate {column}")]
    Duplicate { column: u32 },
    /// The label of a production that has a weight where another one of its group has none, or the other way round.
    #[error("mixed {column}")]
    Mixed { column: u32 },
    /// A label that stands elsewhere, or to be dropped nowhere.
    #[error("label {column}")]
    Label { column: u32 },
    /// A word that names no table, or the label of the last rule of a table that is scheduled or has a list of its own.
    #[error("table {column}")]
    Table { column: u32 },
    /// A level past the depth.
    #[error("level {column}")]
    Level { column: u32 },
    /// The first token at which a limit is passed.
    #[error("many {column}")]
    TooMany { column: u32 },
    /// Out of memory.
    #[error("memory")]
    Memory,
}

impl From<AllocError> for Refusal {
    ghost use Rattle.std.specs.Prelude.{◌≡◌};
    ghost use Rattle.lsys_rules.specs.declared.refusal.Refusal.TheVariants.{Memory};

    ghost from_gives = { λ _ e. e ≡ Memory };

    fn from(_: AllocError) -> Refusal {
        Refusal::Memory
    }
}

impl From<lsys_reading::ReadingRefusal> for Refusal {
    ghost use Rattle.std.specs.Prelude.{◌≡◌};
    ghost use Rattle.lsys_rules.specs.Parsing.{of_reading};

    ghost from_gives = { λ e r. r ≡ of_reading e };

    fn from(refusal: lsys_reading::ReadingRefusal) -> Refusal {
        match refusal {
            lsys_reading::ReadingRefusal::Token { column } => Refusal::Token { column },
            lsys_reading::ReadingRefusal::Deep { column } => Refusal::Deep { column },
            lsys_reading::ReadingRefusal::Memory => Refusal::Memory,
        }
    }
}
