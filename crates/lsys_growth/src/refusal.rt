//! Why a growth isn't told.

use std::alloc::AllocError;
use std::convert::From;
use thiserror::Error;

/// Why a growth isn't told.
#[derive(Clone, Copy, PartialEq, Eq, Debug, Error)]
pub enum GrowthRefusal {
    /// A production has a context, a formal, a condition or a weight, or the axiom or a successor has a `%` or a parameter.
    #[error("the modules of a letter are not rewritten alike")]
    Class,
    /// There are more than 63 letters.
    #[error("too many letters")]
    Letters,
    /// The length of the level is past 128 bits.
    #[error("overflow")]
    Overflow,
    /// Out of memory.
    #[error("out of memory")]
    Memory,
}

impl From<AllocError> for GrowthRefusal {
    ghost use Rattle.std.specs.Prelude.{◌≡◌};
    ghost use Rattle.lsys_growth.specs.declared.refusal.GrowthRefusal.TheVariants.{Memory};

    ghost from_gives = { λ _ e. e ≡ Memory };

    fn from(_: AllocError) -> GrowthRefusal {
        GrowthRefusal::Memory
    }
}
