//! Why a question has no answer.

use lsys_rewrite::{FaultKind, FillRefusal};
use std::alloc::AllocError;
use std::convert::From;
use thiserror::Error;

/// Why a question has no answer.
#[derive(Clone, Copy, PartialEq, Eq, Debug, Error)]
pub enum AskRefusal {
    /// The module can't be replaced.
    #[error("{kind}")]
    Fault { kind: FaultKind },
    /// Out of memory.
    #[error("out of memory")]
    Memory,
}

impl From<FaultKind> for AskRefusal {
    ghost use Rattle.std.specs.Prelude.{◌≡◌};
    ghost use Rattle.lsys_match.specs.declared.refusal.AskRefusal.TheVariants.{Fault};

    ghost from_gives = { λ k r. r ≡ Fault k };

    fn from(kind: FaultKind) -> AskRefusal {
        AskRefusal::Fault { kind }
    }
}

impl From<FillRefusal> for AskRefusal {
    ghost use Rattle.std.specs.Prelude.{◌≡◌};
    ghost use Rattle.lsys_match.specs.Refusals.{fill_refusal_by, refusal_by};

    ghost from_gives = { λ e r. refusal_by r ≡ fill_refusal_by e };

    fn from(refusal: FillRefusal) -> AskRefusal {
        match refusal {
            FillRefusal::Arith(fault) => AskRefusal::from(FaultKind::from(fault)),
            FillRefusal::Memory => AskRefusal::Memory,
        }
    }
}

impl From<AllocError> for AskRefusal {
    ghost use Rattle.std.specs.Prelude.{◌≡◌};
    ghost use Rattle.lsys_match.specs.declared.refusal.AskRefusal.TheVariants.{Memory};

    ghost from_gives = { λ _ r. r ≡ Memory };

    fn from(_: AllocError) -> AskRefusal {
        AskRefusal::Memory
    }
}
