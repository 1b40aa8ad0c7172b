//! Why a module has no successor, and why a system has no levels up to its depth.

ghost use Rattle.std.specs.Prelude.{◌≡◌};
ghost use Rattle.lsys_spec.specs.Refusals.{fault_word};
ghost use Rattle.lsys_rewrite.specs.Faults.{fault_of};

use lsys_expr::Arith;
use std::alloc::{AllocError, AllocFailed};
use std::convert::From;
use thiserror::Error;

/// Why a module can't be replaced.
#[derive(Clone, Copy, PartialEq, Eq, Debug, Error)]
pub enum FaultKind {
    /// A result is no `i64`.
    #[error("overflow")]
    Overflow,
    /// A division by zero, or a remainder of one.
    #[error("division by zero")]
    DivideByZero,
    /// A power whose exponent is negative.
    #[error("negative power")]
    NegativePower,
    /// The weight of a rule that applies is negative.
    #[error("negative weight")]
    NegativeWeight,
    /// The weights of the rules that apply sum to more than `i64::MAX`.
    #[error("weights over the limit")]
    WeightTotal,
    /// More is read for it than may be read for one module.
    #[error("too far")]
    TooFar,
}

impl FaultKind {
    /// The word for it in a reply.
    pub fn word(&self) -> &'static str
        ensures { result.now ≡ fault_word (fault_of self.now) }
    {
        match self {
            FaultKind::Overflow => "overflow",
            FaultKind::DivideByZero => "divide-by-zero",
            FaultKind::NegativePower => "negative-power",
            FaultKind::NegativeWeight => "negative-weight",
            FaultKind::WeightTotal => "weight-total",
            FaultKind::TooFar => "too-far",
        }
    }
}

impl From<Arith> for FaultKind {
    ghost use Rattle.std.specs.Prelude.{◌≡◌};
    ghost use Rattle.lsys_spec.specs.Choice.{Arithmetic};
    ghost use Rattle.lsys_expr.specs.Answers.{arith_of};
    ghost use Rattle.lsys_rewrite.specs.Faults.{fault_of};

    ghost from_gives = { λ e k. fault_of k ≡ Arithmetic (arith_of e) };

    fn from(fault: Arith) -> FaultKind {
        match fault {
            Arith::Overflow => FaultKind::Overflow,
            Arith::DivideByZero => FaultKind::DivideByZero,
            Arith::NegativePower => FaultKind::NegativePower,
        }
    }
}

/// Why a successor isn't filled.
#[derive(Clone, Copy, PartialEq, Eq, Debug, Error)]
pub enum FillRefusal {
    /// The first fault of a parameter.
    #[error("{0}")]
    Arith(Arith),
    /// Out of memory.
    #[error("out of memory")]
    Memory,
}

impl From<Arith> for FillRefusal {
    ghost use Rattle.std.specs.Prelude.{◌≡◌};
    ghost use Rattle.lsys_rewrite.specs.declared.refusal.FillRefusal.TheVariants.{Arith};

    ghost from_gives = { λ e r. r ≡ Arith e };

    fn from(fault: Arith) -> FillRefusal {
        FillRefusal::Arith(fault)
    }
}

impl From<AllocError> for FillRefusal {
    ghost use Rattle.std.specs.Prelude.{◌≡◌};
    ghost use Rattle.lsys_rewrite.specs.declared.refusal.FillRefusal.TheVariants.{Memory};

    ghost from_gives = { λ _ r. r ≡ Memory };

    fn from(_: AllocError) -> FillRefusal {
        FillRefusal::Memory
    }
}

/// Why a derivation is refused.
#[derive(Clone, Copy, PartialEq, Eq, Debug, Error)]
pub enum DeriveRefusal {
    /// A module of this level can't be replaced. Of these it is the leftmost; its number counts the
    /// level's modules from 1.
    #[error("{kind} at module {module} of level {level}")]
    Fault {
        kind: FaultKind,
        level: u32,
        module: u32,
    },
    /// The lengths of the levels up to this one sum to more than the limit.
    #[error("the levels up to level {level} are over the limit")]
    Limit {
        level: u32,
    },
    /// Out of memory.
    #[error("out of memory")]
    Memory,
}

impl From<AllocError> for DeriveRefusal {
    ghost use Rattle.std.specs.Prelude.{◌≡◌};
    ghost use Rattle.lsys_rewrite.specs.declared.refusal.DeriveRefusal.TheVariants.{Memory};

    ghost from_gives = { λ _ e. e ≡ Memory };

    fn from(_: AllocError) -> DeriveRefusal {
        DeriveRefusal::Memory
    }
}
