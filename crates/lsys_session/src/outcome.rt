//! What became of a line.
ghost use Rattle.std.specs.Prelude.{◌≡◌};
ghost use Rattle.lsys_session.specs.Sessions.{derivation_outcome, refusal_outcome};

use lsys_rewrite::DeriveRefusal;
use lsys_rules::Refusal;

/// What became of a line.
#[derive(Clone, Copy, PartialEq, Eq, Debug)]
pub enum Outcome {
    /// It has no reply.
    Skipped,
    /// Its edit was made.
    Accepted,
    /// Its query was printed.
    Printed,
    /// It was refused, and changed nothing.
    Refused,
    /// It was refused for lack of memory, and changed nothing.
    Memory,
    /// It ended the session, and has no reply.
    Quit,
}

// Of a command that is refused by itself.
pub(crate) fn of_refusal(refusal: Refusal) -> Outcome
    ensures { result ≡ refusal_outcome refusal }
{
    match refusal {
        Refusal::Memory => Outcome::Memory,
        _ => Outcome::Refused,
    }
}

// Of an edit whose system has no levels.
pub(crate) fn of_derivation(refusal: DeriveRefusal) -> Outcome
    ensures { result ≡ derivation_outcome refusal }
{
    match refusal {
        DeriveRefusal::Memory => Outcome::Memory,
        _ => Outcome::Refused,
    }
}
