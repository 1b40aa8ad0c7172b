//! Constants of expressions.
ghost use Rattle.std.specs.Prelude.{◌≡◌, ◌<◌, ◌^◌, pos};

use std::marker::Model;

/// A number that an expression may spell: less than 2^63.
#[derive(Clone, Copy)]
pub(crate) struct Constant(u64);

impl Model for Constant {
    ghost use Rattle.std.specs.Prelude.{ℕ, ◌<◌, ◌^◌};
    ghost use Rattle.std.proofs.Common.{refl};

    ghost Value = { ℕ };

    ghost view = { λ a. a.0 };

    ghost invariant = { λ a. a.0 < 2 ^ 63 };

    ghost inverse = { λ n. record { 0 = n } };

    ghost inverse_ok = { λ a h. refl };
}

impl Constant {
    /// A number as a constant.
    pub(crate) fn new(number: u64) -> Constant
        requires { number < 2 ^ 63 }
        ensures { result ≡ number }
    {
        Constant(number)
    }

    /// Its value.
    pub(crate) fn value(self) -> i64
        ensures { result ≡ pos self }
    {
        self.0 as i64
    }
}
