//! The parameters of a module, kept in place.
ghost use Rattle.std.specs.Prelude.{◌≡◌, ◌<◌, ◌≤◌, ◌++◌, ◌∷◌, [], length};
ghost use Rattle.lsys_syntax.specs.Strings.{EachOf, IsParam};

use std::marker::Model;

/// At most eight numbers. The places past them hold 0.
#[derive(Clone, Copy, PartialEq, Eq)]
pub struct Params {
    values: [i64; 8],
    len: u8,
}

impl Model for Params {
    ghost use Rattle.std.specs.Prelude.{ℤ, List};

    ghost Value = { List ℤ };

    ghost use Rattle.lsys_module.specs.InsideParams.{IsPadded, kept_values, padded, padded_back};

    ghost view = { kept_values };

    ghost invariant = { IsPadded };

    ghost inverse = { padded };

    ghost inverse_ok = { padded_back };
}

impl Params {
    /// The parameters with these values, of which there are at most eight.
    pub fn of(values: &[i64]) -> Params
        requires { length values.now ≤ 8 }
        ensures { result ≡ values.now }
    {
        let mut kept = [0i64; 8];
        for (place, value) in values.iter().enumerate() {
            kept[place] = *value;
        }
        Params {
            values: kept,
            len: values.len() as u8,
        }
    }

    /// The values, in order: at most eight.
    pub fn values(&self) -> &[i64]
        ensures values { result.now ≡ self.now }
        ensures few { length self.now ≤ 8 }
        ensures params { EachOf IsParam self.now }
    {
        &self.values[..self.len as usize]
    }

    /// A law of parameters: each is a number of 64 bits.
    pub(crate) fn law_of_params(self)
        ensures { EachOf IsParam self }
    {}

    /// One more value, of which there are at most seven.
    pub(crate) fn and(mut self, value: i64) -> Params
        requires { length self < 8 }
        ensures { result ≡ self ++ value ∷ [] }
    {
        let len = self.len as usize;
        self.values[len] = value;
        Params::of(&self.values[..=len])
    }
}
