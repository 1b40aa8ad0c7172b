//! Vectors whose coordinates are sums of many steps, and how far places reach.

ghost use Rattle.std.specs.Prelude.{◌≡◌, ◌<◌, ◌^◌, neg_ℤ, unsigned_abs};
ghost use Rattle.lsys_lattice.specs.Wide.{IsShort, extents_of, spanned};

/// A vector by its coordinates. On the hexagonal lattice `x` and `y` are the axial coordinates q and r.
#[derive(Clone, Copy, PartialEq, Eq, Debug)]
pub struct Vector {
    pub x: i128,
    pub y: i128,
    pub z: i128,
}

/// The least and the greatest values of the three measures of some places.
#[derive(Clone, Copy, PartialEq, Eq, Debug)]
pub struct Extents {
    pub low: Vector,
    pub high: Vector,
}

/// The least and the greatest value of one measure.
#[derive(Clone, Copy)]
pub(crate) struct Stretched {
    pub(crate) low: i128,
    pub(crate) high: i128,
}

impl Stretched {
    // That of the measure with the other sign.
    pub(crate) fn back(self) -> Stretched
        requires { IsShort self }
        ensures low { result.low ≡ neg_ℤ self.high }
        ensures high { result.high ≡ neg_ℤ self.low }
        ensures short { IsShort result }
    {
        Stretched {
            low: -self.high,
            high: -self.low,
        }
    }
}

impl Extents {
    // Of three measures.
    pub(crate) fn of(first: Stretched, second: Stretched, third: Stretched) -> Extents
        ensures { extents_of result ≡ spanned first second third }
    {
        Extents {
            low: Vector {
                x: first.low,
                y: second.low,
                z: third.low,
            },
            high: Vector {
                x: first.high,
                y: second.high,
                z: third.high,
            },
        }
    }

    // Of each measure.
    pub(crate) fn spans(self) -> (Stretched, Stretched, Stretched)
        ensures { spanned result.0 result.1 result.2 ≡ extents_of self }
    {
        (
            Stretched {
                low: self.low.x,
                high: self.high.x,
            },
            Stretched {
                low: self.low.y,
                high: self.high.y,
            },
            Stretched {
                low: self.low.z,
                high: self.high.z,
            },
        )
    }
}
