//! Sums and products that stop at 2^128.

ghost use Rattle.std.specs.Prelude.{◌≡◌, ◌==◌, ◌+◌, ◌*◌};
ghost use Rattle.lsys_growth.specs.Capped.{capped, value_of};

// The sum; None where it is past 128 bits.
pub(crate) fn plus(a: Option<u128>, b: Option<u128>) -> Option<u128>
    ensures { value_of result ≡ capped (value_of a + value_of b) }
{
    match (a, b) {
        (Some(a), Some(b)) => a.checked_add(b),
        _ => None,
    }
}

// The product; None where it is past 128 bits.
pub(crate) fn times(a: Option<u128>, b: Option<u128>) -> Option<u128>
    ensures { value_of result ≡ capped (value_of a * value_of b) }
{
    match (a, b) {
        (Some(a), Some(b)) => a.checked_mul(b),
        (Some(0), None) | (None, Some(0)) => Some(0),
        _ => None,
    }
}

// Whether it is 0.
pub(crate) fn is_zero(a: Option<u128>) -> bool
    ensures { result ≡ (value_of a == 0) }
{
    matches!(a, Some(0))
}

// A number and a product; None where that is past 128 bits.
pub(crate) fn plus_times(sum: u128, a: Option<u128>, b: Option<u128>) -> Option<u128>
    ensures { value_of result ≡ capped (sum + value_of a * value_of b) }
{
    if is_zero(b) {
        return Some(sum);
    }
    plus(Some(sum), times(a, b))
}
