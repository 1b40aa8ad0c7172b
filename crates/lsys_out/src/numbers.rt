//! Numbers in texts.
ghost use Rattle.std.specs.Prelude.{◌≡◌, pos, ◌+ℤ◌, ◌-ℤ◌, decimal};
ghost use Rattle.std.specs.Fmt.{signed_decimal};
ghost use Rattle.lsys_io.specs.Putting.{Puts};
ghost use Rattle.lsys_out.specs.Lines.{side_text};

use lsys_io::{Buffered, Failed, Sink};

/// Puts a number.
pub(crate) fn put_signed<K: Sink>(
    out: &mut Buffered,
    sink: &mut K,
    value: &i64,
) -> Result<(), Failed>
    ensures { Puts K.Sink sink out (signed_decimal value.now) result }
{
    out.put_number(sink, i128::from(*value))
}

/// Puts a number that isn't negative, in decimal.
///
/// # Errors
///
/// The sink failed; a front of what was held and of the number was written then.
pub fn put_unsigned<K: Sink>(out: &mut Buffered, sink: &mut K, value: u32) -> Result<(), Failed>
    ensures { Puts K.Sink sink out (decimal value) result }
{
    out.put_number(sink, i128::from(value))
}

/// Puts the least coordinate of a box around points with a margin of 10, where this is the least of theirs.
pub(crate) fn put_corner<K: Sink>(
    out: &mut Buffered,
    sink: &mut K,
    least: &i64,
) -> Result<(), Failed>
    ensures { Puts K.Sink sink out (signed_decimal (least.now -ℤ pos 10)) result }
{
    out.put_number(sink, i128::from(*least) - 10)
}

/// Puts a side of a box around points with a margin of 10, where these are the least and the greatest of their coordinates.
pub(crate) fn put_side<K: Sink>(
    out: &mut Buffered,
    sink: &mut K,
    least: &i64,
    greatest: &i64,
) -> Result<(), Failed>
    ensures { Puts K.Sink sink out (side_text least.now greatest.now) result }
{
    put_wide(out, sink, &side(least, greatest))
}

fn side(least: &i64, greatest: &i64) -> i128
    ensures { result ≡ greatest.now -ℤ least.now +ℤ pos 20 }
{
    i128::from(*greatest) - i128::from(*least) + 20
}

/// Puts a number of many bits in decimal, with `-` before a negative one.
///
/// # Errors
///
/// The sink failed; a front of what was held and of the number was written then.
pub fn put_wide<K: Sink>(out: &mut Buffered, sink: &mut K, value: &i128) -> Result<(), Failed>
    ensures { Puts K.Sink sink out (signed_decimal value.now) result }
{
    out.put_number(sink, *value)
}
