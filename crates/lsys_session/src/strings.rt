//! Levels as they are printed.
ghost use Rattle.std.specs.Prelude.{◌≡◌, ◌<◌, length};
ghost use Rattle.lsys_io.specs.Putting.{Puts};
ghost use Rattle.lsys_syntax.specs.Pieces.{text_of};
ghost use Rattle.lsys_syntax.specs.Strings.{value_pieces};
ghost use Rattle.lsys_level.specs.Spots.{spots_at};
ghost use Rattle.lsys_session.specs.Given.{text_of_level};

use lsys_io::{Buffered, Failed, Sink};
use lsys_level::{LevelView, Sight};
use lsys_module::{Notation, Shape, put_symbol};

/// Puts a level, one symbol after another, without an end of line. It takes no memory.
///
/// # Errors
///
/// The sink failed; a front of what was held and of the level was written then.
pub(crate) fn put_level<K: Sink, W: LevelView>(
    out: &mut Buffered,
    sink: &mut K,
    view: &W,
    level: u32,
) -> Result<(), Failed>
    requires { level < length (W.levels view.now) }
    ensures { Puts K.Sink sink out (text_of_level (spots_at (W.levels view.now) level)) result }
{
    let mut runs_on = false;
    let mut at = view.first(level);
    while let Some(spot) = at {
        let sight = view.sight(spot);
        runs_on = put_symbol::<K, Sight<'_>, i64, Sights>(out, sink, &sight, runs_on)?;
        at = view.right(spot);
    }
    Ok(())
}

// The symbols that are seen on a level, whose parameters are numbers.
struct Sights;

impl<'a> Notation<Sight<'a>, i64> for Sights {
    ghost use Rattle.std.specs.Prelude.{ℤ};
    ghost use Rattle.lsys_syntax.specs.Strings.{value_pieces};
    ghost use Rattle.lsys_session.specs.Given.{symbol_seen};

    ghost Written = { ℤ };

    ghost way = { record { symbol = symbol_seen; param = λ z. z; print = value_pieces } };

    fn shape<'b>(of: &'b Sight<'a>) -> Shape<'b, i64> {
        match of {
            Sight::Push => Shape::Push,
            Sight::Pop => Shape::Pop,
            Sight::Module { name, params } => Shape::Module(*name, params),
        }
    }

    fn put_param<K: Sink>(out: &mut Buffered, sink: &mut K, of: &i64) -> Result<(), Failed>
        ensures { Puts K.Sink sink out (text_of (value_pieces of.now)) result }
    {
        out.put_number(sink, i128::from(*of))
    }
}
