//! What a module has a turtle do.
ghost use Rattle.std.specs.Prelude.{◌≡◌, ◌∷◌, []};
ghost use Rattle.lsys_spec.specs.Pictures.{act, pen_width};
ghost use Rattle.lsys_module.specs.Views.{module_name};
ghost use Rattle.lsys_turtle.specs.Ways.{act_of};

use lsys_lattice::Turn;
use lsys_module::Module;
use lsys_text::Name;

/// What a turtle does at a symbol.
pub enum Act {
    /// It moves by so many steps and draws a segment.
    Draws(i64),
    /// It moves by so many steps.
    Moves(i64),
    /// It turns by so many turns.
    Turns(Turn, i64),
    /// It draws with this width from now on.
    Widens(u32),
    /// It does nothing.
    Rests,
}

/// The width for a parameter: raised to 1 or lowered to 1,000 where it is outside.
fn pen_width(parameter: i64) -> u32
    ensures { result ≡ pen_width parameter }
{
    parameter.clamp(1, 1000) as u32
}

impl Act {
    /// What a module has a turtle do. Its name's first letter and its first parameter alone tell it.
    pub fn of(symbol: &Module) -> Act
        ensures { act_of result ≡ act (module_name symbol.now.name) symbol.now.params }
    {
        let first = match symbol.params.values().first() {
            Some(value) => *value,
            None => 1,
        };
        Act::by(symbol.name, first)
    }

    /// What a module of this name has a turtle do, where this is its first parameter, or 1 stands for it.
    pub fn by(name: Name, first: i64) -> Act
        ensures { act_of result ≡ act (module_name name) (first ∷ []) }
    {
        let text = name.text();
        match text.as_bytes()[0] {
            b'F' => Act::Draws(first),
            b'f' => Act::Moves(first),
            b'+' => Act::Turns(Turn::Left, first),
            b'-' => Act::Turns(Turn::Right, first),
            b'&' => Act::Turns(Turn::Down, first),
            b'^' => Act::Turns(Turn::Up, first),
            b'\\' => Act::Turns(Turn::RollLeft, first),
            b'/' => Act::Turns(Turn::RollRight, first),
            b'|' => Act::Turns(Turn::Round, 1),
            b'!' => Act::Widens(pen_width(first)),
            _ => Act::Rests,
        }
    }
}
