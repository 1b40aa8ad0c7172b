ghost use Rattle.std.specs.Prelude.{◌≡◌};

use crate::same::is_same;
use lsys_lattice::{Cubic, Lattice, Place, Square, Turn, turn_by};

// Generic code knows by the laws of the trait that a turn and its inverse give the frame back.
fn turn_and_back<T: Lattice>(frame: T::Frame, kind: Turn) -> T::Frame
    ensures { result ≡ frame }
{
    T::turn(T::turn(frame, kind), kind.inverse())
}

// Generic code knows by the laws of the trait that a full turn gives the frame back.
fn turn_fully<T: Lattice>(frame: T::Frame) -> T::Frame
    ensures { result ≡ frame }
{
    let mut turned = frame;
    for _done in 0..T::full() {
        turned = T::turn(turned, Turn::Left);
    }
    turned
}

#[test]
fn turns_lead_back(rt: HostRuntime) {
    let east = Square::turn(Square::start(), Turn::Right);
    is_same(&rt, &Square::heading(east), &Place { x: 1, y: 0, z: 0 });
    is_same(&rt, &turn_and_back::<Square>(east, Turn::Round), &east);
    is_same(&rt, &turn_fully::<Square>(east), &east);
    let rolled = turn_by::<Cubic>(Cubic::start(), Turn::RollRight, -3);
    is_same(&rt, &rolled, &Cubic::turn(Cubic::start(), Turn::RollRight));
    is_same(&rt, &turn_and_back::<Cubic>(rolled, Turn::Down), &rolled);
}
