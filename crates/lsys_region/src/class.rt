//! Size classes: the room of a list is a power of two.
ghost use Rattle.std.specs.Prelude.{◌≡◌, ◌<◌, ◌≤◌, ◌*◌, ◌^◌};
ghost use Rattle.lsys_region.specs.Rooms.{room_of, IsLeastPower};

/// How many size classes there are: one for each power of two that a `usize` can be.
pub(crate) const CLASSES: usize = 64;

/// A size class: its number, and its room, which is two to this power.
#[derive(Clone, Copy)]
pub(crate) struct Class {
    pub(crate) number: usize,
    pub(crate) room: usize,
    ghost below: { number < 64 },
    ghost power: { room ≡ 2 ^ number },
}

/// The class of a list that is not empty.
pub(crate) fn class_of(length: usize) -> Class
    requires filled { 0 < length }
    requires bounded { length ≤ 2 ^ 63 }
    ensures { result.room ≡ room_of length }
{
    let mut number = 0;
    let mut room = 1;
    while room < length {
        room *= 2;
        number += 1;
    }
    Class { number, room }
}

/// The room of a list of this length: the least power of two that is not less than it, and 0 for the empty list.
pub fn room(length: usize) -> usize
    requires { length ≤ 2 ^ 63 }
    ensures value { result ≡ room_of length }
    ensures least { 0 < length → IsLeastPower length result }
    ensures more_than_half { 0 < length → result < 2 * length }
    ensures empty { length ≡ 0 → result ≡ 0 }
{
    if length == 0 {
        return 0;
    }
    class_of(length).room
}
