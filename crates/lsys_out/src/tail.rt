//! Lines that are written from their end to their front.
ghost use Rattle.std.specs.Prelude.{◌≡◌, ◌+◌, ◌≤◌, ◌<◌, ◌∷◌, ◌++◌, [], length};
ghost use Rattle.std.specs.Fmt.{signed_decimal};

use itoa::write_digits;
use std::marker::Model;

/// The most bytes of a tail.
const ROOM: usize = 256;

/// The end of a line, to which what stands before it is added. So each number is written where it stays, and the line is one piece.
/// Contracts see the text so far, and for how many bytes more there is room.
#[derive(Drop)]
pub(crate) struct Tail {
    bytes: [u8; ROOM],
    from: usize,
}

impl Model for Tail {
    ghost use Rattle.std.specs.Prelude.{◌≤◌, drop};
    ghost use Rattle.lsys_out.specs.Lines.{RoomyText};

    ghost Value = { RoomyText };

    ghost view = { λ t. record { text = drop t.from t.bytes; room = t.from } };

    ghost invariant = { λ t. t.from ≤ 256 };
}

impl Tail {
    /// Of an empty line.
    pub(crate) fn new() -> Tail
        ensures text { result.text ≡ [] }
        ensures room { result.room ≡ 256 }
    {
        Tail {
            bytes: [0; ROOM],
            from: ROOM,
        }
    }

    /// Of an empty line again.
    pub(crate) fn clear(&mut self)
        ensures text { self.new.text ≡ [] }
        ensures room { self.new.room ≡ 256 }
    {
        self.from = ROOM;
    }

    /// The text so far.
    pub(crate) fn text(&self) -> &[u8]
        ensures { result.now ≡ self.now.text }
    {
        &self.bytes[self.from..]
    }

    /// Adds a byte.
    pub(crate) fn byte(&mut self, byte: u8)
        requires { 0 < self.old.room }
        ensures text { self.new.text ≡ byte ∷ self.old.text }
        ensures room { self.new.room + 1 ≡ self.old.room }
    {
        self.from -= 1;
        self.bytes[self.from] = byte;
    }

    /// Adds bytes.
    pub(crate) fn bytes(&mut self, bytes: &[u8])
        requires { length bytes.now ≤ self.old.room }
        ensures text { self.new.text ≡ bytes.now ++ self.old.text }
        ensures room { self.new.room + length bytes.now ≡ self.old.room }
    {
        let end = self.from;
        self.from -= bytes.len();
        self.bytes[self.from..end].copy_from_slice(bytes);
    }

    /// Adds a number in decimal, with `-` before a negative one.
    pub(crate) fn number(&mut self, value: i64)
        requires { 20 ≤ self.old.room }
        ensures text { self.new.text ≡ signed_decimal value ++ self.old.text }
        ensures room { self.old.room ≤ self.new.room + 20 }
    {
        self.from = write_digits(value.unsigned_abs(), &mut self.bytes, self.from);
        if value >= 0 {
            return;
        }
        self.byte(b'-');
    }
}
