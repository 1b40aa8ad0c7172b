//! The bytes of a name or a word, for printing.
ghost use Rattle.std.specs.Prelude.{◌≡◌, ◌<◌, ◌≤◌, ◌++◌, ◌∷◌, [], length};

use std::marker::Model;

/// A text of at most 16 bytes, in place.
#[derive(Drop)]
pub struct ShortText {
    bytes: [u8; 16],
    len: usize,
}

impl Model for ShortText {
    ghost use Rattle.std.specs.Prelude.{List, ℕ};

    ghost Value = { List ℕ };

    ghost use Rattle.lsys_text.specs.InsideShort.{IsShortText, short_text};

    ghost view = { short_text };

    ghost invariant = { IsShortText };
}

impl ShortText {
    pub(crate) fn new() -> ShortText
        ensures { result ≡ [] }
    {
        ShortText {
            bytes: [0; 16],
            len: 0,
        }
    }

    pub(crate) fn push(&mut self, byte: u8)
        requires { length self.old < 16 }
        ensures { self.new ≡ self.old ++ byte ∷ [] }
    {
        self.bytes[self.len] = byte;
        self.len += 1;
    }

    /// The bytes, in order: at most 16.
    pub fn as_bytes(&self) -> &[u8]
        ensures bytes { result.now ≡ self.now }
        ensures short { length self.now ≤ 16 }
    {
        &self.bytes[..self.len]
    }
}
