//! Names and words: short texts, each kept in a number.
ghost use Rattle.std.specs.Prelude.{◌≡◌, ℕ, List, ◌<◌, ◌≤◌, ◌^◌, ◌∷◌, [], length, IsTrue};
ghost use Rattle.lsys_syntax.specs.Pieces.{IsWordText};
ghost use Rattle.lsys_text.specs.Packed.{packed, unpacked};
ghost use Rattle.lsys_text.specs.Texts.{is_name_mark, IsNameBytes};

use crate::short_text::ShortText;
use std::marker::Model;

/// The name of a module or of a formal: a letter; a letter, `_` and one to six letters or digits; or
/// one of the marks `+ - & ^ \ / | !`.
///
/// Its bytes stand in the number in order, the first one lowest. None is zero, so equal texts and
/// only they have equal numbers.
#[derive(Clone, Copy, Debug, Hash)]
pub struct Name(u64);

impl Model for Name {
    ghost use Rattle.std.specs.Prelude.{List, ℕ};

    ghost Value = { List ℕ };

    ghost use Rattle.lsys_text.specs.InsideName.{IsPackedName, kept_text, name_with_text, name_kept};

    ghost view = { kept_text };

    ghost invariant = { IsPackedName };

    ghost inverse = { name_with_text };

    ghost inverse_ok = { name_kept };
}

impl PartialEq for Name {
    ghost use Rattle.std.specs.Prelude.{bytes_eq};
    ghost use Rattle.std.proofs.Common.{rules};
    ghost use Rattle.std.specs.Cmp.Rules.{comparing};

    ghost eq = { bytes_eq };

    ghost laws = { Prim.search (comparing, rules) };

    /// The numbers are equal, and so are the texts, both of which have the form of a name.
    fn eq(&self, other: &Name) -> bool
        ensures same { result ≡ bytes_eq self.now other.now }
        ensures name { IsNameBytes self.now }
        ensures other_name { IsNameBytes other.now }
    {
        self.0 == other.0
    }
}

impl Eq for Name {
    ghost use Rattle.std.proofs.Common.{rules};
    ghost use Rattle.std.specs.Cmp.Rules.{comparing};

    ghost laws = { Prim.search (comparing, rules) };
}

impl Name {
    /// The name with this text, of at most 8 bytes.
    pub fn from_text(text: &[u8]) -> Name
        requires { IsNameBytes text.now }
        ensures { result ≡ text.now }
    {
        Name(packed(text) as u64)
    }

    /// The name that one of the eight marks is.
    pub fn from_mark(mark: u8) -> Name
        requires { IsTrue (is_name_mark mark) }
        ensures { result ≡ mark ∷ [] }
    {
        Name(u64::from(mark))
    }

    /// The number that the name is kept in. Other names have other numbers.
    pub fn number(self) -> u64
        ensures number { result ≡ packed self }
        ensures name { IsNameBytes self }
        ensures no_other { (text : List ℕ) → IsNameBytes text → packed text ≡ result → text ≡ self }
    {
        self.0
    }

    /// A law of names: each has the form of one.
    pub fn law_of_names(self)
        ensures { IsNameBytes self }
    {}

    /// The text, of one to eight bytes.
    pub fn text(self) -> ShortText
        ensures text { result ≡ self }
        ensures name { IsNameBytes self }
    {
        unpacked(u128::from(self.0))
    }
}

/// A word of the script: a letter, then letters, digits and `_`, at most 16 bytes in all.
///
/// Its bytes stand in the number in order, the first one lowest. None is zero, so equal texts and
/// only they have equal numbers.
#[derive(Clone, Copy, Debug, Hash)]
pub struct Word(u128);

impl Model for Word {
    ghost use Rattle.std.specs.Prelude.{List, ℕ};

    ghost Value = { List ℕ };

    ghost use Rattle.lsys_text.specs.InsideWord.{IsPackedWord, word_text, word_with_text, word_kept};

    ghost view = { word_text };

    ghost invariant = { IsPackedWord };

    ghost inverse = { word_with_text };

    ghost inverse_ok = { word_kept };
}

impl PartialEq for Word {
    ghost use Rattle.std.specs.Prelude.{bytes_eq};
    ghost use Rattle.std.proofs.Common.{rules};
    ghost use Rattle.std.specs.Cmp.Rules.{comparing};

    ghost eq = { bytes_eq };

    ghost laws = { Prim.search (comparing, rules) };

    fn eq(&self, other: &Word) -> bool {
        self.0 == other.0
    }
}

impl Eq for Word {
    ghost use Rattle.std.proofs.Common.{rules};
    ghost use Rattle.std.specs.Cmp.Rules.{comparing};

    ghost laws = { Prim.search (comparing, rules) };
}

impl Word {
    /// The word with this text, of at most 16 bytes.
    pub fn from_text(text: &[u8]) -> Word
        requires { IsWordText text.now }
        ensures { result ≡ text.now }
    {
        Word(packed(text))
    }

    /// The text, of one to sixteen bytes.
    pub fn text(self) -> ShortText
        ensures text { result ≡ self }
        ensures word { IsWordText self }
    {
        unpacked(self.0)
    }
}

// The number that keeps a text.
fn packed(text: &[u8]) -> u128
    requires { length text.now ≤ 16 }
    ensures number { result ≡ packed text.now }
    ensures bound { result < 256 ^ length text.now }
{
    let mut number = 0u128;
    let mut place = text.len();
    while place > 0 {
        place -= 1;
        number = number * 256 + u128::from(text[place]);
    }
    number
}

// The text that a number keeps.
fn unpacked(number: u128) -> ShortText
    ensures { result ≡ unpacked number }
{
    let mut text = ShortText::new();
    let mut rest = number;
    while rest > 0 {
        text.push((rest % 256) as u8);
        rest /= 256;
    }
    text
}
