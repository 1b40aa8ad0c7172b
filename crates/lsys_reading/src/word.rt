//! The words of commands, of lattices and of numberings.
ghost use Rattle.std.specs.Prelude.{◌≡◌};
ghost use Rattle.lsys_syntax.specs.LineMachine.{first_word, lattice_named, numbering_named};
ghost use Rattle.lsys_reading.specs.Words.{word_state_in, lattice_state_in, numbering_state_in, meaning_in};

use crate::parts::{LatticeName, Lineage};
use lsys_text::Word;

/// The first word of a line, which tells the command.
#[derive(Clone, Copy, PartialEq, Eq, Debug)]
pub(crate) enum CommandWord {
    Axiom,
    Production,
    Drop,
    Ignore,
    Schedule,
    Seed,
    Depth,
    Lattice,
    Homomorphism,
    String,
    Segments,
    Svg,
    Show,
    Quit,
    Version,
    Ignoring,
    Consider,
    Common,
    Lineage,
}

// Each word that begins a command.
const COMMAND_WORDS: [(&[u8], CommandWord); 19] = [
    (b"axiom", CommandWord::Axiom),
    (b"production", CommandWord::Production),
    (b"drop", CommandWord::Drop),
    (b"ignore", CommandWord::Ignore),
    (b"schedule", CommandWord::Schedule),
    (b"seed", CommandWord::Seed),
    (b"depth", CommandWord::Depth),
    (b"lattice", CommandWord::Lattice),
    (b"hom", CommandWord::Homomorphism),
    (b"string", CommandWord::String),
    (b"segments", CommandWord::Segments),
    (b"svg", CommandWord::Svg),
    (b"show", CommandWord::Show),
    (b"quit", CommandWord::Quit),
    (b"version", CommandWord::Version),
    (b"ignoring", CommandWord::Ignoring),
    (b"consider", CommandWord::Consider),
    (b"common", CommandWord::Common),
    (b"lineage", CommandWord::Lineage),
];

// Each word that names a lattice.
const LATTICE_WORDS: [(&[u8], LatticeName); 3] = [
    (b"square", LatticeName::Square),
    (b"hexagonal", LatticeName::Hexagonal),
    (b"cubic", LatticeName::Cubic),
];

// Each word that names a numbering.
const NUMBERING_WORDS: [(&[u8], Lineage); 2] = [
    (b"places", Lineage::Places),
    (b"names", Lineage::Names),
];

/// The command that a word begins, where it begins one.
pub(crate) fn command_word(word: Word) -> Option<CommandWord>
    ensures { first_word word ≡ word_state_in result }
{
    command_named(word.text().as_bytes())
}

/// The lattice that a word names, where it names one.
pub(crate) fn lattice_name(word: Word) -> Option<LatticeName>
    ensures { lattice_named word ≡ lattice_state_in result }
{
    lattice_with(word.text().as_bytes())
}

/// The numbering that a word names, where it names one.
pub(crate) fn numbering_name(word: Word) -> Option<Lineage>
    ensures { numbering_named word ≡ numbering_state_in result }
{
    numbering_with(word.text().as_bytes())
}

fn command_named(text: &[u8]) -> Option<CommandWord>
    ensures { first_word text.now ≡ word_state_in result }
{
    meaning_in(&COMMAND_WORDS, text)
}

fn lattice_with(text: &[u8]) -> Option<LatticeName>
    ensures { lattice_named text.now ≡ lattice_state_in result }
{
    meaning_in(&LATTICE_WORDS, text)
}

fn numbering_with(text: &[u8]) -> Option<Lineage>
    ensures { numbering_named text.now ≡ numbering_state_in result }
{
    meaning_in(&NUMBERING_WORDS, text)
}

// What a text means by a table of words, where it is one of them.
fn meaning_in<T: Copy>(table: &[(&[u8], T)], text: &[u8]) -> Option<T>
    ensures { result ≡ meaning_in table.now text.now }
{
    for (word, meaning) in table {
        if text == *word {
            return Some(*meaning);
        }
    }
    None
}
