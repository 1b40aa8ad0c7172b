//! What a command's tokens are the parts of.

use crate::rule::RuleLine;
use lsys_text::{Name, Word};

/// A lattice that a picture may lie on.
#[derive(Clone, Copy, PartialEq, Eq, Debug)]
pub enum LatticeName {
    Square,
    Hexagonal,
    Cubic,
}

/// What a table's own list says of its names.
#[derive(Clone, Copy, PartialEq, Eq, Debug)]
pub enum ListKind {
    /// Contexts pass over them.
    Ignore,
    /// Contexts pass over all others.
    Consider,
}

/// How the symbols of a list are numbered.
#[derive(Clone, Copy, PartialEq, Eq, Debug)]
pub enum Lineage {
    /// By their places.
    Places,
    /// By their names, and by how many of the same name stand before.
    Names,
}

/// A table's own list of names.
#[derive(Drop)]
pub struct OwnNames {
    pub kind: ListKind,
    pub table: Word,
    pub names: Vec<Name>,
}

/// A rule and its label; for a production also its table, where its word is written.
#[derive(Drop)]
pub struct LabeledRule {
    pub table: Option<Word>,
    pub label: Word,
    pub rule: RuleLine,
}

/// What a command's tokens are the parts of.
#[derive(Drop)]
pub enum CommandParts {
    /// Sets the axiom, whose string begins after the first token.
    Axiom,
    /// Puts a production.
    Production(LabeledRule),
    /// Takes out the rule with this label.
    Drop(Word),
    /// Sets the names that contexts pass over.
    Ignore(Vec<Name>),
    /// Sets the tables of the schedule, of which there is one at least.
    Schedule(Vec<Word>),
    /// Sets the seed.
    Seed(u64),
    /// Sets the depth.
    Depth(u64),
    /// Sets the lattice.
    Lattice(LatticeName),
    /// Puts a homomorphism rule.
    Homomorphism(LabeledRule),
    /// Prints a level: the last one without a number.
    String(Option<u64>),
    /// Prints the segments of the picture.
    Segments,
    /// Prints the picture.
    Svg,
    /// Prints the system as a script.
    Show,
    /// Ends the session.
    Quit,
    /// Sets the version.
    Version(u64),
    /// Gives a table a list of its own.
    Own(OwnNames),
    /// Takes a table's own list away.
    Common(Word),
    /// Sets how symbols are numbered.
    Lineage(Lineage),
}
