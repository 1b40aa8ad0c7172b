//! Rules.

use crate::body::SharedBody;
use lsys_text::Word;

/// A production, under its label and in its table: a module that its body fits is replaced by the body's successor.
#[derive(Clone, Drop)]
pub struct Rule {
    pub table: Word,
    pub label: Word,
    pub body: SharedBody,
}

/// A rule of the homomorphism, under its label: the picture of a module that its body fits is drawn from the body's
/// successor. It has neither contexts nor a weight.
#[derive(Clone, Drop)]
pub struct HomRule {
    pub label: Word,
    pub body: SharedBody,
}
