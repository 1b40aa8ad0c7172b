//! Tokens.

use crate::names::{Name, Word};

/// What a token is.
#[derive(Clone, Copy, PartialEq, Eq, Debug)]
pub enum TokenKind {
    /// A letter, then letters, digits and `_`: at most 16 bytes in all.
    Word(Word),
    /// The same with more bytes.
    LongWord,
    /// A letter; or a letter, `_` and one to six letters or digits.
    Name(Name),
    /// A run of digits with a value of at most 2^64 - 1.
    Number(u64),
    /// A run of digits with a greater value.
    BigNumber,
    /// `=>`
    Arrow,
    /// `==`
    Equal,
    /// `!=`
    Unequal,
    /// `<=`
    AtMost,
    /// `>=`
    AtLeast,
    /// One of `( ) [ ] , : @ + - * / \ % & | ^ ! < > =`, as its ASCII byte.
    Mark(u8),
}

/// A token and the slice of its line, from `start` to `end`, that is its text. Its column is
/// `start + 1`.
#[derive(Clone, Copy, PartialEq, Eq, Debug)]
pub struct Token {
    pub kind: TokenKind,
    pub start: u32,
    pub end: u32,
}
