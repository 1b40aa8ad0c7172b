//! The tokens of a line: names and words kept in numbers, and the place of each token.
#![tactic(auto)]

ghost use Rattle.std.specs.Prelude.{◌≡◌, ◌≤◌, length, vec_len, IfOk, All};
ghost use Rattle.lsys_syntax.specs.Limits.{most_line_bytes};
ghost use Rattle.lsys_text.specs.Longest.{TakesLongest, TakesAny};
ghost use Rattle.lsys_text.specs.Tokens.{AreLineTokens, HasMarkByte, LiesInLine};

mod names;
mod refusals;
mod scan;
mod short_text;
mod token_kind;

pub use names::{Name, Word};
pub use refusals::{PlaceRefusal, TextRefusal};
use scan::{Cursor, push_token};
pub use short_text::ShortText;
use std::alloc::Global;
pub use token_kind::{Token, TokenKind};

/// The tokens of a line, in order.
///
/// The line begins in the mode of words. It is read as names after a first word `axiom` or `ignore`,
/// and after the first `:` where the first word is `production` or `hom`.
///
/// # Errors
///
/// `Byte` has the column of the first byte that is in no token. `Memory` is lack of memory, and is told
/// only of a line without such a byte.
pub fn tokens(alloc: Global, line: &[u8]) -> Result<Vec<Token>, TextRefusal>
    requires { length line.now ≤ most_line_bytes }
    ensures tokens { AreLineTokens line.now result }
    ensures marks { IfOk result (λ found. All HasMarkByte found.items) }
    ensures places { IfOk result (λ found. All (LiesInLine (length line.now)) found.items) }
    ensures few { IfOk result (λ found. vec_len found ≤ length line.now) }
{
    let mut found = Vec::new(alloc);
    let mut cursor = Cursor::new();
    while let Some(after) = push_token(&mut found, line, cursor)? {
        cursor = after;
    }
    Ok(found)
}

/// A law of tokens: where a token begins, the longest text that is a token is taken, and no token begins
/// at a byte that is refused. What a token looks like is said of its text alone.
pub fn law_of_longest_tokens()
    ensures longest { TakesLongest }
    ensures refused { TakesAny }
{}
