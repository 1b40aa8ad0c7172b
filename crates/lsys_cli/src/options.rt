//! What the words of a command line ask for.
ghost use Rattle.std.specs.Prelude.{◌≡◌, ℕ, IfErr, IfOk, IfSome, List, is_some, true};
ghost use Rattle.lsys_cli.specs.Words.{HasLimit, options_by, texts};

use crate::reading::{matches_of, options_in};
use crate::setting::is_in_grammar;
use std::alloc::{AllocError, Global};

/// What the words of a command line ask for.
#[derive(Clone, Copy, Debug, PartialEq, Eq)]
pub struct Options {
    /// The most symbols of all levels together: from 1 to 1,000,000, and 100,000 where no word names it.
    pub limit: u32,
    /// The number of the sample that is run in place of the script that is read.
    pub sample: Option<u64>,
}

/// The options that the words after the program's name spell, or None where they are outside of the grammar.
///
/// The form of each word is tested first; `clap` reads the list.
///
/// # Errors
///
/// Out of memory, and that only for words in the grammar.
pub fn options_of(alloc: Global, words: &[String]) -> Result<Option<Options>, AllocError>
    ensures options { IfOk result (λ o. o ≡ options_by (texts words.now)) }
    ensures memory { IfErr result (λ _. is_some (options_by (texts words.now)) ≡ true) }
{
    if !is_in_grammar(words) {
        return Ok(None);
    }
    match matches_of(alloc, words) {
        Ok(matches) => Ok(options_in(&matches)),
        Err(_) => Err(AllocError),
    }
}

/// The limit that words spell is from 1 to 1,000,000.
pub fn law_of_limits()
    ensures { (words : List (List ℕ)) → IfSome (options_by words) HasLimit }
{}
