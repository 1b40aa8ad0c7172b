//! The list of words as `clap` reads it.
ghost use Rattle.std.specs.Prelude.{◌≡◌, is_some, option_map, true, MatchResult};
ghost use Rattle.clap.specs.Words.{found_of};
ghost use Rattle.lsys_cli.specs.Words.{options_by, texts};
ghost use Rattle.lsys_cli.specs.Values.{GivesOptions, IsWantOfMemory, limit_by, options_found, sample_by};

use crate::options::Options;
use crate::setting::{GREATEST_LIMIT, USUAL_LIMIT, number};
use clap::error::ErrorKind;
use clap::{Arg, ArgAction, ArgMatches, Command, Error};
use std::alloc::Global;

/// What `clap` finds in words that are in the grammar. It fails only where memory is out.
pub(crate) fn matches_of<'a>(alloc: Global, words: &'a [String]) -> Result<ArgMatches<'a>, Error>
    requires { is_some (options_by (texts words.now)) ≡ true }
    ensures { MatchResult result (GivesOptions (texts words.entry.now)) IsWantOfMemory }
{
    let limit = Arg::new(alloc, "limit")
        .long("limit")
        .action(ArgAction::Set);
    let sample = Arg::new(alloc, "sample")
        .long("sample")
        .action(ArgAction::Set);
    let command = Command::new(alloc, "lsys")
        .no_binary_name(true)
        .arg(limit)?
        .arg(sample)?;
    command.try_get_matches_from(words)
}

// The limit that the word of `--limit` writes, or the usual one.
fn limit_by(word: Option<&str>) -> Option<u32>
    ensures { result ≡ limit_by (option_map (λ w. w.now) word.entry) }
{
    match word {
        Some(word) => {
            let number = number(word)?;
            if (1..=GREATEST_LIMIT).contains(&number) {
                Some(number as u32)
            } else {
                None
            }
        }
        None => Some(USUAL_LIMIT),
    }
}

// The sample that the word of `--sample` names, if there is one.
fn sample_by(word: Option<&str>) -> Option<Option<u64>>
    ensures { result ≡ sample_by (option_map (λ w. w.now) word.entry) }
{
    match word {
        Some(word) => Some(Some(number(word)?)),
        None => Some(None),
    }
}

/// The options that `clap` found.
pub(crate) fn options_in(matches: &ArgMatches<'_>) -> Option<Options>
    ensures { result ≡ options_found (found_of matches.now) }
{
    let limit = limit_by(matches.get_str("limit"))?;
    let sample = sample_by(matches.get_str("sample"))?;
    Some(Options { limit, sample })
}
