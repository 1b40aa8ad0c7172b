//! One option, and the grammar of all.
ghost use Rattle.std.specs.Prelude.{◌≡◌, ◌↔◌, ◌∷◌, None, true, is_some, slice_index, EachIndex, IsTrue, MatchOption, option_map, option_and_then};
ghost use Rattle.std.specs.Char.{is_ascii_digit};
ghost use Rattle.lsys_cli.specs.Words.{is_short_numeral, number_written, limit_of, setting_of, in_two, only_setting, together, texts, options_by};
ghost use Rattle.lsys_cli.specs.Fronts.{IsFirstOption, attached_words};

use crate::options::Options;

/// The greatest module limit that words may name.
pub(crate) const GREATEST_LIMIT: u64 = 1_000_000;

/// The module limit where no word names one.
pub(crate) const USUAL_LIMIT: u32 = 100_000;

/// What one option sets.
#[derive(Clone, Copy)]
pub(crate) enum Setting {
    Limit(u32),
    Sample(u64),
}

impl Setting {
    /// The options where this one alone is given.
    pub(crate) fn alone(self) -> Options
        ensures { result ≡ only_setting self }
    {
        match self {
            Setting::Limit(limit) => Options {
                limit,
                sample: None,
            },
            Setting::Sample(number) => Options {
                limit: USUAL_LIMIT,
                sample: Some(number),
            },
        }
    }

    /// The options where both are given, or None where it is the same one twice.
    pub(crate) fn together(self, second: Setting) -> Option<Options>
        ensures { result ≡ together self second }
    {
        match (self, second) {
            (Setting::Limit(limit), Setting::Sample(number))
            | (Setting::Sample(number), Setting::Limit(limit)) => Some(Options {
                limit,
                sample: Some(number),
            }),
            _ => None,
        }
    }
}

// Whether each byte of a word is a digit.
fn has_only_digits(word: &str) -> bool
    ensures { IsTrue result ↔ EachIndex word.now (λ k. is_ascii_digit (slice_index word.now k) ≡ true) }
{
    word.as_bytes().iter().all(|byte| byte.is_ascii_digit())
}

// Whether a word has at most twenty bytes, all of them digits.
fn is_short_numeral(word: &str) -> bool
    ensures { result ≡ is_short_numeral word.now }
{
    word.len() <= 20 && has_only_digits(word)
}

/// The number that a word of one to twenty digits writes.
pub(crate) fn number(word: &str) -> Option<u64>
    ensures { result ≡ number_written word.now }
{
    if is_short_numeral(word) {
        word.parse().ok()
    } else {
        None
    }
}

// A module limit of this number.
fn limit(number: u64) -> Option<Setting>
    ensures { result ≡ limit_of number }
{
    if (1..=GREATEST_LIMIT).contains(&number) {
        Some(Setting::Limit(number as u32))
    } else {
        None
    }
}

// What the option of this name sets, by the word that is its number.
fn set_by(name: &str, word: &str) -> Option<Setting>
    ensures { result ≡ setting_of name.now word.now }
{
    if name == "--limit" {
        number(word).and_then(limit)
    } else if name == "--sample" {
        number(word).map(Setting::Sample)
    } else {
        None
    }
}

// A word `NAME=N` in two, where NAME is an option's; another word as it is.
fn in_two(word: &str) -> (&str, Option<&str>)
    ensures parts { in_two word.now ≡ result.0.now ∷ attached_words result.1 }
    ensures whole { result.1 ≡ None → result.0.now ≡ word.now }
{
    if let Some(number) = word.strip_prefix("--limit=") {
        return ("--limit", Some(number));
    }
    if let Some(number) = word.strip_prefix("--sample=") {
        return ("--sample", Some(number));
    }
    (word, None)
}

// The option at the front of some words, and the words after it.
fn first_setting(words: &[String]) -> Option<(Setting, &[String])>
    ensures { IsFirstOption (texts words.now) (option_map (λ p. (p.0, texts p.1.now)) result) }
{
    let (word, words) = words.split_first()?;
    let (name, attached) = in_two(word.as_str());
    if let Some(word) = attached {
        return Some((set_by(name, word)?, words));
    }
    let (word, words) = words.split_first()?;
    Some((set_by(name, word.as_str())?, words))
}

// What words spell, or None where they are outside of the grammar.
fn spelled(words: &[String]) -> Option<Options>
    ensures { result ≡ options_by (texts words.now) }
{
    if words.is_empty() {
        return Some(Options {
            limit: USUAL_LIMIT,
            sample: None,
        });
    }
    let (first, words) = first_setting(words)?;
    if words.is_empty() {
        return Some(first.alone());
    }
    let (second, words) = first_setting(words)?;
    if words.is_empty() {
        first.together(second)
    } else {
        None
    }
}

/// Whether words are in the grammar.
pub(crate) fn is_in_grammar(words: &[String]) -> bool
    ensures { result ≡ is_some (options_by (texts words.now)) }
{
    spelled(words).is_some()
}
