//! The words that a program is started with, and those that can't be had.
ghost use Rattle.std.specs.Prelude.{◌≡◌, ◌≢◌, drop};

use crate::status::Status;
use std::io::ErrorKind;

/// The words after the program's name, which comes first: all of them, in order, as they are. Where not even the name is there, there
/// are none.
pub fn words_after_name(words: &[String]) -> &[String]
    ensures { result.now ≡ drop 1 words.now }
{
    match words.split_first() {
        Some((_, after)) => after,
        None => words,
    }
}

/// The status where the words of the command line can't be had, by the kind of the error: out of memory, or one of them
/// isn't UTF-8, which makes them wrong.
pub fn status_without_words(kind: ErrorKind) -> Status
    ensures memory { kind ≡ ErrorKind.OutOfMemory → result ≡ Status.Memory }
    ensures usage { kind ≢ ErrorKind.OutOfMemory → result ≡ Status.Usage }
{
    if kind == ErrorKind::OutOfMemory {
        Status::Memory
    } else {
        Status::Usage
    }
}
