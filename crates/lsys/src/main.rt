//! The program `lsys`: a run over standard input and standard output.
#![tactic(auto)]

ghost use Rattle.std.specs.Prelude.{◌≡◌, ◌<◌};

use lsys_cli::{Status, lsys, status_without_words, words_after_name};
use lsys_io::{StdSink, StdSource};
use lsys_match::Steps;
use std::env;
use std::marker::Brand;
use std::process::ExitCode;
use std::sync::ledger::{Blank, Ledger};

/// The words that the program is started with, its name first, or the status where they can't be had.
fn all_words(rt: &HostRuntime) -> Result<Vec<String>, Status> {
    match env::args(rt) {
        Ok(words) => words.collect(rt.alloc()).map_err(|_| Status::Memory),
        Err(error) => Err(status_without_words(error.kind())),
    }
}

/// Runs the program on ledgers that have no counter yet.
fn counted<L: Ledger, V: Ledger>(
    rt: &HostRuntime,
    words: &[String],
    asked: Blank,
    visited: Blank,
) -> Status
    requires name { asked.name ≡ L.name }
    requires parts { asked.parts ≡ L.parts }
    requires some { 0 < asked.parts }
    requires other_name { visited.name ≡ V.name }
    requires other_parts { visited.parts ≡ V.parts }
    requires other_some { 0 < visited.parts }
{
    let mut source = StdSource::new(rt.stdin());
    let mut sink = StdSink::new(rt.stdout());
    let mut asked = Steps::<L>::open(asked);
    let mut visited = Steps::<V>::open(visited);
    lsys(
        rt.alloc(),
        words,
        &mut source,
        &mut sink,
        &mut asked,
        &mut visited,
    )
}

/// Runs the program, with counters of its own.
fn run(rt: &HostRuntime, words: &[String]) -> Status {
    counted::<Brand, Brand>(rt, words, Blank::new(1), Blank::new(1))
}

fn main(rt: HostRuntime) -> ExitCode {
    let status = match all_words(&rt) {
        Ok(words) => run(&rt, words_after_name(words.as_slice())),
        Err(status) => status,
    };
    if status == Status::Usage {
        let _ = eprintln!(rt; "lsys: usage: lsys [--limit N] [--sample N]");
    }
    ExitCode::from(status.code())
}
