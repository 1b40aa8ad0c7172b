//! A run over a script: the one that is read, or a sample.
ghost use Rattle.std.specs.Prelude.{◌≡◌, ◌≢◌, ◌≤◌, Some};
ghost use Rattle.lsys_syntax.specs.Limits.{greatest_module_limit};
ghost use Rattle.lsys_cli.specs.Words.{HasLimit};
ghost use Rattle.lsys_cli.specs.Programs.{OfSample};
ghost use Rattle.lsys_io.specs.Calls.{HasRisen, HasStayed};
ghost use Rattle.lsys_cli.specs.Calls.{Runs, RunsBy, RunsSample};

use crate::desk::Desk;
use crate::kept_motions::HasMotions;
use crate::options::Options;
use crate::run::run;
use crate::samples::sample;
use crate::status::Status;
use lsys_io::{Buffered, LineReader, NeverSource, Sink, Source};
use lsys_match::Steps;
use std::alloc::Global;
use std::sync::ledger::Ledger;

/// Runs the script that the options name.
pub(crate) fn run_by<S: Source, K: Sink, L: Ledger, V: Ledger, D: HasMotions<L> + Drop>(
    alloc: Global,
    options: Options,
    source: &mut S,
    sink: &mut K,
    asked: &mut Steps<L>,
    visited: &mut Steps<V>,
) -> Status
    requires { HasLimit options }
    ensures ends { RunsBy D.visits options S.Source source K.Sink sink asked visited result }
    ensures sample { OfSample options.sample ((source.new ≡ source.old) × (result ≢ Status.ReadFault)) }
    ensures read_fault_only_where_rose { result ≡ Status.ReadFault → HasRisen S.faults source }
    ensures write_fault_only_where_rose { result ≡ Status.WriteFault → HasRisen K.faults sink }
    ensures no_read_fault_passed_over { result ≢ Status.ReadFault → HasStayed S.faults source }
    ensures no_write_fault_passed_over { result ≢ Status.WriteFault → HasStayed K.faults sink }
    ensures no_usage { result ≢ Status.Usage }
{
    match options.sample {
        None => run_script::<S, K, L, V, D>(alloc, options.limit, source, sink, asked, visited),
        Some(number) => run_sample::<K, L, V, D>(
            alloc,
            options.limit,
            number,
            sink,
            asked,
            visited,
        ),
    }
}

// Runs a sample.
fn run_sample<K: Sink, L: Ledger, V: Ledger, D: HasMotions<L> + Drop>(
    alloc: Global,
    limit: u32,
    number: u64,
    sink: &mut K,
    asked: &mut Steps<L>,
    visited: &mut Steps<V>,
) -> Status
    requires { limit ≤ greatest_module_limit }
    ensures ends { RunsSample D.visits limit number K.Sink sink asked visited result }
    ensures no_read_fault { result ≢ Status.ReadFault }
    ensures write_fault_only_where_rose { result ≡ Status.WriteFault → HasRisen K.faults sink }
    ensures no_write_fault_passed_over { result ≢ Status.WriteFault → HasStayed K.faults sink }
    ensures no_usage { result ≢ Status.Usage }
{
    let Ok(script) = sample(alloc, number) else {
        return Status::Memory;
    };
    let mut source = NeverSource::new(script);
    run_script::<NeverSource, K, L, V, D>(alloc, limit, &mut source, sink, asked, visited)
}

// Runs what the source has left.
fn run_script<S: Source, K: Sink, L: Ledger, V: Ledger, D: HasMotions<L> + Drop>(
    alloc: Global,
    limit: u32,
    source: &mut S,
    sink: &mut K,
    asked: &mut Steps<L>,
    visited: &mut Steps<V>,
) -> Status
    requires { limit ≤ greatest_module_limit }
    ensures ends { Runs D.visits limit S.Source source K.Sink sink asked visited result }
    ensures read_fault_only_where_rose { result ≡ Status.ReadFault → HasRisen S.faults source }
    ensures write_fault_only_where_rose { result ≡ Status.WriteFault → HasRisen K.faults sink }
    ensures no_read_fault_passed_over { result ≢ Status.ReadFault → HasStayed S.faults source }
    ensures no_write_fault_passed_over { result ≢ Status.WriteFault → HasStayed K.faults sink }
    ensures no_usage { result ≢ Status.Usage }
{
    let Ok(mut reader) = LineReader::new(alloc) else {
        return Status::Memory;
    };
    let Ok(mut out) = Buffered::new(alloc) else {
        return Status::Memory;
    };
    let Ok(mut desk) = Desk::<L, D>::start(alloc, limit) else {
        return Status::Memory;
    };
    run(
        alloc,
        &mut desk,
        &mut reader,
        &mut out,
        source,
        sink,
        asked,
        visited,
    )
}
