//! The program as a library: a run over a source and a sink.
//!
//! The words of the command line say which script is run, and under which module limit: the script that the source gives,
//! or a sample. They consist of these options, each at most once and in either order: `--limit N` or the one word `--limit=N`,
//! with N from 1 to 1,000,000; `--sample N` or the one word `--sample=N`, with N below 2^64. N is one to twenty digits, leading
//! zeros allowed. Every other list of words is outside of the grammar.
//!
//! Each line of the script is answered at a desk before the next one is waited for, and the run ends with a status. A desk is a
//! session with the systems that its edits led away from, and those that were undone. It answers the lines that ask something of
//! it, `undo`, `redo`, `growth N`, `bounds` and `at N`, and hands every other line on to its session.
#![tactic(auto)]

ghost use Rattle.std.specs.Prelude.{◌≡◌, ◌≢◌, ◌↔◌, None};
ghost use Rattle.lsys_cli.specs.Words.{options_by, texts};
ghost use Rattle.lsys_cli.specs.Programs.{OnSample, NamesNoSample};
ghost use Rattle.lsys_io.specs.Calls.{HasRisen, HasStayed};
ghost use Rattle.lsys_cli.specs.Calls.{TouchesNothing, IfDone, IfRefused, IfMemory, IfReadFault, IfWriteFault, IfTooLong, IfWell};

mod desk;
mod desk_line;
mod growth_reply;
mod kept_motions;
mod options;
mod picture_reply;
mod reading;
mod run;
mod samples;
mod sayings;
mod script;
mod setting;
mod status;
mod step;
mod words;

use lsys_io::{Sink, Source};
use lsys_match::Steps;
use lsys_pass::ForestDerivation;
pub use options::law_of_limits;
use options::options_of;
pub use samples::sample;
use script::run_by;
pub use status::Status;
use std::alloc::Global;
use std::sync::ledger::Ledger;
pub use words::{status_without_words, words_after_name};

/// A desk whose derivation stands in a forest: the one at which [`lsys`] answers the lines of a script.
pub type Desk<L> = desk::Desk<L, ForestDerivation<L>>;

/// Answers the lines of a script, from the opening system on: puts the reply to each of them into the sink, to the script's
/// end or to a `quit` that is heeded, one that isn't refused as out of memory. `words` are the words after the program's
/// name.
///
/// The clauses on the script and on what was written say something where the source and the sink tell their bytes. The same
/// body runs over ends that don't: it is generic in them, so it can't tell them apart.
///
/// `asked` counts the questions that are asked, `visited` the entries that are read for them. Over the lines whose replies
/// were written both rise within the cost of these lines: by at least what their accepted edits need, and at most by that and
/// the entries of the candidates' traces, and a bound by the limit for each line that is refused for its levels or as out of memory.
///
/// Each clause holds whatever ends are handed in, also those that fail at any later call. So nothing is read after a heeded
/// `quit`: were that read to fail, no status could be answered.
pub fn lsys<S: Source, K: Sink, L: Ledger, V: Ledger>(
    alloc: Global,
    words: &[String],
    source: &mut S,
    sink: &mut K,
    asked: &mut Steps<L>,
    visited: &mut Steps<V>,
) -> Status
    // The words.
    ensures usage { (result ≡ Status.Usage) ↔ (options_by (texts words.now) ≡ None) }
    ensures usage_touches_nothing { result ≡ Status.Usage → TouchesNothing source sink asked visited }
    ensures sample_reads_nothing { OnSample (options_by (texts words.now)) (source.new ≡ source.old) }

    // The script was read to its end or to a heeded `quit`, and its output was written; or there was no memory to begin.
    ensures done { IfDone words.now S.Source source K.Sink sink asked visited result }
    ensures refused { IfRefused words.now S.Source source K.Sink sink asked visited result }
    ensures memory { IfMemory words.now S.Source source K.Sink sink asked visited result }

    // The other ends: what was written then, and their causes.
    ensures read_fault { IfReadFault words.now S.Source source K.Sink sink asked visited result }
    ensures read_fault_only_where_rose { result ≡ Status.ReadFault → HasRisen S.faults source }
    ensures read_fault_only_where_read { result ≡ Status.ReadFault → NamesNoSample (texts words.now) }
    ensures write_fault { IfWriteFault words.now S.Source source K.Sink sink result }
    ensures write_fault_only_where_rose { result ≡ Status.WriteFault → HasRisen K.faults sink }
    ensures too_long { IfTooLong words.now S.Source source K.Sink sink asked visited result }

    // No failure is passed over.
    ensures no_read_fault_passed_over { result ≢ Status.ReadFault → HasStayed S.faults source }
    ensures no_write_fault_passed_over { result ≢ Status.WriteFault → HasStayed K.faults sink }

    // Where neither end failed, the script is within its length and nothing in its output is a refusal, the run is done, or
    // out of memory was said.
    ensures complete { IfWell words.now S.Source source K.Sink sink result }
{
    match options_of(alloc, words) {
        Ok(Some(options)) => {
            run_by::<S, K, L, V, ForestDerivation<L>>(alloc, options, source, sink, asked, visited)
        }
        Ok(None) => Status::Usage,
        Err(_) => Status::Memory,
    }
}
