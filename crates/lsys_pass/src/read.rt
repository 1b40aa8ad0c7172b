//! What answers read.
ghost use Rattle.std.specs.Prelude.{◌≡◌, ℕ, [], false, OnOk, OnErr};
ghost use Rattle.lsys_reads.specs.Relations.{SettledStay};
ghost use Rattle.lsys_reads.specs.Rows.{has};
ghost use Rattle.lsys_pass.specs.Read.{entry_tags, entries_tags, ComesAfter, AddsPairs, NotesRead, SettlesReads, SettlesReaders};

use crate::work::Work;
use lsys_level::Tag;
use lsys_reads::Reads;
use lsys_walks::Entry;
use std::alloc::{AllocError, Global};

/// Who read what. A first derivation doesn't list it, since it asks nobody who read something: until then it tells nothing, and
/// nothing is pending.
#[derive(Drop)]
pub(crate) struct Readers {
    pub(crate) reads: Reads,
    pub(crate) is_listed: bool,
}

impl Readers {
    /// Nobody read anything; from then on it is listed, or it isn't. It takes no memory.
    pub(crate) fn new(alloc: Global, is_listed: bool) -> Readers
        ensures settled { result.reads.settled ≡ [] }
        ensures pending { result.reads.pending ≡ [] }
        ensures listed { result.is_listed ≡ is_listed }
    {
        Readers {
            reads: Reads::new(alloc),
            is_listed,
        }
    }
}

/// Adds to the pending pairs that a reader read these entries, where it is listed who read what.
///
/// # Errors
///
/// Out of memory. Both relations stay then.
pub(crate) fn note_reads(
    readers: &mut Readers,
    reader: Tag,
    entries: &[Entry],
) -> Result<(), AllocError>
    ensures settled { SettledStay readers.old.reads readers.new.reads }
    ensures listed { readers.new.is_listed ≡ readers.old.is_listed }
    ensures ok { OnOk result (NotesRead readers.old readers.new reader (entries_tags entries.now)) }
    ensures err { OnErr result (readers.new.reads.pending ≡ readers.old.reads.pending) }
{
    if !readers.is_listed {
        return Ok(());
    }
    add_reads(&mut readers.reads, reader, entries)
}

/// Adds to the pending pairs that a reader read these entries.
///
/// # Errors
///
/// Out of memory. Both relations stay then.
pub(crate) fn add_reads(reads: &mut Reads, reader: Tag, entries: &[Entry]) -> Result<(), AllocError>
    ensures settled { SettledStay reads.old reads.new }
    ensures ok { OnOk result (AddsPairs reads.old reads.new reader (entries_tags entries.now)) }
    ensures err { OnErr result (reads.new.pending ≡ reads.old.pending) }
{
    let pairs = reads.pending();
    let added = add_entries(reads, reader, entries);
    if added.is_err() {
        reads.retract_from(pairs);
    }
    added
}

/// Who read what, when a pass ends, where it is listed: what those read that were dropped is forgotten, and what those read that
/// were renewed is what is pending. It takes no memory.
pub(crate) fn settle_readers(readers: &mut Readers, work: &mut Work)
    requires { readers.old.is_listed ≡ false → readers.old.reads.pending ≡ [] }
    ensures settled { SettlesReaders readers.old readers.new work.old }
    ensures pending { readers.new.reads.pending ≡ [] }
    ensures listed { readers.new.is_listed ≡ readers.old.is_listed }
    ensures moved { work.new.moved ≡ work.old.moved }
{
    if readers.is_listed {
        settle_reads(&mut readers.reads, work);
    }
}

/// Who read what, when a pass ends: what those read that were dropped is forgotten, and what those read that were renewed is what
/// is pending. It takes no memory.
fn settle_reads(reads: &mut Reads, work: &mut Work)
    ensures settled { SettlesReads reads.old reads.new work.old.renewed.items work.old.dropped.items }
    ensures pending { reads.new.pending ≡ [] }
    ensures moved { work.new.moved ≡ work.old.moved }
{
    sort_tags(reads, &mut work.dropped);
    sort_tags(reads, &mut work.renewed);
    settle_listed(reads, &work.renewed, &work.dropped);
}

/// Makes these rise, where rows may have to be gone through for them. Where they rise already it costs a step for each. It takes no memory.
fn sort_tags(reads: &Reads, tags: &mut Vec<Tag>)
    ensures { (k : ℕ) → has tags.new.items k ≡ has tags.old.items k }
{
    if reads.has_rows() && !tags.iter().is_sorted_by_key(|tag| tag.0) {
        tags.sort_unstable_by_key(|tag| tag.0);
    }
}

/// What these read that were dropped is forgotten, and what these read that were renewed is what is pending.
fn settle_listed(reads: &mut Reads, renewed: &[Tag], dropped: &[Tag])
    ensures settled { SettlesReads reads.old reads.new renewed.now dropped.now }
    ensures pending { reads.new.pending ≡ [] }
{
    reads.forget(dropped);
    reads.settle(renewed);
}

/// Adds them one by one; for lack of memory only some.
fn add_entries(reads: &mut Reads, reader: Tag, entries: &[Entry]) -> Result<(), AllocError>
    ensures settled { SettledStay reads.old reads.new }
    ensures after { ComesAfter reads.old.pending reads.new.pending }
    ensures ok { OnOk result (AddsPairs reads.old reads.new reader (entries_tags entries.now)) }
{
    for entry in entries {
        add_entry(reads, reader, entry)?;
    }
    Ok(())
}

/// Adds what one entry names.
fn add_entry(reads: &mut Reads, reader: Tag, entry: &Entry) -> Result<(), AllocError>
    ensures settled { SettledStay reads.old reads.new }
    ensures after { ComesAfter reads.old.pending reads.new.pending }
    ensures ok { OnOk result (AddsPairs reads.old reads.new reader (entry_tags entry.now)) }
{
    match *entry {
        Entry::Compared { tag, .. } | Entry::Ignored { tag, .. } | Entry::Out { tag, .. } => {
            reads.add(reader, tag)
        }
        Entry::Branch { tag, mate, .. } => {
            reads.add(reader, tag)?;
            reads.add(reader, mate)
        }
    }
}
