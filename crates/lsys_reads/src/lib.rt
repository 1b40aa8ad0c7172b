//! What the nodes of a forest keep from one rest to the next: answers, who read which symbol, and who stood beside a node.
//!
//! An answer that is kept is a [`KeptAnswer`]. `specs/Levels.antt` says what it means that nodes have the levels of a system, with
//! the answers to its questions.
//!
//! Who read which symbol is told by [`Reads`]: two finite relations on tags, settled and pending, between a reader, as whose answer
//! something was read, and what it read. Each tag that is read has a row of its readers, which rises, and each reader a run of what
//! it saw, which is only gone through to forget it. So a change costs by what it touches. All rows stand in one vector, and all
//! runs in another. Room for what is pending is kept in both by [`Reads::add`], so that [`Reads::settle`] and [`Reads::retract`] take
//! no memory.
//!
//! Who stood beside a node, and which bracket was its mate, is told by its seat ([`Seats`]). A pass that repairs levels keeps the
//! seats, and sets them anew only where a level changed. So it tells a node that is disturbed by one look at its seat, with no copy
//! of any old level. Marks go with the seats, so that a list keeps a node once. Where to look, it is told by the seams of a level:
//! the nodes whose neighbours may be others, since nodes of the level above them have other children or other neighbours.
#![tactic(auto)]

ghost use Rattle.std.specs.Prelude.{◌≡◌, ℕ, ◌<◌, ◌++◌, ◌∷◌, [], length, take, false, vec_capacity, OnOk, OnErr, IfNone, IfSome};
ghost use Rattle.std.specs.List.Sorted.{IsPermutation};
ghost use Rattle.lsys_reads.specs.Rows.{has, tag_row, IsRising, AreRising};
ghost use Rattle.lsys_reads.specs.Runs.{ClearsSights};
ghost use Rattle.lsys_reads.specs.Relations.{is_settled, SettledStay, Covers, LackReader, Thins, AddsPending, SettlesGone, ForgetsGone, SettlesPending, PendingStay};

mod answer;
mod head;
mod mates;
mod pack;
mod row;
mod runs;
mod seams;
mod seat;
mod seats;
mod table;

pub use answer::KeptAnswer;
use lsys_level::Tag;
pub use mates::{look_at_mates, look_into_branches};
use runs::Runs;
pub use seams::{look_around, look_beyond};
pub use seats::{Seats, law_of_kept_seats};
use std::alloc::{AllocError, Global};
use std::cmp::Reverse;
use std::marker::Model;
use table::ReaderRows;

/// A reader, and what its answer read.
#[derive(Clone, Copy, Drop)]
pub struct Pair {
    pub reader: Tag,
    pub seen: Tag,
}

/// Which readers read which tags.
#[derive(Drop)]
pub struct Reads {
    by_seen: ReaderRows,
    by_reader: Runs,
    pending: Vec<Pair>,
}

impl Model for Reads {
    ghost use Rattle.lsys_reads.specs.Rows.{AreRising};
    ghost use Rattle.lsys_reads.specs.Relations.{Relations, relations_code, relations_of, KeepsPairs};

    ghost Value = { Relations };

    ghost coded = { relations_code };

    ghost view = { λ r. relations_of r.by_seen r.pending.items };

    ghost invariant = { λ r. KeepsPairs r.by_seen r.by_reader r.pending.items × AreRising r.by_seen };
}

impl Reads {
    /// The empty relations. It takes no memory.
    pub fn new(alloc: Global) -> Reads
        ensures settled { result.settled ≡ [] }
        ensures pending { result.pending ≡ [] }
    {
        Reads {
            by_seen: ReaderRows::new(alloc),
            by_reader: Runs::new(alloc),
            pending: Vec::new(alloc),
        }
    }

    /// Adds the pair to the pending ones, and keeps the room for it. Where there is none left all rows, or all runs, are moved
    /// into a vector with half as much room again.
    ///
    /// # Errors
    ///
    /// Out of memory. Then both relations stay.
    pub fn add(&mut self, reader: Tag, seen: Tag) -> Result<(), AllocError>
        ensures settled { SettledStay self.old self.new }
        ensures ok { OnOk result (AddsPending reader seen self.old self.new) }
        ensures err { OnErr result (self.new.pending ≡ self.old.pending) }
    {
        make_room(&mut self.pending)?;
        let many = self.pending.len();
        self.by_reader.reserve(reader, many + 1)?;
        self.by_seen.reserve(seen)?;
        match self.pending.push(Pair { reader, seen }) {
            Ok(()) => Ok(()),
            Err(_) => unreachable!(),
        }
    }

    /// The settled readers of a tag, each once and rising.
    pub fn readers_of(&self, seen: Tag) -> &[Tag]
        ensures readers { (reader : ℕ) → has result.now reader ≡ is_settled self.now reader seen }
        ensures rising { IsRising result.now }
    {
        self.by_seen.tags(seen)
    }

    /// Whether any tag may have settled readers. It costs one step.
    pub fn has_rows(&self) -> bool
        ensures { result ≡ false → (reader seen : ℕ) → is_settled self.now reader seen ≡ false }
    {
        self.by_seen.has_cells()
    }

    /// How many pairs are pending.
    pub fn pending(&self) -> usize
        ensures { result ≡ length self.now.pending }
    {
        self.pending.len()
    }

    /// Drops the pending pairs. It takes no memory.
    pub fn retract(&mut self)
        ensures settled { SettledStay self.old self.new }
        ensures pending { self.new.pending ≡ [] }
    {
        self.retract_from(0);
    }

    /// Drops the last pending pairs, so that no more than so many stay. It takes no memory.
    pub fn retract_from(&mut self, pairs: usize)
        ensures settled { SettledStay self.old self.new }
        ensures pending { self.new.pending ≡ take pairs self.old.pending }
    {
        while self.pending() > pairs {
            let _ = self.retract_one();
        }
    }

    /// Drops one pending pair, if there is one.
    fn retract_one(&mut self) -> Option<Pair>
        ensures settled { SettledStay self.old self.new }
        ensures some { IfSome result (λ pair. self.old.pending ≡ self.new.pending ++ pair ∷ []) }
        ensures none { IfNone result (self.old.pending ≡ []) }
        ensures same { IfNone result (self.new.pending ≡ self.old.pending) }
    {
        match self.pending.pop() {
            Some(pair) => {
                self.by_seen.release(pair.seen);
                Some(pair)
            }
            None => None,
        }
    }

    /// Takes the pairs of the readers in `gone` out of the settled ones, and then adds the pending pairs to them. It
    /// takes no memory.
    ///
    /// It costs steps by the pairs that come and go. Up to a few hundred of them in one row move the tags after them,
    /// each for itself; where there may be more, the row is gone through once for all, in steps by its length and the
    /// logarithm of that. So if the readers in `gone` rise; else a row may be gone through for each of them. A row that has
    /// too little room for what comes is moved, and gets a sixteenth more than it needs. A reader that has settled pairs and
    /// gets more without being in `gone` costs, when it is forgotten, also by the pairs that were settled between.
    pub fn settle(&mut self, gone: &[Tag])
        ensures settled { SettlesGone gone.now self.old self.new }
        ensures pending { self.new.pending ≡ [] }
    {
        self.forget(gone);
        self.settle_pending();
    }

    /// Takes all pairs of the readers in `gone` out of the settled ones. It takes no memory. [`Reads::settle`] tells what it
    /// costs.
    pub fn forget(&mut self, gone: &[Tag])
        ensures settled { ForgetsGone gone.now self.old self.new }
        ensures pending { self.new.pending ≡ self.old.pending }
    {
        let mut rest = gone;
        while let Some((reader, before)) = rest.split_last() {
            forget_one(&mut self.by_seen, &mut self.by_reader, *reader, gone);
            rest = before;
        }
    }

    /// Settles all pending pairs, those of the lowest reader first: so each comes to the end of what its row got.
    fn settle_pending(&mut self)
        ensures settled { SettlesPending self.old self.new }
        ensures pending { self.new.pending ≡ [] }
    {
        self.sort_falling();
        while let Some(pair) = self.pending.pop() {
            self.by_seen.put(pair.seen, pair.reader);
            self.by_reader.put(pair.reader, pair.seen);
            give_back(&mut self.pending);
        }
        self.pending.shrink_to_fit();
    }

    /// Sorts the pending pairs by their readers, the highest first.
    fn sort_falling(&mut self)
        ensures settled { SettledStay self.old self.new }
        ensures pending { PendingStay self.old self.new }
    {
        make_fall(&mut self.pending);
    }
}

/// Makes room for one pair more.
#[inline]
fn make_room(pending: &mut Vec<Pair>) -> Result<(), AllocError>
    ensures pairs { pending.new.items ≡ pending.old.items }
    ensures ok { OnOk result (length pending.new.items < vec_capacity pending.new) }
{
    if pending.len() < pending.capacity() {
        return Ok(());
    }
    pending.reserve(1)
}

/// How many pending pairs are settled before the room that they took is given back.
const MANY: usize = 1 << 16;

/// Gives back the room of pairs that are settled, now and then: so all that is pending needn't be held beside all that is settled.
fn give_back(pending: &mut Vec<Pair>)
    ensures { pending.new.items ≡ pending.old.items }
{
    if pending.len() % MANY == 0 {
        pending.shrink_to_fit();
    }
}

/// Makes the readers of these pairs fall. Where they rise it costs a step for each.
fn make_fall(pairs: &mut Vec<Pair>)
    ensures { IsPermutation pairs.old.items pairs.new.items }
{
    if pairs.iter().is_sorted_by_key(|pair| pair.reader) {
        pairs.reverse();
    } else {
        pairs.sort_unstable_by_key(|pair| Reverse(pair.reader));
    }
}

/// Takes all pairs of the reader out, and from the rows of readers maybe others in `gone`.
fn forget_one(by_seen: &mut ReaderRows, by_reader: &mut Runs, reader: Tag, gone: &[Tag])
    requires covers { Covers by_seen.old by_reader.old }
    requires rising { AreRising by_seen.old }
    ensures thins { Thins by_seen.old by_seen.new reader gone.now }
    ensures none { (seen : ℕ) → has (tag_row by_seen.new seen).tags reader ≡ false }
    ensures clears { ClearsSights by_reader.old by_reader.new reader }
{
    sweep_all(by_seen, by_reader.run(reader), reader, gone);
    by_reader.clear(reader);
}

/// Takes the reader out of the rows of these tags, and maybe others in `gone`.
fn sweep_all(by_seen: &mut ReaderRows, tags: &[Tag], reader: Tag, gone: &[Tag])
    requires { AreRising by_seen.old }
    ensures thins { Thins by_seen.old by_seen.new reader gone.now }
    ensures lost { LackReader tags.now by_seen.new reader }
{
    for seen in tags {
        by_seen.sweep(*seen, reader, gone);
    }
}
