//! The entries of a table: eight bytes each while all their numbers are small, and three times as many from then on.
ghost use Rattle.std.specs.Prelude.{◌≡◌, ◌<◌, ◌≤◌, ◌+◌, ◌++◌, ◌∷◌, [], length, IfOk, OnOk, OnErr, slice_index_or, vec_capacity};
ghost use Rattle.lsys_region.specs.Layout.{all_places};
ghost use Rattle.lsys_region.specs.States.{HasNumbersWithin};
ghost use Rattle.lsys_region.specs.Rows.{entries_of_rows, capacity_of, most_of, SetsState};

use crate::packed::{LargeEntry, PackedPart, SMALL_PLACES, SmallEntry, State};
use std::alloc::{AllocError, Global};

/// Entries by the numbers of their parts.
#[derive(Drop)]
pub(crate) enum Rows {
    Small(Vec<SmallEntry>),
    Large(Vec<LargeEntry>),
}

impl Rows {
    /// No entries, and small ones. It takes no memory.
    pub(crate) fn new(alloc: Global) -> Rows
        ensures entries { entries_of_rows result ≡ [] }
    {
        Rows::Small(Vec::new(alloc))
    }

    /// How many entries there are.
    pub(crate) fn len(&self) -> usize
        ensures { result ≡ length (entries_of_rows self.now) }
    {
        match self {
            Rows::Small(small) => small.len(),
            Rows::Large(large) => large.len(),
        }
    }

    /// The entry with this number.
    pub(crate) fn get(&self, number: usize) -> PackedPart
        requires { number < length (entries_of_rows self.now) }
        ensures { result ≡ slice_index_or (entries_of_rows self.now) number result }
    {
        match self {
            Rows::Small(small) => small[number].get(),
            Rows::Large(large) => large[number].get(),
        }
    }

    /// Sets the state of the entry with this number.
    pub(crate) fn set_state(&mut self, number: usize, state: State)
        requires within { number < length (entries_of_rows self.old) }
        requires small { HasNumbersWithin (most_of self.old) state }
        ensures set { SetsState (entries_of_rows self.old) (entries_of_rows self.new) number state }
        ensures capacity { capacity_of self.new ≡ capacity_of self.old }
        ensures most { most_of self.new ≡ most_of self.old }
    {
        match self {
            Rows::Small(small) => small[number] = small[number].with(state),
            Rows::Large(large) => large[number] = large[number].with(state),
        }
    }

    /// Adds an entry, for which there is room. It takes no memory.
    pub(crate) fn push(&mut self, entry: PackedPart)
        requires room { length (entries_of_rows self.old) < capacity_of self.old }
        requires start { entry.start ≤ most_of self.old }
        requires state { HasNumbersWithin (most_of self.old) entry.state }
        ensures pushed { entries_of_rows self.new ≡ entries_of_rows self.old ++ entry ∷ [] }
        ensures capacity { capacity_of self.old ≤ capacity_of self.new }
        ensures most { most_of self.new ≡ most_of self.old }
    {
        let pushed = match self {
            Rows::Small(small) => small.push(SmallEntry::of(entry.start, entry.state)).is_ok(),
            Rows::Large(large) => large.push(LargeEntry::of(entry.start, entry.state)).is_ok(),
        };
        if !pushed {
            unreachable!()
        }
    }

    /// Makes room for `n` entries more, whose numbers are at most `places`.
    ///
    /// # Errors
    ///
    /// Out of memory. The entries stay.
    pub(crate) fn reserve(&mut self, n: usize, places: usize) -> Result<(), AllocError>
        ensures entries { entries_of_rows self.new ≡ entries_of_rows self.old }
        ensures ok { OnOk result (length (entries_of_rows self.new) + n ≤ capacity_of self.new) }
        ensures fits { OnOk result (places ≤ most_of self.new) }
        ensures capacity { capacity_of self.old ≤ capacity_of self.new }
        ensures most { most_of self.old ≤ most_of self.new }
    {
        if places > SMALL_PLACES {
            self.widen()?;
        }
        match self {
            Rows::Small(small) => small.reserve(n),
            Rows::Large(large) => large.reserve(n),
        }
    }

    /// Keeps the entries as large ones.
    fn widen(&mut self) -> Result<(), AllocError>
        ensures entries { entries_of_rows self.new ≡ entries_of_rows self.old }
        ensures most { OnOk result (most_of self.new ≡ all_places) }
        ensures capacity { capacity_of self.old ≤ capacity_of self.new }
        ensures refused { OnErr result (self.new ≡ self.old) }
    {
        let Rows::Small(small) = self else {
            return Ok(());
        };
        let large = widened(small)?;
        *self = Rows::Large(large);
        Ok(())
    }
}

/// The same entries as large ones, with as much room.
fn widened(small: &Vec<SmallEntry>) -> Result<Vec<LargeEntry>, AllocError>
    ensures entries { IfOk result (λ large. large.items ≡ small.now.items) }
    ensures capacity { IfOk result (λ large. vec_capacity small.now ≤ vec_capacity large) }
{
    let mut large = Vec::with_capacity(*small.allocator(), small.capacity())?;
    while large.len() < small.len() {
        let entry = small[large.len()].get();
        large.push(LargeEntry::of(entry.start, entry.state))?;
    }
    Ok(large)
}
