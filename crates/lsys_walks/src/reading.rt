//! A trace that is read beside an old one: nothing is written while they agree.
ghost use Rattle.std.specs.Prelude.{◌≡◌, ◌↔◌, ◌+◌, ◌<◌, [], length, true, false, IsTrue, IfOk, IsOk, OnOk, OnErr};
ghost use Rattle.lsys_spec.specs.Output.{IsFront};
ghost use Rattle.lsys_spec.specs.Meaning.{most_entries};
ghost use Rattle.lsys_walks.specs.Views.{decoded, arities};
ghost use Rattle.lsys_walks.specs.Readings.{read_with, AddsEntry};
ghost use Rattle.lsys_walks.specs.Parts.{arity_of};

use crate::alike::is_alike;
use crate::counter::Counter;
use crate::entry::Entry;
use crate::trace::{MOST_ENTRIES, Trace};
use std::alloc::{AllocError, Global};
use std::marker::Model;
use std::sync::ledger::Ledger;

/// The trace of a question while it is read, beside its trace of before.
///
/// While the entries agree with the old trace nothing is written, and no memory is taken. At the first one that differs
/// the front that agreed is taken over, and from then on entries are written.
#[derive(Drop)]
pub struct Reading<'a> {
    entries: &'a [Entry],
    values: &'a [i64],
    place: usize,
    kept: usize,
    agrees: bool,
    own: Trace,
    alloc: Global,
}

impl<'a> Model for Reading<'a> {
    ghost use Rattle.lsys_walks.specs.Views.{decoded};
    ghost use Rattle.lsys_walks.specs.Readings.{Read, IsReading, trace_so_far};

    ghost Value = { Read };

    ghost view = { λ a. record {
      old = decoded a.entries.now a.values.now;
      read = trace_so_far a.agrees a.entries.now a.values.now a.place a.kept a.own;
      agrees = a.agrees;
    } };

    ghost invariant = { λ a. IsReading a.entries.now a.values.now a.place a.kept a.agrees a.own };
}

impl<'a> Reading<'a> {
    /// Nothing was read as yet. Takes no memory. A new question is read beside a trace without entries.
    pub fn beside(old: &'a Trace, alloc: Global) -> Reading<'a>
        ensures old { result.old ≡ old.now }
        ensures none { result.read ≡ [] }
    {
        let (entries, values) = old.parts();
        Reading::beside_parts(entries, values, alloc)
    }

    /// The same beside a trace that is kept as its entries and, in order, their parameters.
    pub fn beside_parts(entries: &'a [Entry], values: &'a [i64], alloc: Global) -> Reading<'a>
        requires { arities entries.now ≡ length values.now }
        ensures old { result.old ≡ decoded entries.now values.now }
        ensures none { result.read ≡ [] }
    {
        Reading {
            entries,
            values,
            place: 0,
            kept: 0,
            agrees: true,
            own: Trace::new(alloc),
            alloc,
        }
    }

    /// It is the old trace, whole.
    pub fn is_same(&self) -> bool
        ensures { IsTrue result ↔ (self.now.old ≡ self.now.read) }
    {
        self.agrees && self.place == self.entries.len()
    }

    /// The next entry of the old trace is this one, and was passed.
    fn passes(&mut self, entry: &Entry, params: &[i64]) -> bool
        requires { length params.now ≡ arity_of entry.now }
        ensures old { self.new.old ≡ self.old.old }
        ensures passed { IsTrue result → AddsEntry self.old self.new entry.now params.now true }
        ensures left { result ≡ false → self.new ≡ self.old }
        ensures exact { IsTrue result ↔ IsFront (read_with self.old entry.now params.now) self.old.old }
    {
        if !self.agrees || self.place >= self.entries.len() {
            return false;
        }
        let next = &self.entries[self.place];
        let end = self.kept + next.arity() as usize;
        if !is_alike(next, &self.values[self.kept..end], entry, params) {
            return false;
        }
        self.place += 1;
        self.kept = end;
        true
    }

    /// Adds an entry to what was read, which from now on is written.
    fn write(&mut self, entry: Entry, params: &[i64]) -> Result<(), AllocError>
        requires arity { length params.now ≡ arity_of entry }
        requires left { IsFront (read_with self.old entry params.now) self.old.old → ⊥ }
        ensures old { self.new.old ≡ self.old.old }
        ensures added { OnOk result (AddsEntry self.old self.new entry params.now false) }
        ensures refused { OnErr result (self.new ≡ self.old) }
    {
        if !self.agrees {
            return self.own.add(entry, params);
        }
        let mut own = Trace::copied(
            self.alloc,
            &self.entries[..self.place],
            &self.values[..self.kept],
        )?;
        own.add(entry, params)?;
        self.own = own;
        self.agrees = false;
        Ok(())
    }

    /// The trace that was read. Where it is the old one (`is_same`), it need not be asked for.
    ///
    /// # Errors
    ///
    /// Out of memory, and only where all agreed.
    pub fn finish(self) -> Result<Trace, AllocError>
        ensures { IfOk result (λ t. t ≡ self.entry.read) }
    {
        if self.agrees {
            return Trace::copied(
                self.alloc,
                &self.entries[..self.place],
                &self.values[..self.kept],
            );
        }
        Ok(self.own)
    }

    /// How many entries were read.
    pub fn len(&self) -> usize
        ensures { result ≡ length self.now.read }
    {
        if self.agrees {
            self.place
        } else {
            self.own.len()
        }
    }

    /// Reads an entry, counts it, and tells whether there are too many now.
    ///
    /// # Errors
    ///
    /// Out of memory, and only where the entry isn't the next one of the old trace, all before having agreed. Nothing was
    /// then read or counted.
    pub(crate) fn note<V: Ledger>(
        &mut self,
        entry: Entry,
        params: &[i64],
        visited: &mut Counter<V>,
    ) -> Result<bool, AllocError>
        requires { length params.now ≡ arity_of entry }
        ensures old { self.new.old ≡ self.old.old }
        ensures added { IfOk result (λ far. self.new.read ≡ read_with self.old entry params.now) }
        ensures far { IfOk result (λ far. IsTrue far ↔ (most_entries < length self.new.read)) }
        ensures free { IsFront (read_with self.old entry params.now) self.old.old → IsOk result }
        ensures refused { OnErr result (self.new.read ≡ self.old.read) }
        ensures unchanged { OnErr result (self.new ≡ self.old) }
        ensures counted { visited.new + length self.old.read ≡ visited.old + length self.new.read }
    {
        if !self.passes(&entry, params) {
            self.write(entry, params)?;
        }
        visited.tick();
        Ok(self.len() > MOST_ENTRIES)
    }
}
