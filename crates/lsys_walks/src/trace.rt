//! What walks read.
ghost use Rattle.std.specs.Prelude.{◌≡◌, ◌++◌, ◌∷◌, [], length, IfOk, OnOk, OnErr};
ghost use Rattle.lsys_walks.specs.Parts.{arity_of};
ghost use Rattle.lsys_walks.specs.Views.{noted_of, decoded, arities};

use crate::entry::Entry;
use std::alloc::{AllocError, Global};
use std::marker::Model;

/// A question reads at most so many entries; at one more the module is too far.
pub(crate) const MOST_ENTRIES: usize = 1024;

/// The trace of a question: entries, and in order the parameters of their modules.
#[derive(Drop)]
pub struct Trace {
    entries: Vec<Entry>,
    values: Vec<i64>,
}

impl Model for Trace {
    ghost use Rattle.std.specs.Prelude.{◌≡◌, List, length};
    ghost use Rattle.lsys_walks.specs.Noted.{Noted};
    ghost use Rattle.lsys_walks.specs.Views.{decoded, arities};

    ghost Value = { List Noted };

    ghost view = { λ a. decoded a.entries.items a.values.items };

    ghost invariant = { λ a. arities a.entries.items ≡ length a.values.items };
}

impl Trace {
    /// A trace without entries. Takes no memory.
    pub fn new(alloc: Global) -> Trace
        ensures { result ≡ [] }
    {
        Trace {
            entries: Vec::new(alloc),
            values: Vec::new(alloc),
        }
    }

    /// How many entries there are.
    pub fn len(&self) -> usize
        ensures { result ≡ length self.now }
    {
        self.entries.len()
    }

    /// The entries, and in order their parameters.
    pub fn parts(&self) -> (&[Entry], &[i64])
        ensures decoded { decoded result.0.now result.1.now ≡ self.now }
        ensures fitting { arities result.0.now ≡ length result.1.now }
    {
        (&self.entries, &self.values)
    }

    /// A trace with these entries, whose parameters stand in order. Without entries it takes no memory.
    ///
    /// # Errors
    ///
    /// Out of memory.
    pub(crate) fn copied(
        alloc: Global,
        entries: &[Entry],
        values: &[i64],
    ) -> Result<Trace, AllocError>
        requires { arities entries.now ≡ length values.now }
        ensures { IfOk result (λ t. t ≡ decoded entries.now values.now) }
    {
        if entries.is_empty() {
            return Ok(Trace::new(alloc));
        }
        let mut all = Vec::new(alloc);
        all.extend_from_slice(entries)?;
        let mut params = Vec::new(alloc);
        params.extend_from_slice(values)?;
        Ok(Trace {
            entries: all,
            values: params,
        })
    }

    /// Adds an entry with its parameters.
    ///
    /// # Errors
    ///
    /// Out of memory. The trace is then as it was.
    pub(crate) fn add(&mut self, entry: Entry, params: &[i64]) -> Result<(), AllocError>
        requires { length params.now ≡ arity_of entry }
        ensures added { OnOk result (self.new ≡ self.old ++ noted_of entry params.now ∷ []) }
        ensures refused { OnErr result (self.new ≡ self.old) }
    {
        let kept = self.values.len();
        add_values(&mut self.values, params)?;
        if self.entries.push(entry).is_err() {
            self.values.truncate(kept);
            return Err(AllocError);
        }
        Ok(())
    }
}

/// Adds values after these. Where there are none to add it does nothing.
///
/// # Errors
///
/// Out of memory. The values are then as they were.
#[inline]
fn add_values(list: &mut Vec<i64>, values: &[i64]) -> Result<(), AllocError>
    ensures added { OnOk result (list.new.items ≡ list.old.items ++ values.now) }
    ensures refused { OnErr result (list.new.items ≡ list.old.items) }
{
    if values.is_empty() {
        return Ok(());
    }
    list.extend_from_slice(values)
}
