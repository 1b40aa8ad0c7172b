//! The values that an undo and a redo lead to.
ghost use Rattle.std.specs.Prelude.{◌≡◌, ◌≢◌, [], Some, IfOk, option_copied};
ghost use Rattle.lsys_history.specs.Timelines.{after_edit, nearest, nothing_kept, redone, after_undo};

use circular_buffer::HeapCircularBuffer;
use std::alloc::{AllocError, Global};
use std::marker::Model;

// So many values are kept in all.
const MOST_KEPT: usize = 32;

/// The values before the present one and those that were undone, at most 32 in all, in two rings. Contracts see two lists,
/// the nearest value of each at its end.
///
/// Memory is taken by [`History::new`] alone.
#[derive(Drop)]
pub struct History<T: Drop> {
    past: HeapCircularBuffer<T>,
    future: HeapCircularBuffer<T>,
}

impl<T: Drop> Model for History<T> {
    ghost use Rattle.std.specs.Prelude.{◌+◌, ◌≤◌, ◌≡◌, length};
    ghost use Rattle.lsys_history.specs.Timelines.{Timeline, most_kept, timeline, timeline_code};

    ghost Value = { Timeline T };

    ghost coded = { timeline_code T.code };

    ghost view = { λ h. timeline h.past.items h.future.items };

    ghost invariant = { λ h. record {
      past : h.past.capacity ≡ most_kept;
      future : h.future.capacity ≡ most_kept;
      few : length h.past.items + length h.future.items ≤ most_kept;
    } };
}

impl<T: Drop> History<T> {
    /// Nothing is kept.
    ///
    /// # Errors
    ///
    /// Out of memory.
    pub fn new(alloc: Global) -> Result<History<T>, AllocError>
        ensures { IfOk result (λ h. h ≡ nothing_kept) }
    {
        Ok(History {
            past: HeapCircularBuffer::with_capacity(alloc, MOST_KEPT)?,
            future: HeapCircularBuffer::with_capacity(alloc, MOST_KEPT)?,
        })
    }

    /// Keeps the value from which an edit led away. Of 33 earlier ones the first is dropped, and what was undone is
    /// forgotten.
    pub fn keep(&mut self, old: T)
        ensures { self.new ≡ after_edit self.old old }
    {
        self.past.push_back(old);
        self.future.clear();
    }

    /// The value to which an undo leads; none where nothing is kept of the past.
    pub fn last(&self) -> Option<&T>
        ensures { option_copied result ≡ nearest self.now.past }
    {
        self.past.back()
    }

    /// The value to which a redo leads; none where nothing was undone since the last edit.
    pub fn next(&self) -> Option<&T>
        ensures { option_copied result ≡ nearest self.now.future }
    {
        self.future.back()
    }

    /// Hands back the value before the present one, which is kept as undone.
    pub fn step_back(&mut self, present: T) -> T
        requires { self.old.past ≢ [] }
        ensures value { nearest self.old.past ≡ Some result }
        ensures steps { self.new ≡ after_undo self.old present }
    {
        let last = self.past.pop_back();
        self.future.push_back(present);
        last.unwrap()
    }

    /// Hands back the value that was undone last, and keeps the present one as an earlier one.
    pub fn step_on(&mut self, present: T) -> T
        requires { self.old.future ≢ [] }
        ensures value { nearest self.old.future ≡ Some result }
        ensures steps { self.new ≡ redone self.old present }
    {
        let next = self.future.pop_back();
        self.past.push_back(present);
        next.unwrap()
    }
}
