//! Where the rows of a table stand in its cells.
ghost use Rattle.std.specs.Prelude.{◌≡◌, ◌+◌, ◌<◌, ◌≤◌, ◌^◌};
ghost use Rattle.lsys_reads.specs.Layout.{empty_head, kept_for, wanted, trimmed};

/// Where the row of a tag stands: it has `room` cells from `start` on, and its tags stand in the first `len` of them.
///
/// For `owed` tags more room is kept: in these cells, or after all rows, if these are too few.
#[derive(Clone, Copy, Drop)]
pub(crate) struct Head {
    pub(crate) start: usize,
    pub(crate) room: usize,
    pub(crate) len: usize,
    pub(crate) owed: usize,
}

impl Head {
    /// The head of a row with no tags.
    pub(crate) fn new() -> Head
        ensures { result ≡ empty_head }
    {
        Head {
            start: 0,
            room: 0,
            len: 0,
            owed: 0,
        }
    }

    /// How many cells are kept after all rows for this one.
    #[inline]
    pub(crate) fn wanted(self) -> usize
        requires { self.len + self.owed < 2 ^ 63 }
        ensures { result ≡ wanted self }
    {
        kept_for(self.len + self.owed, self.room)
    }

    /// The head, without its cells if it has no tags and is owed none.
    #[inline]
    pub(crate) fn trimmed(self) -> Head
        ensures { result ≡ trimmed self }
    {
        if self.len == 0 && self.owed == 0 {
            return Head::new();
        }
        self
    }
}

/// How many cells are kept after all rows for one that is to hold so many tags in so many cells: none, if these are
/// enough; else a sixteenth more than it needs, so that a row that grows for long is seldom moved.
#[inline]
pub(crate) fn kept_for(due: usize, room: usize) -> usize
    requires { due ≤ 2 ^ 63 }
    ensures { result ≡ kept_for due room }
{
    if due <= room { 0 } else { due + due / 16 }
}
