//! How long the levels are.
ghost use Rattle.std.specs.Prelude.{◌≡◌, ◌≤◌, ◌+◌, [], length, OnOk};
ghost use Rattle.lsys_pass.specs.Sizes.{total_of, symbols_at, opens_at, with_open, with_level};

use std::alloc::{AllocError, Global};
use std::mem::swap;

/// Of a level: how many symbols it has, and whether a cut among what replaces one of them reaches what stands after it.
#[derive(Clone, Copy, Drop)]
pub struct Size {
    pub symbols: usize,
    pub is_open: bool,
}

/// The sizes of the levels of the last rest, and of those that were made since.
#[derive(Drop)]
pub(crate) struct Sizes {
    pub(crate) rest: Vec<Size>,
    pub(crate) made: Vec<Size>,
}

impl Sizes {
    /// Of no levels. It takes no memory.
    pub(crate) fn new(alloc: Global) -> Sizes
        ensures rest { result.rest.items ≡ [] }
        ensures made { result.made.items ≡ [] }
    {
        Sizes {
            rest: Vec::new(alloc),
            made: Vec::new(alloc),
        }
    }

    /// The levels that were made take the place of the others. It takes no memory.
    pub(crate) fn keep(&mut self)
        ensures rest { self.new.rest.items ≡ self.old.made.items }
        ensures made { self.new.made.items ≡ [] }
    {
        swap(&mut self.rest, &mut self.made);
        self.made.clear();
    }

    /// How many symbols a level had at the last rest; none, where it was not there.
    pub(crate) fn symbols_of(&self, level: usize) -> usize
        ensures { result ≡ symbols_at self.now.rest.items level }
    {
        symbols_at(&self.rest, level)
    }

    /// How many symbols a level has that was made; none, where it was not made.
    pub(crate) fn symbols_made(&self, level: usize) -> usize
        ensures { result ≡ symbols_at self.now.made.items level }
    {
        symbols_at(&self.made, level)
    }

    /// Whether a cut on a level reached what stands after it at the last rest; where the level was not there, none did.
    pub(crate) fn was_open(&self, level: u32) -> bool
        ensures { result ≡ opens_at self.now.rest.items level }
    {
        match self.rest.get(level as usize) {
            Some(size) => size.is_open,
            None => false,
        }
    }

    /// Tells of the level that was made last whether a cut on it reaches what stands after it. It takes no memory.
    pub(crate) fn tell_open(&mut self, is_open: bool)
        ensures rest { self.new.rest.items ≡ self.old.rest.items }
        ensures made { self.new.made.items ≡ with_open self.old.made.items is_open }
    {
        set_last(&mut self.made, is_open);
    }

    /// Adds a level that was made, of so many symbols.
    ///
    /// # Errors
    ///
    /// Out of memory. The sizes stay then.
    pub(crate) fn add(&mut self, symbols: usize) -> Result<(), AllocError>
        ensures rest { self.new.rest.items ≡ self.old.rest.items }
        ensures made { OnOk result (self.new.made.items ≡ with_level self.old.made.items symbols) }
    {
        self.made.reserve(1)?;
        self.made.push_reserved(Size {
            symbols,
            is_open: false,
        });
        Ok(())
    }

    /// Forgets the levels that were made. It takes no memory.
    pub(crate) fn forget(&mut self)
        ensures rest { self.new.rest.items ≡ self.old.rest.items }
        ensures made { self.new.made.items ≡ [] }
    {
        self.made.clear();
    }
}

/// How many symbols a limit leaves room for beside these levels.
pub(crate) fn room_under(limit: u32, sizes: &[Size]) -> usize
    requires { total_of sizes.now ≤ limit }
    ensures { result + total_of sizes.now ≡ limit }
{
    let mut room = limit as usize;
    for size in sizes {
        room -= size.symbols;
    }
    room
}

/// Tells of the last of these levels, if there is one, whether it is open.
fn set_last(sizes: &mut [Size], is_open: bool)
    ensures set { sizes.new ≡ with_open sizes.old is_open }
    ensures many { length sizes.new ≡ length sizes.old }
{
    let levels = sizes.len();
    if levels > 0 {
        sizes[levels - 1].is_open = is_open;
    }
}

/// How many symbols a level has by these sizes; none, where they don't tell it.
fn symbols_at(sizes: &[Size], level: usize) -> usize
    ensures { result ≡ symbols_at sizes.now level }
{
    match sizes.get(level) {
        Some(size) => size.symbols,
        None => 0,
    }
}
