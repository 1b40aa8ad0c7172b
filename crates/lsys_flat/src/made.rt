//! What is kept of the children of a level's symbols.
ghost use Rattle.std.specs.Prelude.{◌≡◌, ◌+◌, ◌*◌, ◌<◌, ◌≤◌, ◌^◌, length, IfSome, OnOk};
ghost use Rattle.lsys_spec.specs.Draws.{number_base};
ghost use Rattle.lsys_flat.specs.Grown.{nothing_grown, where_room, with_child, AddsByNumbers, IsFinished};

use crate::Origin;
use crate::level::Level;
use crate::numbers::ChildNumbers;
use lsys_draw::child_key;
use lsys_module::{Symbol, SymbolList};
use lsys_rewrite::{next_cutting, stays};
use std::alloc::{AllocError, Global};
use std::marker::Model;

/// What the cut leaves of children, while there is room.
#[derive(Drop)]
pub(crate) struct Made {
    symbols: SymbolList,
    origins: Vec<Origin>,
    keys: Vec<u64>,
    // how many symbols were replaced
    parents: u32,
    // Where a branch is being cut off, how many others are open in it.
    cutting: Option<usize>,
    // how many symbols the level may have
    room: usize,
    fits: bool,
}

impl Model for Made {
    ghost use Rattle.std.specs.Prelude.{◌≤◌, ◌*◌, ◌^◌, IfSome};
    ghost use Rattle.lsys_flat.specs.Grown.{Grown};

    ghost Value = { Grown };

    ghost view = { λ a. record {
      symbols = a.symbols;
      origins = a.origins.items;
      keys = a.keys.items;
      parents = a.parents;
      cutting = a.cutting;
      room = a.room;
      fits = a.fits;
    } };

    ghost invariant = { λ a. IfSome a.cutting (λ branches. branches ≤ a.parents * 2 ^ 32) };
}

impl Made {
    /// There were no children yet. Takes no memory.
    pub(crate) fn new(alloc: Global, room: usize) -> Made
        ensures { result ≡ nothing_grown room }
    {
        Made {
            symbols: SymbolList::new(alloc),
            origins: Vec::new(alloc),
            keys: Vec::new(alloc),
            parents: 0,
            cutting: None,
            room,
            fits: true,
        }
    }

    /// Adds the children of the next symbol of the level before, which has this key.
    ///
    /// # Errors
    ///
    /// Out of memory. What was made is of no use then.
    pub(crate) fn add_children(
        &mut self,
        numbers: &mut ChildNumbers,
        key: u64,
        successor: &[Symbol],
    ) -> Result<(), AllocError>
        requires parents { self.old.parents + 1 < 2 ^ 32 }
        requires few { length successor.now ≤ number_base }
        ensures added { OnOk result (AddsByNumbers key successor.now numbers self) }
        ensures parents { OnOk result (self.new.parents ≡ self.old.parents + 1) }
        ensures room { OnOk result (self.new.room ≡ self.old.room) }
        ensures numbering { OnOk result (numbers.new.numbering ≡ numbers.old.numbering) }
    {
        let parent = self.parents;
        self.parents += 1;
        numbers.begin();
        for symbol in successor {
            let origin = numbers.next(parent, symbol)?;
            self.add_child(origin, key, symbol)?;
        }
        Ok(())
    }

    // Adds a child of a symbol with this key, unless it is cut off or has no room.
    fn add_child(&mut self, origin: Origin, key: u64, symbol: &Symbol) -> Result<(), AllocError>
        requires depth { IfSome self.old.cutting (λ branches. branches < self.old.parents * 2 ^ 32) }
        requires few { origin.count < number_base }
        ensures added { OnOk result (self.new ≡ with_child origin key symbol.now self.old) }
        ensures parents { self.new.parents ≡ self.old.parents }
        ensures room { self.new.room ≡ self.old.room }
    {
        if !self.fits {
            return Ok(());
        }
        let is_kept = stays(self.cutting, symbol);
        self.cutting = next_cutting(self.cutting, symbol);
        if is_kept {
            self.add_symbol(origin, key, symbol)?;
        }
        Ok(())
    }

    // Adds a symbol whose parent has this key, unless it has no room.
    fn add_symbol(&mut self, origin: Origin, key: u64, symbol: &Symbol) -> Result<(), AllocError>
        requires few { origin.count < number_base }
        ensures added { OnOk result (self.new ≡ where_room origin key symbol.now self.old) }
        ensures parents { self.new.parents ≡ self.old.parents }
        ensures room { self.new.room ≡ self.old.room }
    {
        if self.symbols.len() == self.room {
            self.fits = false;
            return Ok(());
        }
        self.symbols.push(*symbol)?;
        self.origins.push(origin)?;
        self.keys.push(child_key(key, origin.code, origin.count))?;
        Ok(())
    }

    /// The level, where it has room.
    pub(crate) fn finish(self) -> Option<Level>
        ensures { IsFinished self result }
    {
        if !self.fits {
            return None;
        }
        Some(Level {
            symbols: self.symbols,
            origins: self.origins,
            keys: self.keys,
        })
    }
}
