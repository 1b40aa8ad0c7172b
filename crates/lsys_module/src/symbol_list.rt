//! Strings of symbols.
ghost use Rattle.std.specs.Prelude.{◌≡◌, ◌<◌, ◌≤◌, ◌++◌, ◌∷◌, [], length, set, take, OnOk, OnErr, IsTrue, ◌↔◌};
ghost use Rattle.lsys_syntax.specs.Strings.{AreSymbols};
ghost use Rattle.lsys_module.specs.Views.{string_of};

use crate::symbol::{Symbol, law_of_symbols};
use std::alloc::{AllocError, Global};
use std::marker::Model;

/// A list of symbols. Its brackets need not be balanced.
#[derive(Drop)]
pub struct SymbolList {
    symbols: Vec<Symbol>,
}

impl Model for SymbolList {
    ghost use Rattle.std.specs.Prelude.{List};
    ghost use Rattle.lsys_module.specs.declared.symbol.Symbol.{Symbol};

    ghost Value = { List Symbol };

    ghost use Rattle.lsys_syntax.specs.Strings.{AreSymbols};
    ghost use Rattle.lsys_module.specs.Views.{string_of};

    ghost view = { λ a. a.symbols.items };

    ghost invariant = { λ a. AreSymbols (string_of a.symbols.items) };
}

impl SymbolList {
    /// The empty list, which takes no memory.
    pub fn new(alloc: Global) -> SymbolList
        ensures { result ≡ [] }
    {
        SymbolList {
            symbols: Vec::new(alloc),
        }
    }

    /// Makes room for so many symbols more, and for no others where it has to grow. The symbols stay.
    ///
    /// # Errors
    ///
    /// Out of memory.
    pub fn reserve(&mut self, more: usize) -> Result<(), AllocError>
        ensures { self.new ≡ self.old }
    {
        self.symbols.reserve_exact(more)
    }

    /// Adds a symbol at the end.
    ///
    /// # Errors
    ///
    /// Out of memory. The list is then as it was.
    pub fn push(&mut self, symbol: Symbol) -> Result<(), AllocError>
        ensures added { OnOk result (self.new ≡ self.old ++ symbol ∷ []) }
        ensures refused { OnErr result (self.new ≡ self.old) }
    {
        law_of_symbols(&symbol);
        self.symbols.push(symbol)?;
        Ok(())
    }

    /// Puts a symbol in the place of another.
    pub fn set(&mut self, place: usize, symbol: Symbol)
        requires { place < length self.old }
        ensures { self.new ≡ set self.old place symbol }
    {
        law_of_symbols(&symbol);
        self.symbols[place] = symbol;
    }

    /// Keeps the first `len` symbols.
    pub fn truncate(&mut self, len: usize)
        ensures { self.new ≡ take len self.old }
    {
        self.symbols.truncate(len);
    }

    /// The symbols, in order.
    pub fn symbols(&self) -> &[Symbol]
        ensures symbols { result.now ≡ self.now }
        ensures forms { AreSymbols (string_of self.now) }
    {
        self.symbols.as_slice()
    }

    /// How many symbols there are.
    pub fn len(&self) -> usize
        ensures { result ≡ length self.now }
    {
        self.symbols.len()
    }

    /// There is no symbol.
    pub fn is_empty(&self) -> bool
        ensures { IsTrue result ↔ (self.now ≡ []) }
    {
        self.symbols.is_empty()
    }
}

impl Clone for SymbolList {
    ghost is_clone = { λ a b. b ≡ a };

    fn clone(&self) -> Result<SymbolList, AllocError> {
        Ok(SymbolList {
            symbols: self.symbols.clone()?,
        })
    }
}
