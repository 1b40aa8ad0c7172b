//! The numbers of the symbols of a successor.
ghost use Rattle.std.specs.Prelude.{◌≡◌, ◌+◌, ◌<◌, [], IfOk, OnOk};
ghost use Rattle.lsys_spec.specs.Numbers.{code_of};
ghost use Rattle.lsys_module.specs.Views.{symbol_of};
ghost use Rattle.lsys_reading.specs.Commands.{numbering_of};
ghost use Rattle.lsys_children.specs.NumbersOf.{IsAfter, AreFew, GoesAfter, IsNumberOf, numbered_at};

use crate::number::Number;
use lsys_module::{Symbol, name_code};
use lsys_reading::Lineage;
use std::alloc::{AllocError, Global};
use std::collections::HashMap;

/// What tells the symbols of a successor, one after another, from each other.
#[derive(Drop)]
pub(crate) struct SuccessorNumbers {
    pub(crate) numbering: Lineage,
    // how many symbols there were
    pub(crate) symbols: u32,
    // by names, how many of each code
    pub(crate) counts: HashMap<u64, u32>,
}

impl SuccessorNumbers {
    /// Takes no memory.
    pub(crate) fn new(alloc: Global) -> SuccessorNumbers {
        SuccessorNumbers {
            numbering: Lineage::Places,
            symbols: 0,
            counts: HashMap::new(alloc),
        }
    }

    /// Begins with another successor.
    pub(crate) fn begin(&mut self, numbering: Lineage)
        ensures after { IsAfter 0 [] self.new }
        ensures numbering { self.new.numbering ≡ numbering }
    {
        self.numbering = numbering;
        self.symbols = 0;
        if !self.counts.is_empty() {
            self.counts.clear();
        }
    }

    /// The number of the next symbol, among those of one parent. Whether it is cut off does not matter.
    pub(crate) fn next(&mut self, symbol: &Symbol) -> Result<Number, AllocError>
        requires few { AreFew self.old }
        ensures number { IfOk result (IsNumberOf self.old (code_of (symbol_of symbol.now))) }
        ensures after { OnOk result (GoesAfter self.old self.new (code_of (symbol_of symbol.now))) }
        ensures numbering { self.new.numbering ≡ self.old.numbering }
    {
        let place = self.symbols;
        self.symbols += 1;
        match self.numbering {
            Lineage::Places => Ok(Number {
                code: 0,
                count: place,
            }),
            Lineage::Names => {
                let code = name_code(symbol);
                let count = self.counts.get(&code).copied().unwrap_or(0);
                self.counts.insert(code, count + 1)?;
                Ok(Number { code, count })
            }
        }
    }
}

/// The number of a symbol that stands first.
pub(crate) fn first_number(numbering: Lineage, symbol: &Symbol) -> Number
    ensures { result ≡ numbered_at (numbering_of numbering) 0 [] (code_of (symbol_of symbol.now)) }
{
    match numbering {
        Lineage::Places => Number { code: 0, count: 0 },
        Lineage::Names => Number {
            code: name_code(symbol),
            count: 0,
        },
    }
}
