//! Where children come from.
ghost use Rattle.std.specs.Prelude.{◌≡◌, [], IfOk, OnOk};
ghost use Rattle.lsys_flat.specs.Counts.{CountsChild, HasNumbered, HasNumbersLeft, IsNextOrigin};

use crate::Origin;
use lsys_module::{Symbol, name_code};
use lsys_reading::Lineage;
use std::alloc::{AllocError, Global};
use std::collections::HashMap;

/// What tells the children of a symbol, one after another, from each other.
#[derive(Drop)]
pub(crate) struct ChildNumbers {
    pub(crate) numbering: Lineage,
    // how many children there were
    pub(crate) children: u32,
    // by names, how many of each code
    pub(crate) counts: HashMap<u64, u32>,
}

impl ChildNumbers {
    /// Takes no memory.
    pub(crate) fn new(alloc: Global, numbering: Lineage) -> ChildNumbers
        ensures { result.numbering ≡ numbering }
    {
        ChildNumbers {
            numbering,
            children: 0,
            counts: HashMap::new(alloc),
        }
    }

    /// Begins with the children of another symbol.
    pub(crate) fn begin(&mut self)
        ensures after { HasNumbered 0 [] self.new }
        ensures numbering { self.new.numbering ≡ self.old.numbering }
    {
        self.children = 0;
        self.counts.clear();
    }

    /// Where the next child comes from, of the parent at this place.
    pub(crate) fn next(&mut self, parent: u32, child: &Symbol) -> Result<Origin, AllocError>
        requires few { HasNumbersLeft self.old }
        ensures origin { IfOk result (IsNextOrigin self.old parent child.now) }
        ensures after { OnOk result (CountsChild child.now self.old self.new) }
        ensures numbering { self.new.numbering ≡ self.old.numbering }
    {
        let place = self.children;
        self.children += 1;
        match self.numbering {
            Lineage::Places => Ok(Origin {
                parent,
                code: 0,
                count: place,
            }),
            Lineage::Names => {
                let code = name_code(child);
                let count = self.counts.get(&code).copied().unwrap_or(0);
                self.counts.insert(code, count + 1)?;
                Ok(Origin {
                    parent,
                    code,
                    count,
                })
            }
        }
    }
}
