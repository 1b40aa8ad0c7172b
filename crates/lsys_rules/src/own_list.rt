//! A table's own list of names.
ghost use Rattle.std.specs.Prelude.{◌≡◌, map};
ghost use Rattle.lsys_module.specs.Views.{module_name};
ghost use Rattle.lsys_reading.specs.Commands.{list_kind_of};
ghost use Rattle.lsys_bodies.specs.Filters.{filter_of};

use lsys_bodies::Filter;
use lsys_reading::ListKind;
use lsys_text::{Name, Word};
use std::alloc::AllocError;
use std::marker::Model;

/// A table's own list of names, each of which stands once. Contracts see it as that of the definitions.
#[derive(Drop)]
pub struct OwnList {
    table: Word,
    kind: ListKind,
    names: Vec<Name>,
}

impl Model for OwnList {
    ghost use Rattle.lsys_spec.specs.Systems.{Own};

    ghost Value = { Own };

    ghost use Rattle.lsys_rules.specs.InsideOwn.{own_in};

    ghost view = { own_in };
}

impl OwnList {
    // The list of a table with these names.
    pub(crate) fn new(table: Word, kind: ListKind, names: Vec<Name>) -> OwnList
        ensures table { result.table ≡ table }
        ensures kind { result.kind ≡ list_kind_of kind }
        ensures names { result.names ≡ map module_name names.items }
    {
        OwnList { table, kind, names }
    }

    /// The table.
    pub fn table(&self) -> Word
        ensures { result ≡ self.now.table }
    {
        self.table
    }

    /// What contexts pass over by the list.
    pub fn filter(&self) -> Filter<'_>
        ensures { filter_of result ≡ record { kind = self.now.kind; names = self.now.names } }
    {
        Filter {
            kind: self.kind,
            names: &self.names,
        }
    }
}

impl Clone for OwnList {
    ghost is_clone = { λ a b. b ≡ a };

    fn clone(&self) -> Result<OwnList, AllocError> {
        Ok(OwnList {
            table: self.table,
            kind: self.kind,
            names: self.names.clone()?,
        })
    }
}
