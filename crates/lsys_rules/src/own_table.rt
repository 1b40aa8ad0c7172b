//! The own lists of a system's tables, in the order of the tables' words.
ghost use Rattle.std.specs.Prelude.{◌≡◌, [], IfOk, map};
ghost use Rattle.indexmap.specs.IndexMap.{values};
ghost use Rattle.lsys_spec.specs.Bodies.{filter_in};
ghost use Rattle.lsys_spec.specs.Edits.{put_own, without_own};
ghost use Rattle.lsys_module.specs.Views.{module_name};
ghost use Rattle.lsys_bodies.specs.Filters.{filter_of};
ghost use Rattle.lsys_rules.specs.InsideOwn.{AreByTable};
ghost use Rattle.lsys_rules.specs.OwnPlaces.{place_in};

use crate::names::comes_before;
use crate::own_list::OwnList;
use indexmap::IndexMap;
use lsys_bodies::Filter;
use lsys_reading::ListKind;
use lsys_text::{Name, Word};
use std::alloc::{AllocError, Global};
use std::marker::Model;
use std::rc::Rc;

/// Own lists by table, in the order of the tables' words.
#[derive(Drop)]
pub(crate) struct OwnLists {
    pub by_table: IndexMap<Word, OwnList>,
}

/// The own lists of tables, in the order of the tables' words, shared by the copies of a system. Contracts see them as
/// those of the definitions.
#[derive(Drop)]
pub struct OwnTable {
    lists: Rc<OwnLists>,
}

impl Model for OwnTable {
    ghost use Rattle.std.specs.Prelude.{List};
    ghost use Rattle.indexmap.specs.IndexMap.{values};
    ghost use Rattle.lsys_spec.specs.Systems.{Own};

    ghost Value = { List Own };

    ghost use Rattle.lsys_rules.specs.InsideOwn.{AreByTable};

    ghost view = { λ a. values a.lists.value.by_table };

    ghost invariant = { λ a. AreByTable a.lists.value.by_table };
}

impl OwnTable {
    /// No lists.
    ///
    /// # Errors
    ///
    /// Out of memory.
    pub fn new(alloc: Global) -> Result<OwnTable, AllocError>
        ensures { IfOk result (λ t. t ≡ []) }
    {
        OwnTable::of(alloc, IndexMap::new(alloc))
    }

    // These lists, each of which stands under its own table, before those of later words.
    fn of(alloc: Global, by_table: IndexMap<Word, OwnList>) -> Result<OwnTable, AllocError>
        requires { AreByTable by_table }
        ensures { IfOk result (λ t. t ≡ values by_table) }
    {
        let lists = OwnLists { by_table };
        Ok(OwnTable {
            lists: Rc::new(alloc, lists)?,
        })
    }

    /// The lists with this one in place of its table's, or at its place among the others.
    ///
    /// # Errors
    ///
    /// Out of memory.
    pub fn with(&self, alloc: Global, list: OwnList) -> Result<OwnTable, AllocError>
        ensures { IfOk result (λ t. t ≡ put_own list self.now) }
    {
        let table = list.table();
        let place = place_of(self.lists(), table);
        let mut by_table = copy_of(&self.lists)?;
        by_table.insert_before(place, table, list)?;
        OwnTable::of(alloc, by_table)
    }

    /// The lists without that of a table.
    ///
    /// # Errors
    ///
    /// Out of memory.
    pub fn without(&self, alloc: Global, table: Word) -> Result<OwnTable, AllocError>
        ensures { IfOk result (λ t. t ≡ without_own table self.now) }
    {
        let mut by_table = copy_of(&self.lists)?;
        by_table.shift_remove(&table);
        OwnTable::of(alloc, by_table)
    }

    /// The lists, in the order of their tables' words.
    pub fn lists(&self) -> &[OwnList]
        ensures { result.now ≡ self.now }
    {
        self.lists.by_table.values().as_slice()
    }

    /// The tables that have one, in the order of their words.
    pub fn tables(&self) -> &[Word]
        ensures { result.now ≡ map (λ o. o.table) self.now }
    {
        self.lists.by_table.keys().as_slice()
    }

    /// What contexts pass over on a level of this table: by its own list, or by the ignored names where it has none. The lists
    /// are looked through: there are no more than tables, few, and mostly none.
    pub fn filter<'a>(&'a self, table: Word, ignored: &'a [Name]) -> Filter<'a>
        ensures { filter_of result ≡ filter_in table self.now (map module_name ignored.now) }
    {
        for list in self.lists() {
            if list.table() == table {
                return list.filter();
            }
        }
        Filter {
            kind: ListKind::Ignore,
            names: ignored,
        }
    }
}

impl Clone for OwnTable {
    ghost is_clone = { λ a b. b ≡ a };

    fn clone(&self) -> Result<OwnTable, AllocError> {
        Ok(OwnTable {
            lists: self.lists.clone()?,
        })
    }
}

// A copy of the lists by table.
fn copy_of(lists: &OwnLists) -> Result<IndexMap<Word, OwnList>, AllocError>
    ensures { IfOk result (λ m. m.entries ≡ lists.now.by_table.entries) }
{
    lists.by_table.clone()
}

// How many lists stand before that of a table.
fn place_of(lists: &[OwnList], table: Word) -> usize
    ensures { result ≡ place_in lists.now table }
{
    lists
        .iter()
        .position(|list| !comes_before(list.table(), table))
        .unwrap_or(lists.len())
}
