//! Whether contexts pass over the same modules.
ghost use Rattle.std.specs.Prelude.{◌≡◌, IfOk, OnOk, map};
ghost use Rattle.lsys_spec.specs.Standings.{same_filter, same_kind};
ghost use Rattle.lsys_module.specs.Views.{module_name};
ghost use Rattle.lsys_reading.specs.Commands.{list_kind_of};
ghost use Rattle.lsys_bodies.specs.Filters.{filter_of};
ghost use Rattle.lsys_front.specs.Listed.{ListsNames, are_all_listed, AddsName, TellsListed};

use lsys_bodies::Filter;
use lsys_rules::ListKind;
use lsys_text::Name;
use std::alloc::{AllocError, Global};
use std::collections::HashSet;

/// Whether contexts pass over the same modules by two filters, told by their lists: both list what to ignore or both what to
/// consider, and the same names, in whatever order. It costs steps by the number of names.
///
/// # Errors
///
/// Out of memory. None is taken where the lists are the same, in order.
pub(crate) fn have_same_names(
    alloc: Global,
    old: Filter<'_>,
    new: Filter<'_>,
) -> Result<bool, AllocError>
    ensures { IfOk result (λ same. same ≡ same_filter (filter_of old.entry) (filter_of new.entry)) }
{
    if !is_same_kind(old.kind, new.kind) {
        return Ok(false);
    }
    if old.names == new.names {
        return Ok(true);
    }
    Ok(are_listed(alloc, old.names, new.names)? && are_listed(alloc, new.names, old.names)?)
}

/// Both list what to ignore, or both what to consider.
fn is_same_kind(one: ListKind, two: ListKind) -> bool
    ensures { result ≡ same_kind (list_kind_of one) (list_kind_of two) }
{
    matches!(
        (one, two),
        (ListKind::Ignore, ListKind::Ignore) | (ListKind::Consider, ListKind::Consider)
    )
}

/// Each of the first names is among the others.
fn are_listed(alloc: Global, names: &[Name], others: &[Name]) -> Result<bool, AllocError>
    ensures { IfOk result (λ all. all ≡ are_all_listed names.now others.now) }
{
    let listed = listed_names(alloc, others)?;
    Ok(names.iter().all(|name| is_listed(&listed, *name)))
}

/// The set of these names.
fn listed_names(alloc: Global, names: &[Name]) -> Result<HashSet<Name>, AllocError>
    ensures { IfOk result (λ listed. ListsNames listed (map module_name names.now)) }
{
    let mut listed = HashSet::new(alloc);
    for name in names {
        list_name(&mut listed, *name)?;
    }
    Ok(listed)
}

/// Adds a name to a set of names.
fn list_name(listed: &mut HashSet<Name>, name: Name) -> Result<(), AllocError>
    ensures { OnOk result (AddsName listed.old listed.new name) }
{
    name.law_of_names();
    listed.insert(name)?;
    Ok(())
}

/// Whether a name is in a set of names.
fn is_listed(listed: &HashSet<Name>, name: Name) -> bool
    ensures { TellsListed listed.now name result }
{
    name.law_of_names();
    listed.contains(&name)
}
