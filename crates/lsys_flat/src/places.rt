//! Old symbols by their origins.
ghost use Rattle.std.specs.Prelude.{◌≡◌, ◌<◌, ◌^◌, [], length, IfOk, OnOk, IfSome, IfNone};
ghost use Rattle.std.specs.List.{Contains};
ghost use Rattle.std.specs.List.Sorted.{IsSortedByKey};
ghost use Rattle.lsys_flat.specs.Lookups.{origin_cmp, IsPlaceOf, ArePlacesOf, AreSorted, StandsAt, StandsNowhere};

use crate::origin::Origin;
use std::alloc::{AllocError, Global};

/// An old symbol.
#[derive(Clone, Copy)]
pub(crate) struct Placed {
    pub(crate) origin: Origin,
    pub(crate) place: u32,
}

/// Where the symbols of an old level stand, by their origins.
#[derive(Drop)]
pub(crate) struct Places {
    // after the last one that was found
    next: usize,
    // in the order of their origins, once one was looked for that doesn't stand there
    pub(crate) sorted: Vec<Placed>,
}

impl Places {
    /// None was looked for. Takes no memory.
    pub(crate) fn new(alloc: Global) -> Places
        ensures { result.sorted.items ≡ [] }
    {
        Places {
            next: 0,
            sorted: Vec::new(alloc),
        }
    }

    /// The place of the old symbol of an origin: the one after the last that was found, or else by halves.
    pub(crate) fn find(
        &mut self,
        alloc: Global,
        old: &[Origin],
        wanted: Origin,
    ) -> Result<Option<u32>, AllocError>
        requires few { length old.now < 2 ^ 32 }
        requires sorted { AreSorted old.now self.old.sorted.items }
        ensures found { IfOk result (IsPlaceOf old.now wanted) }
        ensures sorted { OnOk result (AreSorted old.now self.new.sorted.items) }
    {
        let found = if self.next < old.len() && old[self.next] == wanted {
            Some(self.next as u32)
        } else {
            self.look_up(alloc, old, wanted)?
        };
        if let Some(place) = found {
            self.next = place as usize + 1;
        }
        Ok(found)
    }

    // The place of the old symbol of an origin among the sorted ones.
    fn look_up(
        &mut self,
        alloc: Global,
        old: &[Origin],
        wanted: Origin,
    ) -> Result<Option<u32>, AllocError>
        requires few { length old.now < 2 ^ 32 }
        requires sorted { AreSorted old.now self.old.sorted.items }
        ensures found { IfOk result (IsPlaceOf old.now wanted) }
        ensures sorted { OnOk result (AreSorted old.now self.new.sorted.items) }
    {
        if self.sorted.is_empty() {
            self.sorted = sorted(alloc, old)?;
        }
        Ok(search(self.sorted.as_slice(), wanted))
    }
}

// The symbols of an old level in the order of their origins.
fn sorted(alloc: Global, old: &[Origin]) -> Result<Vec<Placed>, AllocError>
    requires few { length old.now < 2 ^ 32 }
    ensures { IfOk result (λ all. ArePlacesOf old.now all.items) }
{
    let mut all = Vec::with_capacity(alloc, old.len())?;
    for place in 0..old.len() {
        all.push(Placed {
            origin: old[place],
            place: place as u32,
        })?;
    }
    all.sort_unstable_by_key(|placed| placed.origin);
    Ok(all)
}

// The place of the one of an origin.
fn search(sorted: &[Placed], wanted: Origin) -> Option<u32>
    requires order { IsSortedByKey (λ p. p.origin) origin_cmp sorted.now }
    ensures found { IfSome result (StandsAt sorted.now wanted) }
    ensures none { IfNone result (StandsNowhere sorted.now wanted) }
{
    match sorted.binary_search_by_key(&wanted, |placed| placed.origin) {
        Ok(at) => Some(sorted[at].place),
        Err(_) => None,
    }
}
