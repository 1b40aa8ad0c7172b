//! A level as a vector.
ghost use Rattle.std.specs.Prelude.{◌≡◌, ◌+◌, ◌<◌, ◌≤◌, length, take, drop, true, false, map, slice_get, option_map, Some, IfOk};
ghost use Rattle.lsys_syntax.specs.Strings.{balanced};
ghost use Rattle.lsys_module.specs.Views.{string_of};
ghost use Rattle.lsys_level.specs.Spots.{IsBracketAt, IsMate};
ghost use Rattle.lsys_level.specs.Views.{seen_of, HasFewParams};
ghost use Rattle.lsys_level.specs.Places.{spots_of, has_cut};

use crate::mates::mates_of;
use crate::place::{KeptKind, KeptSymbol, params_of};
use crate::sight::Sight;
use crate::tag::Tag;
use lsys_module::Symbol;
use std::alloc::{AllocError, Global};
use std::marker::Model;

/// The symbols of a level, and the parameters of all its modules, one module after the other.
#[derive(Drop)]
pub(crate) struct Row {
    places: Vec<KeptSymbol>,
    values: Vec<i64>,
}

impl Model for Row {
    ghost use Rattle.std.specs.Prelude.{List, map};
    ghost use Rattle.lsys_level.specs.Spots.{Spotted};
    ghost use Rattle.lsys_level.specs.Places.{spotted, IsSoundRow};

    ghost Value = { List Spotted };

    ghost view = { λ a. map (spotted a.values.items) a.places.items };

    ghost invariant = { λ a. IsSoundRow a.places.items a.values.items };
}

impl Row {
    /// A row of these symbols, with one tag and one key each. Nothing is left over in its vectors.
    pub(crate) fn of(
        alloc: Global,
        symbols: &[Symbol],
        tags: &[Tag],
        keys: &[u64],
    ) -> Result<Row, AllocError>
        requires tags { length tags.now ≡ length symbols.now }
        requires keys { length keys.now ≡ length symbols.now }
        requires balance { balanced 0 (string_of symbols.now) ≡ true }
        requires whole { has_cut symbols.now ≡ false }
        ensures { IfOk result (λ row. row ≡ spots_of symbols.now tags.now keys.now) }
    {
        let mates = mates_of(alloc, symbols)?;
        let mut places = Vec::with_capacity(alloc, symbols.len())?;
        let mut values = Vec::with_capacity(alloc, count_params(symbols))?;
        for place in 0..symbols.len() {
            let start = values.len();
            let kept = KeptSymbol::of(
                &symbols[place],
                mates[place],
                start,
                tags[place],
                keys[place],
            );
            places.push(kept)?;
            values.extend_from_slice(params_of(&symbols[place]))?;
        }
        Ok(Row { places, values })
    }

    pub(crate) fn len(&self) -> usize
        ensures { result ≡ length self.now }
    {
        self.places.len()
    }

    pub(crate) fn mate(&self, place: usize) -> usize
        requires within { place < length self.now }
        requires bracket { IsBracketAt self.now place }
        ensures { IsMate self.now place result }
    {
        self.places[place].link
    }

    pub(crate) fn sight(&self, place: usize) -> Sight<'_>
        requires { place < length self.now }
        ensures few { HasFewParams result }
        ensures seen { option_map (λ s. s.seen) (slice_get self.now place) ≡ Some (seen_of result) }
    {
        let kept = self.places[place];
        match kept.kind {
            KeptKind::Push => Sight::Push,
            KeptKind::Pop => Sight::Pop,
            KeptKind::Module => Sight::Module {
                name: kept.name,
                params: part(self.values.as_slice(), kept.link, kept.arity as usize),
            },
        }
    }

    pub(crate) fn tag(&self, place: usize) -> Tag
        requires { place < length self.now }
        ensures { option_map (λ s. s.tag) (slice_get self.now place) ≡ Some result }
    {
        self.places[place].tag
    }

    pub(crate) fn key(&self, place: usize) -> u64
        requires { place < length self.now }
        ensures { option_map (λ s. s.key) (slice_get self.now place) ≡ Some result }
    {
        self.places[place].key
    }
}

/// So many values from this place on.
fn part(values: &[i64], start: usize, len: usize) -> &[i64]
    requires { start + len ≤ length values.now }
    ensures { result.now ≡ take len (drop start values.now) }
{
    &values[start..start + len]
}

/// How many parameters the symbols have in all: the room that they take.
fn count_params(symbols: &[Symbol]) -> usize {
    let mut count: usize = 0;
    for symbol in symbols {
        count = count.saturating_add(params_of(symbol).len());
    }
    count
}
