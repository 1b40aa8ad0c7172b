//! Levels as vectors.
ghost use Rattle.std.specs.Prelude.{◌≡◌, ◌++◌, ◌∷◌, [], length, true, false, OnOk, OnErr};
ghost use Rattle.lsys_syntax.specs.Strings.{balanced};
ghost use Rattle.lsys_module.specs.Views.{string_of};
ghost use Rattle.lsys_level.specs.Tags.{HasOwnTags};
ghost use Rattle.lsys_level.specs.Places.{spots_of, has_cut};

use crate::row::Row;
use crate::sight::Sight;
use crate::spot::FlatSpot;
use crate::tag::Tag;
use crate::view::LevelView;
use lsys_module::SymbolList;
use std::alloc::{AllocError, Global};
use std::marker::Model;

/// One vector per level.
#[derive(Drop)]
pub struct FlatLevels {
    rows: Vec<Row>,
    alloc: Global,
}

impl Model for FlatLevels {
    ghost use Rattle.std.specs.Prelude.{List};
    ghost use Rattle.lsys_level.specs.Spots.{Spotted};
    ghost use Rattle.lsys_level.specs.Tags.{HasOwnTags};

    ghost Value = { List (List Spotted) };

    ghost view = { λ a. a.rows.items };

    ghost invariant = { λ a. HasOwnTags a.rows.items };
}

impl FlatLevels {
    /// No level. Takes no memory.
    pub fn new(alloc: Global) -> FlatLevels
        ensures { result ≡ [] }
    {
        FlatLevels {
            rows: Vec::new(alloc),
            alloc,
        }
    }

    /// Adds the next level: balanced, without cuts, with a key and a tag for each symbol. No tag stands twice in it, or
    /// also in a level before it.
    ///
    /// # Errors
    ///
    /// Out of memory. The levels are then as they were.
    pub fn push_level(
        &mut self,
        symbols: SymbolList,
        tags: Vec<Tag>,
        keys: Vec<u64>,
    ) -> Result<(), AllocError>
        requires tags { length tags.items ≡ length symbols }
        requires keys { length keys.items ≡ length symbols }
        requires balance { balanced 0 (string_of symbols) ≡ true }
        requires whole { has_cut symbols ≡ false }
        requires own { HasOwnTags (self.old ++ spots_of symbols tags.items keys.items ∷ []) }
        ensures added { OnOk result (self.new ≡ self.old ++ spots_of symbols tags.items keys.items ∷ []) }
        ensures refused { OnErr result (self.new ≡ self.old) }
    {
        let row = Row::of(
            self.alloc,
            symbols.symbols(),
            tags.as_slice(),
            keys.as_slice(),
        )?;
        self.rows.push(row)?;
        Ok(())
    }
}

impl LevelView for FlatLevels {
    type Spot = FlatSpot;

    ghost levels = { λ v. v };

    ghost level_of = { λ v s. s.level };

    ghost place_of = { λ v s. s.place };

    fn first(&self, level: u32) -> Option<FlatSpot> {
        if self.rows[level as usize].len() == 0 {
            return None;
        }
        Some(FlatSpot { level, place: 0 })
    }

    fn left(&self, spot: FlatSpot) -> Option<FlatSpot> {
        if spot.place == 0 {
            return None;
        }
        Some(FlatSpot {
            level: spot.level,
            place: spot.place - 1,
        })
    }

    fn right(&self, spot: FlatSpot) -> Option<FlatSpot> {
        if self.rows[spot.level as usize].len() - spot.place == 1 {
            return None;
        }
        Some(FlatSpot {
            level: spot.level,
            place: spot.place + 1,
        })
    }

    fn mate(&self, spot: FlatSpot) -> FlatSpot {
        FlatSpot {
            level: spot.level,
            place: self.rows[spot.level as usize].mate(spot.place),
        }
    }

    fn sight(&self, spot: FlatSpot) -> Sight<'_> {
        self.rows[spot.level as usize].sight(spot.place)
    }

    fn tag(&self, spot: FlatSpot) -> Tag {
        self.rows[spot.level as usize].tag(spot.place)
    }

    fn key(&self, spot: FlatSpot) -> u64 {
        self.rows[spot.level as usize].key(spot.place)
    }
}
