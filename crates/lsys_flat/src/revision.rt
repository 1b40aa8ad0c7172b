//! New levels beside old ones.
ghost use Rattle.std.specs.Prelude.{◌≡◌, ◌+◌, ◌++◌, ◌∷◌, ◌<◌, ◌^◌, true, false, List, [], length, map, slice_index_or, IfOk, OnOk};
ghost use Rattle.std.specs.List.{All};
ghost use Rattle.lsys_syntax.specs.Strings.{balanced};
ghost use Rattle.lsys_module.specs.Views.{string_of};
ghost use Rattle.lsys_level.specs.Places.{has_cut};
ghost use Rattle.lsys_level.specs.Spots.{Spotted};
ghost use Rattle.lsys_level.specs.Tags.{HasOwnTags};
ghost use Rattle.lsys_flat.specs.Lines.{line_of, no_line};
ghost use Rattle.lsys_flat.specs.Supplies.{tags_held};
ghost use Rattle.lsys_flat.specs.Revised.{with_next_level, CanAdd, GrowsByLevel, IsBegunBeside, NamesBeside};

use crate::ancestry::Ancestry;
use crate::origin::Origin;
use crate::{Level, TagSupply, pair};
use lsys_level::{FlatLevels, Tag};
use std::alloc::{AllocError, Global};
use std::marker::Model;

/// The levels of a changed system, as far as they were made, beside the old ones.
#[derive(Drop)]
pub struct Revision<'a> {
    olds: &'a [Ancestry],
    view: FlatLevels,
    ancestries: Vec<Ancestry>,
    supply: TagSupply,
    mates: Vec<Option<u32>>,
    alloc: Global,
}

impl<'a> Model for Revision<'a> {
    ghost use Rattle.std.specs.Prelude.{map};
    ghost use Rattle.lsys_flat.specs.Lines.{line_of};
    ghost use Rattle.lsys_flat.specs.Revised.{Revised};

    ghost Value = { Revised };

    ghost view = { λ a. record {
      old_lines = map line_of a.olds.now;
      view = a.view;
      lines = map line_of a.ancestries.items;
      supply = a.supply;
      mates = a.mates.items;
    } };
}

impl<'a> Revision<'a> {
    /// No new level was made yet. The tags of the old levels are in use.
    ///
    /// # Errors
    ///
    /// Out of memory.
    pub fn new(alloc: Global, olds: &'a [Ancestry]) -> Result<Revision<'a>, AllocError>
        ensures begun { IfOk result (IsBegunBeside (map line_of olds.now)) }
        ensures olds { IfOk result (λ r. r.old_lines ≡ map line_of olds.now) }
    {
        let mut supply = TagSupply::new(alloc);
        for ancestry in olds {
            supply.mark_all(ancestry.tags.as_slice())?;
        }
        let mut mates = Vec::new(alloc);
        mates.push(Some(0))?;
        Ok(Revision {
            olds,
            view: FlatLevels::new(alloc),
            ancestries: Vec::new(alloc),
            supply,
            mates,
            alloc,
        })
    }

    /// Adds the next level: what the derivation step gave of the level before, or of the axiom.
    ///
    /// # Errors
    ///
    /// Out of memory. The revision is of no use then.
    pub fn add_level(&mut self, level: Level) -> Result<(), AllocError>
        requires { CanAdd self.old level }
        ensures added { OnOk result (GrowsByLevel level self.old self.new) }
        ensures olds { self.new.old_lines ≡ self.old.old_lines }
        ensures above { OnOk result ((row : List Spotted) × (self.new.view ≡ self.old.view ++ row ∷ [])) }
    {
        let none = Ancestry {
            origins: Vec::new(self.alloc),
            tags: Vec::new(self.alloc),
        };
        let old = next_line(self.olds, self.ancestries.as_slice(), &none);
        let tags = self.name(old, level.origins.as_slice())?;
        self.keep(level, tags)
    }

    // Pairs the symbols of the next level, which have these origins, with those of an old one. Returns their tags.
    fn name(&mut self, old: &Ancestry, origins: &[Origin]) -> Result<Vec<Tag>, AllocError>
        requires parents { All (λ o. o.parent < length self.old.mates) origins.now }
        requires few { length (line_of old.now).origins < 2 ^ 32 }
        requires tags { length (line_of old.now).tags ≡ length (line_of old.now).origins }
        requires room { tags_held self.old.supply + length origins.now < 2 ^ 32 }
        ensures named { IfOk result (λ tags. NamesBeside (line_of old.now) origins.now self tags.items) }
        ensures rest { self.new ≡ record self.old { supply = self.new.supply; mates = self.new.mates } }
    {
        self.mates = pair(
            self.alloc,
            old.origins.as_slice(),
            origins,
            self.mates.as_slice(),
        )?;
        self.supply
            .name_level(self.alloc, self.mates.as_slice(), old.tags.as_slice())
    }

    // Keeps the next level, whose symbols have these tags.
    fn keep(&mut self, level: Level, tags: Vec<Tag>) -> Result<(), AllocError>
        requires tags { length tags.items ≡ length level.symbols }
        requires keys { length level.keys.items ≡ length level.symbols }
        requires balance { balanced 0 (string_of level.symbols) ≡ true }
        requires whole { has_cut level.symbols ≡ false }
        requires own { HasOwnTags (with_next_level level tags.items self.old).view }
        ensures kept { OnOk result (self.new ≡ with_next_level level tags.items self.old) }
        ensures olds { self.new.old_lines ≡ self.old.old_lines }
    {
        let copy = copy_of(self.alloc, tags.as_slice())?;
        self.view.push_level(level.symbols, copy, level.keys)?;
        self.ancestries.push(Ancestry {
            origins: level.origins,
            tags,
        })?;
        Ok(())
    }

    /// The new levels.
    pub fn view(&self) -> &FlatLevels
        ensures { result.now ≡ self.now.view }
    {
        &self.view
    }

    /// For each symbol of the last new level the place of the old symbol of its lineage, where there is one.
    pub fn mates(&self) -> &[Option<u32>]
        ensures { result.now ≡ self.now.mates }
    {
        self.mates.as_slice()
    }

    /// The new levels, with what is kept beside their symbols.
    pub fn finish(self) -> (FlatLevels, Vec<Ancestry>)
        ensures view { result.0 ≡ self.entry.view }
        ensures lines { map line_of result.1.items ≡ self.entry.lines }
    {
        (self.view, self.ancestries)
    }
}

// The old level beside the next one of those that were made, or the empty one where there are no more.
fn next_line<'b>(old: &'b [Ancestry], made: &[Ancestry], none: &'b Ancestry) -> &'b Ancestry
    requires { line_of none.now ≡ no_line }
    ensures { line_of result.now ≡ slice_index_or (map line_of old.now) (length made.now) no_line }
{
    match old.get(made.len()) {
        Some(line) => line,
        None => none,
    }
}

fn copy_of(alloc: Global, tags: &[Tag]) -> Result<Vec<Tag>, AllocError>
    ensures { IfOk result (λ copy. copy.items ≡ tags.now) }
{
    let mut copy = Vec::with_capacity(alloc, tags.len())?;
    copy.extend_from_slice(tags)?;
    Ok(copy)
}
