//! The way along a level.
ghost use Rattle.std.specs.Prelude.{◌≡◌, ◌<◌, ◌≤◌, ◌+◌, [], map, length};
ghost use Rattle.lsys_syntax.specs.Limits.{most_image_symbols};
ghost use Rattle.lsys_bodies.specs.Views.{homomorphism_of};
ghost use Rattle.lsys_level.specs.Views.{HasFewParams, seen_of};
ghost use Rattle.lsys_level.specs.Spots.{spots_at, with_lineage};
ghost use Rattle.lsys_hom.specs.Coming.{modules_after};
ghost use Rattle.lsys_hom.specs.Looks.{IsKeptLook};
ghost use Rattle.lsys_hom.specs.Parts.{IsPartOf};
ghost use Rattle.lsys_hom.specs.Ways.{IsSoundPartIfAny, IsNextPart, IsSymbolPassed, is_empty_part, coming_by};

use crate::look::{Glance, look_of};
use crate::part::Part;
use crate::refusal::ImageRefusal;
use lsys_bodies::HomRule;
use lsys_level::{LevelView, Sight};
use lsys_module::Symbol;
use std::marker::Model;

/// The greatest number of symbols that an image may have.
const MOST_SYMBOLS: u32 = 1_000_000;

/// The way along a level, from left to right. Contracts see what is still to come of the level's image, and how many symbols of the
/// level are left. It takes no memory.
#[derive(Drop)]
pub struct Walk<'a, W: LevelView> {
    view: &'a W,
    rules: &'a [HomRule],
    /// Where the next symbol stands.
    spot: Option<W::Spot>,
    /// How many modules of the level stand before it.
    modules: u32,
    /// How many symbols their images and those of the brackets have.
    symbols: u32,
}

impl<'a, W: LevelView> Model for Walk<'a, W> {
    ghost use Rattle.std.specs.Prelude.{map};
    ghost use Rattle.lsys_bodies.specs.Views.{homomorphism_of};
    ghost use Rattle.lsys_hom.specs.Ways.{LevelWay, CanCountOn, at, way_from};

    ghost Value = { LevelWay };

    ghost view = { λ a. way_from (map homomorphism_of a.rules.now) a.modules a.symbols (W.levels a.view.now)
        (at (W.level_of a.view.now) (W.place_of a.view.now) a.spot) };

    ghost invariant = { λ a. CanCountOn a.modules a.symbols (W.levels a.view.now)
        (at (W.level_of a.view.now) (W.place_of a.view.now) a.spot) };
}

impl<'a, W: LevelView> Walk<'a, W> {
    /// At the left end of a level. A level has at most `u32::MAX` symbols, as each level within a limit has.
    pub fn new(view: &'a W, rules: &'a [HomRule], level: u32) -> Walk<'a, W>
        requires level { level < length (W.levels view.now) }
        requires few { length (spots_at (W.levels view.now) level) ≤ u32.MAX }
        ensures { result.coming ≡ coming_by rules.now (spots_at (W.levels view.now) level) }
    {
        Walk {
            view,
            rules,
            spot: view.first(level),
            modules: 0,
            symbols: 0,
        }
    }

    /// Where no rules are, passes one symbol of the level, which is its own image, and answers what is looked at of it. None where
    /// none is left, there are rules, or the image has as many symbols as it may have: then none is passed.
    pub(crate) fn pass_kept(&mut self) -> Option<Glance>
        ensures { IsKeptLook self.old.coming self.new.coming result }
    {
        let Some(spot) = self.spot else {
            return None;
        };
        if !self.rules.is_empty() || self.symbols >= MOST_SYMBOLS {
            return None;
        }
        let view = self.view;
        let sight = view.sight(spot);
        self.modules = modules_after(self.modules, &sight);
        self.symbols += 1;
        self.spot = view.right(spot);
        Some(look_of(sight))
    }

    /// Passes symbols of the level up to one whose image isn't empty, and tells it; None at the level's end.
    ///
    /// # Errors
    ///
    /// The refusal of the symbol that is next. It isn't passed.
    pub(crate) fn next_part(&mut self) -> Result<Option<Part<'a>>, ImageRefusal>
        ensures { IsNextPart self.old.coming self.new.coming result }
    {
        loop {
            let passed = self.pass();
            if !is_empty(&passed) {
                return passed;
            }
        }
    }

    /// Passes one symbol of the level, and tells its image; None at the level's end.
    ///
    /// # Errors
    ///
    /// The symbol's refusal of the image. It isn't passed.
    pub fn pass(&mut self) -> Result<Option<Part<'a>>, ImageRefusal>
        ensures { IsSymbolPassed self.old self.new result }
    {
        let Some(spot) = self.spot else {
            return Ok(None);
        };
        let view = self.view;
        let sight = view.sight(spot);
        let modules = modules_after(self.modules, &sight);
        match part_of(self.rules, sight, self.modules, self.symbols) {
            Err(refusal) => Err(refusal),
            Ok(part) => {
                self.spot = view.right(spot);
                self.modules = modules;
                self.symbols += part.len() as u32;
                Ok(Some(part))
            }
        }
    }
}

/// A symbol of the level was passed whose image is empty.
fn is_empty(passed: &Result<Option<Part<'_>>, ImageRefusal>) -> bool
    requires { IsSoundPartIfAny passed.now }
    ensures { result ≡ is_empty_part passed.now }
{
    match passed {
        Ok(Some(part)) => part.len() == 0,
        _ => false,
    }
}

/// How many modules there are up to a symbol, where so many stand before it.
fn modules_after(modules: u32, sight: &Sight<'_>) -> u32
    requires { modules < u32.MAX }
    ensures { result ≡ modules_after modules (with_lineage [] (seen_of sight.now)) }
{
    match sight {
        Sight::Module { .. } => modules + 1,
        _ => modules,
    }
}

/// The image of a symbol of the level, where so many modules of the level and so many symbols of the image stand before.
///
/// # Errors
///
/// The module's fault, or the limit, which comes after it.
pub fn part_of<'a>(
    rules: &'a [HomRule],
    sight: Sight<'a>,
    modules: u32,
    symbols: u32,
) -> Result<Part<'a>, ImageRefusal>
    requires few { HasFewParams sight }
    requires modules { modules < u32.MAX }
    requires symbols { symbols ≤ most_image_symbols }
    ensures { IsPartOf rules.now modules symbols (seen_of sight.entry) result }
{
    let part = match sight {
        Sight::Push => Part::Single(Symbol::Push),
        Sight::Pop => Part::Single(Symbol::Pop),
        Sight::Module { name, params } => match Part::of_module(rules, name, params) {
            Ok(part) => part,
            Err(kind) => {
                return Err(ImageRefusal::Arith {
                    kind,
                    module: modules + 1,
                });
            }
        },
    };
    if part.len() > (MOST_SYMBOLS - symbols) as usize {
        return Err(ImageRefusal::Limit);
    }
    Ok(part)
}
