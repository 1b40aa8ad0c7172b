//! Levels, walked from end to end.
ghost use Rattle.std.specs.Prelude.{◌≡◌, ◌<◌, drop, length, true, false};
ghost use Rattle.lsys_syntax.specs.Strings.{balanced};
ghost use Rattle.lsys_text.specs.Texts.{IsNameBytes};
ghost use Rattle.lsys_module.specs.Views.{string_of};
ghost use Rattle.lsys_level.specs.Spots.{IsSpot};
ghost use Rattle.lsys_level.specs.Places.{has_cut};

use lsys_level::{LevelView, Sight};
use lsys_module::{Module, Params, Symbol};
use lsys_text::Name;
use std::alloc::Global;
use std::process::Abort;

/// A module without parameters.
pub(crate) fn letter(text: &[u8]) -> Module
    requires { IsNameBytes text.now }
{
    Module {
        name: Name::from_text(text),
        params: Params::of(&[]),
    }
}

/// `ABC[DE][SG[HI[JK]L]MNO]`
pub(crate) fn contexts_that_skip() -> [Symbol; 23]
    ensures balance { balanced 0 (string_of result) ≡ true }
    ensures after_first { balanced 0 (string_of (drop 1 result)) ≡ true }
    ensures whole { has_cut result ≡ false }
{
    [
        Symbol::Module(letter(b"A")),
        Symbol::Module(letter(b"B")),
        Symbol::Module(letter(b"C")),
        Symbol::Push,
        Symbol::Module(letter(b"D")),
        Symbol::Module(letter(b"E")),
        Symbol::Pop,
        Symbol::Push,
        Symbol::Module(letter(b"S")),
        Symbol::Module(letter(b"G")),
        Symbol::Push,
        Symbol::Module(letter(b"H")),
        Symbol::Module(letter(b"I")),
        Symbol::Push,
        Symbol::Module(letter(b"J")),
        Symbol::Module(letter(b"K")),
        Symbol::Pop,
        Symbol::Module(letter(b"L")),
        Symbol::Pop,
        Symbol::Module(letter(b"M")),
        Symbol::Module(letter(b"N")),
        Symbol::Module(letter(b"O")),
        Symbol::Pop,
    ]
}

/// The tags of a level from the left to the right, each after it that of its mate (a module has its own); and then the
/// tags from the right to the left.
pub(crate) fn walk<W: LevelView>(rt: &impl Abort, alloc: Global, view: &W, level: u32) -> Vec<u32>
    requires { level < length (W.levels view.now) }
{
    let mut read = Vec::new(alloc);
    let mut at = view.first(level);
    let mut last = None;
    while let Some(spot) = at {
        let tags = [view.tag(spot).0, view.tag(mate_of(view, spot)).0];
        read.extend_from_slice(&tags).expect(rt, "memory");
        last = Some(spot);
        at = view.right(spot);
    }
    while let Some(spot) = last {
        read.push(view.tag(spot).0).expect(rt, "memory");
        last = view.left(spot);
    }
    read
}

/// The mate of a bracket, or a module itself.
fn mate_of<W: LevelView>(view: &W, spot: W::Spot) -> W::Spot
    requires { IsSpot (W.levels view.now) (W.level_of view.now spot) (W.place_of view.now spot) }
    ensures { IsSpot (W.levels view.now) (W.level_of view.now result) (W.place_of view.now result) }
{
    match view.sight(spot) {
        Sight::Module { .. } => spot,
        _ => view.mate(spot),
    }
}
