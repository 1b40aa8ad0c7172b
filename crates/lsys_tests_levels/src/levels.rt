//! Levels as vectors, walked from end to end.
ghost use Rattle.std.specs.Prelude.{◌≡◌, ◌+◌, ◌<◌, ◌≤◌, ℕ, length, true, false, slice_get, Some};
ghost use Rattle.lsys_syntax.specs.Strings.{balanced};
ghost use Rattle.lsys_text.specs.Texts.{IsNameBytes};
ghost use Rattle.lsys_module.specs.Views.{string_of};
ghost use Rattle.lsys_level.specs.Spots.{IsSpot};
ghost use Rattle.lsys_level.specs.Tags.{HasOwnTags, HasTagsBelow};
ghost use Rattle.lsys_level.specs.Places.{has_cut};

use crate::same::{is_row, is_true};
use lsys_level::{FlatLevels, LevelView, Sight, Tag, copy_level};
use lsys_module::{Module, Params, Symbol, SymbolList};
use lsys_text::Name;
use std::alloc::Global;
use std::process::Abort;

/// A module without parameters.
pub(crate) fn letter(text: &[u8]) -> Module
    requires { IsNameBytes text.now }
{
    Module {
        name: Name::from_text(text),
        params: Params::of(&[]),
    }
}

/// `ABC[DE][SG[HI[JK]L]MNO]`
pub(crate) fn contexts_that_skip() -> [Symbol; 23]
    ensures balance { balanced 0 (string_of result) ≡ true }
    ensures whole { has_cut result ≡ false }
{
    [
        Symbol::Module(letter(b"A")),
        Symbol::Module(letter(b"B")),
        Symbol::Module(letter(b"C")),
        Symbol::Push,
        Symbol::Module(letter(b"D")),
        Symbol::Module(letter(b"E")),
        Symbol::Pop,
        Symbol::Push,
        Symbol::Module(letter(b"S")),
        Symbol::Module(letter(b"G")),
        Symbol::Push,
        Symbol::Module(letter(b"H")),
        Symbol::Module(letter(b"I")),
        Symbol::Push,
        Symbol::Module(letter(b"J")),
        Symbol::Module(letter(b"K")),
        Symbol::Pop,
        Symbol::Module(letter(b"L")),
        Symbol::Pop,
        Symbol::Module(letter(b"M")),
        Symbol::Module(letter(b"N")),
        Symbol::Module(letter(b"O")),
        Symbol::Pop,
    ]
}

/// Pushes a level of these symbols. Tags run on from the first, and keys from 100.
pub(crate) fn push(
    rt: &impl Abort,
    alloc: Global,
    levels: &mut FlatLevels,
    symbols: &[Symbol],
    first: u32,
)
    requires balance { balanced 0 (string_of symbols.now) ≡ true }
    requires whole { has_cut symbols.now ≡ false }
    requires few { first + length symbols.now ≤ 2000 }
    requires own { HasOwnTags levels.old }
    requires below { HasTagsBelow first levels.old }
    ensures one { length levels.new ≡ length levels.old + 1 }
    ensures own { HasOwnTags levels.new }
    ensures below { HasTagsBelow (first + length symbols.now) levels.new }
{
    let mut tags = Vec::new(alloc);
    let mut keys = Vec::new(alloc);
    for at in 0..symbols.len() {
        tags.push(Tag(first + at as u32)).expect(rt, "memory");
        keys.push(100 + at as u64).expect(rt, "memory");
    }
    let list = list_of(rt, alloc, symbols);
    levels.push_level(list, tags, keys).expect(rt, "memory");
}

/// These symbols as a list.
fn list_of(rt: &impl Abort, alloc: Global, symbols: &[Symbol]) -> SymbolList
    ensures { result ≡ symbols.now }
{
    let mut list = SymbolList::new(alloc);
    for symbol in symbols {
        list.push(*symbol).expect(rt, "memory");
    }
    list
}

/// The tags of a level from the left to the right, each after it that of its mate (a module has its own); and then the
/// tags from the right to the left.
fn walk<W: LevelView>(rt: &impl Abort, alloc: Global, view: &W, level: u32) -> Vec<u32>
    requires { level < length (W.levels view.now) }
{
    let mut read = Vec::new(alloc);
    let mut at = view.first(level);
    let mut last = None;
    while let Some(spot) = at {
        read.push(view.tag(spot).0).expect(rt, "memory");
        let mate = mate_of(view, spot);
        read.push(view.tag(mate).0).expect(rt, "memory");
        last = Some(spot);
        at = view.right(spot);
    }
    while let Some(spot) = last {
        read.push(view.tag(spot).0).expect(rt, "memory");
        last = view.left(spot);
    }
    read
}

/// The mate of a bracket, or a module itself.
fn mate_of<W: LevelView>(view: &W, spot: W::Spot) -> W::Spot
    requires { IsSpot (W.levels view.now) (W.level_of view.now spot) (W.place_of view.now spot) }
    ensures { IsSpot (W.levels view.now) (W.level_of view.now result) (W.place_of view.now result) }
{
    match view.sight(spot) {
        Sight::Module { .. } => spot,
        _ => view.mate(spot),
    }
}

/// The parameters of the modules of a level, each module's followed by its key.
fn parameters<W: LevelView>(rt: &impl Abort, alloc: Global, view: &W, level: u32) -> Vec<i64>
    requires { level < length (W.levels view.now) }
{
    let mut read = Vec::new(alloc);
    let mut at = view.first(level);
    while let Some(spot) = at {
        read.extend_from_slice(params_at(view, spot))
            .expect(rt, "memory");
        let key = view.key(spot) % 1000;
        read.push(key as i64).expect(rt, "memory");
        at = view.right(spot);
    }
    read
}

/// The parameters of a module; none of a bracket.
fn params_at<W: LevelView>(view: &W, spot: W::Spot) -> &[i64]
    requires { IsSpot (W.levels view.now) (W.level_of view.now spot) (W.place_of view.now spot) }
{
    match view.sight(spot) {
        Sight::Module { params, .. } => params,
        _ => &[],
    }
}

/// The tags of a level of `ABC[DE][SG[HI[JK]L]MNO]` from the left to the right, each after it that of its mate; and then all
/// from the right to the left. Each is its symbol's place.
const WALKED: [u32; 69] = [
    0, 0, 1, 1, 2, 2, 3, 6, 4, 4, 5, 5, 6, 3, 7, 22, 8, 8, 9, 9, 10, 18, 11, 11, 12, 12, 13, 16,
    14, 14, 15, 15, 16, 13, 17, 17, 18, 10, 19, 19, 20, 20, 21, 21, 22, 7, 22, 21, 20, 19, 18, 17,
    16, 15, 14, 13, 12, 11, 10, 9, 8, 7, 6, 5, 4, 3, 2, 1, 0,
];

#[test]
fn a_level_is_walked_both_ways_and_each_mate_is_read(rt: HostRuntime) {
    let mut levels = FlatLevels::new(rt.alloc());
    let symbols = contexts_that_skip();
    push(&rt, rt.alloc(), &mut levels, &symbols, 0);
    let read = walk(&rt, rt.alloc(), &levels, 0);
    is_row(&rt, read.as_slice(), &WALKED);
    let copy = copy_level(rt.alloc(), &levels, 0).expect(&rt, "memory");
    is_true(&rt, copy.symbols() == symbols.as_slice());
}

/// `F_1(-7)[F_1(1,2,3,4,5,6,7,8)]`
fn one_and_all() -> [Symbol; 4]
    ensures balance { balanced 0 (string_of result) ≡ true }
    ensures whole { has_cut result ≡ false }
{
    let name = Name::from_text(b"F_1");
    let one = Module {
        name,
        params: Params::of(&[-7]),
    };
    let all = Module {
        name,
        params: Params::of(&[1, 2, 3, 4, 5, 6, 7, 8]),
    };
    [
        Symbol::Module(one),
        Symbol::Push,
        Symbol::Module(all),
        Symbol::Pop,
    ]
}

#[test]
fn parameters_and_keys_are_read_level_by_level(rt: HostRuntime) {
    let mut levels = FlatLevels::new(rt.alloc());
    push(
        &rt,
        rt.alloc(),
        &mut levels,
        &[Symbol::Module(letter(b"A"))],
        0,
    );
    push(&rt, rt.alloc(), &mut levels, &[], 1);
    push(&rt, rt.alloc(), &mut levels, &one_and_all(), 1);
    have_parameters(&rt, rt.alloc(), &levels, 0, &[100]);
    have_parameters(&rt, rt.alloc(), &levels, 1, &[]);
    let want = [-7, 100, 101, 1, 2, 3, 4, 5, 6, 7, 8, 102, 103];
    have_parameters(&rt, rt.alloc(), &levels, 2, &want);
}

/// The modules of a level have these parameters, each module's followed by its key.
fn have_parameters(rt: &impl Abort, alloc: Global, levels: &FlatLevels, level: u32, want: &[i64])
    requires { level < length levels.now }
{
    is_row(rt, parameters(rt, alloc, levels, level).as_slice(), want);
}
