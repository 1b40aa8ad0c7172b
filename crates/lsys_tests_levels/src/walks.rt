//! Walks of contexts over levels as vectors: what they read, and how they end.
ghost use Rattle.std.specs.Prelude.{◌≡◌, ◌<◌, ◌+◌, ◌≤◌, length, true, false, IfSome, IsTrue};
ghost use Rattle.lsys_syntax.specs.Strings.{balanced};
ghost use Rattle.lsys_text.specs.Texts.{IsNameBytes, is_name_mark};
ghost use Rattle.lsys_module.specs.Views.{string_of};
ghost use Rattle.lsys_level.specs.Places.{has_cut};
ghost use Rattle.lsys_tests_levels.specs.Walks.{IsSpotIn};

use crate::levels::{contexts_that_skip, letter, push};
use crate::same::{is_row, is_row_at};
use lsys_bodies::{Filter, Item, Pattern};
use lsys_level::{FlatLevels, LevelView};
use lsys_module::{Module, Params, Symbol};
use lsys_reading::ListKind;
use lsys_text::Name;
use lsys_walks::{
    Counter, Entry, EntryKind, Mark, Reading, Trace, Walked, left_reads, right_reads,
};
use std::alloc::{AllocError, Global};
use std::marker::Brand;
use std::process::Abort;
use std::sync::ledger::{Blank, Ledger};

const FOUND: u32 = 0;

const MISSED: u32 = 1;

const TOO_FAR: u32 = 2;

const COMPARED: u32 = 0;

const IGNORED: u32 = 1;

const OUT: u32 = 2;

const BRANCH: u32 = 3;

/// A pattern without formals.
fn pattern(alloc: Global, text: &[u8]) -> Pattern
    requires { IsNameBytes text.now }
{
    Pattern {
        name: Name::from_text(text),
        formals: Vec::new(alloc),
    }
}

/// A mark as a module without parameters.
fn turn(mark: u8) -> Module
    requires { IsTrue (is_name_mark mark) }
{
    Module {
        name: Name::from_mark(mark),
        params: Params::of(&[]),
    }
}

/// `F_b[+F_a]F_a[-F_a]F_a[+F_a]F_a`
fn signal() -> [Symbol; 16]
    ensures balance { balanced 0 (string_of result) ≡ true }
    ensures whole { has_cut result ≡ false }
{
    [
        Symbol::Module(letter(b"F_b")),
        Symbol::Push,
        Symbol::Module(turn(b'+')),
        Symbol::Module(letter(b"F_a")),
        Symbol::Pop,
        Symbol::Module(letter(b"F_a")),
        Symbol::Push,
        Symbol::Module(turn(b'-')),
        Symbol::Module(letter(b"F_a")),
        Symbol::Pop,
        Symbol::Module(letter(b"F_a")),
        Symbol::Push,
        Symbol::Module(turn(b'+')),
        Symbol::Module(letter(b"F_a")),
        Symbol::Pop,
        Symbol::Module(letter(b"F_a")),
    ]
}

/// `S[A][B]C`
fn two_branches() -> [Symbol; 8]
    ensures balance { balanced 0 (string_of result) ≡ true }
    ensures whole { has_cut result ≡ false }
{
    [
        Symbol::Module(letter(b"S")),
        Symbol::Push,
        Symbol::Module(letter(b"A")),
        Symbol::Pop,
        Symbol::Push,
        Symbol::Module(letter(b"B")),
        Symbol::Pop,
        Symbol::Module(letter(b"C")),
    ]
}

/// Adds a module without parameters to a balanced row.
fn add_letter(rt: &impl Abort, symbols: &mut Vec<Symbol>, text: &[u8])
    requires text { IsNameBytes text.now }
    requires balance { balanced 0 (string_of symbols.old.items) ≡ true }
    requires whole { has_cut symbols.old.items ≡ false }
    ensures balance { balanced 0 (string_of symbols.new.items) ≡ true }
    ensures whole { has_cut symbols.new.items ≡ false }
    ensures longer { length symbols.new.items ≡ length symbols.old.items + 1 }
{
    symbols
        .push(Symbol::Module(letter(text)))
        .expect(rt, "memory");
}

/// `A`, so many times `B`, and `C`
fn far_apart(rt: &impl Abort, alloc: Global, between: usize) -> Vec<Symbol>
    requires { between ≤ 1024 }
    ensures balance { balanced 0 (string_of result.items) ≡ true }
    ensures whole { has_cut result.items ≡ false }
    ensures few { length result.items ≡ between + 2 }
{
    let mut symbols = Vec::new(alloc);
    add_letter(rt, &mut symbols, b"A");
    for _letter in 0..between {
        add_letter(rt, &mut symbols, b"B");
    }
    add_letter(rt, &mut symbols, b"C");
    symbols
}

/// The spot at a place of the first level.
fn spot_at<W: LevelView>(view: &W, place: usize) -> Option<W::Spot>
    requires { 0 < length (W.levels view.now) }
    ensures { IfSome result (IsSpotIn W.LevelView view.now) }
{
    let mut at = view.first(0)?;
    for _step in 0..place {
        at = view.right(at)?;
    }
    Some(at)
}

/// How a walk ended, and then the kind, the depth and the two tags of each entry.
fn told(rt: &impl Abort, alloc: Global, walked: Walked, entries: &[Entry]) -> Vec<u32> {
    let mut told = Vec::new(alloc);
    told.push(end_of(walked)).expect(rt, "memory");
    for entry in entries {
        let parts = [
            kind_of(entry.kind()),
            u32::from(entry.depth()),
            entry.tag().0,
            entry.mate().0,
        ];
        told.extend_from_slice(&parts).expect(rt, "memory");
    }
    told
}

/// How a walk ended, as a number.
fn end_of(walked: Walked) -> u32 {
    match walked {
        Walked::Found => FOUND,
        Walked::Missed => MISSED,
        Walked::TooFar => TOO_FAR,
    }
}

/// The kind of an entry, as a number.
fn kind_of(kind: EntryKind) -> u32 {
    match kind {
        EntryKind::Compared => COMPARED,
        EntryKind::Ignored => IGNORED,
        EntryKind::Out => OUT,
        EntryKind::Branch => BRANCH,
    }
}

/// The filter that passes over these names alone.
fn ignoring(names: &[Name]) -> Filter<'_> {
    Filter {
        kind: ListKind::Ignore,
        names,
    }
}

/// The filter that passes over all other names.
fn considering(names: &[Name]) -> Filter<'_> {
    Filter {
        kind: ListKind::Consider,
        names,
    }
}

/// What the left walk from a place reads.
fn left<V: Ledger>(
    rt: &impl Abort,
    alloc: Global,
    levels: &FlatLevels,
    place: usize,
    filter: Filter<'_>,
    patterns: &[Pattern],
    visited: Blank,
) -> Vec<u32>
    requires level { 0 < length levels.now }
    requires name { visited.name ≡ V.name }
    requires parts { visited.parts ≡ V.parts }
    requires some { 0 < visited.parts }
{
    let spot = spot_at(levels, place).expect(rt, "a place");
    let mut visited = Counter::<V>::open(visited);
    let old = Trace::new(alloc);
    let mut trace = Reading::beside(&old, alloc);
    let mut bound = Vec::new(alloc);
    let mark = Mark { rule: 0, depth: 0 };
    let walked = left_reads(
        levels,
        spot,
        filter,
        patterns,
        mark,
        &mut trace,
        &mut bound,
        &mut visited,
    );
    finished(rt, alloc, walked, trace)
}

/// What the right walk from a place reads.
fn right<V: Ledger>(
    rt: &impl Abort,
    alloc: Global,
    levels: &FlatLevels,
    place: usize,
    filter: Filter<'_>,
    items: &[Item],
    visited: Blank,
) -> Vec<u32>
    requires level { 0 < length levels.now }
    requires few { length items.now ≤ 16 }
    requires name { visited.name ≡ V.name }
    requires parts { visited.parts ≡ V.parts }
    requires some { 0 < visited.parts }
{
    let spot = spot_at(levels, place).expect(rt, "a place");
    let mut visited = Counter::<V>::open(visited);
    let old = Trace::new(alloc);
    let mut trace = Reading::beside(&old, alloc);
    let mut bound = Vec::new(alloc);
    let mark = Mark { rule: 0, depth: 0 };
    let walked = right_reads(
        levels,
        spot,
        filter,
        items,
        0,
        mark,
        &mut trace,
        &mut bound,
        &mut visited,
    );
    finished(rt, alloc, walked, trace)
}

/// What a walk read that ended so.
fn finished(
    rt: &impl Abort,
    alloc: Global,
    walked: Result<Walked, AllocError>,
    trace: Reading<'_>,
) -> Vec<u32> {
    let walked = walked.expect(rt, "memory");
    let trace = trace.finish().expect(rt, "memory");
    let (entries, _) = trace.parts();
    told(rt, alloc, walked, entries)
}

/// What the left walk reads from a place of a level of these symbols, whose tags are their places.
fn read_left(
    rt: &impl Abort,
    alloc: Global,
    symbols: &[Symbol],
    place: usize,
    filter: Filter<'_>,
    patterns: &[Pattern],
) -> Vec<u32>
    requires balance { balanced 0 (string_of symbols.now) ≡ true }
    requires whole { has_cut symbols.now ≡ false }
    requires few { length symbols.now ≤ 2000 }
{
    let mut levels = FlatLevels::new(alloc);
    push(rt, alloc, &mut levels, symbols, 0);
    left::<Brand>(rt, alloc, &levels, place, filter, patterns, Blank::new(1))
}

/// What the right walk reads from a place of a level of these symbols, whose tags are their places.
fn read_right(
    rt: &impl Abort,
    alloc: Global,
    symbols: &[Symbol],
    place: usize,
    filter: Filter<'_>,
    items: &[Item],
) -> Vec<u32>
    requires balance { balanced 0 (string_of symbols.now) ≡ true }
    requires whole { has_cut symbols.now ≡ false }
    requires few { length symbols.now ≤ 2000 }
    requires items { length items.now ≤ 16 }
{
    let mut levels = FlatLevels::new(alloc);
    push(rt, alloc, &mut levels, symbols, 0);
    right::<Brand>(rt, alloc, &levels, place, filter, items, Blank::new(1))
}

/// `BC < S > G[H]M` at the `S` of `ABC[DE][SG[HI[JK]L]MNO]`
#[test]
fn contexts_skip_branches(rt: HostRuntime) {
    skips_on_the_left(&rt, rt.alloc());
    skips_on_the_right(&rt, rt.alloc());
}

/// `BC < S` there
fn skips_on_the_left(rt: &impl Abort, alloc: Global) {
    let patterns = [pattern(alloc, b"B"), pattern(alloc, b"C")];
    let symbols = contexts_that_skip();
    let read = read_left(rt, alloc, &symbols, 8, ignoring(&[]), &patterns);
    let want = [
        FOUND, OUT, 0, 7, 0, BRANCH, 0, 3, 6, COMPARED, 0, 2, 0, COMPARED, 0, 1, 0,
    ];
    is_row(rt, read.as_slice(), &want);
}

/// `S > G[H]M` there
fn skips_on_the_right(rt: &impl Abort, alloc: Global) {
    let items = [
        Item::Pattern(pattern(alloc, b"G")),
        Item::Push,
        Item::Pattern(pattern(alloc, b"H")),
        Item::Pop,
        Item::Pattern(pattern(alloc, b"M")),
    ];
    let symbols = contexts_that_skip();
    let read = read_right(rt, alloc, &symbols, 8, ignoring(&[]), &items);
    let want = [
        FOUND, COMPARED, 0, 9, 0, BRANCH, 0, 10, 18, COMPARED, 1, 11, 0, COMPARED, 0, 19, 0,
    ];
    is_row(rt, read.as_slice(), &want);
}

/// `F_b <` at the `F_a` of a level, where `+` and `-` are ignored, or where only `F_a` and `F_b` are considered: the first two
/// are reached, the next two are not.
#[test]
fn a_signal_is_read_past_ignored_modules(rt: HostRuntime) {
    let alloc = rt.alloc();
    let out = [FOUND, IGNORED, 0, 2, 0, OUT, 0, 1, 0, COMPARED, 0, 0, 0];
    is_read_at(&rt, alloc, 3, &out);
    let passed = [FOUND, BRANCH, 0, 1, 4, COMPARED, 0, 0, 0];
    is_read_at(&rt, alloc, 5, &passed);
    let out = [MISSED, IGNORED, 0, 7, 0, OUT, 0, 6, 0, COMPARED, 0, 5, 0];
    is_read_at(&rt, alloc, 8, &out);
    let passed = [MISSED, BRANCH, 0, 6, 9, COMPARED, 0, 5, 0];
    is_read_at(&rt, alloc, 10, &passed);
}

/// This is read at a place of the signal, by either filter.
fn is_read_at(rt: &impl Abort, alloc: Global, place: usize, want: &[u32]) {
    let ignored = [Name::from_mark(b'+'), Name::from_mark(b'-')];
    is_read_by(rt, alloc, place, ignoring(&ignored), want);
    let considered = [Name::from_text(b"F_a"), Name::from_text(b"F_b")];
    is_read_by(rt, alloc, place, considering(&considered), want);
}

/// This is read at a place of the signal, by this filter.
fn is_read_by(rt: &impl Abort, alloc: Global, place: usize, filter: Filter<'_>, want: &[u32]) {
    let patterns = [pattern(alloc, b"F_b")];
    let read = read_left(rt, alloc, &signal(), place, filter, &patterns);
    is_row_at(rt, read.as_slice(), want, place);
}

/// `S > [B]C` at the `S` of `S[A][B]C`
#[test]
fn a_second_branch_is_tried(rt: HostRuntime) {
    let alloc = rt.alloc();
    let items = [
        Item::Push,
        Item::Pattern(pattern(alloc, b"B")),
        Item::Pop,
        Item::Pattern(pattern(alloc, b"C")),
    ];
    let read = read_right(&rt, alloc, &two_branches(), 0, ignoring(&[]), &items);
    let want = [
        FOUND, BRANCH, 0, 1, 3, COMPARED, 1, 2, 0, BRANCH, 0, 4, 6, COMPARED, 1, 5, 0, COMPARED, 0,
        7, 0,
    ];
    is_row(&rt, read.as_slice(), &want);
}

/// `A > C` where `B` is ignored: the 1,024th entry matches, and the 1,025th would.
#[test]
fn the_1025th_entry_is_too_far(rt: HostRuntime) {
    is_read_after(&rt, rt.alloc(), 1023, FOUND, 1 + 4 * 1024);
    is_read_after(&rt, rt.alloc(), 1024, TOO_FAR, 1 + 4 * 1025);
}

/// A walk past so many modules ends so, and as much is told of it.
fn is_read_after(rt: &impl Abort, alloc: Global, between: usize, end: u32, count: usize)
    requires { between ≤ 1024 }
{
    let ignored = [Name::from_text(b"B")];
    let items = [Item::Pattern(pattern(alloc, b"C"))];
    let symbols = far_apart(rt, alloc, between);
    let read = read_right(rt, alloc, symbols.as_slice(), 0, ignoring(&ignored), &items);
    is_row_at(rt, &[read.first().copied()], &[Some(end)], between);
    is_row_at(rt, &[read.len()], &[count], between);
}
